//! Why a chain wasn't followed to its end.

ghost use Rattle.std.specs.Prelude.{◌≡◌};
ghost use Rattle.refute_check.specs.declared.refusal.ChainFault.TheVariants as chain;

use crate::clause::NoPivot;
use std::alloc::AllocError;
use thiserror::Error;

/// Why a chain wasn't followed to its end: a step can't be made, or memory is missing.
#[derive(Debug, Drop, Error)]
pub enum ChainFault {
    #[error("no clause has the number")]
    NoSuchClause,
    #[error("the clauses can't be resolved at the pivot")]
    NoPivot,
    #[error("out of memory")]
    NoMemory,
}

impl From<NoPivot> for ChainFault {
    ghost from_gives = { λ _ e. e ≡ chain.NoPivot };

    fn from(_: NoPivot) -> Self {
        ChainFault::NoPivot
    }
}

impl From<AllocError> for ChainFault {
    ghost from_gives = { λ _ e. e ≡ chain.NoMemory };

    fn from(_: AllocError) -> Self {
        ChainFault::NoMemory
    }
}
