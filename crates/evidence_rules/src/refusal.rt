//! What evidence is to show, and why it is refused.

ghost use Rattle.std.specs.Prelude.{◌≡◌};
ghost use Rattle.evidence_rules.specs.declared.refusal.CheckFault.TheVariants as check;

use std::alloc::AllocError;
use thiserror::Error;

/// What evidence is to show: a covering tree, a refutation, or a spent budget.
#[derive(Clone, Copy, Debug, PartialEq, Eq)]
pub enum EvidenceKind {
    Covered,
    Refuted,
    Spent,
}

/// The rule that a token, a chain, or their number breaks.
#[derive(Clone, Copy, Debug, PartialEq, Eq)]
pub enum RefusalKind {
    /// No clause has the number that the chain names.
    NoSuchClause,
    /// The pivot isn't in the clause so far, or its opposite isn't in the named one.
    NoPivot,
    /// A refutation's last chain doesn't end in the empty clause.
    NotEmpty,
    /// A chain other than a refutation's last one ends in the empty clause.
    EmptyEarly,
    /// A chain of a spent log names no literal at which the clause that it ends in is fresh.
    NotFresh,
    /// The cube of a closed leaf isn't all same.
    LeafOpen,
    /// A split isn't of a relevant free source or its cube is decided, a token comes after the whole tree, or the tree
    /// ends too early.
    BadTree,
    /// There are too many or too few closed leaves, open leaves or chains.
    WrongCount,
}

/// A broken rule, and the number of the token or chain that breaks it, counted from 0. For a wrong count, and for a
/// tree that ends too early, it is how many tokens or chains there are.
#[derive(Clone, Copy, Debug, PartialEq, Eq)]
pub struct Refusal {
    pub kind: RefusalKind,
    pub step: u64,
}

/// Why a check didn't accept evidence.
#[derive(Debug, Drop, Error)]
pub enum CheckFault {
    #[error("the evidence breaks a rule")]
    Refused(Refusal),
    #[error("out of memory")]
    NoMemory,
}

/// Returns the fault that the token or chain of number `step` breaks the rule `kind`.
pub fn refused(kind: RefusalKind, step: usize) -> CheckFault
    ensures { result ≡ CheckFault.Refused (record { kind = kind; step = step }) }
{
    CheckFault::Refused(Refusal {
        kind,
        step: step as u64,
    })
}

impl From<AllocError> for CheckFault {
    ghost from_gives = { λ _ e. e ≡ check.NoMemory };

    fn from(_: AllocError) -> Self {
        CheckFault::NoMemory
    }
}
