//! Why a netlist is refused.
ghost use Rattle.bench_reader.specs.declared.fault.NetFault.TheVariants.{NoMemory};
ghost use Rattle.std.specs.Prelude.{◌≡◌};

use net_model::Names;
use std::alloc::{AllocError, AllocFailed};
use thiserror::Error;

/// The rule of the text that is broken.
#[derive(Clone, Copy, Debug, PartialEq, Eq)]
pub enum NetKind {
    /// A byte that is allowed only in comments.
    BadByte,
    /// The statement can't go on like this, or the text ends inside it.
    Expected,
    /// A word is no gate's, or is neither `INPUT` nor `OUTPUT`.
    UnknownGate,
    /// A gate has a number of pins that it doesn't take.
    WrongPins,
    /// A name is driven again.
    DrivenTwice,
    /// A name is used, and nothing drives it.
    Undriven,
    /// The text has more than `NETLIST_LIMIT` bytes.
    TooLong,
}

/// A byte of the text, counted from 0, and its line, counted from 1.
#[derive(Clone, Copy, Debug, Default, PartialEq, Eq)]
pub struct Place {
    pub byte: u32,
    pub line: u32,
}

/// Why a netlist is refused: a rule and a place; a loop of gates, by the place of the name that its walk's first gate
/// drives and by the names along the walk; or missing memory.
#[derive(Debug, Drop, Error)]
pub enum NetFault {
    #[error("a rule of the netlist is broken")]
    At(NetKind, Place),
    #[error("the gates form a loop")]
    Loop(Place, Names),
    #[error("out of memory")]
    NoMemory,
}

impl From<AllocError> for NetFault {
    ghost from_gives = { λ _ e. e ≡ NoMemory };

    fn from(_: AllocError) -> Self {
        NetFault::NoMemory
    }
}

impl<T: Drop> From<AllocFailed<T>> for NetFault {
    ghost from_gives = { λ _ e. e ≡ NoMemory };

    fn from(_: AllocFailed<T>) -> Self {
        NetFault::NoMemory
    }
}
