//! Why a log or a list of vectors is refused.

ghost use Rattle.std.specs.Prelude.{◌≡◌};
ghost use Rattle.diagnose.specs.declared.fault.LogFault.TheVariants as log_fault;

use std::alloc::AllocError;
use thiserror::Error;

/// Which rule a line breaks.
#[derive(Clone, Copy, Debug, PartialEq, Eq)]
pub enum LogKind {
    /// The line doesn't have the form of its kind of text, or has no LF.
    Syntax,
    /// The number isn't that of a pattern that may come next, or all patterns have had their line.
    Order,
    /// The line has another number of bits.
    Width,
    /// The log ends before the last pattern.
    Missing,
    /// The line has the first byte beyond the limit.
    TooLong,
}

/// Memory is missing, or a line breaks a rule: which rule, and the number of the line, counted from 1.
#[derive(Debug, Drop, Error)]
pub enum LogFault {
    #[error("out of memory")]
    NoMemory,
    #[error("line {1} breaks a rule")]
    At(LogKind, u64),
}

impl From<AllocError> for LogFault {
    ghost from_gives = { λ _ e. e ≡ log_fault.NoMemory };

    fn from(_: AllocError) -> Self {
        LogFault::NoMemory
    }
}
