//! Why a line is refused.

ghost use Rattle.std.specs.Prelude.{◌≡◌};
ghost use Rattle.result_records.specs.declared.fault.RecordFault.TheVariants as record_fault;

use std::alloc::AllocError;
use thiserror::Error;

/// Why a line wasn't read: it is no record, or memory is missing.
#[derive(Debug, Drop, Error)]
pub enum RecordFault {
    #[error("the line is no record")]
    Syntax,
    #[error("out of memory")]
    NoMemory,
}

impl From<AllocError> for RecordFault {
    ghost from_gives = { λ _ e. e ≡ record_fault.NoMemory };

    fn from(_: AllocError) -> Self {
        RecordFault::NoMemory
    }
}
