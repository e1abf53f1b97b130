//! Why the check of a result file refuses it.

ghost use Rattle.std.specs.Prelude.{◌≡◌};
ghost use Rattle.dia_check.specs.Faults.{file_fault};
ghost use Rattle.dia_check.specs.declared.answer.FileFault.TheVariants as file;

use diag_shelf::ShelfFault;
use result_file::ResultFault;
use std::alloc::AllocError;
use thiserror::Error;

/// Why a file wasn't accepted.
#[derive(Clone, Copy, Debug, PartialEq, Eq, Error)]
pub enum FileFault {
    /// The file isn't a valid result: the kind and the line of the first line that breaks a rule or goes beyond the
    /// limit.
    #[error("the result isn't valid")]
    Result(ResultFault),
    /// A read of the shelf failed.
    #[error("a file failed")]
    Failed,
    #[error("out of memory")]
    NoMemory,
}

impl From<ShelfFault> for FileFault {
    ghost from_gives = { λ fault e. e ≡ file_fault fault };

    fn from(fault: ShelfFault) -> Self {
        match fault {
            ShelfFault::Failed => FileFault::Failed,
            ShelfFault::NoMemory => FileFault::NoMemory,
        }
    }
}

impl From<AllocError> for FileFault {
    ghost from_gives = { λ _ e. e ≡ file.NoMemory };

    fn from(_: AllocError) -> Self {
        FileFault::NoMemory
    }
}
