//! How a run ends, and the status of each ending.

ghost use Rattle.std.specs.Prelude.{◌≡◌};
ghost use Rattle.run_steps.specs.Ending.{OneEndingEach, status_of};
ghost use Rattle.run_steps.specs.Limits.{limit_of};

use bench_reader::NETLIST_LIMIT;
use diagnose::TEXT_LIMIT;
use dict_file::DICTIONARY_LIMIT;
use result_records::RESULT_LIMIT;
use std::alloc::AllocError;

/// A kind of file that the program reads, and refuses if the file breaks a rule.
#[derive(Clone, Copy, Debug, PartialEq, Eq, Hash)]
pub enum FileKind {
    Netlist,
    Result,
    Dictionary,
    /// A log, or a list of vectors.
    Log,
    AdaptivePlan,
}

/// Returns how many bytes a file of this `kind` may have at most.
pub(crate) fn limit_of(kind: FileKind) -> u64
    ensures { result ≡ limit_of kind }
{
    match kind {
        FileKind::Netlist => NETLIST_LIMIT,
        FileKind::Result => RESULT_LIMIT,
        FileKind::Dictionary => DICTIONARY_LIMIT,
        FileKind::Log | FileKind::AdaptivePlan => TEXT_LIMIT,
    }
}

/// Why a run did not do its work.
#[derive(Clone, Copy, Debug, PartialEq, Eq, Hash)]
pub enum RunFault {
    /// The words of the command line ask for nothing.
    NotUnderstood,
    /// A file of this kind is refused.
    Refused(FileKind),
    ReadFailed,
    WriteFailed,
    NoMemory,
}

impl From<AllocError> for RunFault {
    ghost use Rattle.run_steps.specs.declared.ending.RunFault.TheVariants.{NoMemory};

    ghost from_gives = { λ _ fault. fault ≡ NoMemory };

    fn from(_: AllocError) -> Self {
        RunFault::NoMemory
    }
}

/// Returns the status with which the program exits after this ending. No other code writes a status as a number.
pub fn status_of(ending: Result<(), RunFault>) -> u8
    ensures { result ≡ status_of ending }
{
    match ending {
        Ok(()) => 0,
        Err(RunFault::NotUnderstood) => 2,
        Err(RunFault::Refused(FileKind::Netlist)) => 3,
        Err(RunFault::Refused(FileKind::Result)) => 4,
        Err(RunFault::Refused(FileKind::Dictionary)) => 5,
        Err(RunFault::Refused(FileKind::Log)) => 6,
        Err(RunFault::ReadFailed) => 7,
        Err(RunFault::WriteFailed) => 8,
        Err(RunFault::NoMemory) => 9,
        Err(RunFault::Refused(FileKind::AdaptivePlan)) => 10,
    }
}

/// Endings that have the same status are the same.
pub fn one_ending_each()
    ensures { OneEndingEach }
{}
