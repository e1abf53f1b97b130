//! The first and last steps of a run: a file is read; a text is printed, or a file made; a fault of the shelf becomes
//! the ending of the run.

ghost use Rattle.std.specs.Prelude.{◌≡◌, ◌≤◌, ◌+◌, [], ◌∷◌, Err, IfOk, IfErr, length};
ghost use Rattle.run_steps.specs.Ending.{done, IsDecided, read_fault, write_fault};
ghost use Rattle.run_steps.specs.Limits.{limit_of};
ghost use Rattle.run_steps.specs.Outcome.{said, saved, IsPartOf};
ghost use Rattle.run_steps.specs.Ran.{Ends};
ghost use Rattle.run_steps.specs.Steps.{HasReadBytes, CouldNotRead};

use crate::ending::{FileKind, RunFault, limit_of};
use diag_shelf::{Shelf, ShelfFault, print_all, read_all, write_all};
use std::alloc::Global;

/// Returns why a run ends after this fault of a read.
pub(crate) fn read_fault(fault: ShelfFault) -> RunFault
    ensures { result ≡ read_fault fault }
{
    match fault {
        ShelfFault::Failed => RunFault::ReadFailed,
        ShelfFault::NoMemory => RunFault::NoMemory,
    }
}

/// Returns why a run ends after this fault of a write.
pub fn write_fault(fault: ShelfFault) -> RunFault
    ensures { result ≡ write_fault fault }
{
    match fault {
        ShelfFault::Failed => RunFault::WriteFailed,
        ShelfFault::NoMemory => RunFault::NoMemory,
    }
}

/// Returns all bytes of the file `name`, or if it is longer than the limit of its `kind`, as many as the limit and one
/// more. If it returns an error, nothing was done but to read.
pub(crate) fn read_file<S: Shelf>(
    alloc: Global,
    shelf: &mut S,
    name: &str,
    kind: FileKind,
) -> Result<Vec<u8>, RunFault>
    ensures ok { IfOk result (λ bytes. HasReadBytes name.now kind bytes.items (S.state shelf.old) (S.state shelf.new)) }
    ensures bound { IfOk result (λ bytes. length bytes.items ≤ limit_of kind + 1) }
    ensures err { IfErr result (λ why. CouldNotRead name.now why (S.state shelf.old) (S.state shelf.new)) }
{
    read_all(alloc, shelf, name, limit_of(kind)).map_err(read_fault)
}

/// Prints `text`. Returns `WriteFailed` only if the count of write faults rose, and `NoMemory` if memory is missing;
/// then a beginning of `text` was printed. On a sure shelf no count rises. What is said of the console holds on a shelf
/// that tells it.
pub fn say<S: Shelf>(shelf: &mut S, text: &[u8]) -> Result<(), RunFault>
    ensures { Ends (said done text.now) (IsPartOf (said done text.now)) result (S.state shelf.old) (S.state shelf.new) }
{
    print_all(shelf, text).map_err(write_fault)
}

/// Prints `text`, which says `why` nothing is done. Returns `why`, or the fault of the write if `text` couldn't be
/// printed.
pub(crate) fn refuse<S: Shelf>(shelf: &mut S, why: RunFault, text: &[u8]) -> RunFault
    requires { IsDecided (Err why) }
    ensures { Ends (said (Err why) text.now) (IsPartOf (said (Err why) text.now)) (Err result) (S.state shelf.old) (S.state shelf.new) }
{
    match print_all(shelf, text) {
        Ok(()) => why,
        Err(fault) => write_fault(fault),
    }
}

/// Creates the file `name`, writes `bytes` to it, and then prints `text`. Returns `WriteFailed` only if the count of
/// write faults rose, and `NoMemory` if memory is missing; then some of this was done: of the file a beginning, and of
/// `text` a beginning, but none of it before the file is whole. On a sure shelf no count rises. What is said of the
/// file and of the console holds on a shelf that tells them.
pub fn save<S: Shelf>(shelf: &mut S, name: &str, bytes: &[u8], text: &[u8]) -> Result<(), RunFault>
    ensures { Ends (saved ((name.now, bytes.now) ∷ []) text.now) (IsPartOf (saved ((name.now, bytes.now) ∷ []) text.now)) result (S.state shelf.old) (S.state shelf.new) }
{
    shelf.create_file(name).map_err(write_fault)?;
    write_all(shelf, bytes).map_err(write_fault)?;
    say(shelf, text)
}
