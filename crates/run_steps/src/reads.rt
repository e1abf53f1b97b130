//! Reads a file up to the limit of its kind, and judges it by a call that `read_judged` is given. `BytesFault` is what
//! the console says of a fault.

ghost use Rattle.std.specs.Prelude.{◌≡◌, ℕ, List, Option, Some, IfErr, IfOk};
ghost use Rattle.run_steps.specs.Limits.{limit_of};
ghost use Rattle.run_steps.specs.Steps.{AcceptsSome, AcceptsFile, RefusesFile, IsSaid, WasAccepted, IsOver};

use crate::ending::{FileKind, RunFault};
use crate::ends::{read_file, refuse};
use diag_shelf::Shelf;
use std::alloc::{AllocError, Global};

/// Why bytes aren't accepted: they are refused, or memory is missing.
pub(crate) trait BytesFault {
    /// What the console says of the fault, if it is a refusal.
    ghost said: { Self → Option (List ℕ) };

    /// Returns the text for the console. Returns `AllocError` if memory is missing, or if the fault isn't a refusal.
    fn text(self, alloc: Global) -> Result<Vec<u8>, AllocError>
        ensures { IfOk result (λ text. said self ≡ Some text.items) };
}

/// Reads the file `name` up to one byte past the limit of its `kind`, and judges it by `judge`. If `judge` refuses the
/// file, the console says why, and the run is over; it is over too if the file can't be read.
pub(crate) fn read_judged<S: Shelf, T, E: BytesFault, F: FnOnce(&[u8]) -> Result<T, E>>(
    alloc: Global,
    shelf: &mut S,
    name: &str,
    kind: FileKind,
    judge: F,
) -> Result<T, RunFault>
    requires { F.IsAlwaysCallable judge }
    ensures judged { IfOk result (AcceptsSome (F.post judge)) }
    ensures ok { IfOk result (λ thing. WasAccepted name.now kind (AcceptsFile (F.post judge) (limit_of kind)) thing (S.state shelf.old) (S.state shelf.new)) }
    ensures err { IfErr result (λ why. IsOver name.now kind (RefusesFile (F.post judge) E.said (limit_of kind)) why (S.state shelf.old) (S.state shelf.new)) }
{
    let bytes = read_file(alloc, shelf, name, kind)?;
    match judge(&bytes) {
        Ok(thing) => Ok(thing),
        Err(fault) => Err(say_fault(alloc, shelf, kind, fault)),
    }
}

/// Prints the text of `fault`, for which a file of this `kind` is refused. Returns why the run is over: the refusal, or
/// why it couldn't be printed.
pub(crate) fn say_fault<S: Shelf, E: BytesFault>(
    alloc: Global,
    shelf: &mut S,
    kind: FileKind,
    fault: E,
) -> RunFault
    ensures { IsSaid (E.said fault) kind result (S.state shelf.old) (S.state shelf.new) }
{
    match fault.text(alloc) {
        Ok(text) => refuse(shelf, RunFault::Refused(kind), &text),
        Err(_) => RunFault::NoMemory,
    }
}
