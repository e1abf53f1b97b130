//! What the check says of a text, read in pieces of 1 and of 4,096 bytes.

ghost use Rattle.std.specs.Prelude.{◌<◌};

use dia_check::{FileFault, check};
use diag_shelf::{MemoryShelf, Shelf};
use net_model::Circuit;
use result_file::Summary;
use std::alloc::{AllocError, Global};
use std::test::Fail;

/// The counts of a valid text, or why it isn't accepted.
pub(crate) type CheckOutcome = Result<Summary, FileFault>;

// Returns what the check says of a text that is put on a shelf.
fn checked(
    alloc: Global,
    circuit: &Circuit,
    shelf: &mut MemoryShelf,
    text: &str,
) -> Result<CheckOutcome, Fail> {
    shelf.put_file("r", text.as_bytes())?;
    shelf.open_file("r")?;
    match check(alloc, circuit, shelf) {
        Ok(checked) => Ok(Ok(checked.summary)),
        Err(fault) => Ok(Err(fault)),
    }
}

// Returns what the check says of a text that is read in pieces of `chunk` bytes.
fn outcome(alloc: Global, circuit: &Circuit, text: &str, chunk: usize) -> Result<CheckOutcome, Fail>
    requires { 0 < chunk }
{
    let mut shelf = MemoryShelf::new(alloc, chunk, Vec::new(alloc));
    checked(alloc, circuit, &mut shelf, text)
}

// Returns whether the check says this of a text, both in pieces of 1 and of 4,096 bytes.
fn is_outcome(
    alloc: Global,
    circuit: &Circuit,
    text: &str,
    wanted: CheckOutcome,
) -> Result<bool, Fail> {
    Ok(
        outcome(alloc, circuit, text, 1)? == wanted
            && outcome(alloc, circuit, text, 4096)? == wanted,
    )
}

pub(crate) fn push_parts(text: &mut String, parts: &[&str]) -> Result<(), AllocError> {
    for part in parts {
        text.push_str(part)?;
    }
    Ok(())
}

/// Returns whether the check says this of a text, which is given in parts.
pub(crate) fn is_answered(
    alloc: Global,
    circuit: &Circuit,
    parts: &[&str],
    wanted: CheckOutcome,
) -> Result<bool, Fail> {
    let mut text = String::new(alloc);
    push_parts(&mut text, parts)?;
    is_outcome(alloc, circuit, text.as_str(), wanted)
}
