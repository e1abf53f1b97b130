//! `check_subject_text`: the check of a text in memory. Only the lines of one piece are copied at a time.

ghost use Rattle.std.specs.Prelude.{[], IfOk, OnOk, IsErrOf};
ghost use Rattle.result_file.specs.declared.fault.ResultFault.{ResultFault};
ghost use Rattle.result_file.specs.Accepted.{IsAcceptedText};
ghost use Rattle.dia_check.specs.Reader.{IsReading, IsRefusedEnd};

use crate::answer::FileFault;
use crate::checking::PIECE;
use crate::reader::Reader;
use fault_collapse::Subject;
use result_file::Checked;
use std::alloc::{AllocError, Global};

/// Checks a text against a circuit, as `check` does with the opened file. Unless memory is missing, accepts it exactly
/// if it is a valid result of at most `RESULT_LIMIT` bytes, and otherwise returns `Result` with the kind and the line
/// of the first line that breaks a rule or goes beyond the limit. If the text is longer than the limit, each file that
/// begins with it is refused in the same way. Returns `NoMemory` if memory is missing, and never `Failed`.
pub fn check_subject_text(
    alloc: Global,
    subject: &Subject,
    text: &[u8],
) -> Result<Checked, FileFault>
    ensures valid { IfOk result (IsAcceptedText subject.now text.now) }

    // If the text goes beyond the limit, each file that begins with it is refused too.
    ensures refused { (fault : ResultFault) → IsErrOf result (FileFault.Result fault) → IsRefusedEnd subject.now text.now fault }

    // No file is read.
    ensures never { ¬ IsErrOf result FileFault.Failed }
{
    let mut reader = Reader::start(alloc, subject)?;
    feed_text(alloc, subject, &mut reader, text)?;
    reader.finish(alloc, subject)
}

// Feeds the text to the reader piece by piece, so that only the lines of one piece are copied at a time.
fn feed_text(
    alloc: Global,
    subject: &Subject,
    reader: &mut Reader,
    text: &[u8],
) -> Result<(), AllocError>
    requires { IsReading subject.now [] reader.old }
    ensures { OnOk result (IsReading subject.now text.now reader.new) }
{
    let mut done = 0;
    while done < text.len() {
        let end = done + PIECE.min(text.len() - done);
        reader.feed(alloc, subject, &text[done..end])?;
        done = end;
    }
    Ok(())
}
