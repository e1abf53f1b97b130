//! The end of a run whose words ask for nothing.

ghost use Rattle.std.specs.Prelude.{Err, []};
ghost use Rattle.run_steps.specs.Plans.{words_plan, words_endings};
ghost use Rattle.run_steps.specs.Ran.{Follows};

use crate::ending::RunFault;
use crate::ends::refuse;
use diag_shelf::Shelf;

/// Prints `words: not understood` and an LF, and returns `NotUnderstood`. If the text can't be printed it returns
/// `WriteFailed`, only if the count of write faults rose, or `NoMemory` if memory is missing; then a beginning of the
/// text was printed. No file is created or changed. What is said of files and of the console holds on a shelf that
/// tells them.
#[tactic(auto, unfolding(crate::specs::Texts::not_understood_text))]
pub fn refuse_words<S: Shelf>(shelf: &mut S) -> RunFault
    ensures { Follows words_plan words_endings [] (Err result) (S.state shelf.old) (S.state shelf.new) }
{
    refuse(shelf, RunFault::NotUnderstood, b"words: not understood\n")
}
