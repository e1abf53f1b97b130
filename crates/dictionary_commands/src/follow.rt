//! The command `follow`: from the bytes of an adaptive plan and a log of answers to where they lead.

ghost use Rattle.std.specs.Prelude.{[]};
ghost use Rattle.dictionary_commands.specs.Plans.{follow_plan};
ghost use Rattle.run_steps.specs.Ran.{Follows, walk_endings};

use crate::texts::outcome_text;
use diag_shelf::Shelf;
use run_steps::{RunFault, read_adaptive_plan, read_walk, say};
use std::alloc::Global;

/// Reads and judges the adaptive plan `plan` and then the log `log` of answers to it, and prints where the answers
/// lead: the class that is reached, the pattern to ask next, or that the plan has no branch for an answer. Returns
/// errors as `make_dictionary` does.
pub fn follow_log<S: Shelf>(
    alloc: Global,
    shelf: &mut S,
    plan: &str,
    log: &str,
) -> Result<(), RunFault>
    ensures { Follows (follow_plan plan.now log.now) walk_endings [] result (S.state shelf.old) (S.state shelf.new) }
{
    let adaptive = read_adaptive_plan(alloc, shelf, plan)?;
    let outcome = read_walk(alloc, shelf, &adaptive, log)?;
    let text = outcome_text(alloc, outcome)?;
    say(shelf, text.as_bytes())
}
