//! The command `check`: judges a result for a netlist, and prints what it amounts to.

ghost use Rattle.std.specs.Prelude.{ℕ, List, []};
ghost use Rattle.result_commands.specs.Plans.{check_plan};
ghost use Rattle.run_steps.specs.Plans.{says, with_result};
ghost use Rattle.run_steps.specs.Ran.{Follows, result_endings};
ghost use Rattle.result_commands.specs.Checked.{IsValidText};

use crate::texts::valid_text;
use diag_shelf::Shelf;
use fault_collapse::Subject;
use run_steps::{RunFault, read_design, read_result, say};
use std::alloc::Global;

/// Reads and judges the netlist `bench` and then the result `results`, and prints what the result amounts to. Makes no
/// file. Returns errors as `generate_file` does.
pub fn check_result<S: Shelf>(
    alloc: Global,
    shelf: &mut S,
    bench: &str,
    results: &str,
) -> Result<(), RunFault>
    ensures { Follows (check_plan bench.now results.now) result_endings [] result (S.state shelf.old) (S.state shelf.new) }
{
    let design = read_design(alloc, shelf, bench)?;
    let subject = Subject::new(alloc, &design.circuit)?;
    check_for(alloc, shelf, &subject, results)
}

// Reads and judges the result for a circuit, and prints what a valid one amounts to.
fn check_for<S: Shelf>(
    alloc: Global,
    shelf: &mut S,
    subject: &Subject,
    results: &str,
) -> Result<(), RunFault>
    ensures { Follows (with_result results.now subject.now (λ (file : List ℕ). says (IsValidText subject.now file))) result_endings [] result (S.state shelf.old) (S.state shelf.new) }
{
    let checked = read_result(alloc, shelf, subject, results)?;
    let text = valid_text(alloc, checked.summary)?;
    say(shelf, text.as_bytes())
}
