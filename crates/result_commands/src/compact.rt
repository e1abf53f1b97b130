//! The command `compact`: makes from a result for a netlist a result without the patterns that its classes don't need.

ghost use Rattle.std.specs.Prelude.{ℕ, List, [], ◌∷◌};
ghost use Rattle.result_commands.specs.Compactions.{IsMadeThin};
ghost use Rattle.result_commands.specs.Plans.{compact_plan};
ghost use Rattle.run_steps.specs.Plans.{makes_file, with_result};
ghost use Rattle.run_steps.specs.Ran.{Follows, result_endings};

use crate::texts::dropped_text;
use compact_tests::compact_subject;
use diag_shelf::Shelf;
use fault_collapse::Subject;
use run_steps::{RunFault, read_design, read_whole_result, save};
use std::alloc::Global;

/// Reads and judges the netlist `bench` and then the result `results`, writes what is left of the result to the file
/// `output`, which may be that of the result, and prints what that amounts to and how many patterns were dropped.
/// Returns errors as `generate_file` does.
pub fn compact_result<S: Shelf>(
    alloc: Global,
    shelf: &mut S,
    bench: &str,
    results: &str,
    output: &str,
) -> Result<(), RunFault>
    ensures { Follows (compact_plan bench.now results.now output.now) result_endings (output.now ∷ []) result (S.state shelf.old) (S.state shelf.new) }
{
    let design = read_design(alloc, shelf, bench)?;
    let subject = Subject::new(alloc, &design.circuit)?;
    compact_for(alloc, shelf, &subject, results, output)
}

// Reads and judges the result for a circuit, and writes what is left of it.
fn compact_for<S: Shelf>(
    alloc: Global,
    shelf: &mut S,
    subject: &Subject,
    results: &str,
    output: &str,
) -> Result<(), RunFault>
    ensures { Follows (with_result results.now subject.now (λ (file : List ℕ). makes_file output.now (IsMadeThin subject.now file))) result_endings (output.now ∷ []) result (S.state shelf.old) (S.state shelf.new) }
{
    let whole = read_whole_result(alloc, shelf, subject, results)?;
    let thin = compact_subject(alloc, subject, &whole.checked, &whole.bytes)?;
    let text = dropped_text(alloc, thin.summary, thin.dropped)?;
    save(shelf, output, thin.text.as_slice(), text.as_bytes())
}
