//! The commands `grade` and `topup`: make a result for a netlist from a list of vectors.

ghost use Rattle.std.specs.Prelude.{◌≡◌, ℕ, Bool, List, [], ◌∷◌, All, length};
ghost use Rattle.result_records.specs.Limits.{AreWithinLimits};
ghost use Rattle.run_steps.specs.Ran.{Follows, list_endings};
ghost use Rattle.run_steps.specs.Plans.{with_list};
ghost use Rattle.result_commands.specs.Plans.{top_up_plan, makes_result, IsToppedUpFile, SavesResult};

use crate::faults::broken_by;
use crate::texts::kept_text;
use dia_gen::top_up;
use diag_shelf::Shelf;
use net_model::{Circuit, Vector};
use result_file::Budgets;
use run_steps::{RunFault, read_design, read_vector_list, say};
use std::alloc::Global;

/// Reads and judges the netlist `bench` and then the list of vectors `vectors`, makes a result for the netlist's
/// circuit from the list in the file `output`, and prints what the result amounts to and how many vectors were kept.
/// Returns errors as `generate_file` does.
pub fn top_up_file<S: Shelf>(
    alloc: Global,
    shelf: &mut S,
    bench: &str,
    vectors: &str,
    output: &str,
    budgets: Budgets,
) -> Result<(), RunFault>
    requires { AreWithinLimits budgets }
    ensures { Follows (top_up_plan bench.now vectors.now output.now budgets) list_endings (output.now ∷ []) result (S.state shelf.old) (S.state shelf.new) }
{
    let design = read_design(alloc, shelf, bench)?;
    top_up_for(alloc, shelf, &design.circuit, vectors, output, budgets)
}

// Reads and judges the list of vectors for a circuit, and makes a result from it.
fn top_up_for<S: Shelf>(
    alloc: Global,
    shelf: &mut S,
    circuit: &Circuit,
    vectors: &str,
    output: &str,
    budgets: Budgets,
) -> Result<(), RunFault>
    requires { AreWithinLimits budgets }
    ensures { Follows (with_list vectors.now circuit.now (λ (list : List (List Bool)). makes_result output.now (IsToppedUpFile circuit.now list budgets) circuit.now)) list_endings (output.now ∷ []) result (S.state shelf.old) (S.state shelf.new) }
{
    let list = read_vector_list(alloc, shelf, circuit, vectors)?;
    save_topped(alloc, shelf, circuit, list.as_slice(), output, budgets)
}

// Makes a result of the circuit from a list of vectors in the file `output`, and prints what it amounts to.
fn save_topped<S: Shelf>(
    alloc: Global,
    shelf: &mut S,
    circuit: &Circuit,
    list: &[Vector],
    output: &str,
    budgets: Budgets,
) -> Result<(), RunFault>
    requires limits { AreWithinLimits budgets }
    requires widths { All (λ v. length v ≡ circuit.now.sources) list.now }
    ensures { SavesResult circuit.now (IsToppedUpFile circuit.now list.now budgets) [] output.now result (S.state shelf.old) (S.state shelf.new) }
{
    shelf.create_file(output).map_err(broken_by)?;
    let topped = top_up(alloc, circuit, list, budgets, shelf).map_err(broken_by)?;
    let text = kept_text(alloc, topped.summary, topped.kept, list.len())?;
    say(shelf, text.as_bytes())
}
