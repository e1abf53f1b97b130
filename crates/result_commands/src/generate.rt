//! The command `gen`: generates a result for a netlist.

ghost use Rattle.std.specs.Prelude.{[], ◌∷◌};
ghost use Rattle.result_records.specs.Limits.{AreWithinLimits};
ghost use Rattle.result_commands.specs.Plans.{SavesResult, gen_plan, IsGenerated};
ghost use Rattle.run_steps.specs.Ran.{Follows, netlist_endings};

use crate::faults::broken_by;
use crate::texts::summary_text;
use dia_gen::generate;
use diag_shelf::Shelf;
use net_model::Circuit;
use result_file::Budgets;
use run_steps::{RunFault, read_design, say};
use std::alloc::Global;

/// Reads and judges the netlist `bench`, generates a result for its circuit in the file `output`, and prints what the
/// result amounts to.
///
/// Returns `Refused` with the kind of a file exactly if a file of this kind is the first that it reads and refuses,
/// unless it returns another error; then no file was created or changed, the console gained the text of the refusal,
/// and the file is read to its end, or to one byte past the limit of its kind. Returns `ReadFailed` only if the count
/// of read faults rose; then no file was created or changed, and nothing was printed. Returns `WriteFailed` only if the
/// count of write faults rose, and `NoMemory` if memory is missing; then it did nothing, or a part of its work: files
/// that are whole, the last perhaps cut, or a beginning of right lines of a result, and a beginning of the text, none
/// before all files are there. Files other than its outputs are as before, and if a read failed it did nothing. If the
/// count of read faults is greater afterwards it returns `ReadFailed` or `NoMemory`; if that of write faults is,
/// `WriteFailed` or `NoMemory`. If it returns none of these three, the file that it read last is read to its end, or to
/// one byte past the limit of its kind. On a sure shelf that holds each file that it reads, up to the first that is
/// refused, no count rises. What is said of files and of the console holds on a shelf that tells them.
pub fn generate_file<S: Shelf>(
    alloc: Global,
    shelf: &mut S,
    bench: &str,
    output: &str,
    budgets: Budgets,
) -> Result<(), RunFault>
    requires { AreWithinLimits budgets }
    ensures { Follows (gen_plan bench.now output.now budgets) netlist_endings (output.now ∷ []) result (S.state shelf.old) (S.state shelf.new) }
{
    let design = read_design(alloc, shelf, bench)?;
    save_result(alloc, shelf, &design.circuit, output, budgets)
}

/// Generates a result of the circuit in the file `output`, and prints what it amounts to.
pub(crate) fn save_result<S: Shelf>(
    alloc: Global,
    shelf: &mut S,
    circuit: &Circuit,
    output: &str,
    budgets: Budgets,
) -> Result<(), RunFault>
    requires { AreWithinLimits budgets }
    ensures { SavesResult circuit.now (IsGenerated circuit.now budgets) [] output.now result (S.state shelf.old) (S.state shelf.new) }
{
    shelf.create_file(output).map_err(broken_by)?;
    let summary = generate(alloc, circuit, budgets, shelf).map_err(broken_by)?;
    let text = summary_text(alloc, summary)?;
    say(shelf, text.as_bytes())
}
