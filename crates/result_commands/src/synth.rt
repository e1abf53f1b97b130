//! The command `synth`: writes the netlist of a number, and a result for it.

ghost use Rattle.std.specs.Prelude.{◌≤◌, [], ◌∷◌};
ghost use Rattle.result_commands.specs.Synthesis.{synth_budgets};
ghost use Rattle.result_commands.specs.Plans.{SavesResult, synth_plan, IsGenerated};
ghost use Rattle.run_steps.specs.Ran.{Follows, written_endings};

use crate::faults::broken_by;
use crate::generate::save_result;
use bench_reader::NetFault;
use diag_shelf::{Shelf, write_all};
use net_model::Circuit;
use result_file::Budgets;
use run_steps::{RunFault, judge_netlist};
use std::alloc::Global;
use synth_netlist::{no_number_is_refused, synth_text};

// The budgets of the result.
const SYNTH_BUDGETS: Budgets = Budgets {
    blocks: 4,
    cubes: 16,
    conflicts: 100,
};

/// Judges the netlist of the number `n`, writes it to the file `bench`, generates a result for its circuit in the file
/// `output`, and prints what the result amounts to. Reads no file. Returns `WriteFailed` and `NoMemory` as
/// `generate_file` does, and no other error; without one what was left of an opened file stays.
pub fn synthesize<S: Shelf>(
    alloc: Global,
    shelf: &mut S,
    n: u32,
    bench: &str,
    output: &str,
) -> Result<(), RunFault>
    requires least { 1 ≤ n }
    requires most { n ≤ 2000 }
    ensures { Follows (synth_plan n bench.now output.now) written_endings (bench.now ∷ output.now ∷ []) result (S.state shelf.old) (S.state shelf.new) }
{
    let text = synth_text(alloc, n)?;
    no_number_is_refused();
    match judge_netlist(alloc, &text) {
        Ok(design) => save_both(alloc, shelf, &text, &design.circuit, bench, output),
        Err(NetFault::At(_, _)) => unreachable!(),
        Err(NetFault::Loop(_, _)) => unreachable!(),
        Err(NetFault::NoMemory) => Err(RunFault::NoMemory),
    }
}

// Writes the netlist's text to the file `bench`, and then a result of its circuit to the file `output`.
fn save_both<S: Shelf>(
    alloc: Global,
    shelf: &mut S,
    text: &[u8],
    circuit: &Circuit,
    bench: &str,
    output: &str,
) -> Result<(), RunFault>
    ensures { SavesResult circuit.now (IsGenerated circuit.now synth_budgets) ((bench.now, text.now) ∷ []) output.now result (S.state shelf.old) (S.state shelf.new) }
{
    shelf.create_file(bench).map_err(broken_by)?;
    write_all(shelf, text).map_err(broken_by)?;
    save_result(alloc, shelf, circuit, output, SYNTH_BUDGETS)
}
