//! `cut`: the cut circuit, with the name of each line.
ghost use Rattle.std.specs.Prelude.{◌≡◌, List, ℕ, Err, IfOk, length};
ghost use Rattle.net_model.specs.Circuit.{IsCircuit, line_count};
ghost use Rattle.bench_reader.specs.declared.fault.NetKind.{NetKind};
ghost use Rattle.bench_reader.specs.declared.fault.Place.{Place};
ghost use Rattle.net_model.specs.LoopWalk.{IsLoopWalk};
ghost use Rattle.scan_cut.specs.Cut.{cut_circuit, cut_design, IsNetlistLoop};

use crate::loops::loop_of;
use crate::parts::{Parts, collect_parts};
use bench_reader::{NetFault, Statements};
use net_model::{BuildFault, Circuit, Design, Names};
use std::alloc::Global;

/// Returns the full-scan cut of a netlist: a circuit in which each flip-flop's output is a source and its data pin is
/// an observed position, with the name of each line. Returns `Loop` exactly if the gates of the cut form a loop, with
/// the place of the name that the walk's first gate drives, and the names along the walk. Returns `NoMemory` if memory
/// is missing, and never `At`.
pub fn cut(alloc: Global, statements: &Statements) -> Result<Design, NetFault>
    ensures ok { IfOk result (λ design. design ≡ cut_design statements.now) }
    ensures circuit { IfOk result (λ design. IsCircuit design.circuit) }
    ensures named { IfOk result (λ design. length design.names ≡ line_count design.circuit) }
    ensures looped { (place : Place) (names : List (List ℕ)) → result ≡ Err (NetFault.Loop place names) → IsNetlistLoop statements.now place names }
    ensures no_rule { (kind : NetKind) (place : Place) → result ≡ Err (NetFault.At kind place) → ⊥ }
{
    let Parts {
        sources,
        gates,
        positions,
        names,
    } = collect_parts(alloc, statements)?;
    match Circuit::build(alloc, sources, gates, positions) {
        Ok(circuit) => Ok(Design { circuit, names }),
        Err(fault) => Err(cut_fault(alloc, statements, sources, &names, &fault)),
    }
}

// Returns why there is no cut: the loop of its gates, or missing memory.
fn cut_fault(
    alloc: Global,
    statements: &Statements,
    sources: u32,
    names: &Names,
    fault: &BuildFault,
) -> NetFault
    requires sources { sources ≡ (cut_circuit statements.now).sources }
    requires names { names.now ≡ (cut_design statements.now).names }
    requires walk { (walk : List ℕ) → fault.now ≡ BuildFault.Loop walk → IsLoopWalk (cut_circuit statements.now) walk }
    ensures looped { (place : Place) (names : List (List ℕ)) → result ≡ NetFault.Loop place names → IsNetlistLoop statements.now place names }
    ensures no_rule { (kind : NetKind) (place : Place) → result ≡ NetFault.At kind place → ⊥ }
{
    let BuildFault::Loop(walk) = fault else {
        return NetFault::NoMemory;
    };
    match loop_of(alloc, statements, sources, names, walk.as_slice()) {
        Ok((place, names)) => NetFault::Loop(place, names),
        Err(_) => NetFault::NoMemory,
    }
}
