//! A loop of the gates, as the place of a name and the names along its walk.
ghost use Rattle.std.specs.Prelude.{◌≡◌, ◌<◌, map, length, slice_index_or, slice_get, [], All, IfOk};
ghost use Rattle.net_model.specs.LoopWalk.{IsLoopWalk};
ghost use Rattle.scan_cut.specs.Cut.{gate_words, cut_circuit, cut_design, IsNetlistLoop};

use crate::lines::gate_word;
use bench_reader::{Place, Statement, Statements, Word};
use net_model::Names;
use std::alloc::{AllocError, Global};

// Returns the place of the name that the first gate of a walk drives, and the names along the walk.
pub(crate) fn loop_of(
    alloc: Global,
    statements: &Statements,
    sources: u32,
    names: &Names,
    walk: &[u32],
) -> Result<(Place, Names), AllocError>
    requires sources { sources ≡ (cut_circuit statements.now).sources }
    requires names { names.now ≡ (cut_design statements.now).names }
    requires walk { IsLoopWalk (cut_circuit statements.now) walk.now }
    ensures { IfOk result (λ found. IsNetlistLoop statements.now found.0 found.1) }
{
    let list = statements.as_slice();
    let Some(word) = word_of_gate(list, (walk[0] - sources) as usize) else {
        unreachable!()
    };
    Ok((word.place, names_along(alloc, names, walk)?))
}

// Returns the word that the gate with number `gate` drives.
fn word_of_gate(statements: &[Statement], gate: usize) -> Option<Word>
    ensures { result ≡ slice_get (gate_words statements.now) gate }
{
    statements.iter().filter_map(gate_word).nth(gate)
}

fn names_along(alloc: Global, names: &Names, lines: &[u32]) -> Result<Names, AllocError>
    requires few { length lines.now < 4294967295 }
    requires inside { All (λ line. line < length names.now) lines.now }
    ensures { IfOk result (λ found. found ≡ map (λ line. slice_index_or names.now line []) lines.now) }
{
    let mut found = Names::new(alloc);
    for line in lines {
        found.push(names.text(*line))?;
    }
    Ok(found)
}
