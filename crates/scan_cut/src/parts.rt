//! The parts of the cut circuit, and the name of each of its lines.
ghost use Rattle.std.specs.Prelude.{◌≡◌, ◌<◌, map, filter_map, length, slice_index, slice_index_or, [], All, IfOk};
ghost use Rattle.bench_reader.specs.Driven.{used_numbers};
ghost use Rattle.scan_cut.specs.Cut.{source_names, line_names};
ghost use Rattle.scan_cut.specs.Lines.{looked_up_gate};
ghost use Rattle.scan_cut.specs.Parts.{AreParts};

use crate::lines::{add_gate_names, lines_by_name, position_names, source_names};
use bench_reader::{Statement, Statements, Word};
use net_model::{Gate, Names, Pins};
use std::alloc::{AllocError, Global};

/// The parts from which a design is built.
#[derive(Drop)]
pub(crate) struct Parts {
    pub(crate) gates: Vec<Gate>,
    pub(crate) sources: u32,
    pub(crate) positions: Vec<u32>,
    pub(crate) names: Names,
}

/// Returns the parts of the cut of a netlist.
pub(crate) fn collect_parts(alloc: Global, statements: &Statements) -> Result<Parts, AllocError>
    ensures { IfOk result (AreParts statements.now) }
{
    let list = statements.as_slice();
    let mut line_names = source_names(alloc, list)?;
    let sources = line_names.len() as u32;
    add_gate_names(&mut line_names, list)?;
    parts_of(alloc, statements, sources, line_names.as_slice())
}

// Returns the parts of the cut. `numbers` are the numbers of the lines' names; the first `sources` of them are those of
// sources.
fn parts_of(
    alloc: Global,
    statements: &Statements,
    sources: u32,
    numbers: &[u32],
) -> Result<Parts, AllocError>
    requires sources { sources ≡ length (source_names statements.now.statements) }
    requires numbers { numbers.now ≡ line_names statements.now.statements }
    ensures { IfOk result (AreParts statements.now) }
{
    let list = statements.as_slice();
    let table = lines_by_name(alloc, statements.names_len(), numbers)?;
    let lines = table.as_slice();
    let positions = position_names(alloc, list)?;
    Ok(Parts {
        sources,
        gates: gates(alloc, list, lines)?,
        positions: looked_up(alloc, positions.as_slice(), lines)?,
        names: names(alloc, statements, numbers)?,
    })
}

// Returns the gates; their pins are the lines of their names.
fn gates(alloc: Global, statements: &[Statement], lines: &[u32]) -> Result<Vec<Gate>, AllocError>
    requires { All (λ s. All (λ name. name < length lines.now) (used_numbers s)) statements.now }
    ensures { IfOk result (λ gates. gates.items ≡ filter_map (looked_up_gate lines.now) statements.now) }
{
    let mut gates = Vec::new(alloc);
    for statement in statements {
        if let Statement::Drive(_, kind, words) = statement {
            let pins = pins(alloc, words.as_slice(), lines)?;
            gates.push(Gate { kind: *kind, pins })?;
        }
    }
    Ok(gates)
}

// Returns the lines of words.
fn pins(alloc: Global, words: &[Word], lines: &[u32]) -> Result<Pins, AllocError>
    requires { All (λ word. word.name < length lines.now) words.now }
    ensures { IfOk result (λ pins. pins ≡ map (λ word. slice_index lines.now word.name) words.now) }
{
    let mut pins = Pins::new(alloc);
    for word in words {
        pins.push(lines[word.name as usize])?;
    }
    Ok(pins)
}

// Returns the lines of names.
fn looked_up(alloc: Global, names: &[u32], lines: &[u32]) -> Result<Vec<u32>, AllocError>
    requires { All (λ name. name < length lines.now) names.now }
    ensures { IfOk result (λ found. found.items ≡ map (λ name. slice_index lines.now name) names.now) }
{
    names
        .iter()
        .map(|name| lines[*name as usize])
        .collect(alloc)
}

// Returns the texts of the names with these numbers.
fn names(alloc: Global, statements: &Statements, numbers: &[u32]) -> Result<Names, AllocError>
    requires few { length numbers.now < 4294967295 }
    requires named { All (λ number. number < length statements.now.names) numbers.now }
    ensures { IfOk result (λ names. names ≡ map (λ number. slice_index_or statements.now.names number []) numbers.now) }
{
    let mut names = Names::new(alloc);
    for number in numbers {
        names.push(statements.name(*number))?;
    }
    Ok(names)
}
