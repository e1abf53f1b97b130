//! The lines of the cut: which names are those of lines, and which line each name is.
ghost use Rattle.std.specs.Prelude.{◌≡◌, ◌≢◌, ◌<◌, ◌^◌, ◌++◌, map, length, All, AllPairs, IfOk, OnOk};
ghost use Rattle.scan_cut.specs.Cut.{input_of, output_of, flop_output, flop_data, gate_driven_word, source_names, gate_words, position_names};
ghost use Rattle.scan_cut.specs.Lines.{AreLines};

use bench_reader::{Statement, Word};
use std::alloc::{AllocError, Global};

fn input(statement: &Statement) -> Option<u32>
    ensures { result ≡ input_of statement.now }
{
    match statement {
        Statement::Input(word) => Some(word.name),
        _ => None,
    }
}

fn output(statement: &Statement) -> Option<u32>
    ensures { result ≡ output_of statement.now }
{
    match statement {
        Statement::Output(word) => Some(word.name),
        _ => None,
    }
}

fn flop_output(statement: &Statement) -> Option<u32>
    ensures { result ≡ flop_output statement.now }
{
    match statement {
        Statement::Flop(output, _) => Some(output.name),
        _ => None,
    }
}

fn flop_data(statement: &Statement) -> Option<u32>
    ensures { result ≡ flop_data statement.now }
{
    match statement {
        Statement::Flop(_, data) => Some(data.name),
        _ => None,
    }
}

// Returns the word that a gate drives.
pub(crate) fn gate_word(statement: &Statement) -> Option<Word>
    ensures { result ≡ gate_driven_word statement.now }
{
    match statement {
        Statement::Drive(word, _, _) => Some(*word),
        _ => None,
    }
}

// Returns the names of the sources: the inputs, then the flip-flops' outputs.
pub(crate) fn source_names(alloc: Global, statements: &[Statement]) -> Result<Vec<u32>, AllocError>
    ensures { IfOk result (λ names. names.items ≡ source_names statements.now) }
{
    let inputs = statements.iter().filter_map(input);
    let outputs = statements.iter().filter_map(flop_output);
    inputs.chain(outputs).collect(alloc)
}

// Adds the names that the gates drive, by gate.
pub(crate) fn add_gate_names(
    names: &mut Vec<u32>,
    statements: &[Statement],
) -> Result<(), AllocError>
    ensures { OnOk result (names.new.items ≡ names.old.items ++ map (λ word. word.name) (gate_words statements.now)) }
{
    names.extend(
        statements
            .iter()
            .filter_map(gate_word)
            .map(|word| word.name),
    )
}

// Returns the names of the positions: the outputs, then the flip-flops' data pins.
pub(crate) fn position_names(
    alloc: Global,
    statements: &[Statement],
) -> Result<Vec<u32>, AllocError>
    ensures { IfOk result (λ names. names.items ≡ position_names statements.now) }
{
    let outputs = statements.iter().filter_map(output);
    outputs
        .chain(statements.iter().filter_map(flop_data))
        .collect(alloc)
}

// Returns the line of each name that is the name of a line, by name.
pub(crate) fn lines_by_name(
    alloc: Global,
    count: u32,
    line_names: &[u32],
) -> Result<Vec<u32>, AllocError>
    requires few { length line_names.now < 2 ^ 32 }
    requires named { All (λ name. name < count) line_names.now }
    requires once { AllPairs (λ a b. a ≢ b) line_names.now }
    ensures { IfOk result (λ lines. AreLines count line_names.now lines.items) }
{
    let mut lines = vec![in alloc; 0; count as usize]?;
    for (line, name) in line_names.iter().enumerate() {
        lines[*name as usize] = line as u32;
    }
    Ok(lines)
}
