//! The netlist of a number: a chain of cells, each with two inputs, an output and four gates.

ghost use Rattle.std.specs.Prelude.{◌≡◌, ◌++◌, ◌<◌, ◌≤◌, IfOk, OnOk, flat_map, string_bytes};
ghost use Rattle.std.specs.List.{range_with_len};
ghost use Rattle.synth_netlist.specs.Laws.{NumbersAccepted, NumbersNeverRefused};
ghost use Rattle.synth_netlist.specs.Synth.{signal, gate_line, gate_word, ports_text, gates_text, cell_text, numbered_cell, synth_text};

use bench_reader::{lines_spell, never_accepted_and_refused, one_netlist, spelled_is_accepted};
use net_model::no_loop_is_circuit;
use rand_core::SeedableRng;
use rand_core::utils::NextWord;
use rand_xoshiro::SplitMix64;
use scan_cut::ordered_has_no_loop;
use std::alloc::{AllocError, Global};

/// Returns the netlist of a number from 1 to 2,000 as text. The outputs of the generator SplitMix64 (Steele, Lea and
/// Flood, 2014), with the number as its seed, choose the gates of the cells.
pub fn synth_text(alloc: Global, n: u32) -> Result<Vec<u8>, AllocError>
    requires least { 1 ≤ n }
    requires most { n ≤ 2000 }
    ensures { IfOk result (λ text. text.items ≡ synth_text n) }
{
    let mut text = Vec::new(alloc);
    text.extend_from_slice(b"INPUT(c0)\n")?;
    push_cells(&mut text, n)?;
    let end = format!(in alloc; "OUTPUT(c{n})\n")?;
    text.extend_from_slice(end.as_bytes())?;
    Ok(text)
}

/// The netlist of each number up to 2,000 is accepted: its text spells statements that are right together, and each
/// gate reads what is known before it. So the cut of what it reads as is a circuit.
pub fn each_number_is_accepted()
    ensures { NumbersAccepted }
{
    spelled_is_accepted();
    lines_spell();
    ordered_has_no_loop();
    no_loop_is_circuit();
}

/// The netlist of a number up to 2,000 is never refused: its text spells statements that are right together, and each
/// gate reads what is known before it.
pub fn no_number_is_refused()
    ensures { NumbersNeverRefused }
{
    spelled_is_accepted();
    lines_spell();
    ordered_has_no_loop();
    never_accepted_and_refused();
    one_netlist();
}

fn push_cells(text: &mut Vec<u8>, n: u32) -> Result<(), AllocError>
    requires { n ≤ 2000 }
    ensures { OnOk result (text.new.items ≡ text.old.items ++ flat_map (numbered_cell n) (range_with_len 0 n)) }
{
    let mut rng = SplitMix64::seed_from_u64(u64::from(n));
    for cell in 0..n {
        let output = rng.next_word();
        push_cell(text, output, cell)?;
    }
    Ok(())
}

fn push_cell(text: &mut Vec<u8>, output: u64, cell: u32) -> Result<(), AllocError>
    requires { cell < 2000 }
    ensures { OnOk result (text.new.items ≡ text.old.items ++ cell_text output cell) }
{
    let ports = ports(*text.allocator(), cell)?;
    text.extend_from_slice(ports.as_bytes())?;
    push_gates(text, output, cell)
}

#[tactic(auto, unfolding(crate::specs::Synth::p_gate, crate::specs::Synth::q_gate, crate::specs::Synth::s_gate, crate::specs::Synth::c_gate))]
fn push_gates(text: &mut Vec<u8>, output: u64, cell: u32) -> Result<(), AllocError>
    requires { cell < 2000 }
    ensures { OnOk result (text.new.items ≡ text.old.items ++ gates_text output cell) }
{
    push_gate(text, "p", cell, gate_word(output, 0), "x", "y", cell)?;
    push_gate(text, "q", cell, gate_word(output, 1), "x", "c", cell)?;
    push_gate(text, "s", cell, gate_word(output, 2), "p", "q", cell)?;
    // this gate drives the carry into the next cell
    push_gate(text, "c", cell + 1, gate_word(output, 3), "p", "c", cell)
}

fn push_gate(
    text: &mut Vec<u8>,
    driven: &str,
    number: u32,
    word: &str,
    first: &str,
    second: &str,
    cell: u32,
) -> Result<(), AllocError>
    ensures { OnOk result (text.new.items ≡ text.old.items ++ gate_line (signal driven.now number) word.now (signal first.now cell) (signal second.now cell)) }
{
    let line = gate_line(*text.allocator(), driven, number, word, first, second, cell)?;
    text.extend_from_slice(line.as_bytes())
}

fn ports(alloc: Global, cell: u32) -> Result<String, AllocError>
    ensures { IfOk result (λ text. string_bytes text ≡ ports_text cell) }
{
    format!(in alloc; "INPUT(x{cell})\nINPUT(y{cell})\nOUTPUT(s{cell})\n")
}

// Returns the line of a gate that drives one signal, given by letter and number, from two signals of a cell.
fn gate_line(
    alloc: Global,
    driven: &str,
    number: u32,
    word: &str,
    first: &str,
    second: &str,
    cell: u32,
) -> Result<String, AllocError>
    ensures { IfOk result (λ text. string_bytes text ≡ gate_line (signal driven.now number) word.now (signal first.now cell) (signal second.now cell)) }
{
    format!(in alloc; "{driven}{number}={word}({first}{cell},{second}{cell})\n")
}

// Returns the word of a gate of the cell with this output: three of the output's bits choose it.
#[tactic(auto, unfolding(crate::specs::Synth::gate_word))]
fn gate_word(output: u64, gate: u32) -> &'static str
    requires { gate < 4 }
    ensures { result.now ≡ gate_word output gate }
{
    match (output >> (3 * gate)) % 8 {
        0 => "AND",
        1 => "NAND",
        2 => "OR",
        3 => "NOR",
        4 => "XOR",
        5 => "XNOR",
        6 => "NAND",
        _ => "NOR",
    }
}
