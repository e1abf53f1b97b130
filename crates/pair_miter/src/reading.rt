//! What the pins of gates and the positions read in one copy.

ghost use Rattle.std.specs.Prelude.{◌≡◌, ◌<◌, ◌^◌, true, All, OnOk, length};
ghost use Rattle.net_model.specs.Circuit.{IsCircuit, line_count};
ghost use Rattle.net_model.specs.Scope.{is_relevant, is_reached};
ghost use Rattle.pair_miter.specs.Miter.{operand_of, gate_operands, shown_operand};

use crate::numbering::Numbering;
use crate::operand::Operand;
use crate::side::Side;
use net_model::{Gate, stuck_pin, stuck_position};
use std::alloc::AllocError;

/// Replaces `operands` by what the pins of `gate`, the gate of `line`, give in copy `side`.
pub(crate) fn read_pins(
    operands: &mut Vec<Operand>,
    numbering: &Numbering,
    side: Side,
    line: u32,
    gate: &Gate,
) -> Result<(), AllocError>
    requires inside { All (λ read. read < line_count numbering.now.circuit) gate.now.pins }
    requires relevant { All (λ read. is_relevant numbering.now.circuit numbering.now.f numbering.now.g read ≡ true) gate.now.pins }
    requires few { length gate.now.pins < 2 ^ 32 }
    ensures { OnOk result (operands.new.items ≡ gate_operands numbering.now.circuit numbering.now.f numbering.now.g side line gate.now) }
{
    let fault = numbering.fault(side);
    operands.clear();
    for (pin, read) in gate.pins.as_slice().iter().enumerate() {
        let stuck = stuck_pin(fault, line, pin as u32);
        operands.push(operand(numbering, side, stuck, *read))?;
    }
    Ok(())
}

/// Returns what a reached position shows in copy `side`.
pub(crate) fn shown(numbering: &Numbering, side: Side, position: u32) -> Operand
    requires position { position < length numbering.now.circuit.positions }
    requires reached { is_reached numbering.now.circuit numbering.now.f numbering.now.g position ≡ true }
    ensures value { result ≡ shown_operand numbering.now.circuit numbering.now.f numbering.now.g position side }
    ensures circuit { IsCircuit numbering.now.circuit }
{
    let line = numbering.circuit().positions()[position as usize];
    let stuck = stuck_position(numbering.fault(side), position);
    operand(numbering, side, stuck, line)
}

// Returns what a reader of a relevant line gives: the value at which it is stuck, or else the line's variable.
fn operand(numbering: &Numbering, side: Side, stuck: Option<bool>, line: u32) -> Operand
    requires line { line < line_count numbering.now.circuit }
    requires relevant { is_relevant numbering.now.circuit numbering.now.f numbering.now.g line ≡ true }
    ensures { result ≡ operand_of numbering.now.circuit numbering.now.f numbering.now.g side stuck line }
{
    Operand::new(stuck, numbering.variable(side, line))
}
