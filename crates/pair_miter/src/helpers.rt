//! How many helpers the gates of a miter have.

ghost use Rattle.std.specs.Prelude.{◌≡◌, ◌-◌, ◌<◌, ◌^◌, true, count_by, is_none, length, if◌then◌else◌};
ghost use Rattle.net_model.specs.Circuit.{line_count};
ghost use Rattle.net_model.specs.Fault.{stuck_pin, readings};
ghost use Rattle.net_model.specs.Scope.{is_relevant};
ghost use Rattle.pair_miter.specs.Numbering.{HasCopy};
ghost use Rattle.pair_miter.specs.Variables.{copy_helpers, line_helpers, helpers_below, is_parity};

use crate::numbering::Numbering;
use crate::side::Side;
use net_model::{Fault, Fold, Gate, Operation, stuck_pin, stuck_stem};

/// Returns the number of helpers of all lines.
pub(crate) fn count_helpers(numbering: &Numbering) -> u32
    ensures { result ≡ helpers_below numbering.now.circuit numbering.now.f numbering.now.g (line_count numbering.now.circuit) }
{
    let mut count = 0;
    for line in numbering.relevant_lines() {
        count += line_helpers(numbering, *line);
    }
    count
}

// Returns the number of helpers of `line` in both copies.
fn line_helpers(numbering: &Numbering, line: u32) -> u32
    requires line { line < line_count numbering.now.circuit }
    requires relevant { is_relevant numbering.now.circuit numbering.now.f numbering.now.g line ≡ true }
    ensures { result ≡ line_helpers numbering.now.circuit numbering.now.f numbering.now.g line }
{
    let first = copy_helpers(numbering, Side::First, line);
    if numbering.split(line) {
        first + copy_helpers(numbering, Side::Second, line)
    } else {
        first
    }
}

/// Returns the number of helpers of `line` in copy `side`.
pub(crate) fn copy_helpers(numbering: &Numbering, side: Side, line: u32) -> u32
    requires line { line < line_count numbering.now.circuit }
    requires copy { HasCopy numbering.now.circuit numbering.now.f numbering.now.g side line }
    ensures { result ≡ copy_helpers numbering.now.circuit numbering.now.f numbering.now.g side line }
{
    let circuit = numbering.circuit();
    let fault = numbering.fault(side);
    if stuck_stem(fault, line).is_some() {
        return 0;
    }
    if line < circuit.sources() {
        return 0;
    }
    gate_helpers(fault, line, circuit.gate(line))
}

// Returns the number of helpers of the gate of `line` under `fault`: for an exclusive or two less than the number of
// pins that aren't stuck, but at least 0; for any other gate 0.
fn gate_helpers(fault: Fault, line: u32, gate: &Gate) -> u32
    requires { length gate.now.pins < 2 ^ 32 }
    ensures { result ≡ (if is_parity gate.now.kind then count_by (λ b. b) (readings (λ pin read. is_none (stuck_pin fault line pin)) gate.now.pins) - 2 else 0) }
{
    match gate.kind.operation() {
        Operation::Folded(Fold::OddOf) => {
            free_pins(fault, line, gate.pins.as_slice()).saturating_sub(2)
        }
        Operation::Folded(Fold::AllOf | Fold::AnyOf) | Operation::Chosen => 0,
    }
}

// Returns how many pins of the gate of `line` the fault doesn't stick.
fn free_pins(fault: Fault, line: u32, pins: &[u32]) -> u32
    requires { length pins.now < 2 ^ 32 }
    ensures { result ≡ count_by (λ b. b) (readings (λ pin read. is_none (stuck_pin fault line pin)) pins.now) }
{
    let mut count = 0;
    for pin in 0..pins.len() {
        if stuck_pin(fault, line, pin as u32).is_none() {
            count += 1;
        }
    }
    count
}
