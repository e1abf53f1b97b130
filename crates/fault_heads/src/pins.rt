//! The value of a gate in all lanes at once, if one of its pins sees other bits than without a fault.

ghost use Rattle.std.specs.Prelude.{◌≡◌, ℕ, ◌<◌, ◌≤◌, ◌^◌, Bool, List, length, All, IsTrue, unwrap_or};
ghost use Rattle.net_model.specs.Fault.{stuck_pin};
ghost use Rattle.net_model.specs.Gate.{takes_pins, gate_value, folded_bit, chosen_bit};
ghost use Rattle.net_model.specs.Circuit.{IsCircuit, line_count};
ghost use Rattle.net_model.specs.Answer.{bit_at, seen_bits};
ghost use Rattle.fault_heads.specs.Turned.{vector_at, IsFreeLane};
ghost use Rattle.fault_heads.specs.Laws.{value_with_pin};

use net_model::{Fault, Fold, Operation, Site};
use word_sim::{GoodSim, Lanes};

/// Returns in each lane with a vector the value of `gate` if its pin `pin` sees the bits of `seen`, and its other pins
/// what they see without a fault.
pub(crate) fn value_with_pin(good: &GoodSim, gate: u32, pin: u32, seen: Lanes) -> Lanes
    requires from { good.now.circuit.sources ≤ gate }
    requires below { gate < line_count good.now.circuit }
    ensures circuit { IsCircuit good.now.circuit }
    ensures value { (lane : ℕ) (free : List Bool) → IsFreeLane good.now lane free → bit_at result lane ≡ value_with_pin good.now.circuit (vector_at good.now lane) free gate pin (bit_at seen lane) }
{
    let read = good.circuit().gate(gate);
    let pins = read.pins.as_slice();
    let lanes = match read.kind.operation() {
        Operation::Folded(fold) => folded_lanes(good, fold, pins, gate, pin, seen),
        Operation::Chosen => chosen_lanes(good, pins, gate, pin, seen),
    };
    lanes.inverted(read.kind.inverts())
}

// Returns what the pin at place `at` sees, which reads line `read`, if pin `pin` sees `seen`.
fn pin_lanes(good: &GoodSim, at: u32, read: u32, gate: u32, pin: u32, seen: Lanes) -> Lanes
    requires read { read < line_count good.now.circuit }
    ensures { (lane : ℕ) (free : List Bool) → IsFreeLane good.now lane free → bit_at result lane ≡ unwrap_or (stuck_pin (Fault.Stuck (Site.Pin gate pin) (bit_at seen lane)) gate at) (bit_at free read) }
{
    if at == pin { seen } else { good.lanes(read) }
}

fn folded_lanes(good: &GoodSim, fold: Fold, pins: &[u32], gate: u32, pin: u32, seen: Lanes) -> Lanes
    requires inside { All (λ pin. pin < line_count good.now.circuit) pins.now }
    requires few { length pins.now < 2 ^ 32 }
    ensures { (lane : ℕ) (free : List Bool) → IsFreeLane good.now lane free → bit_at result lane ≡ folded_bit fold (seen_bits (stuck_pin (Fault.Stuck (Site.Pin gate pin) (bit_at seen lane)) gate) free pins.now) }
{
    let mut lanes = Lanes::folded_none(fold);
    for (at, read) in pins.iter().enumerate() {
        let bits = pin_lanes(good, at as u32, *read, gate, pin, seen);
        lanes = lanes.folded_more(fold, bits);
    }
    lanes
}

// Returns what is seen by the pin that the first pin chooses.
fn chosen_lanes(good: &GoodSim, pins: &[u32], gate: u32, pin: u32, seen: Lanes) -> Lanes
    requires inside { All (λ pin. pin < line_count good.now.circuit) pins.now }
    requires three { length pins.now ≡ 3 }
    ensures { (lane : ℕ) (free : List Bool) → IsFreeLane good.now lane free → bit_at result lane ≡ chosen_bit (seen_bits (stuck_pin (Fault.Stuck (Site.Pin gate pin) (bit_at seen lane)) gate) free pins.now) }
{
    let zero = pin_lanes(good, 1, pins[1], gate, pin, seen);
    let one = pin_lanes(good, 2, pins[2], gate, pin, seen);
    pin_lanes(good, 0, pins[0], gate, pin, seen).select(zero, one)
}
