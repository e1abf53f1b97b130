//! The value of a gate in all lanes at once.

ghost use Rattle.std.specs.Prelude.{◌≡◌, ℕ, ◌<◌, length, All, IsTrue};
ghost use Rattle.net_model.specs.Gate.{takes_pins, gate_value, operation_value, folded_bit};
ghost use Rattle.net_model.specs.Answer.{bit_at};
ghost use Rattle.word_sim.specs.SeenLane.{seen_lane};

use crate::lanes::{LANES, Lanes};
use net_model::{Fold, Gate, Operation};

/// Returns the value of `gate` in each lane, if each line has the bits of its row of `rows`.
pub(crate) fn gate_lanes(gate: &Gate, rows: &[Lanes]) -> Lanes
    requires arity { IsTrue (takes_pins gate.now.kind (length gate.now.pins)) }
    requires inside { All (λ pin. pin < length rows.now) gate.now.pins }
    ensures { (lane : ℕ) → lane < LANES → bit_at result lane ≡ gate_value gate.now.kind (seen_lane rows.now gate.now.pins lane) }
{
    let pins = gate.pins.as_slice();
    operation_lanes(gate.kind.operation(), pins, rows).inverted(gate.kind.inverts())
}

fn operation_lanes(operation: Operation, pins: &[u32], rows: &[Lanes]) -> Lanes
    requires inside { All (λ pin. pin < length rows.now) pins.now }
    requires chosen { operation ≡ Operation.Chosen → length pins.now ≡ 3 }
    ensures { (lane : ℕ) → lane < LANES → bit_at result lane ≡ operation_value operation (seen_lane rows.now pins.now lane) }
{
    match operation {
        Operation::Folded(fold) => folded_lanes(fold, pins, rows),
        Operation::Chosen => {
            let (zero, one) = (rows[pins[1] as usize], rows[pins[2] as usize]);
            rows[pins[0] as usize].select(zero, one)
        }
    }
}

fn folded_lanes(fold: Fold, pins: &[u32], rows: &[Lanes]) -> Lanes
    requires { All (λ pin. pin < length rows.now) pins.now }
    ensures { (lane : ℕ) → lane < LANES → bit_at result lane ≡ folded_bit fold (seen_lane rows.now pins.now lane) }
{
    let mut lanes = Lanes::folded_none(fold);
    for pin in pins {
        lanes = lanes.folded_more(fold, rows[*pin as usize]);
    }
    lanes
}
