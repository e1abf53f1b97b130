//! The values of gates in all lanes at once, if some lines are turned.

ghost use Rattle.std.specs.Prelude.{◌≡◌, ℕ, ◌<◌, ◌≤◌, ◌^◌, Bool, List, length, All, IsTrue};
ghost use Rattle.net_model.specs.declared.fault.Fault.TheVariants.{Free};
ghost use Rattle.net_model.specs.Gate.{takes_pins, gate_value, folded_bit, chosen_bit, inverted};
ghost use Rattle.net_model.specs.Circuit.{line_count};
ghost use Rattle.net_model.specs.Answer.{bit_at, driven_bit};
ghost use Rattle.fault_heads.specs.Turned.{vector_at, IsLive, IsFreeLane, IsFalsePast};
ghost use Rattle.fault_sim.specs.TurnedLines.{turned_bits, read_bits};

use net_model::{Fold, Gate, Operation};
use word_sim::{GoodSim, Lanes};

// Returns the fault-free bits of `line`, turned in the lanes of its row.
fn line_lanes(good: &GoodSim, rows: &[Lanes], line: u32) -> Lanes
    requires width { length rows.now ≡ line_count good.now.circuit }
    requires line { line < length rows.now }
    ensures { (lane : ℕ) (free : List Bool) → IsFreeLane good.now lane free → bit_at result lane ≡ bit_at (turned_bits free rows.now lane) line }
{
    good.lanes(line).xor(rows[line as usize])
}

fn folded_lanes(good: &GoodSim, rows: &[Lanes], fold: Fold, pins: &[u32]) -> Lanes
    requires width { length rows.now ≡ line_count good.now.circuit }
    requires inside { All (λ pin. pin < length rows.now) pins.now }
    ensures { (lane : ℕ) (free : List Bool) → IsFreeLane good.now lane free → bit_at result lane ≡ folded_bit fold (read_bits (turned_bits free rows.now lane) pins.now) }
{
    let mut lanes = Lanes::folded_none(fold);
    for pin in pins {
        lanes = lanes.folded_more(fold, line_lanes(good, rows, *pin));
    }
    lanes
}

// Returns what is seen by the pin that the first pin chooses.
fn chosen_lanes(good: &GoodSim, rows: &[Lanes], pins: &[u32]) -> Lanes
    requires width { length rows.now ≡ line_count good.now.circuit }
    requires inside { All (λ pin. pin < length rows.now) pins.now }
    requires three { length pins.now ≡ 3 }
    ensures { (lane : ℕ) (free : List Bool) → IsFreeLane good.now lane free → bit_at result lane ≡ chosen_bit (read_bits (turned_bits free rows.now lane) pins.now) }
{
    let zero = line_lanes(good, rows, pins[1]);
    let one = line_lanes(good, rows, pins[2]);
    line_lanes(good, rows, pins[0]).select(zero, one)
}

fn gate_lanes(good: &GoodSim, rows: &[Lanes], gate: &Gate) -> Lanes
    requires width { length rows.now ≡ line_count good.now.circuit }
    requires inside { All (λ pin. pin < length rows.now) gate.now.pins }
    requires arity { IsTrue (takes_pins gate.now.kind (length gate.now.pins)) }
    ensures { (lane : ℕ) (free : List Bool) → IsFreeLane good.now lane free → bit_at result lane ≡ gate_value gate.now.kind (read_bits (turned_bits free rows.now lane) gate.now.pins) }
{
    let pins = gate.pins.as_slice();
    let lanes = match gate.kind.operation() {
        Operation::Folded(fold) => folded_lanes(good, rows, fold, pins),
        Operation::Chosen => chosen_lanes(good, rows, pins),
    };
    lanes.inverted(gate.kind.inverts())
}

/// Returns in which lanes with a vector the gate of `line` turns it, by the lines that the gate reads.
pub(crate) fn line_change(good: &GoodSim, live: Lanes, rows: &[Lanes], line: u32) -> Lanes
    requires live { IsLive good.now live }
    requires width { length rows.now ≡ line_count good.now.circuit }
    requires gate { good.now.circuit.sources ≤ line }
    requires line { line < length rows.now }
    ensures live { (lane : ℕ) (free : List Bool) → IsFreeLane good.now lane free → inverted (bit_at free line) (bit_at result lane) ≡ driven_bit good.now.circuit Free (vector_at good.now lane) (turned_bits free rows.now lane) line }
    ensures past { IsFalsePast good.now result }
{
    let lanes = gate_lanes(good, rows, good.circuit().gate(line));
    lanes.xor(good.lanes(line)).and(live)
}
