//! What a fault turns at its own place.

ghost use Rattle.std.specs.Prelude.{◌≡◌, ◌↔◌, ℕ, ◌<◌, Bool, List, IfSome, None, Some};
ghost use Rattle.net_model.specs.Fault.{IsFaultOf};
ghost use Rattle.net_model.specs.Circuit.{line_count};
ghost use Rattle.net_model.specs.Answer.{bit_at};
ghost use Rattle.fault_heads.specs.Turned.{IsFreeLane, IsFalsePast, IsHeadOf, TurnsHead, bits_differ, own_head};

use crate::head::{Head, Turn};
use crate::pins::value_with_pin;
use net_model::{Fault, Site};
use word_sim::{GoodSim, Lanes};

/// Returns what `fault` turns at its own place, and in which vectors of the block that `good` ran last: its stem, the
/// line of its pin's gate, or its position. Returns none exactly for `Fault::Free`.
pub fn first_turn(good: &GoodSim, fault: Fault) -> Option<Turn>
    requires fault { IsFaultOf good.now.circuit fault }
    ensures none { result ≡ None ↔ fault ≡ Fault.Free }
    ensures own { IfSome result (λ turn. own_head fault ≡ Some turn.head) }
    ensures head { IfSome result (λ turn. IsHeadOf good.now.circuit turn.head) }
    ensures turns { IfSome result (λ turn. TurnsHead good.now fault turn.head turn.lanes) }
    ensures past { IfSome result (λ turn. IsFalsePast good.now turn.lanes) }
{
    match fault {
        Fault::Free => None,
        Fault::Stuck(site, bit) => Some(turn_at(good, site, bit)),
    }
}

// Returns what `bit` stuck at `site` turns there.
fn turn_at(good: &GoodSim, site: Site, bit: bool) -> Turn
    requires fault { IsFaultOf good.now.circuit (Fault.Stuck site bit) }
    ensures own { own_head (Fault.Stuck site bit) ≡ Some result.head }
    ensures head { IsHeadOf good.now.circuit result.head }
    ensures turns { TurnsHead good.now (Fault.Stuck site bit) result.head result.lanes }
    ensures past { IsFalsePast good.now result.lanes }
{
    let (shown, stuck) = (good.circuit().positions(), Lanes::all(bit));
    match site {
        Site::Stem(line) => Turn {
            head: Head::Line(line),
            lanes: difference(good, line, stuck),
        },
        Site::Pin(gate, pin) => Turn {
            head: Head::Line(gate),
            lanes: difference(good, gate, value_with_pin(good, gate, pin, stuck)),
        },
        Site::Position(at) => Turn {
            head: Head::Position(at),
            lanes: difference(good, shown[at as usize], stuck),
        },
    }
}

/// Returns 1 in each lane with a vector in which `bits` differ from the fault-free bits of `line`, and 0 in all other
/// lanes.
pub(crate) fn difference(good: &GoodSim, line: u32, bits: Lanes) -> Lanes
    requires line { line < line_count good.now.circuit }
    ensures live { (lane : ℕ) (free : List Bool) → IsFreeLane good.now lane free → bit_at result lane ≡ bits_differ (bit_at bits lane) (bit_at free line) }
    ensures past { IsFalsePast good.now result }
{
    bits.xor(good.lanes(line)).and(good.live())
}
