//! The positions that two faults reach.

ghost use Rattle.std.specs.Prelude.{◌≡◌, ℕ, ◌<◌, ◌||◌, true, is_some, filter, length};
ghost use Rattle.net_model.specs.Circuit.{line_count};
ghost use Rattle.net_model.specs.Fault.{IsFaultOf, stuck_position};
ghost use Rattle.net_model.specs.Scope.{is_reached, is_split};
ghost use Rattle.event_queue.specs.Pending.{is_pending, IsEmpty};
ghost use Rattle.pair_scope.specs.Places.{ArePlaced};

use crate::places::LinePlaces;
use event_queue::NumberQueue;
use net_model::{Fault, Site};

/// Makes each reached position wait in `positions`, which is empty before; `split` has the split lines.
pub(crate) fn wake_reached(
    places: &LinePlaces,
    f: Fault,
    g: Fault,
    split: &[u32],
    positions: &mut NumberQueue,
)
    requires placed { ArePlaced places.now }
    requires first { IsFaultOf places.now.circuit.now f }
    requires second { IsFaultOf places.now.circuit.now g }
    requires split { split.now ≡ filter (is_split places.now.circuit.now f g) places.now.lines.items }
    requires room { length positions.old ≡ length places.now.circuit.now.positions }
    requires none { IsEmpty positions.old }
    ensures room { length positions.new ≡ length positions.old }
    ensures reached { (at : ℕ) → at < length places.now.circuit.now.positions → is_pending positions.new at ≡ is_reached places.now.circuit.now f g at }
{
    for line in split {
        positions.wake(places.wiring.showing(*line));
    }
    wake_site(f, positions);
    wake_site(g, positions);
}

// Makes the position that `fault` sticks wait, if it sticks one.
fn wake_site(fault: Fault, positions: &mut NumberQueue)
    requires { (at : ℕ) → is_some (stuck_position fault at) ≡ true → at < length positions.old }
    ensures room { length positions.new ≡ length positions.old }
    ensures woken { (at : ℕ) → is_pending positions.new at ≡ (is_pending positions.old at || is_some (stuck_position fault at)) }
{
    if let Fault::Stuck(Site::Position(at), _) = fault {
        positions.insert(at);
    }
}
