//! The observed positions that two faults reach.

ghost use Rattle.std.specs.Prelude.{◌≡◌, ℕ, ◌<◌, ◌||◌, true, is_some, length};
ghost use Rattle.net_model.specs.Circuit.{line_count};
ghost use Rattle.net_model.specs.Fault.{IsFaultOf, stuck_position};
ghost use Rattle.net_model.specs.Scope.{is_reached, is_split};
ghost use Rattle.net_model.specs.Wiring.{IsWiring};
ghost use Rattle.fault_list.specs.Scope.{AreMarksOfTest};
ghost use Rattle.event_queue.specs.Pending.{is_pending, IsEmpty};

use crate::cone::Cone;
use crate::fault_pair::FaultPair;
use event_queue::NumberQueue;
use net_model::{Fault, Site, Wiring, stuck_position};

/// Returns whether position `at` is reached.
pub(crate) fn is_reached(pair: &FaultPair, cone: &Cone, at: u32) -> bool
    requires cone { AreMarksOfTest (is_split pair.now.circuit.now pair.now.f pair.now.g) (line_count pair.now.circuit.now) cone.now }
    requires position { at < length pair.now.circuit.now.positions }
    ensures { result ≡ is_reached pair.now.circuit.now pair.now.f pair.now.g at }
{
    let line = pair.circuit.positions()[at as usize];
    cone.has(line) || is_site(pair, at)
}

// Returns whether one of the faults sticks position `at`.
fn is_site(pair: &FaultPair, at: u32) -> bool
    ensures { result ≡ (is_some (stuck_position pair.now.f at) || is_some (stuck_position pair.now.g at)) }
{
    stuck_position(pair.f, at).is_some() || stuck_position(pair.g, at).is_some()
}

/// Inserts each reached position into `positions`, which is empty before.
pub(crate) fn wake_reached(
    pair: &FaultPair,
    wiring: &Wiring,
    cone: &Cone,
    positions: &mut NumberQueue,
)
    requires wiring { IsWiring pair.now.circuit.now wiring.now }
    requires first { IsFaultOf pair.now.circuit.now pair.now.f }
    requires second { IsFaultOf pair.now.circuit.now pair.now.g }
    requires cone { AreMarksOfTest (is_split pair.now.circuit.now pair.now.f pair.now.g) (line_count pair.now.circuit.now) cone.now }
    requires room { length positions.old ≡ length pair.now.circuit.now.positions }
    requires none { IsEmpty positions.old }
    ensures room { length positions.new ≡ length positions.old }
    ensures reached { (at : ℕ) → at < length pair.now.circuit.now.positions → is_pending positions.new at ≡ is_reached pair.now.circuit.now pair.now.f pair.now.g at }
{
    for line in cone.lines() {
        positions.wake(wiring.showing(*line));
    }
    wake_site(pair.f, positions);
    wake_site(pair.g, positions);
}

// Inserts the position that `fault` sticks, if it sticks one.
fn wake_site(fault: Fault, positions: &mut NumberQueue)
    requires { (at : ℕ) → is_some (stuck_position fault at) ≡ true → at < length positions.old }
    ensures room { length positions.new ≡ length positions.old }
    ensures woken { (at : ℕ) → is_pending positions.new at ≡ (is_pending positions.old at || is_some (stuck_position fault at)) }
{
    if let Fault::Stuck(Site::Position(at), _) = fault {
        positions.insert(at);
    }
}
