//! The pairs that the reached positions show, updated with the pairs of the lines.

ghost use Rattle.std.specs.Prelude.{◌≡◌, ◌≢◌, ℕ, ◌<◌, ◌≤◌, ◌^◌, All, Contains, IfOk, drop, find, length, slice_index};
ghost use Rattle.fault_list.specs.Scope.{AreMarksOfTest};
ghost use Rattle.pair_sets.specs.CubeState.{position_pairs};
ghost use Rattle.pair_sets.specs.PairSet.{only_unequal};
ghost use Rattle.pair_sets.specs.Tally.{HasTallyPlaces, IsTallyBlank, IsBlankBut, IsShownAt, ArePairsShown, IsTally, KeepsAll, kept_pairs};
ghost use Rattle.net_model.specs.Circuit.{line_count};
ghost use Rattle.net_model.specs.Fault.{IsFaultOf};
ghost use Rattle.net_model.specs.Scope.{is_split};
ghost use Rattle.net_model.specs.Wiring.{IsWiring};

use crate::cone::Cone;
use crate::fault_pair::FaultPair;
use crate::pair_set::PairSet;
use crate::reached::{is_reached, wake_reached};
use crate::shown::Shown;
use crate::trail::PairTrail;
use event_queue::NumberQueue;
use net_model::Wiring;
use std::alloc::{AllocError, Global};

/// The reached positions, and for each position the pairs that it shows, or the equal pairs of both values if it isn't
/// reached.
#[derive(Debug, Drop)]
pub(crate) struct Tally {
    waiting: NumberQueue,
    pub(crate) reached: Vec<u32>,
    pub(crate) shown: Shown,
}

impl Tally {
    /// Returns a tally of `count` positions, none of them reached. No later call allocates memory.
    pub(crate) fn none(alloc: Global, count: usize) -> Result<Tally, AllocError>
        requires { count < 2 ^ 32 }
        ensures blank { IfOk result IsTallyBlank }
        ensures places { IfOk result (HasTallyPlaces count) }
    {
        Ok(Tally {
            reached: Vec::with_capacity(alloc, count)?,
            shown: Shown::equal(alloc, count)?,
            waiting: NumberQueue::new(alloc, count)?,
        })
    }

    /// Empties the list of reached positions, and gives each of them the equal pairs of both values. It touches no
    /// others.
    pub(crate) fn clear(&mut self)
        requires places { HasTallyPlaces (length self.old.shown) self.old }
        requires others { IsBlankBut self.old.reached.items self.old.shown }
        ensures blank { IsTallyBlank self.new }
        ensures places { HasTallyPlaces (length self.old.shown) self.new }
    {
        while let Some(at) = self.reached.pop() {
            self.shown.put(at, PairSet::free());
        }
    }

    /// Enters the positions that the two faults reach, and what they show, into a blank tally. It allocates no memory.
    pub(crate) fn fill(&mut self, pair: &FaultPair, wiring: &Wiring, cone: &Cone, sets: &[PairSet])
        requires wiring { IsWiring pair.now.circuit.now wiring.now }
        requires first { IsFaultOf pair.now.circuit.now pair.now.f }
        requires second { IsFaultOf pair.now.circuit.now pair.now.g }
        requires width { length sets.now ≡ line_count pair.now.circuit.now }
        requires cone { AreMarksOfTest (is_split pair.now.circuit.now pair.now.f pair.now.g) (line_count pair.now.circuit.now) cone.now }
        requires blank { IsTallyBlank self.old }
        requires places { HasTallyPlaces (length pair.now.circuit.now.positions) self.old }
        ensures tally { IsTally pair.now.circuit.now pair.now.f pair.now.g self.new }
        ensures shown { ArePairsShown pair.now.circuit.now pair.now.f pair.now.g sets.now self.new.shown }
    {
        wake_reached(pair, wiring, cone, &mut self.waiting);
        let mut from = 0;
        while let Some(at) = self.waiting.take_lowest(from) {
            self.reached.push_reserved(at);
            self.shown.put(at, pair.position_pairs(sets, at));
            from = at + 1;
        }
    }

    /// Updates each position that shows a line of the changes starting at `start`. It allocates no memory.
    pub(crate) fn recount(&mut self, pair: &FaultPair, cone: &Cone, trail: &PairTrail, start: usize)
        requires width { length trail.now.sets.items ≡ line_count pair.now.circuit.now }
        requires cone { AreMarksOfTest (is_split pair.now.circuit.now pair.now.f pair.now.g) (line_count pair.now.circuit.now) cone.now }
        requires tally { IsTally pair.now.circuit.now pair.now.f pair.now.g self.old }
        requires start { start ≤ length trail.now.changes.items }
        requires lines { All (λ change. change.line < length trail.now.sets.items) (drop start trail.now.changes.items) }
        requires others { (at : ℕ) → at < length pair.now.circuit.now.positions → All (λ change. change.line ≢ slice_index pair.now.circuit.now.positions at) (drop start trail.now.changes.items) → IsShownAt pair.now.circuit.now pair.now.f pair.now.g trail.now.sets.items self.old.shown at }
        ensures tally { IsTally pair.now.circuit.now pair.now.f pair.now.g self.new }
        ensures shown { ArePairsShown pair.now.circuit.now pair.now.f pair.now.g trail.now.sets.items self.new.shown }
    {
        let wiring = pair.circuit.wiring();
        let sets = trail.sets.as_slice();
        for change in &trail.changes[start..] {
            self.look_again(pair, cone, sets, wiring.showing(change.line));
        }
    }

    // Updates what is kept of each of `positions`.
    fn look_again(&mut self, pair: &FaultPair, cone: &Cone, sets: &[PairSet], positions: &[u32])
        requires width { length sets.now ≡ line_count pair.now.circuit.now }
        requires cone { AreMarksOfTest (is_split pair.now.circuit.now pair.now.f pair.now.g) (line_count pair.now.circuit.now) cone.now }
        requires tally { IsTally pair.now.circuit.now pair.now.f pair.now.g self.old }
        requires positions { All (λ at. at < length pair.now.circuit.now.positions) positions.now }
        ensures all { KeepsAll self.old self.new }
        ensures here { (at : ℕ) → Contains positions.now at → IsShownAt pair.now.circuit.now pair.now.f pair.now.g sets.now self.new.shown at }
        ensures kept { (at : ℕ) → IsShownAt pair.now.circuit.now pair.now.f pair.now.g sets.now self.old.shown at → IsShownAt pair.now.circuit.now pair.now.f pair.now.g sets.now self.new.shown at }
    {
        for at in positions {
            let pairs = kept_pairs(pair, cone, sets, *at);
            self.shown.put(*at, pairs);
        }
    }
}

// Returns what is kept of position `at`: the pairs that it shows, or the equal pairs of both values if it isn't
// reached.
fn kept_pairs(pair: &FaultPair, cone: &Cone, sets: &[PairSet], at: u32) -> PairSet
    requires width { length sets.now ≡ line_count pair.now.circuit.now }
    requires cone { AreMarksOfTest (is_split pair.now.circuit.now pair.now.f pair.now.g) (line_count pair.now.circuit.now) cone.now }
    requires position { at < length pair.now.circuit.now.positions }
    ensures { result ≡ kept_pairs pair.now.circuit.now pair.now.f pair.now.g sets.now at }
{
    if is_reached(pair, cone, at) {
        pair.position_pairs(sets, at)
    } else {
        PairSet::free()
    }
}

/// Returns the first of the positions `reached` that shows unequal pairs only, if there is one.
pub(crate) fn first_apart(pair: &FaultPair, sets: &[PairSet], reached: &[u32]) -> Option<u32>
    requires width { length sets.now ≡ line_count pair.now.circuit.now }
    requires positions { All (λ at. at < length pair.now.circuit.now.positions) reached.now }
    ensures { result ≡ find (λ at. only_unequal (position_pairs pair.now.circuit.now pair.now.f pair.now.g sets.now at)) reached.now }
{
    for at in reached {
        if pair.position_pairs(sets, *at).only_unequal() {
            return Some(*at);
        }
    }
    None
}
