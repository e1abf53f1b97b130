//! Event-driven simulation of pairs: after a change only gates that read a line whose pairs changed are evaluated, in
//! an evaluation order of the circuit.

ghost use Rattle.std.specs.Prelude.{◌≡◌, ℕ, ◌<◌, ◌≤◌, length, slice_set};
ghost use Rattle.event_queue.specs.Pending.{IsEmpty};
ghost use Rattle.net_model.specs.Circuit.{line_count};
ghost use Rattle.net_model.specs.Wiring.{IsWiring};
ghost use Rattle.pair_sets.specs.CubeState.{set_at};
ghost use Rattle.pair_sets.specs.PairSet.{IsWithin};
ghost use Rattle.pair_sets.specs.Trail.{HasChangeRoom, IsLonger};
ghost use Rattle.pair_sets.specs.Events.{ArePairsSettled, AreLoose, WakesReaders, gate_line_pairs};

use crate::fault_pair::FaultPair;
use crate::pair_set::PairSet;
use crate::trail::PairTrail;
use event_queue::NumberQueue;
use net_model::Wiring;

/// Sets the pairs of `source` to `pairs`, which are among those that it had, and then those of each gate to what its
/// pins give.
pub(crate) fn change_source(
    pair: &FaultPair,
    source: u32,
    pairs: PairSet,
    queue: &mut NumberQueue,
    trail: &mut PairTrail,
)
    requires source { source < pair.now.circuit.now.sources }
    requires width { length trail.old.sets.items ≡ line_count pair.now.circuit.now }
    requires fewer { IsWithin pairs (set_at trail.old.sets.items source) }
    requires room { HasChangeRoom trail.old }
    requires queue { length queue.old ≡ length pair.now.circuit.now.gates }
    requires right { (line : ℕ) → pair.now.circuit.now.sources ≤ line → line < line_count pair.now.circuit.now → set_at trail.old.sets.items line ≡ gate_line_pairs pair.now.circuit.now pair.now.f pair.now.g trail.old.sets.items line }
    ensures longer { IsLonger trail.old trail.new }
    ensures room { HasChangeRoom trail.new }
    ensures queue { length queue.new ≡ length queue.old }
    ensures none { IsEmpty queue.new }
    ensures right { (line : ℕ) → pair.now.circuit.now.sources ≤ line → line < line_count pair.now.circuit.now → set_at trail.new.sets.items line ≡ gate_line_pairs pair.now.circuit.now pair.now.f pair.now.g trail.new.sets.items line }
    ensures sources { (line : ℕ) → line < pair.now.circuit.now.sources → set_at trail.new.sets.items line ≡ set_at (slice_set trail.old.sets.items source pairs) line }
{
    let wiring = pair.circuit.wiring();
    settle(pair, wiring, source, pairs, queue, trail);
    follow(pair, wiring, queue, trail);
}

// Sets the pairs of `line` to `pairs`, which are among those that it had. If they change, its readers wait from now on.
fn settle(
    pair: &FaultPair,
    wiring: &Wiring,
    line: u32,
    pairs: PairSet,
    queue: &mut NumberQueue,
    trail: &mut PairTrail,
)
    requires wiring { IsWiring pair.now.circuit.now wiring.now }
    requires line { line < line_count pair.now.circuit.now }
    requires width { length trail.old.sets.items ≡ line_count pair.now.circuit.now }
    requires fewer { IsWithin pairs (set_at trail.old.sets.items line) }
    requires room { HasChangeRoom trail.old }
    requires queue { length queue.old ≡ length wiring.now.order }
    ensures sets { trail.new.sets.items ≡ slice_set trail.old.sets.items line pairs }
    ensures longer { IsLonger trail.old trail.new }
    ensures room { HasChangeRoom trail.new }
    ensures queue { length queue.new ≡ length queue.old }
    ensures wakes { WakesReaders pair.now.circuit.now wiring.now.order line (set_at trail.old.sets.items line) pairs queue.old queue.new }
{
    if trail.sets[line as usize] == pairs {
        return;
    }
    trail.set(line, pairs);
    queue.wake(wiring.readers(line));
}

// Evaluates one waiting gate after the other, until none waits.
fn follow(pair: &FaultPair, wiring: &Wiring, queue: &mut NumberQueue, trail: &mut PairTrail)
    requires wiring { IsWiring pair.now.circuit.now wiring.now }
    requires width { length trail.old.sets.items ≡ line_count pair.now.circuit.now }
    requires room { HasChangeRoom trail.old }
    requires queue { length queue.old ≡ length wiring.now.order }
    requires settled { ArePairsSettled pair.now.circuit.now pair.now.f pair.now.g wiring.now.order queue.old trail.old.sets.items }
    requires loose { AreLoose pair.now.circuit.now pair.now.f pair.now.g trail.old.sets.items }
    ensures longer { IsLonger trail.old trail.new }
    ensures room { HasChangeRoom trail.new }
    ensures queue { length queue.new ≡ length queue.old }
    ensures none { IsEmpty queue.new }
    ensures settled { ArePairsSettled pair.now.circuit.now pair.now.f pair.now.g wiring.now.order queue.new trail.new.sets.items }
    ensures sources { (source : ℕ) → source < pair.now.circuit.now.sources → set_at trail.new.sets.items source ≡ set_at trail.old.sets.items source }
{
    let order = wiring.order();
    let mut from = 0;
    while let Some(place) = queue.take_lowest(from) {
        let line = order[place as usize];
        let pairs = pair.line_pairs(trail.sets.as_slice(), line);
        settle(pair, wiring, line, pairs, queue, trail);
        from = place + 1;
    }
}
