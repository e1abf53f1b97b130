//! The pairs of two faults under the cube of all vectors, computed from those of the circuit without faults. Only lines
//! that the faults can change are evaluated, gate by gate in an evaluation order of the circuit.

ghost use Rattle.std.specs.Prelude.{◌≡◌, ℕ, ◌<◌, Bool, true, [], ◌==◌, ◌||◌, length};
ghost use Rattle.net_model.specs.Circuit.{line_count};
ghost use Rattle.net_model.specs.Fault.{IsFaultOf};
ghost use Rattle.net_model.specs.Scope.{is_split};
ghost use Rattle.net_model.specs.Wiring.{IsWiring};
ghost use Rattle.net_model.specs.declared.fault.Fault.TheVariants.{Free};
ghost use Rattle.fault_list.specs.Scope.{AreMarksOfTest, is_first_changed};
ghost use Rattle.event_queue.specs.Pending.{IsEmpty};
ghost use Rattle.pair_sets.specs.CubeState.{ArePairSets};
ghost use Rattle.pair_sets.specs.Events.{AreWoken};
ghost use Rattle.pair_sets.specs.Spread.{HasWidth, IsSpread};

use crate::cone::Cone;
use crate::fault_pair::FaultPair;
use crate::pair_set::PairSet;
use event_queue::NumberQueue;
use net_model::{Fault, Wiring, first_changed};

/// Replaces the pairs that the lines have without faults by those under the two faults, and marks the lines that the
/// faults can change.
pub(crate) fn spread(
    pair: &FaultPair,
    wiring: &Wiring,
    queue: &mut NumberQueue,
    cone: &mut Cone,
    sets: &mut Vec<PairSet>,
)
    requires wiring { IsWiring pair.now.circuit.now wiring.now }
    requires first { IsFaultOf pair.now.circuit.now pair.now.f }
    requires second { IsFaultOf pair.now.circuit.now pair.now.g }
    requires free { ArePairSets pair.now.circuit.now Free Free [] sets.old.items }
    requires unmarked { AreMarksOfTest (is_split pair.now.circuit.now Free Free) (line_count pair.now.circuit.now) cone.old }
    requires queue { length queue.old ≡ length wiring.now.order }
    requires none { IsEmpty queue.old }
    ensures sets { ArePairSets pair.now.circuit.now pair.now.f pair.now.g [] sets.new.items }
    ensures cone { AreMarksOfTest (is_split pair.now.circuit.now pair.now.f pair.now.g) (line_count pair.now.circuit.now) cone.new }
    ensures queue { length queue.new ≡ length queue.old }
    ensures none { IsEmpty queue.new }
{
    begin(pair, wiring, queue, cone, sets, pair.f);
    begin(pair, wiring, queue, cone, sets, pair.g);
    let order = wiring.order();
    let mut from = 0;
    while let Some(place) = queue.take_lowest(from) {
        enter(pair, wiring, order[place as usize], queue, cone, sets);
        from = place + 1;
    }
}

// Enters the first line that `fault` changes, if it changes one.
fn begin(
    pair: &FaultPair,
    wiring: &Wiring,
    queue: &mut NumberQueue,
    cone: &mut Cone,
    sets: &mut Vec<PairSet>,
    fault: Fault,
)
    requires wiring { IsWiring pair.now.circuit.now wiring.now }
    requires fault { IsFaultOf pair.now.circuit.now fault }
    requires split { (line : ℕ) → is_first_changed fault line ≡ true → is_split pair.now.circuit.now pair.now.f pair.now.g line ≡ true }
    requires width { HasWidth pair.now.circuit.now wiring.now.order queue.old cone.old sets.old.items }
    ensures width { HasWidth pair.now.circuit.now wiring.now.order queue.new cone.new sets.new.items }
    ensures spread { (but : ℕ → Bool) → IsSpread pair.now.circuit.now pair.now.f pair.now.g wiring.now.order (λ l. is_first_changed fault l || but l) queue.old cone.old sets.old.items → IsSpread pair.now.circuit.now pair.now.f pair.now.g wiring.now.order but queue.new cone.new sets.new.items }
{
    let Some(line) = first_changed(fault) else {
        return;
    };
    enter(pair, wiring, line, queue, cone, sets);
}

// Sets the pairs of `line` and marks it. Its readers wait from now on.
fn enter(
    pair: &FaultPair,
    wiring: &Wiring,
    line: u32,
    queue: &mut NumberQueue,
    cone: &mut Cone,
    sets: &mut Vec<PairSet>,
)
    requires wiring { IsWiring pair.now.circuit.now wiring.now }
    requires line { line < line_count pair.now.circuit.now }
    requires split { is_split pair.now.circuit.now pair.now.f pair.now.g line ≡ true }
    requires width { HasWidth pair.now.circuit.now wiring.now.order queue.old cone.old sets.old.items }
    ensures width { HasWidth pair.now.circuit.now wiring.now.order queue.new cone.new sets.new.items }
    ensures woken { AreWoken pair.now.circuit.now wiring.now.order line queue.old queue.new }
    ensures spread { (but : ℕ → Bool) → IsSpread pair.now.circuit.now pair.now.f pair.now.g wiring.now.order (λ l. line == l || but l) queue.old cone.old sets.old.items → IsSpread pair.now.circuit.now pair.now.f pair.now.g wiring.now.order but queue.new cone.new sets.new.items }
{
    let pairs = pair.free_line_pairs(sets.as_slice(), line);
    sets[line as usize] = pairs;
    cone.mark(line);
    queue.wake(wiring.readers(line));
}
