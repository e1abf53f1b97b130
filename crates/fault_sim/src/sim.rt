//! The simulator of single stuck-at faults (parallel-pattern single-fault propagation, PPSFP).

ghost use Rattle.std.specs.Prelude.{◌≡◌, ℕ, ◌<◌, ◌↔◌, length, All, AllPairs, Contains, IsSome, IsTrue, IfOk};
ghost use Rattle.net_model.specs.Circuit.{IsCircuit};
ghost use Rattle.net_model.specs.Fault.{IsFaultOf};
ghost use Rattle.net_model.specs.Answer.{bit_at};
ghost use Rattle.word_sim.specs.GoodSim.{vectors_of};
ghost use Rattle.fault_heads.specs.Turned.{IsHeadOf, IsLive};
ghost use Rattle.fault_sim.specs.Rows.{IsFalse, IsTrueSomewhere};
ghost use Rattle.fault_sim.specs.FaultSim.{lanes_at, AreDifferences, AreTurnedDifferences, IsSomeDifference};

use crate::events::{mark_positions, show_positions, turn_line};
use crate::rows::Rows;
use event_queue::NumberQueue;
use fault_heads::{Head, first_turn};
use net_model::{Circuit, Fault};
use std::alloc::{AllocError, Global};
use std::marker::Model;
use word_sim::{GoodSim, LANES, Lanes};

/// Where the answers under the fault that was injected last, or with the head that was turned last, differ from the
/// fault-free ones, in each lane.
#[derive(Debug)]
pub struct FaultSim<'a> {
    circuit: &'a Circuit,
    queue: NumberQueue,
    marks: NumberQueue,
    lines: Rows,
    positions: Rows,
}

// Written by hand, since the proof of each function that drops a simulator then has one step for it; a derived drop
// takes a step for each vector in it.
impl Drop for FaultSim<'_> {
    fn drop(self) {
        let FaultSim {
            circuit: _,
            queue: _,
            marks: _,
            lines: _,
            positions: _,
        } = self;
    }
}

impl<'a> Model for FaultSim<'a> {
    ghost use Rattle.fault_sim.specs.FaultSim as spec;
    ghost use Rattle.fault_sim.specs.FaultSimFields.{AreFaultSimFields};

    ghost Value = { spec.FaultSim };

    ghost view = { λ s. record { circuit = s.circuit.now; differences = s.positions.rows } };

    ghost invariant = { AreFaultSimFields };
}

impl<'a> FaultSim<'a> {
    /// Returns a simulator of the faults of `circuit`. Nothing differs before the first injection or turn.
    pub fn new(alloc: Global, circuit: &'a Circuit) -> Result<FaultSim<'a>, AllocError>
        ensures circuit { IfOk result (λ sim. sim.circuit ≡ circuit.now) }
        ensures whole { IfOk result (λ sim. length sim.differences ≡ length circuit.now.positions) }
        ensures same { IfOk result (λ sim. All IsFalse sim.differences) }
    {
        let lines = circuit.lines() as usize;
        let positions = circuit.positions().len();
        Ok(FaultSim {
            circuit,
            queue: NumberQueue::new(alloc, lines)?,
            marks: NumberQueue::new(alloc, positions)?,
            lines: Rows::new(alloc, lines, lines + 1)?,
            positions: Rows::new(alloc, positions, positions)?,
        })
    }

    /// Evaluates `fault` at the vectors of the block that `good` ran last. Only the fault's own gate and the gates that
    /// read a changed line are evaluated. It takes no memory.
    pub fn inject(&mut self, good: &GoodSim, fault: &Fault)
        requires circuit { good.now.circuit ≡ self.old.circuit }
        requires ran { IsSome good.now.ran }
        requires fault { IsFaultOf self.old.circuit fault.now }
        ensures circuit { self.new.circuit ≡ self.old.circuit }
        ensures differences { AreDifferences self.new.circuit fault.now (vectors_of good.now) self.new.differences }
    {
        let live = good.live();
        match first_turn(good, *fault) {
            Some(turn) => self.flip_live(good, live, turn.head, turn.lanes),
            None => self.clear(),
        }
    }

    /// Evaluates `head`, turned in `lanes`, at the vectors of the block that `good` ran last. Lanes without a vector
    /// are left out. Only gates that read a changed line are evaluated, and never the head's own. It takes no memory.
    pub fn flip(&mut self, good: &GoodSim, head: Head, lanes: Lanes)
        requires circuit { good.now.circuit ≡ self.old.circuit }
        requires ran { IsSome good.now.ran }
        requires head { IsHeadOf self.old.circuit head }
        ensures circuit { self.new.circuit ≡ self.old.circuit }
        ensures differences { AreTurnedDifferences good.now head lanes self.new.differences }
    {
        self.flip_live(good, good.live(), head, lanes);
    }

    // Does what `flip` does. `live` has the lanes that have a vector.
    fn flip_live(&mut self, good: &GoodSim, live: Lanes, head: Head, lanes: Lanes)
        requires circuit { good.now.circuit ≡ self.old.circuit }
        requires live { IsLive good.now live }
        requires head { IsHeadOf self.old.circuit head }
        ensures circuit { self.new.circuit ≡ self.old.circuit }
        ensures differences { AreTurnedDifferences good.now head lanes self.new.differences }
    {
        let turned = lanes.and(live);
        self.lines.clear();
        self.positions.clear();
        if !turned.any() {
            return;
        }
        match head {
            Head::Line(line) => {
                turn_line(good, live, line, turned, &mut self.queue, &mut self.lines);
                mark_positions(self.circuit, &self.lines, &mut self.marks);
                let (shown, lines) = (self.circuit.positions(), self.lines.as_slice());
                show_positions(shown, lines, &mut self.marks, &mut self.positions);
            }
            Head::Position(at) => self.positions.set(at, turned),
        }
    }

    // Makes nothing differ.
    fn clear(&mut self)
        ensures circuit { self.new.circuit ≡ self.old.circuit }
        ensures whole { length self.new.differences ≡ length self.new.circuit.positions }
        ensures same { All IsFalse self.new.differences }
        ensures built { IsCircuit self.new.circuit }
    {
        self.lines.clear();
        self.positions.clear();
    }

    /// Returns in which lanes the answers differ at `position`. A lane without a vector is false.
    pub fn differs(&self, position: u32) -> Lanes
        requires { position < length self.now.circuit.positions }
        ensures { result ≡ lanes_at self.now position }
    {
        self.positions.row(position)
    }

    /// Returns the positions that differ in some lane, ascending.
    pub fn differing_positions(&self) -> &[u32]
        ensures within { All (λ position. position < length self.now.circuit.positions) result.now }
        ensures exactly { (position : ℕ) → position < length self.now.circuit.positions → Contains result.now position ↔ IsTrueSomewhere (lanes_at self.now position) }
        ensures ascending { AllPairs ◌<◌ result.now }
    {
        self.positions.listed()
    }

    /// Returns in which lanes the answers differ at some position.
    pub fn any_difference(&self) -> Lanes
        ensures { (lane : ℕ) → lane < LANES → IsTrue (bit_at result lane) ↔ IsSomeDifference self.now lane }
    {
        let mut lanes = Lanes::all(false);
        for position in self.positions.listed() {
            lanes = lanes.or(self.positions.row(*position));
        }
        lanes
    }
}
