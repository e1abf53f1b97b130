//! `PairSim`, a simulation of two faults under a cube: the pairs of values that they may give each line.

ghost use Rattle.std.specs.Prelude.{◌≡◌, ◌<◌, ◌∷◌, [], All, None, IfOk, drop, length};
ghost use Rattle.net_model.specs.declared.fault.Fault.TheVariants.{Free};
ghost use Rattle.net_model.specs.Circuit.{IsCircuit, line_count};
ghost use Rattle.net_model.specs.Fault.{IsFaultOf, stuck_pin};
ghost use Rattle.net_model.specs.Scope.{reached_positions};
ghost use Rattle.pair_sets.specs.Cube.{fixed_bit};
ghost use Rattle.pair_sets.specs.PairSet.{forced_pairs};
ghost use Rattle.pair_sets.specs.CubeState.{set_at, position_pairs, IsState, IsPart};
ghost use Rattle.pair_sets.specs.PairSim.{pair_sim, with_cube};

use crate::base::base_pairs;
use crate::cone::Cone;
use crate::events::change_source;
use crate::fault_pair::FaultPair;
use crate::pair_set::PairSet;
use crate::spread::spread;
use crate::state::PairState;
use crate::tally::{Tally, first_apart};
use crate::trail::PairTrail;
use event_queue::NumberQueue;
use net_model::{Circuit, Fault};
use std::alloc::{AllocError, Global};
use std::marker::Model;

// A fixed source with its bit, and the number of changes of pairs before it was fixed.
#[derive(Clone, Copy, Debug)]
pub(crate) struct Level {
    source: u32,
    bit: bool,
    start: usize,
}

/// Two faults under a cube of input vectors: each line has the pairs of values that they may give it, if what the pins
/// of a gate see is taken as independent. It borrows the circuit and keeps copies of the faults.
#[derive(Debug)]
pub struct PairSim<'a> {
    pair: FaultPair<'a>,
    base: Vec<PairSet>,
    cone: Cone,
    queue: NumberQueue,
    trail: PairTrail,
    tally: Tally,
    levels: Vec<Level>,
}

impl<'a> Model for PairSim<'a> {
    ghost use Rattle.pair_sets.specs.PairSimFields.{pair_sim_of, ArePairSimFields};
    ghost use Rattle.pair_sets.specs.PairSim as spec;

    ghost view = { pair_sim_of };

    ghost invariant = { ArePairSimFields };

    ghost Value = { spec.PairSim };
}

// Written by hand, so that dropping a simulation is one step in a proof.
impl Drop for PairSim<'_> {
    fn drop(self) {
        let PairSim {
            pair: _,
            base: _,
            cone: _,
            queue: _,
            trail: _,
            tally: _,
            levels: _,
        } = self;
    }
}

impl<'a> PairSim<'a> {
    /// Returns the simulation of faults `f` and `g` of `circuit` under the cube of all vectors.
    pub fn new(
        alloc: Global,
        circuit: &'a Circuit,
        f: &Fault,
        g: &Fault,
    ) -> Result<PairSim<'a>, AllocError>
        requires first { IsFaultOf circuit.now f.now }
        requires second { IsFaultOf circuit.now g.now }
        ensures { IfOk result (λ sim. sim ≡ pair_sim circuit.now f.now g.now []) }
    {
        let mut sim = PairSim::free(alloc, circuit)?;
        sim.enter(f, g);
        Ok(sim)
    }

    /// Replaces the two faults by `f` and `g`, and the cube by that of all vectors. It touches only lines that the new
    /// or the old faults can change and lines whose pairs changed with the cube, and allocates no memory.
    pub fn restart(&mut self, f: &Fault, g: &Fault)
        requires first { IsFaultOf self.old.circuit f.now }
        requires second { IsFaultOf self.old.circuit g.now }
        ensures { self.new ≡ pair_sim self.old.circuit f.now g.now [] }
    {
        self.clear();
        self.enter(f, g);
    }

    // Returns the simulation of the circuit without faults, under the cube of all vectors.
    fn free(alloc: Global, circuit: &'a Circuit) -> Result<PairSim<'a>, AllocError>
        ensures { IfOk result (λ sim. sim ≡ pair_sim circuit.now Free Free []) }
    {
        let lines = circuit.lines() as usize;
        let base = base_pairs(alloc, circuit)?;
        let trail = PairTrail::of(alloc, base.as_slice(), 4 * lines)?;
        Ok(PairSim {
            pair: FaultPair {
                circuit,
                f: Fault::Free,
                g: Fault::Free,
            },
            levels: Vec::with_capacity(alloc, circuit.sources() as usize)?,
            queue: NumberQueue::new(alloc, circuit.order().len())?,
            cone: Cone::none(alloc, lines)?,
            tally: Tally::none(alloc, circuit.positions().len())?,
            base,
            trail,
        })
    }

    // Removes both faults and frees all sources.
    fn clear(&mut self)
        ensures { self.new ≡ pair_sim self.old.circuit Free Free [] }
    {
        self.trail.restore(0);
        self.trail.changes.clear();
        self.levels.clear();
        self.trail.copy(self.base.as_slice(), self.cone.lines());
        self.tally.clear();
        self.cone.unmark_all();
        self.pair.f = Fault::Free;
        self.pair.g = Fault::Free;
    }

    // Puts `f` and `g` into a simulation without faults and without fixed sources.
    fn enter(&mut self, f: &Fault, g: &Fault)
        requires free { self.old ≡ pair_sim self.old.circuit Free Free [] }
        requires first { IsFaultOf self.old.circuit f.now }
        requires second { IsFaultOf self.old.circuit g.now }
        ensures { self.new ≡ pair_sim self.old.circuit f.now g.now [] }
    {
        self.pair.f = *f;
        self.pair.g = *g;
        let wiring = self.pair.circuit.wiring();
        spread(
            &self.pair,
            wiring,
            &mut self.queue,
            &mut self.cone,
            &mut self.trail.sets,
        );
        self.tally
            .fill(&self.pair, wiring, &self.cone, self.trail.sets.as_slice());
    }

    /// Fixes the free source `source` at `bit`. It evaluates only gates that read a line whose pairs change, and
    /// allocates no memory.
    pub fn assign(&mut self, source: u32, bit: bool)
        requires source { source < self.old.circuit.sources }
        requires free { fixed_bit self.old.cube source ≡ None }
        ensures { self.new ≡ with_cube self.old ((source, bit) ∷ self.old.cube) }
    {
        let start = self.trail.changes.len();
        let pairs = self.pair.stem_pairs(source, PairSet::fixed(bit));
        change_source(&self.pair, source, pairs, &mut self.queue, &mut self.trail);
        self.tally
            .recount(&self.pair, &self.cone, &self.trail, start);
        self.levels.push_reserved(Level { source, bit, start });
    }

    /// Frees the source that was fixed last. It allocates no memory.
    pub fn undo(&mut self)
        requires { 0 < length self.old.cube }
        ensures { self.new ≡ with_cube self.old (drop 1 self.old.cube) }
    {
        if let Some(level) = self.levels.pop() {
            self.trail.restore(level.start);
            self.tally
                .recount(&self.pair, &self.cone, &self.trail, level.start);
            self.trail.changes.truncate(level.start);
        }
    }

    /// Returns what the pairs at the reached positions say of the cube: `AllSame` if each position shows equal pairs
    /// only; else `Apart` with the lowest position that shows unequal pairs only, if there is one; else `Undecided`,
    /// exactly if some reached position has a pair of two different values and none has such pairs only.
    pub fn state(&self) -> PairState
        ensures { IsState self.now.circuit self.now.f self.now.g self.now.cube result }
    {
        if self.tally.shown.are_equal() {
            return PairState::AllSame;
        }
        if self.tally.shown.none_apart() {
            return PairState::Undecided;
        }
        let sets = self.trail.sets.as_slice();
        let reached = self.tally.reached.as_slice();
        match first_apart(&self.pair, sets, reached) {
            Some(at) => PairState::Apart(at),
            None => PairState::Undecided,
        }
    }
}

impl<'a> PairSim<'a> {
    pub fn circuit(&self) -> &'a Circuit
        ensures value { result.now ≡ self.now.circuit }
        ensures circuit { IsCircuit self.now.circuit }
    {
        self.pair.circuit
    }

    /// Returns the observed positions that the faults can change, ascending.
    pub fn reached(&self) -> &[u32]
        ensures value { result.now ≡ reached_positions self.now.circuit self.now.f self.now.g }
        ensures inside { All (λ at. at < length self.now.circuit.positions) result.now }
        ensures circuit { IsCircuit self.now.circuit }
    {
        self.tally.reached.as_slice()
    }

    /// Returns the pairs of `line`.
    pub fn pairs(&self, line: u32) -> PairSet
        requires { line < line_count self.now.circuit }
        ensures { IsPart self.now.circuit self.now.f self.now.g self.now.cube (λ sets. set_at sets line) result }
    {
        self.trail.sets[line as usize]
    }

    /// Returns the pairs that pin `pin` of the gate of `line` sees if it reads line `read`.
    pub fn pin_pairs(&self, line: u32, pin: u32, read: u32) -> PairSet
        requires { read < line_count self.now.circuit }
        ensures { IsPart self.now.circuit self.now.f self.now.g self.now.cube (λ sets. forced_pairs (stuck_pin self.now.f line pin) (stuck_pin self.now.g line pin) (set_at sets read)) result }
    {
        self.pair
            .pin_pairs(self.trail.sets.as_slice(), line, pin, read)
    }

    /// Returns the pairs that observed position `at` shows.
    pub fn position_pairs(&self, at: u32) -> PairSet
        requires { at < length self.now.circuit.positions }
        ensures { IsPart self.now.circuit self.now.f self.now.g self.now.cube (λ sets. position_pairs self.now.circuit self.now.f self.now.g sets at) result }
    {
        self.pair.position_pairs(self.trail.sets.as_slice(), at)
    }
}
