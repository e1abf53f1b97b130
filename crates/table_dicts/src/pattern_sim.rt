//! A circuit with its faults, run on as many patterns at once as there are lanes.

ghost use Rattle.std.specs.Prelude.{◌≡◌, ◌+◌, ◌<◌, ◌≤◌, ℕ, length, min, All, IfOk, slice_range};
ghost use Rattle.net_model.specs.Circuit.{Circuit};
ghost use Rattle.net_model.specs.FaultList.{fault_count, fault_numbered};
ghost use Rattle.net_model.specs.Answer.{bit_at};
ghost use Rattle.fault_sim.specs.FaultSim.{AreDifferences};
ghost use Rattle.table_dicts.specs.Blocks.{IsPatternSim, HasRunPatterns, IsAnswerBit, IsFailBit, IsKeptBit, kept_width};

use crate::simulating::Kept;
use fault_collapse::Subject;
use fault_sim::FaultSim;
use net_model::Vector;
use std::alloc::{AllocError, Global};
use word_sim::{Block, GoodSim, LANES, Lanes};

/// A circuit with its faults, a block of patterns, and the simulators of the circuit without a fault and with one.
#[derive(Debug)]
pub struct PatternSim<'a> {
    pub subject: &'a Subject<'a>,
    pub block: Block,
    pub good: GoodSim<'a>,
    pub sim: FaultSim<'a>,
}

// Written by hand so that a drop of a pattern simulator is one step in the proof of each function that drops one. A
// derived one takes a step for each vector in it.
impl Drop for PatternSim<'_> {
    fn drop(self) {
        let PatternSim {
            subject: _,
            block: _,
            good: _,
            sim: _,
        } = self;
    }
}

impl<'a> PatternSim<'a> {
    /// Returns a simulator of the circuit of `subject`.
    pub fn new(alloc: Global, subject: &'a Subject<'a>) -> Result<PatternSim<'a>, AllocError>
        ensures pattern_sim { IfOk result (λ pattern_sim. IsPatternSim pattern_sim.good.circuit pattern_sim) }
        ensures circuit { IfOk result (λ pattern_sim. pattern_sim.good.circuit ≡ subject.now) }
    {
        let circuit = subject.circuit();
        Ok(PatternSim {
            subject,
            block: Block::new(alloc, circuit.sources())?,
            good: GoodSim::new(alloc, circuit)?,
            sim: FaultSim::new(alloc, circuit)?,
        })
    }

    /// Runs the patterns starting at `first`, at most as many as there are lanes, and returns the place after the last
    /// one.
    pub fn run(&mut self, patterns: &[Vector], first: usize) -> usize
        requires pattern_sim { IsPatternSim self.old.good.circuit self.old }
        requires widths { All (λ v. length v ≡ self.old.good.circuit.sources) patterns.now }
        requires first { first ≤ length patterns.now }
        ensures run { HasRunPatterns self.new }
        ensures circuit { self.new.good.circuit ≡ self.old.good.circuit }
        ensures vectors { self.new.block.vectors ≡ slice_range patterns.now first result }
        ensures end { result ≡ min (first + LANES) (length patterns.now) }
    {
        let end = first + (patterns.len() - first).min(LANES as usize);
        fill_block(&mut self.block, patterns, first, end);
        self.good.run(&self.block);
        end
    }

    /// Injects the fault with the number into the patterns that were run.
    pub fn inject(&mut self, number: u32)
        requires run { HasRunPatterns self.old }
        requires number { number < fault_count self.old.good.circuit }
        ensures kept { self.new ≡ record self.old { sim = self.new.sim } }
        ensures run { HasRunPatterns self.new }
        ensures differ { AreDifferences self.new.good.circuit (fault_numbered self.new.good.circuit number) self.new.block.vectors self.new.sim.differences }
    {
        self.sim.inject(&self.good, &self.subject.fault(number));
    }

    /// Returns what is kept of the injected number's answers at a position, with a lane for each pattern that was run.
    pub(crate) fn lanes(&self, kept: Kept, number: u32, position: u32) -> Lanes
        requires run { HasRunPatterns self.now }
        requires position { position < kept_width kept (length self.now.good.circuit.positions) }
        requires differ { AreDifferences self.now.good.circuit (fault_numbered self.now.good.circuit number) self.now.block.vectors self.now.sim.differences }
        ensures { (lane : ℕ) → lane < length self.now.block.vectors → IsKeptBit kept self.now.good.circuit self.now.block.vectors lane number position (bit_at result lane) }
    {
        match kept {
            Kept::Bits => self.shown(number, position),
            Kept::Fails => self.failing(number),
        }
    }

    // Returns the bits of the injected number's answers at a position, with a lane for each pattern that was run.
    fn shown(&self, number: u32, position: u32) -> Lanes
        requires run { HasRunPatterns self.now }
        requires position { position < length self.now.good.circuit.positions }
        requires differ { AreDifferences self.now.good.circuit (fault_numbered self.now.good.circuit number) self.now.block.vectors self.now.sim.differences }
        ensures { (lane : ℕ) → lane < length self.now.block.vectors → IsAnswerBit self.now.good.circuit self.now.block.vectors lane number position (bit_at result lane) }
    {
        let line = self.good.circuit().positions()[position as usize];
        self.good.lanes(line).xor(self.sim.differs(position))
    }

    // Returns whether the injected number's answers differ from the fault-free ones, with a lane for each pattern that
    // was run.
    fn failing(&self, number: u32) -> Lanes
        requires run { HasRunPatterns self.now }
        requires differ { AreDifferences self.now.good.circuit (fault_numbered self.now.good.circuit number) self.now.block.vectors self.now.sim.differences }
        ensures { (lane : ℕ) → lane < length self.now.block.vectors → IsFailBit self.now.good.circuit self.now.block.vectors lane number 0 (bit_at result lane) }
    {
        self.sim.any_difference()
    }
}

/// Fills the block with the patterns in the range from `first` up to `end`.
pub fn fill_block(block: &mut Block, patterns: &[Vector], first: usize, end: usize)
    requires widths { All (λ v. length v ≡ block.old.sources) patterns.now }
    requires order { first ≤ end }
    requires few { end ≤ first + LANES }
    requires within { end ≤ length patterns.now }
    ensures sources { block.new.sources ≡ block.old.sources }
    ensures vectors { block.new.vectors ≡ slice_range patterns.now first end }
{
    block.clear();
    for at in first..end {
        block.push(&patterns[at]);
    }
}
