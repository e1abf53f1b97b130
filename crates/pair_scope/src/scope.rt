//! The scope of a pair of faults: what either of them can change, and what that depends on.

ghost use Rattle.std.specs.Prelude.{◌≡◌, ◌<◌, IfOk, length};
ghost use Rattle.net_model.specs.declared.fault.Fault.TheVariants.{Free};
ghost use Rattle.net_model.specs.Circuit.{IsCircuit, line_count};
ghost use Rattle.net_model.specs.Fault.{IsFaultOf};
ghost use Rattle.net_model.specs.Scope.{is_split, is_relevant, is_reached, relevant_lines, reached_positions};
ghost use Rattle.pair_scope.specs.PairScope.{pair_scope, AreSplitInOrder};

use crate::listed::Listed;
use crate::places::LinePlaces;
use crate::reached::wake_reached;
use crate::relevant::find_relevant;
use crate::split::list_split;
use event_queue::NumberQueue;
use net_model::{Circuit, Fault};
use std::alloc::{AllocError, Global};
use std::marker::Model;

/// The scope of a pair of faults of a circuit, in memory that is reused from pair to pair. A line is split if one of
/// the faults reaches it, and a position is reached if it shows a split line or is the site of one of the faults. The
/// lines of reached positions are relevant, and so are all lines that lead to them.
#[derive(Debug)]
pub struct PairScope<'a> {
    places: LinePlaces<'a>,
    f: Fault,
    g: Fault,
    split: Listed,
    reached: Listed,
    relevant: Listed,
    waiting: NumberQueue,
    found: NumberQueue,
    positions: NumberQueue,
}

impl<'a> Model for PairScope<'a> {
    ghost use Rattle.pair_scope.specs.ScopeFields.{pair_scope_of, AreScopeFields};
    ghost use Rattle.pair_scope.specs.PairScope as spec;

    ghost view = { pair_scope_of };

    ghost invariant = { AreScopeFields };

    ghost Value = { spec.PairScope };
}

// Written by hand, so that dropping a scope is one step in a proof.
impl Drop for PairScope<'_> {
    fn drop(self) {
        let PairScope {
            places: _,
            f: _,
            g: _,
            split: _,
            reached: _,
            relevant: _,
            waiting: _,
            found: _,
            positions: _,
        } = self;
    }
}

impl<'a> PairScope<'a> {
    /// Returns the scope of `circuit` without faults: nothing is split, reached or relevant.
    pub fn new(alloc: Global, circuit: &'a Circuit) -> Result<PairScope<'a>, AllocError>
        ensures { IfOk result (λ scope. scope ≡ pair_scope circuit.now Free Free) }
    {
        let lines = circuit.lines() as usize;
        let positions = circuit.positions().len();
        Ok(PairScope {
            places: LinePlaces::of(alloc, circuit)?,
            f: Fault::Free,
            g: Fault::Free,
            split: Listed::none(alloc, lines)?,
            reached: Listed::none(alloc, positions)?,
            relevant: Listed::none(alloc, lines)?,
            waiting: NumberQueue::new(alloc, lines)?,
            found: NumberQueue::new(alloc, lines)?,
            positions: NumberQueue::new(alloc, positions)?,
        })
    }

    /// Replaces the two faults by `f` and `g`. It touches only lines and positions that are in the scope of the old or
    /// the new faults, and allocates no memory.
    pub fn show(&mut self, f: Fault, g: Fault)
        requires first { IsFaultOf self.old.circuit f }
        requires second { IsFaultOf self.old.circuit g }
        ensures { self.new ≡ pair_scope self.old.circuit f g }
    {
        self.split.clear();
        self.reached.clear();
        self.relevant.clear();
        self.f = f;
        self.g = g;
        list_split(&self.places, f, g, &mut self.waiting, &mut self.split);
        let split = self.split.numbers.as_slice();
        wake_reached(&self.places, f, g, split, &mut self.positions);
        self.reached.drain(&mut self.positions);
        let reached = self.reached.numbers.as_slice();
        find_relevant(&self.places, reached, &mut self.waiting, &mut self.found);
        self.relevant.drain(&mut self.found);
    }
}

impl<'a> PairScope<'a> {
    pub fn circuit(&self) -> &'a Circuit
        ensures value { result.now ≡ self.now.circuit }
        ensures circuit { IsCircuit self.now.circuit }
    {
        self.places.circuit
    }

    pub fn first(&self) -> Fault
        ensures value { result ≡ self.now.f }
        ensures fault { IsFaultOf self.now.circuit result }
    {
        self.f
    }

    pub fn second(&self) -> Fault
        ensures value { result ≡ self.now.g }
        ensures fault { IsFaultOf self.now.circuit result }
    {
        self.g
    }

    /// Returns whether `line` is split.
    pub fn split(&self, line: u32) -> bool
        requires { line < line_count self.now.circuit }
        ensures { result ≡ is_split self.now.circuit self.now.f self.now.g line }
    {
        self.split.marks[line as usize]
    }

    /// Returns whether `line` is relevant.
    pub fn relevant(&self, line: u32) -> bool
        requires { line < line_count self.now.circuit }
        ensures { result ≡ is_relevant self.now.circuit self.now.f self.now.g line }
    {
        self.relevant.marks[line as usize]
    }

    /// Returns whether `position` is reached. The program uses `reached_positions`; this is for tests and for callers
    /// from outside.
    pub fn reached(&self, position: u32) -> bool
        requires { position < length self.now.circuit.positions }
        ensures { result ≡ is_reached self.now.circuit self.now.f self.now.g position }
    {
        self.reached.marks[position as usize]
    }

    /// Returns the split lines: the sources ascending, and after them the gates in an evaluation order.
    pub fn split_lines(&self) -> &[u32]
        ensures lines { AreSplitInOrder self.now.circuit self.now.f self.now.g result.now }
        ensures circuit { IsCircuit self.now.circuit }
    {
        self.split.numbers.as_slice()
    }

    /// Returns the relevant lines, ascending.
    pub fn relevant_lines(&self) -> &[u32]
        ensures lines { result.now ≡ relevant_lines self.now.circuit self.now.f self.now.g }
        ensures circuit { IsCircuit self.now.circuit }
    {
        self.relevant.numbers.as_slice()
    }

    /// Returns the reached positions, ascending.
    pub fn reached_positions(&self) -> &[u32]
        ensures positions { result.now ≡ reached_positions self.now.circuit self.now.f self.now.g }
        ensures circuit { IsCircuit self.now.circuit }
    {
        self.reached.numbers.as_slice()
    }
}
