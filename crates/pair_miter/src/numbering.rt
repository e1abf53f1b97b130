//! The variables of the lines of a miter.

ghost use Rattle.std.specs.Prelude.{◌≡◌, ◌+◌, ◌<◌, true, length, IfOk};
ghost use Rattle.net_model.specs.declared.fault.Fault.TheVariants.{Free};
ghost use Rattle.net_model.specs.Circuit.{IsCircuit, line_count};
ghost use Rattle.net_model.specs.Fault.{IsFaultOf};
ghost use Rattle.net_model.specs.Scope.{is_relevant, is_split, relevant_lines, reached_positions};
ghost use Rattle.pair_scope.specs.PairScope.{AreSplitInOrder};
ghost use Rattle.pair_miter.specs.MiterView.{miter_with};
ghost use Rattle.pair_miter.specs.Numbering.{AreFirstVariables};
ghost use Rattle.pair_miter.specs.Variables.{fault_of, line_variable, line_variables, variables_below};

use crate::side::Side;
use net_model::{Circuit, Fault};
use pair_scope::PairScope;
use std::alloc::{AllocError, Global};
use std::marker::Model;

/// The variables of the lines of the miter of two faults.
#[derive(Debug, Drop)]
pub(crate) struct Numbering<'a> {
    scope: PairScope<'a>,
    // The variable of each relevant line in the first copy. At other lines those of earlier pairs stay.
    firsts: Vec<u32>,
    // The first variable after those of the lines.
    end: u32,
}

impl<'a> Model for Numbering<'a> {
    ghost use Rattle.pair_miter.specs.MiterView.{Miter};
    ghost use Rattle.pair_miter.specs.Numbering.{numbering_of, HasVariables};

    ghost Value = { Miter };

    ghost view = { numbering_of };

    ghost invariant = { HasVariables };
}

impl<'a> Numbering<'a> {
    /// Returns the variables of the miter of `circuit` without faults.
    pub(crate) fn new(alloc: Global, circuit: &'a Circuit) -> Result<Numbering<'a>, AllocError>
        ensures { IfOk result (λ numbering. numbering ≡ miter_with circuit.now Free Free) }
    {
        let mut firsts = vec![in alloc; 0; circuit.lines() as usize]?;
        let scope = PairScope::new(alloc, circuit)?;
        let end = number_lines(&mut firsts, &scope);
        Ok(Numbering { scope, firsts, end })
    }

    /// Replaces the faults by `f` and `g`, and numbers the lines of their miter.
    pub(crate) fn show(&mut self, f: Fault, g: Fault)
        requires first { IsFaultOf self.old.circuit f }
        requires second { IsFaultOf self.old.circuit g }
        ensures { self.new ≡ miter_with self.old.circuit f g }
    {
        self.scope.show(f, g);
        self.end = number_lines(&mut self.firsts, &self.scope);
    }

    pub(crate) fn circuit(&self) -> &'a Circuit
        ensures value { result.now ≡ self.now.circuit }
        ensures circuit { IsCircuit self.now.circuit }
    {
        self.scope.circuit()
    }

    /// Returns the fault of copy `side`.
    pub(crate) fn fault(&self, side: Side) -> Fault
        ensures { result ≡ fault_of self.now.circuit self.now.f self.now.g side }
    {
        match side {
            Side::First => self.scope.first(),
            Side::Second => self.scope.second(),
        }
    }

    /// Returns whether `line` is relevant.
    pub(crate) fn relevant(&self, line: u32) -> bool
        requires { line < line_count self.now.circuit }
        ensures { result ≡ is_relevant self.now.circuit self.now.f self.now.g line }
    {
        self.scope.relevant(line)
    }

    /// Returns whether `line` is split.
    pub(crate) fn split(&self, line: u32) -> bool
        requires { line < line_count self.now.circuit }
        ensures value { result ≡ is_split self.now.circuit self.now.f self.now.g line }
        ensures circuit { IsCircuit self.now.circuit }
    {
        self.scope.split(line)
    }

    /// Returns the relevant lines, ascending.
    pub(crate) fn relevant_lines(&self) -> &[u32]
        ensures value { result.now ≡ relevant_lines self.now.circuit self.now.f self.now.g }
        ensures circuit { IsCircuit self.now.circuit }
    {
        self.scope.relevant_lines()
    }

    /// Returns the reached positions, ascending.
    pub(crate) fn reached_positions(&self) -> &[u32]
        ensures value { result.now ≡ reached_positions self.now.circuit self.now.f self.now.g }
        ensures circuit { IsCircuit self.now.circuit }
    {
        self.scope.reached_positions()
    }

    /// Returns the split lines: the sources, and then the gates, each after those that it reads.
    pub(crate) fn split_lines(&self) -> &[u32]
        ensures value { AreSplitInOrder self.now.circuit self.now.f self.now.g result.now }
        ensures circuit { IsCircuit self.now.circuit }
    {
        self.scope.split_lines()
    }

    /// Returns the variable of a relevant line in copy `side`.
    pub(crate) fn variable(&self, side: Side, line: u32) -> u32
        requires line { line < line_count self.now.circuit }
        requires relevant { is_relevant self.now.circuit self.now.f self.now.g line ≡ true }
        ensures { result ≡ line_variable self.now.circuit self.now.f self.now.g side line }
    {
        let first = self.firsts[line as usize];
        match side {
            Side::Second if self.split(line) => first + 1,
            _ => first,
        }
    }

    /// Returns the first variable after those of the lines.
    pub(crate) fn end(&self) -> u32
        ensures value { result ≡ 1 + variables_below self.now.circuit self.now.f self.now.g (line_count self.now.circuit) }
        ensures circuit { IsCircuit self.now.circuit }
    {
        self.end
    }
}

// Numbers the relevant lines: each gets its variable in the first copy. Returns the first variable after those of the
// lines.
fn number_lines(firsts: &mut Vec<u32>, scope: &PairScope) -> u32
    requires whole { length firsts.old.items ≡ line_count scope.now.circuit }
    requires circuit { IsCircuit scope.now.circuit }
    ensures firsts { AreFirstVariables scope.now.circuit scope.now.f scope.now.g firsts.new.items }
    ensures end { result ≡ 1 + variables_below scope.now.circuit scope.now.f scope.now.g (line_count scope.now.circuit) }
{
    let mut end = 1;
    for line in scope.relevant_lines() {
        firsts[*line as usize] = end;
        end += line_variables(scope, *line);
    }
    end
}

// Returns how many variables a relevant line has.
fn line_variables(scope: &PairScope, line: u32) -> u32
    requires line { line < line_count scope.now.circuit }
    requires relevant { is_relevant scope.now.circuit scope.now.f scope.now.g line ≡ true }
    ensures { result ≡ line_variables scope.now.circuit scope.now.f scope.now.g line }
{
    if scope.split(line) { 2 } else { 1 }
}
