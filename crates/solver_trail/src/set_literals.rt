//! The literals that are set, in order, with their levels and reasons.

ghost use Rattle.std.specs.Prelude.{◌≡◌, ◌<◌, ◌≤◌, ◌+◌, ◌-◌, ◌↔◌, [], None, Some, Contains, IsTrue, IsFalse, IfOk, length, take, vec_capacity};
ghost use Rattle.std.specs.List.{HoldsAt};
ghost use Rattle.solver_trail.specs.Assignment.{IsUnset, IsSetAt, IsValueOf, IsTrail, FollowsLevel, CutsAbove, IsSteady, IsNotFalseBefore, with_literal, decision, assigned_literals};
ghost use Rattle.solver_trail.specs.declared.set_literals.SetLiteral.{SetLiteral};
ghost use Rattle.solver_trail.specs.StackFields.{ArePlaced};

use clause_pool::Lit;
use std::alloc::{AllocError, Global};
use std::marker::Model;

/// A literal that is set, its level, and the number of the clause that forced it, or none if it was decided.
#[derive(Clone, Copy, Debug)]
pub(crate) struct SetLiteral {
    pub(crate) literal: Lit,
    pub(crate) level: u32,
    pub(crate) reason: Option<u32>,
}

/// The sign with which a variable is set, and the place of its literal among the set ones.
#[derive(Clone, Copy, Debug)]
pub(crate) struct Slot {
    positive: bool,
    place: u32,
}

/// The set literals of variables 1 and up, as a stack. The slots are by variable; slot 0 belongs to no variable.
#[derive(Debug, Drop)]
pub(crate) struct SetLiterals {
    variables: u32,
    level: u32,
    literals: Vec<Lit>,
    entries: Vec<SetLiteral>,
    slots: Vec<Option<Slot>>,
}

impl Model for SetLiterals {
    ghost use Rattle.std.specs.Prelude.{vec_capacity};
    ghost use Rattle.solver_trail.specs.Assignment.{Assignment};
    ghost use Rattle.solver_trail.specs.StackFields.{IsStack};

    ghost Value = { Assignment };

    ghost view = { λ s. record { variables = s.variables; literals = s.entries.items; level = s.level } };

    ghost invariant = { λ s. IsStack s.variables s.level s.literals.items s.entries.items s.slots.items (vec_capacity s.literals) (vec_capacity s.entries) };
}

impl SetLiterals {
    /// Returns the stack for variables 1 to `variables`, with none of them set.
    pub(crate) fn new(alloc: Global, variables: u32) -> Result<SetLiterals, AllocError>
        ensures { IfOk result (λ set. set ≡ record { variables = variables; literals = []; level = 0 }) }
    {
        let size = variables as usize + 1;
        Ok(SetLiterals {
            variables,
            level: 0,
            literals: Vec::with_capacity(alloc, size)?,
            entries: Vec::with_capacity(alloc, size)?,
            slots: vec![in alloc; None; size]?,
        })
    }

    pub(crate) fn level(&self) -> u32
        ensures level { result ≡ self.now.level }
        ensures trail { IsTrail self.now }
    {
        self.level
    }

    pub(crate) fn literals(&self) -> &[Lit]
        ensures literals { result.now ≡ assigned_literals self.now }
        ensures trail { IsTrail self.now }
    {
        self.literals.as_slice()
    }

    /// Returns the set literal of the variable, with its level and reason, or none if the variable is unset.
    pub(crate) fn get(&self, variable: u32) -> Option<SetLiteral>
        requires { variable ≤ self.now.variables }
        ensures { IsSetAt self.now variable result }
    {
        let slot = self.slots[variable as usize]?;
        Some(self.entries[slot.place as usize])
    }

    /// Returns whether the literal is true or false, or none if it is neither.
    pub(crate) fn value_of(&self, lit: Lit) -> Option<bool>
        requires { lit.variable ≤ self.now.variables }
        ensures value { IsValueOf self.now lit result }
        ensures trail { IsTrail self.now }
    {
        let slot = self.slots[lit.variable() as usize]?;
        Some(slot.positive == lit.positive())
    }

    pub(crate) fn is_true(&self, lit: Lit) -> bool
        requires { lit.variable ≤ self.now.variables }
        ensures { IsTrue result ↔ Contains (assigned_literals self.now) lit }
    {
        match self.value_of(lit) {
            Some(value) => value,
            None => false,
        }
    }

    /// Returns the place of the set literal that makes `lit` false, or a number above all places if `lit` isn't
    /// false.
    pub(crate) fn false_from(&self, lit: Lit) -> usize
        requires { lit.variable ≤ self.now.variables }
        ensures { IsNotFalseBefore self.now result lit }
    {
        match self.slots[lit.variable() as usize] {
            Some(slot) if slot.positive != lit.positive() => slot.place as usize,
            Some(_) | None => usize::MAX,
        }
    }

    /// Returns true only if all set literals from `place` up are of the present level.
    pub(crate) fn is_steady(&self, place: usize) -> bool
        ensures { IsTrue result → IsSteady self.now place }
    {
        place >= self.entries.len() || self.entries[place].level == self.level
    }

    /// Sets an unset literal: at the present level if it has a reason, else at the next one. Allocates no memory.
    pub(crate) fn put(&mut self, lit: Lit, level: u32, reason: Option<u32>)
        requires inside { lit.variable ≤ self.old.variables }
        requires unset { IsUnset self.old lit.variable }
        requires level { FollowsLevel self.old.level (record { literal = lit; level = level; reason = reason }) }
        ensures literals { self.new ≡ with_literal self.old (record { literal = lit; level = level; reason = reason }) }
        ensures trail { IsTrail self.new }
    {
        self.slots[lit.variable() as usize] = Some(Slot {
            positive: lit.positive(),
            place: self.entries.len() as u32,
        });
        self.literals.push_reserved(lit);
        self.entries.push_reserved(SetLiteral {
            literal: lit,
            level,
            reason,
        });
        self.level = level;
    }

    /// Sets an unset literal at the next level, without a reason. Allocates no memory.
    pub(crate) fn decide(&mut self, lit: Lit)
        requires inside { lit.variable ≤ self.old.variables }
        requires unset { IsUnset self.old lit.variable }
        ensures literals { self.new ≡ with_literal self.old (decision self.old lit) }
        ensures trail { IsTrail self.new }
    {
        // no literal is of variable 0, so not all slots are in use
        let _variable = lit.variable();
        self.put(lit, self.level + 1, None);
    }

    /// Unsets the literals of levels above `level`, which becomes the present one. Allocates no memory.
    pub(crate) fn back_to(&mut self, level: u32)
        requires { level ≤ self.old.level }
        ensures cut { CutsAbove self.old self.new level }
        ensures trail { IsTrail self.new }
    {
        while ends_above(self.entries.as_slice(), level) {
            unset_last(&mut self.literals, &mut self.entries, &mut self.slots);
        }
        self.level = level;
    }
}

// Whether the last literal has a level above `level`.
fn ends_above(entries: &[SetLiteral], level: u32) -> bool
    ensures above { IsTrue result → (0 < length entries.now) × HoldsAt (λ (s : SetLiteral). level < s.level) entries.now (length entries.now - 1) }
    ensures not { IsFalse result → 0 < length entries.now → HoldsAt (λ (s : SetLiteral). s.level ≤ level) entries.now (length entries.now - 1) }
{
    match entries.last() {
        Some(last) => last.level > level,
        None => false,
    }
}

fn unset_last(literals: &mut Vec<Lit>, entries: &mut Vec<SetLiteral>, slots: &mut Vec<Option<Slot>>)
    requires some { 0 < length entries.old.items }
    requires placed { ArePlaced (length slots.old.items - 1) literals.old.items entries.old.items slots.old.items }
    ensures cut { entries.new.items ≡ take (length entries.old.items - 1) entries.old.items }
    ensures placed { ArePlaced (length slots.old.items - 1) literals.new.items entries.new.items slots.new.items }
    ensures literal_room { vec_capacity literals.new ≡ vec_capacity literals.old }
    ensures entry_room { vec_capacity entries.new ≡ vec_capacity entries.old }
{
    if let Some(last) = entries.pop() {
        slots[last.literal.variable() as usize] = None;
        literals.pop();
    }
}
