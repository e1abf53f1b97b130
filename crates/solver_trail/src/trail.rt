//! The trail: what a solver calls.

ghost use Rattle.std.specs.Prelude.{◌≡◌, ◌≤◌, ◌<◌, ◌⊎◌, List, None, Some, IfOk, OnOk, OnErr, MatchOption, length};
ghost use Rattle.clause_pool.specs.Clauses.{Clause, numbered_clause};
ghost use Rattle.clause_pool.specs.Proper.{IsProper};
ghost use Rattle.solver_trail.specs.Assignment.{IsUnset, IsTrail, Propagates, CutsAbove, with_literal, decision, assigned_literals};
ghost use Rattle.solver_trail.specs.Trail.{empty_trail, attached_numbers, Attaches, Fits, IsPropagated, HasLiteral};

use crate::choice::two_to_watch;
use crate::propagation::{Attached, propagate};
use crate::set_literals::SetLiterals;
use crate::watches::Watches;
use clause_pool::{Lit, Pool};
use std::alloc::{AllocError, Global};
use std::marker::Model;

/// What unit propagation ends with: each attached clause has a true literal or two unset ones (`Quiet`), or all
/// literals of the attached clause of this number are false (`Conflict`).
#[derive(Clone, Copy, Debug, PartialEq, Eq)]
pub enum Propagated {
    Quiet,
    Conflict(u32),
}

/// The literals that are set, in order, each with its level and the number of the clause that forced it, and the
/// numbers of the attached clauses, over which propagation goes. The clauses themselves are in a pool.
///
/// Variables are numbered from 1. Each level above 0 begins with its decided literal.
#[derive(Debug)]
pub struct Trail {
    set: SetLiterals,
    attached: Attached,
    watches: Watches,
    // how many of the first set literals have been visited, and stay visited until they are unset
    visited: usize,
}

// Written by hand, it is one step in the proof of each function that drops a trail.
impl Drop for Trail {
    fn drop(self) {
        let Trail {
            set: _,
            attached: _,
            watches: _,
            visited: _,
        } = self;
    }
}

impl Model for Trail {
    ghost use Rattle.solver_trail.specs.Trail.{TrailState};
    ghost use Rattle.solver_trail.specs.Propagation.{trail_state};
    ghost use Rattle.solver_trail.specs.TrailFields.{AreWatchesReady};

    ghost Value = { TrailState };

    ghost view = { λ t. trail_state t.set t.attached t.watches };

    ghost invariant = { λ t. AreWatchesReady t.set t.watches t.visited };
}

impl Trail {
    /// Returns a trail of variables 1 to `variables`, at level 0, with nothing set or attached.
    pub fn new(alloc: Global, variables: u32) -> Result<Trail, AllocError>
        ensures empty { IfOk result (λ trail. trail ≡ empty_trail variables) }
        ensures fits { IfOk result (λ trail. (clauses : List Clause) → Fits trail clauses) }
        ensures trail { IfOk result (λ trail. IsTrail trail.assignment) }
    {
        let set = SetLiterals::new(alloc, variables)?;
        let _ = set.level();
        Ok(Trail {
            set,
            watches: Watches::new(alloc, variables)?,
            attached: Attached {
                short: Vec::new(alloc),
                long: Vec::new(alloc),
            },
            visited: 0,
        })
    }

    /// Attaches clause `number` of the pool, so that propagation goes over it, too. What is set stays as it is.
    /// Returns `AllocError` also if there would be more watches than a `u32` counts. After an error nothing has
    /// changed.
    pub fn attach(&mut self, pool: &Pool, number: u32) -> Result<(), AllocError>
        requires fits { Fits self.old pool.now.clauses }
        requires from { 0 < number }
        requires below { number ≤ length pool.now.clauses }
        requires proper { (clause : Clause) → numbered_clause pool.now.clauses number ≡ Some clause → IsProper self.old.assignment.variables clause }
        ensures attached { OnOk result (Attaches (attached_numbers self.old) (attached_numbers self.new) number) }
        ensures assignment { self.new.assignment ≡ self.old.assignment }
        ensures fits { Fits self.new pool.now.clauses }
        ensures trail { IsTrail self.new.assignment }
        ensures err { OnErr result (self.new ≡ self.old) }
    {
        let clause = pool.get(number);
        match two_to_watch(&self.set, clause) {
            Some(pair) => {
                self.attached.long.reserve(1)?;
                self.watches.watch(pair.first, pair.second)?;
                self.attached.long.push_reserved(number);
                // the literals that made one of the two false are visited again
                let first = self.set.false_from(pair.first);
                let second = self.set.false_from(pair.second);
                self.visited = self.visited.min(first).min(second);
            }
            None => self.attached.short.push(number)?,
        }
        Ok(())
    }

    /// Sets an unset literal at the next level, without a reason. Allocates no memory.
    pub fn decide(&mut self, lit: Lit)
        requires inside { lit.variable ≤ self.old.assignment.variables }
        requires unset { IsUnset self.old.assignment lit.variable }
        ensures assignment { self.new.assignment ≡ with_literal self.old.assignment (decision self.old.assignment lit) }
        ensures attached { attached_numbers self.new ≡ attached_numbers self.old }
        ensures fits { (clauses : List Clause) → Fits self.old clauses → Fits self.new clauses }
        ensures trail { IsTrail self.new.assignment }
    {
        self.set.decide(lit);
    }

    /// Sets the literals that unit propagation over the attached clauses forces, at the present level, with two
    /// watched literals for each longer clause. Returns `Conflict` with a number only if this clause is attached and
    /// all its literals are false, and `Quiet` only if each attached clause has a true literal or two unset ones. In
    /// both cases the new literals follow those that were set, which stay, and the attached clauses are the same.
    /// Allocates no memory.
    pub fn propagate(&mut self, pool: &Pool) -> Propagated
        requires { Fits self.old pool.now.clauses }
        ensures found { IsPropagated self.new pool.now.clauses result }
        ensures assignment { Propagates self.old.assignment self.new.assignment }
        ensures attached { attached_numbers self.new ≡ attached_numbers self.old }
        ensures fits { Fits self.new pool.now.clauses }
        ensures trail { IsTrail self.new.assignment }
    {
        // if literals of lower levels are visited again, after a clause was attached, the visit doesn't count for
        // good
        let steady = self.set.is_steady(self.visited);
        let mut place = self.visited;
        let found = propagate(
            &mut self.set,
            &mut self.watches,
            &self.attached,
            pool,
            &mut place,
        );
        if steady {
            self.visited = place;
        }
        found
    }

    /// Unsets the literals of levels above `level`, which becomes the present one. Allocates no memory.
    pub fn back_to(&mut self, level: u32)
        requires { level ≤ self.old.assignment.level }
        ensures assignment { CutsAbove self.old.assignment self.new.assignment level }
        ensures attached { attached_numbers self.new ≡ attached_numbers self.old }
        ensures fits { (clauses : List Clause) → Fits self.old clauses → Fits self.new clauses }
        ensures trail { IsTrail self.new.assignment }
    {
        self.set.back_to(level);
        self.visited = self.visited.min(self.set.literals().len());
    }

    /// Returns the sign with which the variable is set, none exactly if it is unset.
    pub fn value(&self, variable: u32) -> Option<bool>
        requires from { 0 < variable }
        requires inside { variable ≤ self.now.assignment.variables }
        ensures { MatchOption result (IsUnset self.now.assignment variable) (λ positive. HasLiteral self.now.assignment variable (λ s. s.literal.positive ≡ positive)) }
    {
        let found = self.set.get(variable)?;
        Some(found.literal.positive())
    }

    /// Returns the level at which the variable is set, none exactly if it is unset.
    pub fn level_of(&self, variable: u32) -> Option<u32>
        requires from { 0 < variable }
        requires inside { variable ≤ self.now.assignment.variables }
        ensures { MatchOption result (IsUnset self.now.assignment variable) (λ level. HasLiteral self.now.assignment variable (λ s. s.level ≡ level)) }
    {
        let found = self.set.get(variable)?;
        Some(found.level)
    }

    /// Returns the number of the clause that forced the variable's literal, none exactly if the variable is unset or
    /// was decided.
    pub fn reason(&self, variable: u32) -> Option<u32>
        requires from { 0 < variable }
        requires inside { variable ≤ self.now.assignment.variables }
        ensures { MatchOption result (IsUnset self.now.assignment variable ⊎ HasLiteral self.now.assignment variable (λ s. s.reason ≡ None)) (λ number. HasLiteral self.now.assignment variable (λ s. s.reason ≡ Some number)) }
    {
        self.set.get(variable)?.reason
    }

    /// Returns the present level.
    pub fn level(&self) -> u32
        ensures level { result ≡ self.now.assignment.level }
        ensures trail { IsTrail self.now.assignment }
    {
        self.set.level()
    }

    /// Returns the set literals in the order in which they were set.
    pub fn set_literals(&self) -> &[Lit]
        ensures literals { result.now ≡ assigned_literals self.now.assignment }
        ensures trail { IsTrail self.now.assignment }
    {
        self.set.literals()
    }
}
