//! `Pool`, clauses one after another, with spare room, marks and release.

ghost use Rattle.std.specs.Prelude.{◌≡◌, ◌↔◌, ◌+◌, ◌<◌, ◌≤◌, ◌^◌, [], ◌∷◌, ◌++◌, Some, length, take, max, slice_range, vec_len, vec_capacity, IsErr, IfOk, OnOk, OnErr};
ghost use Rattle.clause_pool.specs.PoolFields.{start_place};
ghost use Rattle.clause_pool.specs.Clauses.{clause_places, literal_places, literal_count, numbered_clause, LacksRoom};

use crate::lit::Lit;
use std::alloc::{AllocError, Global};
use std::marker::Model;
use thiserror::Error;

/// No room is left for a clause.
#[derive(Clone, Copy, Debug, PartialEq, Eq, Error)]
#[error("no room is left for the clause")]
pub struct Full;

/// How many clauses and literals a pool had.
#[derive(Clone, Copy, Debug)]
pub struct Mark {
    pub clauses: usize,
    pub literals: usize,
}

/// Clauses in one region of literals, with room for more of both.
///
/// Clauses are numbered from 1, in the order in which they were pushed.
#[derive(Debug, Drop)]
pub struct Pool {
    ends: Vec<usize>,
    literals: Vec<Lit>,
    spare_clauses: usize,
    spare_literals: usize,
}

impl Model for Pool {
    ghost use Rattle.std.specs.Prelude.{vec_capacity};
    ghost use Rattle.clause_pool.specs.Clauses.{Clauses, clauses_of};
    ghost use Rattle.clause_pool.specs.PoolFields.{HasPlaces};

    ghost Value = { Clauses };

    ghost view = { λ a. record { clauses = clauses_of 0 a.ends.items a.literals.items; spare_clauses = a.spare_clauses; spare_literals = a.spare_literals } };

    ghost invariant = { λ a. HasPlaces a.ends.items a.literals.items a.spare_clauses a.spare_literals (vec_capacity a.ends) (vec_capacity a.literals) };
}

impl Pool {
    /// Returns an empty pool with room for `clauses` clauses and `literals` literals.
    pub fn with_room(alloc: Global, clauses: usize, literals: usize) -> Result<Pool, AllocError>
        requires { clauses < 2 ^ 32 }
        ensures { IfOk result (λ pool. pool ≡ record { clauses = []; spare_clauses = clauses; spare_literals = literals }) }
    {
        let ends = Vec::with_capacity(alloc, clauses)?;
        let region = Vec::with_capacity(alloc, literals)?;
        Ok(Pool {
            ends,
            literals: region,
            spare_clauses: clauses,
            spare_literals: literals,
        })
    }

    /// Makes room for at least `clauses` more clauses and `literals` more literals. After an error nothing has changed.
    pub fn grow(&mut self, clauses: usize, literals: usize) -> Result<(), AllocError>
        requires { length self.old.clauses + clauses < 2 ^ 32 }
        ensures kept { self.new.clauses ≡ self.old.clauses }
        ensures clauses { OnOk result (self.new.spare_clauses ≡ max self.old.spare_clauses clauses) }
        ensures literals { OnOk result (self.new.spare_literals ≡ max self.old.spare_literals literals) }
        ensures err { OnErr result (self.new ≡ self.old) }
    {
        self.ends.reserve(clauses)?;
        self.literals.reserve(literals)?;
        self.spare_clauses = self.spare_clauses.max(clauses);
        self.spare_literals = self.spare_literals.max(literals);
        Ok(())
    }

    /// Adds `clause` and returns its number. Returns `Full` exactly if no clause is spare, or fewer literals are spare
    /// than the clause has. After an error nothing has changed.
    pub fn push(&mut self, clause: &[Lit]) -> Result<u32, Full>
        ensures full { IsErr result ↔ LacksRoom self.old clause.now }
        ensures clauses { OnOk result (self.new.clauses ≡ self.old.clauses ++ clause.now ∷ []) }
        ensures spare_clauses { OnOk result (self.old.spare_clauses ≡ self.new.spare_clauses + 1) }
        ensures spare_literals { OnOk result (self.old.spare_literals ≡ self.new.spare_literals + length clause.now) }
        ensures number { IfOk result (λ number. number ≡ length self.new.clauses) }
        ensures err { OnErr result (self.new ≡ self.old) }
    {
        if self.spare_clauses == 0 || self.spare_literals < clause.len() {
            return Err(Full);
        }
        append(&mut self.literals, clause);
        self.ends.push_reserved(self.literals.len());
        self.spare_clauses -= 1;
        self.spare_literals -= clause.len();
        Ok(self.ends.len() as u32)
    }

    /// Adds `clause` and returns its number. The pool grows if it lacks room. After an error nothing has changed.
    pub fn add(&mut self, clause: &[Lit]) -> Result<u32, AllocError>
        requires { length self.old.clauses + 1 < 2 ^ 32 }
        ensures clauses { OnOk result (self.new.clauses ≡ self.old.clauses ++ clause.now ∷ []) }
        ensures spare_clauses { OnOk result (self.new.spare_clauses + 1 ≡ max self.old.spare_clauses 1) }
        ensures spare_literals { OnOk result (self.new.spare_literals + length clause.now ≡ max self.old.spare_literals (length clause.now)) }
        ensures number { IfOk result (λ number. number ≡ length self.new.clauses) }
        ensures err { OnErr result (self.new ≡ self.old) }
    {
        self.grow(1, clause.len())?;
        match self.push(clause) {
            Ok(number) => Ok(number),
            Err(Full) => unreachable!(),
        }
    }

    /// Returns the number of clauses.
    pub fn len(&self) -> u32
        ensures { result ≡ length self.now.clauses }
    {
        self.ends.len() as u32
    }

    /// Returns the clause with number `number`.
    pub fn get(&self, number: u32) -> &[Lit]
        requires from { 0 < number }
        requires below { number ≤ length self.now.clauses }
        ensures { numbered_clause self.now.clauses number ≡ Some result.now }
    {
        let at = number as usize - 1;
        part(&self.literals, start_of(&self.ends, at), self.ends[at])
    }

    /// Returns for how many more clauses there is room. For tests and for callers from outside.
    pub fn spare_clauses(&self) -> usize
        ensures { result ≡ self.now.spare_clauses }
    {
        self.spare_clauses
    }

    /// Returns for how many more literals there is room. For tests and for callers from outside.
    pub fn spare_literals(&self) -> usize
        ensures { result ≡ self.now.spare_literals }
    {
        self.spare_literals
    }

    /// Returns the state to which `release` can go back.
    pub fn mark(&self) -> Mark
        ensures clauses { result.clauses ≡ length self.now.clauses }
        ensures literals { result.literals ≡ literal_count self.now.clauses }
    {
        Mark {
            clauses: self.ends.len(),
            literals: self.literals.len(),
        }
    }

    /// Drops the clauses after a mark. Their places become spare.
    pub fn release(&mut self, mark: Mark)
        requires clauses { mark.clauses ≤ length self.old.clauses }
        requires literals { literal_count (take mark.clauses self.old.clauses) ≡ mark.literals }
        ensures clauses { self.new.clauses ≡ take mark.clauses self.old.clauses }
        ensures clause_places { clause_places self.new ≡ clause_places self.old }
        ensures literal_places { literal_places self.new ≡ literal_places self.old }
    {
        self.spare_clauses += self.ends.len() - mark.clauses;
        self.spare_literals += self.literals.len() - mark.literals;
        self.ends.truncate(mark.clauses);
        self.literals.truncate(mark.literals);
    }
}

// Returns where the clause at place `at` begins.
fn start_of(ends: &[usize], at: usize) -> usize
    requires { at < length ends.now }
    ensures { result ≡ start_place ends.now at }
{
    if at == 0 { 0 } else { ends[at - 1] }
}

fn part(literals: &[Lit], start: usize, end: usize) -> &[Lit]
    requires start { start ≤ end }
    requires end { end ≤ length literals.now }
    ensures { result.now ≡ slice_range literals.now start end }
{
    &literals[start..end]
}

// Appends `clause` to the region, which has room for it.
fn append(region: &mut Vec<Lit>, clause: &[Lit])
    requires { vec_len region.old + length clause.now ≤ vec_capacity region.old }
    ensures items { region.new.items ≡ region.old.items ++ clause.now }
    ensures capacity { vec_capacity region.new ≡ vec_capacity region.old }
{
    for lit in clause {
        region.push_reserved(*lit);
    }
}
