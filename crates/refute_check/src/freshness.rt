//! `fresh`, by unit propagation along the clauses of each literal: whether a clause adds something to unit
//! propagation.

ghost use Rattle.std.specs.Prelude.{◌≡◌, ◌↔◌, ◌<◌, ◌≤◌, ◌+◌, ◌∷◌, [], ◌++◌, ℕ, List, All, IsTrue, IsFalse, IfOk, OnOk, length, slice_index_or};
ghost use Rattle.clause_pool.specs.Clauses.{Clause};
ghost use Rattle.clause_pool.specs.Literal.{Literal};
ghost use Rattle.clause_pool.specs.LiteralCode.{code_of};
ghost use Rattle.clause_pool.specs.Proper.{HasVariablesUpTo, IsVariable};
ghost use Rattle.pair_miter.specs.Fresh.{IsFresh};
ghost use Rattle.refute_check.specs.Assignment.{IsAssignment};
ghost use Rattle.refute_check.specs.Closure.{AssumesOthers, HoldsOthers, IsClosure, IsStep};
ghost use Rattle.refute_check.specs.Held.{IsLiteralOpen, IsQuietAt};
ghost use Rattle.refute_check.specs.Index.{IsIndexOf, IsClauseNumber};
ghost use Rattle.refute_check.specs.Looked.{IsLookedAt};
ghost use Rattle.refute_check.specs.Propagation.{AreLooked, AreClausesSettled, HoldsMore, IsPropagatorReady};

use crate::assignment::{Assignment, Look};
use crate::index::Index;
use crate::looked::Looked;
use clause_pool::{Lit, Pool};
use std::alloc::{AllocError, Global};

/// Returns true exactly if the clause is fresh at its literal `at` over the clauses of the pool: when the clause's
/// other literals are false, unit propagation leaves `at` undetermined and finds no false clause. Returns false also
/// if the clause doesn't have the literal.
///
/// All variables are from 1 to `variables`.
pub fn fresh(
    alloc: Global,
    pool: &Pool,
    variables: u32,
    clause: &[Lit],
    at: Lit,
) -> Result<bool, AllocError>
    requires pool { All (HasVariablesUpTo variables) pool.now.clauses }
    requires clause { HasVariablesUpTo variables clause.now }
    requires at { IsVariable variables at.variable }
    ensures { IfOk result (λ fresh. IsTrue fresh ↔ IsFresh pool.now.clauses clause.now at) }
{
    let mut propagator = Propagator::new(alloc, pool, variables)?;
    Ok(propagator.fresh(pool, variables, clause, at))
}

/// Unit propagation over the clauses of a pool. No literal is held between its calls.
#[derive(Drop)]
pub(crate) struct Propagator {
    pub(crate) looked: Looked,
    pub(crate) held: Assignment,
    pub(crate) index: Index,
}

impl Propagator {
    /// Returns a propagator for the clauses of the pool, whose variables are from 1 to `variables`.
    pub(crate) fn new(alloc: Global, pool: &Pool, variables: u32) -> Result<Propagator, AllocError>
        requires { All (HasVariablesUpTo variables) pool.now.clauses }
        ensures { IfOk result (IsPropagatorReady variables pool.now.clauses) }
    {
        Ok(Propagator {
            looked: Looked::none(alloc, pool.len())?,
            held: Assignment::new(alloc, variables)?,
            index: Index::of(alloc, pool, variables)?,
        })
    }

    /// Returns a propagator for no clauses.
    pub(crate) fn idle(alloc: Global) -> Result<Propagator, AllocError> {
        Ok(Propagator {
            looked: Looked::none(alloc, 0)?,
            held: Assignment::new(alloc, 0)?,
            index: Index::none(alloc, 0)?,
        })
    }

    /// Adds the next clause of the pool, which has this number.
    pub(crate) fn add(&mut self, clause: &[Lit], number: u32) -> Result<(), AllocError>
        requires { All (λ l. code_of l < length self.old.index.lists) clause.now }
        ensures { OnOk result ((variables : ℕ) (clauses : List Clause) → length clauses + 1 ≡ number → IsPropagatorReady variables clauses self.old → IsPropagatorReady variables (clauses ++ clause.now ∷ []) self.new) }
    {
        self.index.add(clause, number)?;
        self.looked.add()?;
        Ok(())
    }

    /// Returns whether the clause is fresh at its literal `at`. Allocates no memory.
    pub(crate) fn fresh(&mut self, pool: &Pool, variables: u32, clause: &[Lit], at: Lit) -> bool
        requires ready { IsPropagatorReady variables pool.now.clauses self.old }
        requires pool { All (HasVariablesUpTo variables) pool.now.clauses }
        requires clause { HasVariablesUpTo variables clause.now }
        requires at { IsVariable variables at.variable }
        ensures fresh { IsTrue result ↔ IsFresh pool.now.clauses clause.now at }
        ensures ready { IsPropagatorReady variables pool.now.clauses self.new }
    {
        if !clause.contains(&at) {
            return false;
        }
        let fresh = hold_others(&mut self.held, clause, at)
            && close(
                &mut self.held,
                &mut self.looked,
                pool,
                &self.index,
                variables,
                at,
            );
        self.looked.forget(self.held.trail.len());
        self.held.clear();
        fresh
    }
}

// Holds the opposites of the clause's other literals. Returns false exactly if no consistent set of literals holds them
// and leaves `at` undetermined.
fn hold_others(held: &mut Assignment, clause: &[Lit], at: Lit) -> bool
    requires assignment { IsAssignment held.old }
    requires at { at.variable < length held.old.values.items }
    requires clause { All (λ (l : Literal). l.variable < length held.old.values.items) clause.now }
    requires empty { (l : Literal) → IsLiteralOpen held.old.values.items l }
    ensures assignment { IsAssignment held.new }
    ensures size { length held.new.values.items ≡ length held.old.values.items }
    ensures held { IsTrue result → AssumesOthers clause.now at held.new.values.items }
    ensures none { IsFalse result → (set : List Literal) → ¬ HoldsOthers clause.now at set }
{
    for lit in clause {
        if *lit == at {
            continue;
        }
        if lit.variable() == at.variable() {
            return false;
        }
        match held.value(*lit) {
            Some(true) => return false,
            Some(false) => {}
            None => held.hold(lit.opposite()),
        }
    }
    true
}

// Holds all that unit propagation forces. Returns whether it leaves `at` undetermined and no clause false.
//
// A clause is looked at once for all of its literals that were false by then.
fn close(
    held: &mut Assignment,
    looked: &mut Looked,
    pool: &Pool,
    index: &Index,
    variables: u32,
    at: Lit,
) -> bool
    requires assignment { IsAssignment held.old }
    requires looked { AreLooked pool.now.clauses held.old looked.old }
    requires index { IsIndexOf variables pool.now.clauses index.now.lists index.now.short.items }
    requires size { length held.old.values.items ≡ variables + 1 }
    requires pool { All (HasVariablesUpTo variables) pool.now.clauses }
    requires at { IsLiteralOpen held.old.values.items at }
    ensures assignment { IsAssignment held.new }
    ensures size { length held.new.values.items ≡ length held.old.values.items }
    ensures room { length looked.new.stamps.items ≡ length looked.old.stamps.items }
    ensures earlier { (number at : ℕ) → IsLookedAt looked.new number at → at ≤ length held.new.trail.items }
    ensures step { IsTrue result → IsStep pool.now.clauses at held.old.values.items held.new.values.items }
    ensures quiet { IsTrue result → All (IsQuietAt held.new.values.items) pool.now.clauses }
    ensures none { IsFalse result → (set : List Literal) → ¬ IsClosure pool.now.clauses at held.old.values.items set }
{
    if !visit(held, looked, pool, index.short.as_slice(), 0, at) {
        return false;
    }
    let mut head = 0;
    while head < held.trail.len() {
        let falsified = held.trail[head].opposite();
        head += 1;
        if !visit(
            held,
            looked,
            pool,
            index.lists.at(falsified.code()),
            head,
            at,
        ) {
            return false;
        }
    }
    true
}

// Looks at the clauses of these numbers, except those that were looked at while at least `from` literals were held,
// and holds what unit propagation forces there. Returns whether it leaves `at` undetermined and none of these clauses
// is false.
fn visit(
    held: &mut Assignment,
    looked: &mut Looked,
    pool: &Pool,
    numbers: &[u32],
    from: usize,
    at: Lit,
) -> bool
    requires assignment { IsAssignment held.old }
    requires looked { AreLooked pool.now.clauses held.old looked.old }
    requires pool { All (All (λ (l : Literal). l.variable < length held.old.values.items)) pool.now.clauses }
    requires numbers { All (IsClauseNumber (length pool.now.clauses)) numbers.now }
    requires from { from ≤ length held.old.trail.items }
    requires at { IsLiteralOpen held.old.values.items at }
    ensures assignment { IsAssignment held.new }
    ensures size { length held.new.values.items ≡ length held.old.values.items }
    ensures longer { length held.old.trail.items ≤ length held.new.trail.items }
    ensures room { length looked.new.stamps.items ≡ length looked.old.stamps.items }
    ensures earlier { (number at : ℕ) → IsLookedAt looked.new number at → at ≤ length held.new.trail.items }
    ensures looked { IsTrue result → AreLooked pool.now.clauses held.new looked.new }
    ensures step { IsTrue result → IsStep pool.now.clauses at held.old.values.items held.new.values.items }
    ensures settled { IsTrue result → AreClausesSettled pool.now.clauses held.old from numbers.now → AreClausesSettled pool.now.clauses held.new from [] }
    ensures none { IsFalse result → (set : List Literal) → ¬ IsClosure pool.now.clauses at held.old.values.items set }
{
    for number in numbers {
        if looked.since(*number, from) {
            continue;
        }
        if !settle(held, pool, *number, at) {
            return false;
        }
        looked.note(*number, held.trail.len());
    }
    true
}

// Looks at the clause, and holds what unit propagation forces there. Returns whether it leaves `at` undetermined and
// the clause isn't false.
fn settle(held: &mut Assignment, pool: &Pool, number: u32, at: Lit) -> bool
    requires assignment { IsAssignment held.old }
    requires pool { All (All (λ (l : Literal). l.variable < length held.old.values.items)) pool.now.clauses }
    requires number { IsClauseNumber (length pool.now.clauses) number }
    requires at { IsLiteralOpen held.old.values.items at }
    ensures assignment { IsAssignment held.new }
    ensures more { HoldsMore held.old held.new }
    ensures step { IsTrue result → IsStep pool.now.clauses at held.old.values.items held.new.values.items }
    ensures quiet { IsTrue result → (k : ℕ) → number ≡ k + 1 → IsQuietAt held.new.values.items (slice_index_or pool.now.clauses k []) }
    ensures none { IsFalse result → (set : List Literal) → ¬ IsClosure pool.now.clauses at held.old.values.items set }
{
    let clause = pool.get(number);
    match held.look(clause) {
        Look::Quiet => true,
        Look::False => false,
        Look::Unit(place) => {
            let unit = clause[place];
            if unit.variable() == at.variable() {
                return false;
            }
            held.hold(unit);
            true
        }
    }
}
