//! The clause that a chain has reached so far.

ghost use Rattle.std.specs.Prelude.{◌≡◌, ◌+◌, ◌<◌, ◌++◌, ◌∷◌, [], true, false, IfOk, OnOk, IsErrOf, length, slice_set};
ghost use Rattle.net_model.specs.Answer.{bit_at};
ghost use Rattle.clause_pool.specs.Clauses.{Clause};
ghost use Rattle.clause_pool.specs.LiteralCode.{code_of};
ghost use Rattle.pair_miter.specs.Resolution.{can_resolve, resolvent, SameLiterals};
ghost use Rattle.refute_check.specs.Reached.{IsReached};

use crate::clause::Clause as Ordered;
use crate::refusal::ChainFault;
use clause_pool::Lit;
use std::alloc::{AllocError, Global};

/// A set of literals in no order: those that are marked. The time of a resolution depends only on the other clause,
/// not on the size of the set.
#[derive(Drop)]
pub(crate) struct Reached {
    // by the literal's code, if it has a mark
    pub(crate) marks: Vec<bool>,
    // each literal that was added, perhaps more than once
    pub(crate) listed: Vec<Lit>,
}

impl Reached {
    /// Returns the empty set.
    pub(crate) fn new(alloc: Global) -> Reached
        ensures { IsReached result [] }
    {
        Reached {
            marks: Vec::new(alloc),
            listed: Vec::new(alloc),
        }
    }

    /// Adds the literals of a clause to the empty set.
    pub(crate) fn begin(&mut self, clause: &[Lit]) -> Result<(), AllocError>
        requires { IsReached self.old [] }
        ensures { OnOk result (IsReached self.new clause.now) }
    {
        for lit in clause {
            self.add(*lit)?;
        }
        Ok(())
    }

    /// Resolves the set with the clause `other` at the pivot. Returns `NoPivot` only if they can't be resolved there.
    /// Nothing is said of the set after an error.
    pub(crate) fn resolve(&mut self, pivot: Lit, other: &[Lit]) -> Result<(), ChainFault>
        ensures resolved { OnOk result ((clause : Clause) → IsReached self.old clause → (can_resolve pivot clause other.now ≡ true) × IsReached self.new (resolvent pivot clause other.now)) }
        ensures no_clause { ¬ IsErrOf result ChainFault.NoSuchClause }
        ensures no_pivot { IsErrOf result ChainFault.NoPivot → (clause : Clause) → IsReached self.old clause → can_resolve pivot clause other.now ≡ false }
    {
        let opposite = pivot.opposite();
        if !self.has(pivot) {
            return Err(ChainFault::NoPivot);
        }
        if !other.contains(&opposite) {
            return Err(ChainFault::NoPivot);
        }
        self.remove(pivot);
        for lit in other {
            if *lit == opposite {
                continue;
            }
            self.add(*lit)?;
        }
        Ok(())
    }

    /// Returns the set in order, and leaves the empty set.
    pub(crate) fn finish(&mut self, alloc: Global) -> Result<Ordered, AllocError>
        ensures ended { IfOk result (λ end. (clause : Clause) → IsReached self.old clause → SameLiterals end.literals clause) }
        ensures empty { OnOk result ((clause : Clause) → IsReached self.old clause → IsReached self.new []) }
    {
        let mut kept = Vec::new(alloc);
        while let Some(lit) = self.listed.pop() {
            if !self.has(lit) {
                continue;
            }
            self.remove(lit);
            kept.push(lit)?;
        }
        Ok(Ordered::of(kept))
    }

    /// Returns whether the literal is in the set.
    pub(crate) fn has(&self, lit: Lit) -> bool
        ensures { result ≡ bit_at self.now.marks.items (code_of lit) }
    {
        let at = lit.code();
        at < self.marks.len() && self.marks[at]
    }

    fn add(&mut self, lit: Lit) -> Result<(), AllocError>
        ensures { OnOk result ((clause : Clause) → IsReached self.old clause → IsReached self.new (clause ++ lit ∷ [])) }
    {
        if self.has(lit) {
            return Ok(());
        }
        self.make_place(lit)?;
        self.marks[lit.code()] = true;
        self.listed.push(lit)?;
        Ok(())
    }

    // Makes a place for the mark of the literal.
    fn make_place(&mut self, lit: Lit) -> Result<(), AllocError>
        ensures place { OnOk result (code_of lit < length self.new.marks.items) }
        ensures kept { OnOk result ((clause : Clause) → IsReached self.old clause → IsReached self.new clause) }
    {
        while self.marks.len() <= lit.code() {
            self.marks.push(false)?;
        }
        Ok(())
    }

    fn remove(&mut self, lit: Lit)
        ensures marks { self.new.marks.items ≡ slice_set self.old.marks.items (code_of lit) false }
        ensures listed { self.new.listed.items ≡ self.old.listed.items }
    {
        let at = lit.code();
        if at < self.marks.len() {
            self.marks[at] = false;
        }
    }
}
