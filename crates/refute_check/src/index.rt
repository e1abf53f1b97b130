//! The clauses of a pool by their literals.

ghost use Rattle.std.specs.Prelude.{◌≡◌, ◌+◌, ◌<◌, [], ◌∷◌, ◌++◌, List, ℕ, All, IfOk, OnOk, IsTrue, length};
ghost use Rattle.refute_check.specs.Index.{HasTwo, IsIndexOf};
ghost use Rattle.clause_pool.specs.Clauses.{Clause};
ghost use Rattle.clause_pool.specs.LiteralCode.{code_of};
ghost use Rattle.clause_pool.specs.Proper.{HasVariablesUpTo};

use clause_pool::{Lit, Pool};
use net_model::GrowingLists;
use std::alloc::{AllocError, Global};

/// The clauses of a pool by their literals, and those of them that don't have two different literals. Unit
/// propagation can find something at the latter from the start, and at the others only after one of their literals is
/// false.
#[derive(Drop)]
pub(crate) struct Index {
    // by the literal's code
    pub(crate) lists: GrowingLists<u32>,
    pub(crate) short: Vec<u32>,
}

impl Index {
    /// Returns the index of no clauses, with a list for each literal of variables 0 to `variables`.
    pub(crate) fn none(alloc: Global, variables: u32) -> Result<Index, AllocError>
        ensures { IfOk result (λ index. IsIndexOf variables [] index.lists index.short.items) }
    {
        Ok(Index {
            lists: GrowingLists::none(alloc, 2 * variables as usize + 2)?,
            short: Vec::new(alloc),
        })
    }

    /// Returns the index of the clauses of the pool, with a list for each literal of variables 0 to `variables`.
    pub(crate) fn of(alloc: Global, pool: &Pool, variables: u32) -> Result<Index, AllocError>
        requires { All (HasVariablesUpTo variables) pool.now.clauses }
        ensures { IfOk result (λ index. IsIndexOf variables pool.now.clauses index.lists index.short.items) }
    {
        let mut index = Index::none(alloc, variables)?;
        for at in 0..pool.len() {
            index.add(pool.get(at + 1), at + 1)?;
        }
        Ok(index)
    }

    /// Adds the next clause, which has this number.
    pub(crate) fn add(&mut self, clause: &[Lit], number: u32) -> Result<(), AllocError>
        requires { All (λ l. code_of l < length self.old.lists) clause.now }
        ensures { OnOk result ((variables : ℕ) (clauses : List Clause) → length clauses + 1 ≡ number → IsIndexOf variables clauses self.old.lists self.old.short.items → IsIndexOf variables (clauses ++ clause.now ∷ []) self.new.lists self.new.short.items) }
    {
        for lit in clause {
            self.lists.add(lit.code(), number)?;
        }
        if !has_two(clause) {
            self.short.push(number)?;
        }
        Ok(())
    }
}

// Returns true only if the clause has two different literals.
fn has_two(clause: &[Lit]) -> bool
    ensures { IsTrue result → HasTwo clause.now }
{
    match clause.first() {
        None => false,
        Some(first) => clause.iter().any(|lit| *lit != *first),
    }
}
