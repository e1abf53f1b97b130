//! `run_chain`, the end of a chain of resolutions; `follow`, the same over a set that serves all chains of a log.

ghost use Rattle.std.specs.Prelude.{◌≡◌, [], None, Some, IfOk, OnOk, IsErrOf, MatchOption};
ghost use Rattle.clause_pool.specs.Clauses.{numbered_clause};
ghost use Rattle.evidence_rules.specs.declared.refusal.RefusalKind.{RefusalKind};
ghost use Rattle.evidence_rules.specs.LogRefusal.{ChainStops, EndsAs};
ghost use Rattle.refute_check.specs.Reached.{IsReached};

use crate::clause::Clause;
use crate::reached::Reached;
use crate::refusal::ChainFault;
use clause_pool::{Lit, Pool};
use pair_miter::Chain;
use std::alloc::Global;

/// Returns the last clause of a chain over the clauses of the pool, as a set. Returns `NoSuchClause` or `NoPivot` only
/// if the first step that can't be made has this fault: no clause has its number, or the two clauses can't be resolved
/// at its pivot. In one step the number is tried before the pivot.
pub fn run_chain(alloc: Global, pool: &Pool, chain: &Chain) -> Result<Clause, ChainFault>
    ensures ended { IfOk result (λ clause. EndsAs pool.now.clauses chain.now clause.literals) }
    ensures no_clause { IsErrOf result ChainFault.NoSuchClause → ChainStops pool.now.clauses chain.now RefusalKind.NoSuchClause }
    ensures no_pivot { IsErrOf result ChainFault.NoPivot → ChainStops pool.now.clauses chain.now RefusalKind.NoPivot }
{
    follow(alloc, &mut Reached::new(alloc), pool, chain)
}

/// Returns the last clause of a chain, with the errors of `run_chain`. `reached` is empty before, and is empty again
/// if the call returns no error.
pub(crate) fn follow(
    alloc: Global,
    reached: &mut Reached,
    pool: &Pool,
    chain: &Chain,
) -> Result<Clause, ChainFault>
    requires { IsReached reached.old [] }
    ensures ended { IfOk result (λ clause. EndsAs pool.now.clauses chain.now clause.literals) }
    ensures no_clause { IsErrOf result ChainFault.NoSuchClause → ChainStops pool.now.clauses chain.now RefusalKind.NoSuchClause }
    ensures no_pivot { IsErrOf result ChainFault.NoPivot → ChainStops pool.now.clauses chain.now RefusalKind.NoPivot }
    ensures empty { OnOk result (IsReached reached.new []) }
{
    let Some(start) = named(pool, chain.start()) else {
        return Err(ChainFault::NoSuchClause);
    };
    reached.begin(start)?;
    for (pivot, number) in chain.steps() {
        let Some(other) = named(pool, *number) else {
            return Err(ChainFault::NoSuchClause);
        };
        reached.resolve(*pivot, other)?;
    }
    Ok(reached.finish(alloc)?)
}

// Returns the clause of this number, if there is one.
fn named<'a>(pool: &'a Pool, number: u32) -> Option<&'a [Lit]>
    ensures { MatchOption result (numbered_clause pool.now.clauses number ≡ None) (λ clause. numbered_clause pool.now.clauses number ≡ Some clause.now) }
{
    if number == 0 || pool.len() < number {
        return None;
    }
    Some(pool.get(number))
}
