//! A search under way.

ghost use Rattle.std.specs.Prelude.{[], ◌≡◌, ◌∷◌, ◌+◌, ◌++◌, ◌<◌, ◌^◌, All, IfOk, OnErr, OnOk, length};
ghost use Rattle.pair_miter.specs.Adds.{Grows};
ghost use Rattle.clause_pool.specs.Proper.{IsProper};
ghost use Rattle.pair_miter.specs.Log.{EndsFresh};
ghost use Rattle.learn_solver.specs.Learned.{ChainEndsIn, IsQuietBelow};
ghost use Rattle.learn_solver.specs.Ready.{IsSolverReady, IsConflictClause};
ghost use Rattle.learn_solver.specs.Search.{AddsAtMost, IsSearchReady, Learns, LearnsAtMost, LearnsClause};

use crate::analysis::{Learned, analyze};
use crate::decider::Decider;
use crate::learning::learn;
use crate::marks::MetVariables;
use clause_pool::{Lit, Pool};
use pair_miter::Chain;
use solver_trail::Trail;
use std::alloc::{AllocError, Global};

/// The trail, the order of decisions, the marks of analyses, and the chains of the clauses learned so far.
#[derive(Drop)]
pub(crate) struct Search {
    pub(crate) trail: Trail,
    pub(crate) decider: Decider,
    pub(crate) marks: MetVariables,
    pub(crate) chains: Vec<Chain>,
}

/// Returns a search over the clauses of the pool, with nothing set and nothing learned.
pub(crate) fn begin(alloc: Global, pool: &Pool, variables: u32) -> Result<Search, AllocError>
    requires few { variables < 2 ^ 31 }
    requires proper { All (IsProper variables) pool.now.clauses }
    ensures prepared { IfOk result (λ search. IsSearchReady search pool.now.clauses) }
    ensures variables { IfOk result (λ search. search.trail.assignment.variables ≡ variables) }
    ensures none { IfOk result (λ search. search.chains.items ≡ []) }
{
    let trail = attach_all(alloc, pool, variables)?;
    let marks = MetVariables::new(alloc, variables)?;
    let decider = Decider::new(alloc, variables)?;
    Ok(Search {
        trail,
        decider,
        marks,
        chains: Vec::new(alloc),
    })
}

// Returns a trail to which all clauses of the pool are attached.
fn attach_all(alloc: Global, pool: &Pool, variables: u32) -> Result<Trail, AllocError>
    requires { All (IsProper variables) pool.now.clauses }
    ensures ready { IfOk result (λ trail. IsSolverReady trail pool.now.clauses) }
    ensures variables { IfOk result (λ trail. trail.assignment.variables ≡ variables) }
{
    let mut trail = Trail::new(alloc, variables)?;
    for at in 0..pool.len() {
        trail.attach(pool, at + 1)?;
    }
    Ok(trail)
}

/// Learns a clause from the false clause `conflict`. If the learned clause has no literal, its chain is returned, and
/// nothing is added to the pool.
pub(crate) fn learn_from(
    alloc: Global,
    search: &mut Search,
    pool: &mut Pool,
    conflict: u32,
) -> Result<Option<Chain>, AllocError>
    requires prepared { IsSearchReady search.old pool.old.clauses }
    requires conflict { IsConflictClause search.old.trail pool.old.clauses conflict }
    requires few { length pool.old.clauses + 1 < 2 ^ 32 }
    ensures learned { IfOk result (Learns search.old pool.old.clauses search.new pool.new.clauses) }
    ensures err { OnErr result (LearnsAtMost search.old pool.old.clauses pool.new.clauses) }
    ensures grows { Grows pool.old pool.new }
{
    let learned = analyze(alloc, &search.trail, pool, &mut search.marks, conflict)?;
    let Learned {
        mut chain,
        back,
        clause,
    } = learned;
    if clause.is_empty() {
        return Ok(Some(chain));
    }
    chain.set_at(Some(clause[0]));
    add(alloc, search, pool, chain, clause.as_slice(), back)?;
    Ok(None)
}

// Adds the clause to the pool and its chain to those of the search, and goes back to level `back`.
fn add(
    alloc: Global,
    search: &mut Search,
    pool: &mut Pool,
    chain: Chain,
    clause: &[Lit],
    back: u32,
) -> Result<(), AllocError>
    requires prepared { IsSearchReady search.old pool.old.clauses }
    requires ends { ChainEndsIn pool.old.clauses chain clause.now }
    requires fresh { EndsFresh pool.old.clauses chain clause.now }
    requires quiet { IsQuietBelow search.old.trail.assignment back clause.now }
    requires few { length pool.old.clauses + 1 < 2 ^ 32 }
    ensures learned { OnOk result (LearnsClause search.old pool.old.clauses search.new pool.new.clauses) }
    ensures err { OnErr result (LearnsAtMost search.old pool.old.clauses pool.new.clauses) }
    ensures grows { Grows pool.old pool.new }
{
    take_in(alloc, search, pool, clause, back)?;
    search.chains.push(chain)?;
    Ok(())
}

// Adds the clause to the pool and the trail, and makes the variables that its analysis met the first to be decided.
fn take_in(
    alloc: Global,
    search: &mut Search,
    pool: &mut Pool,
    clause: &[Lit],
    back: u32,
) -> Result<(), AllocError>
    requires prepared { IsSearchReady search.old pool.old.clauses }
    requires quiet { IsQuietBelow search.old.trail.assignment back clause.now }
    requires few { length pool.old.clauses + 1 < 2 ^ 32 }
    ensures prepared { OnOk result (IsSearchReady search.new pool.new.clauses) }
    ensures added { OnOk result (pool.new.clauses ≡ pool.old.clauses ++ clause.now ∷ []) }
    ensures variables { search.new.trail.assignment.variables ≡ search.old.trail.assignment.variables }
    ensures chains { search.new.chains.items ≡ search.old.chains.items }
    ensures err { OnErr result (AddsAtMost pool.old.clauses clause.now pool.new.clauses) }
    ensures grows { Grows pool.old pool.new }
{
    search.decider.renew(alloc, search.marks.met())?;
    search.marks.clear_met();
    search.decider.leave(&search.trail, back);
    learn(&mut search.trail, pool, clause, back)
}

/// Goes back to level 0.
pub(crate) fn restart(search: &mut Search, pool: &Pool)
    requires { IsSearchReady search.old pool.now.clauses }
    ensures prepared { IsSearchReady search.new pool.now.clauses }
    ensures variables { search.new.trail.assignment.variables ≡ search.old.trail.assignment.variables }
    ensures chains { search.new.chains ≡ search.old.chains }
{
    search.decider.leave(&search.trail, 0);
    search.trail.back_to(0);
}
