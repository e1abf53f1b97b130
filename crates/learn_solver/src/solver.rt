//! The solver.

ghost use Rattle.std.specs.Prelude.{◌≡◌, ◌+◌, ◌<◌, ◌≤◌, ◌^◌, All, IfOk, OnErr, length};
ghost use Rattle.net_model.specs.Answer.{Separates};
ghost use Rattle.clause_pool.specs.Clauses.{BeginsWith};
ghost use Rattle.pair_miter.specs.Adds.{Grows, GrowsFor};
ghost use Rattle.clause_pool.specs.Partial.{IsQuiet};
ghost use Rattle.pair_miter.specs.Variables.{variable_count};
ghost use Rattle.pair_miter.specs.Miter as spec;
ghost use Rattle.learn_solver.specs.Decisions.{AreAllSet};
ghost use Rattle.learn_solver.specs.Search.{IsSearch, miter_clauses};
ghost use Rattle.learn_solver.specs.Solved.{HasLearned, IsSolved};
ghost use Rattle.solver_trail.specs.Assignment.{IsTrail, assigned_literals};

use crate::aim::Aim;
use crate::logs::{bare_log, log_of};
use crate::model::model;
use crate::restarts::Restarts;
use crate::search::{Search, begin, restart};
use crate::solved::Solved;
use crate::step::{SolverStep, take_step};
use crate::sweep::sweep;
use clause_pool::Pool;
use net_model::Vector;
use pair_miter::Miter;
use solver_trail::Trail;
use std::alloc::{AllocError, Global};

/// Searches for a model of the miter and learns a clause from each conflict, at most `conflicts` of them. Returns
/// `Vector` only if the vector separates the faults; `Refuted` only if the log's last chain ends in the empty clause,
/// and before it at most `conflicts` chains end in clauses with literals; and `Spent` only if the log has exactly
/// `conflicts` chains, and each ends in a fresh clause. The pool has the miter's clauses before. After the call it has
/// them still, and after them the ends before the empty one, or the ends of the spent log; with a vector and after an
/// error, the fresh ends of some chains, at most `conflicts` of them. The pool keeps its places, and grows only if they
/// were too few for these clauses, to no more than they need.
pub fn solve(
    alloc: Global,
    miter: &Miter,
    pool: &mut Pool,
    conflicts: u32,
) -> Result<Solved, AllocError>
    requires some { 1 ≤ conflicts }
    requires clauses { pool.old.clauses ≡ spec.miter miter.now.circuit miter.now.f miter.now.g }
    requires few { length pool.old.clauses + conflicts < 2 ^ 32 }
    ensures solved { IfOk result (IsSolved miter.now.circuit miter.now.f miter.now.g conflicts pool.new.clauses) }
    ensures err { OnErr result (HasLearned (spec.miter miter.now.circuit miter.now.f miter.now.g) conflicts pool.new.clauses) }
    ensures begins { BeginsWith pool.new.clauses pool.old.clauses }
    ensures places { GrowsFor pool.old pool.new pool.new.clauses }
{
    let mut search = begin(alloc, pool, miter.variables())?;
    run(alloc, miter, &mut search, pool, conflicts)
}

// Runs a search from its beginning to its end.
fn run(
    alloc: Global,
    miter: &Miter,
    search: &mut Search,
    pool: &mut Pool,
    conflicts: u32,
) -> Result<Solved, AllocError>
    requires search { IsSearch miter.now conflicts search.old pool.old.clauses }
    requires few { length (miter_clauses miter.now) + conflicts < 2 ^ 32 }
    ensures solved { IfOk result (IsSolved miter.now.circuit miter.now.f miter.now.g conflicts pool.new.clauses) }
    ensures err { OnErr result (HasLearned (miter_clauses miter.now) conflicts pool.new.clauses) }
    ensures grows { Grows pool.old pool.new }
{
    match sweep(alloc, miter, search, pool, conflicts)? {
        Some(last) => Ok(Solved::Refuted(bare_log(alloc, &mut search.chains, last)?)),
        None => search_on(alloc, miter, search, pool, conflicts),
    }
}

// Continues a search until it ends.
fn search_on(
    alloc: Global,
    miter: &Miter,
    search: &mut Search,
    pool: &mut Pool,
    conflicts: u32,
) -> Result<Solved, AllocError>
    requires search { IsSearch miter.now conflicts search.old pool.old.clauses }
    requires few { length (miter_clauses miter.now) + conflicts < 2 ^ 32 }
    ensures solved { IfOk result (IsSolved miter.now.circuit miter.now.f miter.now.g conflicts pool.new.clauses) }
    ensures err { OnErr result (HasLearned (miter_clauses miter.now) conflicts pool.new.clauses) }
    ensures grows { Grows pool.old pool.new }
{
    let mut restarts = Restarts::new();
    'conflicts: while search.chains.len() < conflicts as usize {
        match take_step(alloc, miter, search, pool, conflicts, &Aim::Model)? {
            SolverStep::Learned => {
                if restarts.is_due() {
                    restart(search, pool);
                }
            }
            SolverStep::Open => return Ok(Solved::Vector(vector(alloc, miter, &search.trail)?)),
            SolverStep::Refuted(last) => {
                return Ok(Solved::Refuted(bare_log(alloc, &mut search.chains, last)?));
            }
        }
    }
    Ok(Solved::Spent(log_of(alloc, &mut search.chains)?))
}

// Returns the vector of a trail that sets all variables and at which unit propagation has nothing to do at any
// clause.
fn vector(alloc: Global, miter: &Miter, trail: &Trail) -> Result<Vector, AllocError>
    requires trail { IsTrail trail.now.assignment }
    requires variables { trail.now.assignment.variables ≡ variable_count miter.now.circuit miter.now.f miter.now.g }
    requires whole { AreAllSet trail.now.assignment }
    requires quiet { All (IsQuiet (assigned_literals trail.now.assignment)) (miter_clauses miter.now) }
    ensures { IfOk result (λ v. Separates miter.now.circuit v miter.now.f miter.now.g) }
{
    let bits = model(alloc, trail, miter.variables())?;
    miter.vector_of(&bits)
}
