//! One step of a search: a descent, and what is learned from it.

ghost use Rattle.std.specs.Prelude.{◌+◌, ◌<◌, ◌^◌, IfOk, OnErr, length};
ghost use Rattle.pair_miter.specs.Adds.{Grows};
ghost use Rattle.pair_miter.specs.Variables.{variable_count};
ghost use Rattle.learn_solver.specs.Decisions.{IsAim};
ghost use Rattle.learn_solver.specs.Solved.{HasLearned};
ghost use Rattle.learn_solver.specs.Search.{IsSearch, EndsStep, miter_clauses};

use crate::aim::Aim;
use crate::descent::descend;
use crate::search::{Search, learn_from};
use clause_pool::Pool;
use pair_miter::{Chain, Miter};
use solver_trail::Propagated;
use std::alloc::{AllocError, Global};

/// How a step ends: a clause is learned, or no clause is false, or the chain is the last of a refutation.
#[derive(Drop)]
pub(crate) enum SolverStep {
    Learned,
    Open,
    Refuted(Chain),
}

/// Descends, and learns a clause if the descent ends at a false one.
pub(crate) fn take_step(
    alloc: Global,
    miter: &Miter,
    search: &mut Search,
    pool: &mut Pool,
    conflicts: u32,
    aim: &Aim,
) -> Result<SolverStep, AllocError>
    requires search { IsSearch miter.now conflicts search.old pool.old.clauses }
    requires left { length search.old.chains.items < conflicts }
    requires few { length (miter_clauses miter.now) + conflicts < 2 ^ 32 }
    requires aim { IsAim (variable_count miter.now.circuit miter.now.f miter.now.g) aim.now }
    ensures ends { IfOk result (EndsStep miter.now conflicts aim.now search.old search.new pool.new.clauses) }
    ensures err { OnErr result (HasLearned (miter_clauses miter.now) conflicts pool.new.clauses) }
    ensures grows { Grows pool.old pool.new }
{
    match descend(&mut search.trail, pool, &mut search.decider, aim) {
        Propagated::Quiet => Ok(SolverStep::Open),
        Propagated::Conflict(number) => match learn_from(alloc, search, pool, number)? {
            None => Ok(SolverStep::Learned),
            Some(last) => Ok(SolverStep::Refuted(last)),
        },
    }
}
