//! A learned clause is added to the pool and attached to the trail, at the back-jump level.

ghost use Rattle.std.specs.Prelude.{◌≡◌, ◌+◌, ◌<◌, ◌^◌, ◌∷◌, ◌++◌, [], OnErr, OnOk, length};
ghost use Rattle.pair_miter.specs.Adds.{Grows};
ghost use Rattle.learn_solver.specs.Ready.{IsSolverReady};
ghost use Rattle.learn_solver.specs.Learned.{IsQuietBelow};
ghost use Rattle.learn_solver.specs.Search.{AddsAtMost};

use clause_pool::{Lit, Pool};
use solver_trail::{Trail, longer_pool_fits};
use std::alloc::AllocError;

/// Adds a learned clause to the pool, goes back to its back-jump level and attaches it. After an error the pool has
/// at most this clause in addition.
pub(crate) fn learn(
    trail: &mut Trail,
    pool: &mut Pool,
    clause: &[Lit],
    back: u32,
) -> Result<(), AllocError>
    requires ready { IsSolverReady trail.old pool.old.clauses }
    requires quiet { IsQuietBelow trail.old.assignment back clause.now }
    requires few { length pool.old.clauses + 1 < 2 ^ 32 }
    ensures added { OnOk result (pool.new.clauses ≡ pool.old.clauses ++ clause.now ∷ []) }
    ensures ready { OnOk result (IsSolverReady trail.new pool.new.clauses) }
    ensures variables { trail.new.assignment.variables ≡ trail.old.assignment.variables }
    ensures err { OnErr result (AddsAtMost pool.old.clauses clause.now pool.new.clauses) }
    ensures grows { Grows pool.old pool.new }
{
    let number = pool.add(clause)?;
    longer_pool_fits();
    trail.back_to(back);
    trail.attach(pool, number)
}
