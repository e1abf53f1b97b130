//! A descent: decisions and propagation, down to a conflict.

ghost use Rattle.std.specs.Prelude.{◌≡◌, ◌<◌, All, MatchOption};
ghost use Rattle.clause_pool.specs.Partial.{IsQuiet};
ghost use Rattle.solver_trail.specs.Assignment.{IsTrail, assigned_literals};
ghost use Rattle.learn_solver.specs.declared.aim.Aim.TheVariants as Aim;
ghost use Rattle.solver_trail.specs.declared.trail.Propagated.TheVariants as Propagated;
ghost use Rattle.learn_solver.specs.Ready.{IsSolverReady};
ghost use Rattle.learn_solver.specs.Decisions.{IsAim, IsDecidable, AreAllSet};
ghost use Rattle.learn_solver.specs.Descent.{IsFoundAt, GrowsBy};

use crate::aim::Aim;
use crate::decider::Decider;
use clause_pool::{Lit, Pool};
use solver_trail::{Propagated, Trail};

/// Decides literals, and propagates before and after each, until a clause is false or nothing is left to decide: all
/// variables are set, or for two literals one of them is false or no variable is left that is decided for them.
pub(crate) fn descend(
    trail: &mut Trail,
    pool: &Pool,
    decider: &mut Decider,
    aim: &Aim,
) -> Propagated
    requires ready { IsSolverReady trail.old pool.now.clauses }
    requires variables { trail.old.assignment.variables ≡ decider.old }
    requires aim { IsAim decider.old aim.now }
    ensures ready { IsSolverReady trail.new pool.now.clauses }
    ensures variables { trail.new.assignment.variables ≡ trail.old.assignment.variables }
    ensures decider { decider.new ≡ decider.old }
    ensures found { IsFoundAt trail.new pool.now.clauses result }
    ensures whole { aim.now ≡ Aim.Model → result ≡ Propagated.Quiet → AreAllSet trail.new.assignment }
{
    let mut found = settle(trail, pool);
    'down: while let Propagated::Quiet = found {
        match next(trail, decider, aim) {
            Some(lit) => found = go_down(trail, pool, lit),
            None => return Propagated::Quiet,
        }
    }
    found
}

// Returns the next literal to decide, if any.
fn next(trail: &Trail, decider: &mut Decider, aim: &Aim) -> Option<Lit>
    requires trail { IsTrail trail.now.assignment }
    requires variables { trail.now.assignment.variables ≡ decider.old }
    requires aim { IsAim decider.old aim.now }
    ensures decider { decider.new ≡ decider.old }
    ensures next { MatchOption result (aim.now ≡ Aim.Model → AreAllSet trail.now.assignment) (IsDecidable trail.now.assignment) }
{
    match aim {
        Aim::Both(both) => decider.next_for(trail, both),
        Aim::Model => decider.next(trail),
    }
}

fn go_down(trail: &mut Trail, pool: &Pool, lit: Lit) -> Propagated
    requires ready { IsSolverReady trail.old pool.now.clauses }
    requires quiet { All (IsQuiet (assigned_literals trail.old.assignment)) pool.now.clauses }
    requires decidable { IsDecidable trail.old.assignment lit }
    ensures ready { IsSolverReady trail.new pool.now.clauses }
    ensures grows { GrowsBy trail.old.assignment trail.new.assignment 1 }
    ensures found { IsFoundAt trail.new pool.now.clauses result }
{
    trail.decide(lit);
    settle(trail, pool)
}

// Propagates over all clauses.
fn settle(trail: &mut Trail, pool: &Pool) -> Propagated
    requires { IsSolverReady trail.old pool.now.clauses }
    ensures ready { IsSolverReady trail.new pool.now.clauses }
    ensures grows { GrowsBy trail.old.assignment trail.new.assignment 0 }
    ensures found { IsFoundAt trail.new pool.now.clauses result }
{
    trail.propagate(pool)
}
