//! Steps of the walk back along the trail.

ghost use Rattle.std.specs.Prelude.{◌≡◌, ◌⊎◌, ℕ, ◌+◌, ◌<◌, ◌≤◌, true, ◌==◌, length, None, Some, IfOk, MatchBool, if◌then◌else◌};
ghost use Rattle.net_model.specs.Answer.{bit_at};
ghost use Rattle.solver_trail.specs.Assignment.{IsTrail};
ghost use Rattle.learn_solver.specs.Places.{set_literal_at};
ghost use Rattle.learn_solver.specs.Ready.{IsSolverReady};
ghost use Rattle.learn_solver.specs.Walk.{IsTrailWalk, IsReasonChoice};

use crate::marking::mark_clause;
use crate::marks::MetVariables;
use crate::places::{level_at, literal_at};
use clause_pool::{Lit, Pool};
use pair_miter::Chain;
use solver_trail::Trail;
use std::alloc::AllocError;

/// An analysis under way: the chain so far, the literals that are kept, and how many marked literals of the present
/// level are left.
#[derive(Drop)]
pub(crate) struct Analysis {
    pub(crate) chain: Chain,
    pub(crate) kept: Vec<Lit>,
    pub(crate) left: usize,
}

/// Treats the literal at this place: if its variable is marked, the literal is kept or resolved away with its reason.
pub(crate) fn visit(
    trail: &Trail,
    pool: &Pool,
    marks: &mut MetVariables,
    analysis: &mut Analysis,
    place: usize,
) -> Result<(), AllocError>
    requires ready { IsSolverReady trail.now pool.now.clauses }
    requires walk { IsTrailWalk trail.now.assignment pool.now.clauses marks.old analysis.old.chain analysis.old.kept.items analysis.old.left (place + 1) }
    ensures { IfOk result (λ _. IsTrailWalk trail.now.assignment pool.now.clauses marks.new analysis.new.chain analysis.new.kept.items analysis.new.left place) }
{
    let lit = literal_at(trail, place);
    if !marks.has(lit.variable()) {
        return Ok(());
    }
    match reason_at(trail, place, analysis.left) {
        None => keep(trail, pool, place, marks, analysis),
        Some(number) => resolve(trail, pool, marks, analysis, place, number),
    }
}

// Returns the reason with which a marked literal is resolved away, or none if it is kept. All literals of level 0 are
// resolved away, and those of the present level except the last one.
fn reason_at(trail: &Trail, place: usize, left: usize) -> Option<u32>
    requires trail { IsTrail trail.now.assignment }
    requires inside { place < length trail.now.assignment.literals }
    requires several { 1 < left → (k : ℕ) × (k < place) × ((set_literal_at trail.now.assignment k).level ≡ trail.now.assignment.level) }
    ensures { IsReasonChoice trail.now.assignment place left result }
{
    let present = trail.level();
    if goes(level_at(trail, place), present, left) {
        trail.reason(literal_at(trail, place).variable())
    } else {
        None
    }
}

// Returns whether a marked literal of this level is resolved away.
fn goes(level: u32, present: u32, left: usize) -> bool
    ensures { MatchBool result ((level ≡ 0) ⊎ ((level ≡ present) × (1 < left))) ((0 < level) × (level ≡ present → left ≤ 1)) }
{
    level == 0 || (level == present && 1 < left)
}

// Keeps a marked literal in the learned clause.
fn keep(
    trail: &Trail,
    pool: &Pool,
    place: usize,
    marks: &mut MetVariables,
    analysis: &mut Analysis,
) -> Result<(), AllocError>
    requires ready { IsSolverReady trail.now pool.now.clauses }
    requires walk { IsTrailWalk trail.now.assignment pool.now.clauses marks.old analysis.old.chain analysis.old.kept.items analysis.old.left (place + 1) }
    requires marked { bit_at marks.old (set_literal_at trail.now.assignment place).literal.variable ≡ true }
    requires choice { IsReasonChoice trail.now.assignment place analysis.old.left None }
    ensures { IfOk result (λ _. IsTrailWalk trail.now.assignment pool.now.clauses marks.new analysis.new.chain analysis.new.kept.items analysis.new.left place) }
{
    let lit = literal_at(trail, place);
    let variable = lit.variable();
    analysis.kept.push(lit.opposite())?;
    marks.remove(variable);
    analysis.left = fewer(trail, place, analysis.left);
    Ok(())
}

// Resolves a marked literal away with its reason.
fn resolve(
    trail: &Trail,
    pool: &Pool,
    marks: &mut MetVariables,
    analysis: &mut Analysis,
    place: usize,
    number: u32,
) -> Result<(), AllocError>
    requires ready { IsSolverReady trail.now pool.now.clauses }
    requires walk { IsTrailWalk trail.now.assignment pool.now.clauses marks.old analysis.old.chain analysis.old.kept.items analysis.old.left (place + 1) }
    requires marked { bit_at marks.old (set_literal_at trail.now.assignment place).literal.variable ≡ true }
    requires choice { IsReasonChoice trail.now.assignment place analysis.old.left (Some number) }
    ensures { IfOk result (λ _. IsTrailWalk trail.now.assignment pool.now.clauses marks.new analysis.new.chain analysis.new.kept.items analysis.new.left place) }
{
    let lit = literal_at(trail, place);
    let variable = lit.variable();
    analysis.chain.push(lit.opposite(), number)?;
    let opened = mark_clause(trail, marks, pool.get(number))?;
    analysis.left += opened;
    marks.remove(variable);
    analysis.left = fewer(trail, place, analysis.left);
    Ok(())
}

// Returns how many of the present level are left after the literal at this place.
fn fewer(trail: &Trail, place: usize, left: usize) -> usize
    requires trail { IsTrail trail.now.assignment }
    requires inside { place < length trail.now.assignment.literals }
    requires some { (set_literal_at trail.now.assignment place).level ≡ trail.now.assignment.level → 0 < left }
    ensures { result + (if (set_literal_at trail.now.assignment place).level == trail.now.assignment.level then 1 else 0) ≡ left }
{
    if level_at(trail, place) == trail.level() {
        left - 1
    } else {
        left
    }
}
