//! The analysis of a conflict, to the first unique implication point (1-UIP).

ghost use Rattle.std.specs.Prelude.{◌≡◌, ℕ, ◌<◌, ◌≤◌, IfOk, All, length, slice_index_or};
ghost use Rattle.clause_pool.specs.Literal.{Literal};
ghost use Rattle.solver_trail.specs.Assignment.{IsTrail};
ghost use Rattle.learn_solver.specs.Places.{set_literal_at, IsFalseAt};
ghost use Rattle.learn_solver.specs.Learned.{IsLearned};
ghost use Rattle.learn_solver.specs.Ready.{IsSolverReady, IsConflictClause};
ghost use Rattle.learn_solver.specs.Walk.{AreUnmarked};

use crate::marking::mark_clause;
use crate::marks::MetVariables;
use crate::resolving::{Analysis, visit};
use clause_pool::{Lit, Pool};
use pair_miter::Chain;
use solver_trail::Trail;
use std::alloc::{AllocError, Global};

/// A learned clause, the chain that ends in it, and the back-jump level.
#[derive(Drop)]
pub(crate) struct Learned {
    pub(crate) chain: Chain,
    pub(crate) back: u32,
    pub(crate) clause: Vec<Lit>,
}

/// Resolves the false clause `conflict` with reasons, to the first unique implication point of the present level, and
/// without literals of level 0. No variable is marked before; if the call returns no error, none is marked after.
pub(crate) fn analyze(
    alloc: Global,
    trail: &Trail,
    pool: &Pool,
    marks: &mut MetVariables,
    conflict: u32,
) -> Result<Learned, AllocError>
    requires ready { IsSolverReady trail.now pool.now.clauses }
    requires conflict { IsConflictClause trail.now pool.now.clauses conflict }
    requires clear { AreUnmarked trail.now.assignment.variables marks.old }
    ensures learned { IfOk result (λ learned. IsLearned trail.now.assignment pool.now.clauses learned.chain learned.clause.items learned.back) }
    ensures clear { IfOk result (λ learned. AreUnmarked trail.now.assignment.variables marks.new) }
{
    let mut analysis = Analysis {
        chain: Chain::new(alloc, conflict, None),
        kept: Vec::new(alloc),
        left: mark_clause(trail, marks, pool.get(conflict))?,
    };
    let mut place = trail.set_literals().len();
    while 0 < place && !marks.are_clear() {
        place -= 1;
        visit(trail, pool, marks, &mut analysis, place)?;
    }
    let Analysis {
        chain,
        kept,
        left: _,
    } = analysis;
    let back = back_level(trail, kept.as_slice());
    Ok(Learned {
        chain,
        back,
        clause: kept,
    })
}

// Returns the level of the second literal, which is the highest except the first one's, or 0 if there is no second
// literal.
fn back_level(trail: &Trail, kept: &[Lit]) -> u32
    requires trail { IsTrail trail.now.assignment }
    requires inside { All (λ (l : Literal). (0 < l.variable) × (l.variable ≤ trail.now.assignment.variables)) kept.now }
    ensures none { length kept.now ≤ 1 → result ≡ 0 }
    ensures some { (d : Literal) (place : ℕ) → 1 < length kept.now → IsFalseAt trail.now.assignment (slice_index_or kept.now 1 d) place → result ≡ (set_literal_at trail.now.assignment place).level }
{
    if kept.len() < 2 {
        return 0;
    }
    match trail.level_of(kept[1].variable()) {
        Some(level) => level,
        None => 0,
    }
}
