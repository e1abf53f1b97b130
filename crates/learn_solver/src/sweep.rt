//! A sweep from the faults outward: whether the two copies of a line can differ, line by line. If they can't, the
//! learned clauses say so, and what rests on them later is short.

ghost use Rattle.std.specs.Prelude.{◌+◌, ◌<◌, ◌≤◌, ◌^◌, All, IfOk, OnErr, length};
ghost use Rattle.pair_miter.specs.Adds.{Grows};
ghost use Rattle.pair_miter.specs.SplitLines.{AreVariables};
ghost use Rattle.pair_miter.specs.Variables.{variable_count};
ghost use Rattle.learn_solver.specs.Decisions.{AreBoth};
ghost use Rattle.learn_solver.specs.Solved.{HasLearned};
ghost use Rattle.learn_solver.specs.Search.{IsSearch, EndsSweep, miter_clauses};

use crate::aim::{Aim, Both};
use crate::search::{Search, restart};
use crate::step::{SolverStep, take_step};
use clause_pool::{Lit, Pool};
use pair_miter::{Chain, Copies, Miter};
use solver_trail::Trail;
use std::alloc::{AllocError, Global};

// How many clauses are learned at most for one way in which the copies of a line can differ.
const TRIES: u32 = 5;

// What the tries that settle nothing may cost together; a try costs its conflicts and one more. After lines that do
// differ the sweep would learn little, line after line, up to the whole budget of the pair.
const IDLE_LIMIT: usize = 100;

/// Tries each split line in the order of evaluation. Returns the last chain of a refutation, if there is one.
pub(crate) fn sweep(
    alloc: Global,
    miter: &Miter,
    search: &mut Search,
    pool: &mut Pool,
    conflicts: u32,
) -> Result<Option<Chain>, AllocError>
    requires search { IsSearch miter.now conflicts search.old pool.old.clauses }
    requires few { length (miter_clauses miter.now) + conflicts < 2 ^ 32 }
    ensures ends { IfOk result (EndsSweep miter.now conflicts search.new pool.new.clauses) }
    ensures err { OnErr result (HasLearned (miter_clauses miter.now) conflicts pool.new.clauses) }
    ensures grows { Grows pool.old pool.new }
{
    let lines = miter.split_lines()?;
    try_all(alloc, miter, search, pool, conflicts, lines.as_slice())
}

fn try_all(
    alloc: Global,
    miter: &Miter,
    search: &mut Search,
    pool: &mut Pool,
    conflicts: u32,
    lines: &[Copies],
) -> Result<Option<Chain>, AllocError>
    requires search { IsSearch miter.now conflicts search.old pool.old.clauses }
    requires few { length (miter_clauses miter.now) + conflicts < 2 ^ 32 }
    requires lines { All (AreVariables (variable_count miter.now.circuit miter.now.f miter.now.g)) lines.now }
    ensures ends { IfOk result (EndsSweep miter.now conflicts search.new pool.new.clauses) }
    ensures err { OnErr result (HasLearned (miter_clauses miter.now) conflicts pool.new.clauses) }
    ensures grows { Grows pool.old pool.new }
{
    let variables = miter.variables();
    let mut idle = 0;
    for copies in lines {
        let one = apart(variables, *copies, true);
        if let Some(last) = attempt(alloc, miter, search, pool, conflicts, one, &mut idle)? {
            return Ok(Some(last));
        }
        let other = apart(variables, *copies, false);
        if let Some(last) = attempt(alloc, miter, search, pool, conflicts, other, &mut idle)? {
            return Ok(Some(last));
        }
    }
    Ok(None)
}

// Returns the aim that the first copy of the line has this bit and the second copy the other bit.
fn apart(variables: u32, copies: Copies, bit: bool) -> Both
    requires few { variables < 2 ^ 31 }
    requires inside { AreVariables variables copies }
    ensures { AreBoth variables result }
{
    Both {
        first: Lit::new(copies.first, bit),
        second: Lit::new(copies.second, !bit),
        highest: copies.first.max(copies.second),
    }
}

// Tries to make both literals true, unless the tries that settled nothing have cost enough. A try settles something
// if one of the two is false at its end.
fn attempt(
    alloc: Global,
    miter: &Miter,
    search: &mut Search,
    pool: &mut Pool,
    conflicts: u32,
    both: Both,
    idle: &mut usize,
) -> Result<Option<Chain>, AllocError>
    requires search { IsSearch miter.now conflicts search.old pool.old.clauses }
    requires few { length (miter_clauses miter.now) + conflicts < 2 ^ 32 }
    requires both { AreBoth (variable_count miter.now.circuit miter.now.f miter.now.g) both }
    ensures ends { IfOk result (EndsSweep miter.now conflicts search.new pool.new.clauses) }
    ensures err { OnErr result (HasLearned (miter_clauses miter.now) conflicts pool.new.clauses) }
    ensures grows { Grows pool.old pool.new }
{
    if *idle >= IDLE_LIMIT {
        return Ok(None);
    }
    let before = search.chains.len();
    if let Some(last) = reach(alloc, miter, search, pool, conflicts, both)? {
        return Ok(Some(last));
    }
    if !is_settled(&search.trail, &both) {
        *idle += search.chains.len().saturating_sub(before) + 1;
    }
    restart(search, pool);
    Ok(None)
}

// Whether one of the two literals is false.
fn is_settled(trail: &Trail, both: &Both) -> bool
    requires { AreBoth trail.now.assignment.variables both.now }
{
    is_false(trail, both.first) || is_false(trail, both.second)
}

fn is_false(trail: &Trail, lit: Lit) -> bool
    requires { lit.variable ≤ trail.now.assignment.variables }
{
    trail.value(lit.variable()) == Some(!lit.positive())
}

// Takes at most `TRIES` steps of the search, to make both literals true.
fn reach(
    alloc: Global,
    miter: &Miter,
    search: &mut Search,
    pool: &mut Pool,
    conflicts: u32,
    both: Both,
) -> Result<Option<Chain>, AllocError>
    requires search { IsSearch miter.now conflicts search.old pool.old.clauses }
    requires few { length (miter_clauses miter.now) + conflicts < 2 ^ 32 }
    requires both { AreBoth (variable_count miter.now.circuit miter.now.f miter.now.g) both }
    ensures ends { IfOk result (EndsSweep miter.now conflicts search.new pool.new.clauses) }
    ensures err { OnErr result (HasLearned (miter_clauses miter.now) conflicts pool.new.clauses) }
    ensures grows { Grows pool.old pool.new }
{
    search.decider.turn_to(both.highest);
    let aim = Aim::Both(both);
    for _turn in 0..TRIES {
        if search.chains.len() >= conflicts as usize {
            return Ok(None);
        }
        match take_step(alloc, miter, search, pool, conflicts, &aim)? {
            SolverStep::Learned => {}
            SolverStep::Open => break,
            SolverStep::Refuted(last) => return Ok(Some(last)),
        }
    }
    Ok(None)
}
