//! Propagation by hand: units, reasons, levels and a conflict, and a long chain.

ghost use Rattle.std.specs.Prelude.{◌≡◌, ◌<◌, ◌≤◌, All, OnOk};
ghost use Rattle.clause_pool.specs.Proper.{IsProper};
ghost use Rattle.solver_trail.specs.Trail.{Fits};

use clause_pool::{Lit, Pool};
use solver_trail::{Propagated, Trail, longer_pool_fits};
use std::alloc::Global;
use std::test::Fail;

// Pushes a clause and attaches it.
fn add(trail: &mut Trail, pool: &mut Pool, clause: &[Lit]) -> Result<(), Fail>
    requires fits { Fits trail.old pool.old.clauses }
    requires proper { IsProper trail.old.assignment.variables clause.now }
    ensures fits { OnOk result (Fits trail.new pool.new.clauses) }
    ensures assignment { OnOk result (trail.new.assignment ≡ trail.old.assignment) }
{
    let number = pool.push(clause)?;
    longer_pool_fits();
    trail.attach(pool, number)?;
    Ok(())
}

// Decides `lit` and propagates if its variable is unset; else returns none.
fn decide(trail: &mut Trail, pool: &Pool, lit: Lit) -> Option<Propagated>
    requires fits { Fits trail.old pool.now.clauses }
    requires inside { lit.variable ≤ trail.old.assignment.variables }
    ensures fits { Fits trail.new pool.now.clauses }
    ensures variables { trail.new.assignment.variables ≡ trail.old.assignment.variables }
{
    match trail.value(lit.variable()) {
        Some(_) => None,
        None => {
            trail.decide(lit);
            Some(trail.propagate(pool))
        }
    }
}

fn attach_all(trail: &mut Trail, pool: &Pool) -> Result<(), Fail>
    requires fits { Fits trail.old pool.now.clauses }
    requires proper { All (IsProper trail.old.assignment.variables) pool.now.clauses }
    ensures fits { OnOk result (Fits trail.new pool.now.clauses) }
    ensures assignment { OnOk result (trail.new.assignment ≡ trail.old.assignment) }
{
    for before in 0..pool.len() {
        trail.attach(pool, before + 1)?;
    }
    Ok(())
}

// Returns whether units and a reason are propagated, then a decision meets a conflict, and after it is undone the units
// are left.
fn propagates(trail: &mut Trail, pool: &Pool) -> bool
    requires fits { Fits trail.old pool.now.clauses }
    requires variables { trail.old.assignment.variables ≡ 4 }
{
    let units = [Lit::new(1, true), Lit::new(2, true)];
    if trail.propagate(pool) != Propagated::Quiet || trail.set_literals() != units.as_slice() {
        return false;
    }
    if (trail.value(2), trail.level_of(2), trail.reason(2)) != (Some(true), Some(0), Some(2)) {
        return false;
    }
    let met = decide(trail, pool, Lit::new(3, true));
    if !matches!(met, Some(Propagated::Conflict(3 | 4))) {
        return false;
    }
    if (trail.level(), trail.level_of(3), trail.reason(3)) != (1, Some(1), None) {
        return false;
    }
    trail.back_to(0);
    trail.set_literals() == units.as_slice()
}

// Returns whether the clauses 1, -1 2, -2 -3 4 and -3 -4 propagate like this.
fn four_propagate(trail: &mut Trail, pool: &mut Pool) -> Result<bool, Fail>
    requires fits { Fits trail.old pool.old.clauses }
    requires variables { trail.old.assignment.variables ≡ 4 }
{
    let (one, two) = (Lit::new(1, true), Lit::new(2, true));
    let (three, four) = (Lit::new(3, true), Lit::new(4, true));
    add(trail, pool, &[one])?;
    add(trail, pool, &[one.opposite(), two])?;
    add(trail, pool, &[two.opposite(), three.opposite(), four])?;
    add(trail, pool, &[three.opposite(), four.opposite()])?;
    Ok(propagates(trail, pool))
}

// As `four_propagate`, in a new pool.
fn propagate_alone(alloc: Global) -> Result<bool, Fail> {
    let mut pool = Pool::with_room(alloc, 4, 8)?;
    let mut trail = Trail::new(alloc, 4)?;
    four_propagate(&mut trail, &mut pool)
}

#[test]
fn units_and_reasons(rt: HostRuntime) -> Result<(), Fail> {
    assert!(rt; propagate_alone(rt.alloc())?);
    Ok(())
}

const VARIABLES: u32 = 500_000;

// Pushes the clauses by which every second literal, starting at `from`, sets the next one.
fn push_every_second(pool: &mut Pool, from: u32) -> Result<(), Fail>
    requires some { 0 < from }
    requires few { from < 3 }
    requires proper { All (IsProper VARIABLES) pool.old.clauses }
    ensures proper { OnOk result (All (IsProper VARIABLES) pool.new.clauses) }
{
    for turn in 0..(VARIABLES - from + 1) / 2 {
        let variable = from + 2 * turn;
        pool.push(&[Lit::new(variable, false), Lit::new(variable + 1, true)])?;
    }
    Ok(())
}

// Returns whether the first literal sets all others, every second one by the clauses that come first.
fn chain_sets(trail: &mut Trail, pool: &Pool) -> Result<bool, Fail>
    requires fits { Fits trail.old pool.now.clauses }
    requires proper { All (IsProper VARIABLES) pool.now.clauses }
    requires variables { trail.old.assignment.variables ≡ VARIABLES }
{
    attach_all(trail, pool)?;
    let met = decide(trail, pool, Lit::new(1, true));
    Ok(
        met == Some(Propagated::Quiet)
            && trail.value(VARIABLES) == Some(true)
            && trail.reason(VARIABLES) == Some(250_000),
    )
}

// As `chain_sets`, in a new trail.
fn sets_all(alloc: Global, pool: &Pool) -> Result<bool, Fail>
    requires { All (IsProper VARIABLES) pool.now.clauses }
{
    let mut trail = Trail::new(alloc, VARIABLES)?;
    chain_sets(&mut trail, pool)
}

#[test]
fn a_chain_in_two_turns(rt: HostRuntime) -> Result<(), Fail> {
    let mut pool = Pool::with_room(rt.alloc(), 499_999, 999_998)?;
    push_every_second(&mut pool, 1)?;
    push_every_second(&mut pool, 2)?;
    assert!(rt; pool.len() == 499_999 && sets_all(rt.alloc(), &pool)?);
    Ok(())
}
