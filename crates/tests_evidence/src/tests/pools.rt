//! A small pool of clauses, with results worked out by hand.

ghost use Rattle.std.specs.Prelude.{◌≡◌, []};

use clause_pool::{Full, Lit, Pool};
use std::test::Fail;

// Returns whether a pool takes two clauses of three literals, one after another, and has no room for more.
fn takes_two(pool: &mut Pool) -> bool {
    let pair = [Lit::new(1, true), Lit::new(2, false)];
    let last = [Lit::new(3, true)];
    pool.push(&pair) == Ok(1)
        && pool.push(&pair) == Err(Full)
        && pool.push(&last) == Ok(2)
        && pool.push(&[]) == Err(Full)
        && has_two(pool, &pair, &last)
}

// Returns whether a pool has these two clauses.
fn has_two(pool: &Pool, first: &[Lit], second: &[Lit]) -> bool {
    pool.len() == 2 && pool.get(1) == first && pool.get(2) == second
}

// Returns how many clauses there are, and for how many more clauses and literals there is room.
fn room(pool: &Pool) -> (u32, usize, usize) {
    (pool.len(), pool.spare_clauses(), pool.spare_literals())
}

// Returns whether the two clauses are dropped again, and the pool grows to three clauses.
fn is_emptied(pool: &mut Pool) -> Result<bool, Fail>
    requires { pool.old.clauses ≡ [] }
{
    let empty = pool.mark();
    let full = takes_two(pool);
    pool.release(empty);
    let emptied = room(pool) == (0, 2, 3);
    pool.grow(3, 1)?;
    Ok(full && emptied && room(pool) == (0, 3, 3))
}

#[test]
fn room_for_two_clauses_and_three_literals(rt: HostRuntime) -> Result<(), Fail> {
    let mut pool = Pool::with_room(rt.alloc(), 2, 3)?;
    assert!(rt; is_emptied(&mut pool)?);
    Ok(())
}

// Returns whether a pool without room grows for two clauses, and by no more than they need.
fn grows_for_two(pool: &mut Pool) -> Result<bool, Fail>
    requires { pool.old.clauses ≡ [] }
{
    let pair = [Lit::new(1, true), Lit::new(2, false)];
    let last = [Lit::new(3, true)];
    let numbers = (pool.add(&pair)?, pool.add(&last)?);
    Ok(numbers == (1, 2) && has_two(pool, &pair, &last) && room(pool) == (2, 0, 0))
}

#[test]
fn a_pool_grows_for_what_is_added(rt: HostRuntime) -> Result<(), Fail> {
    let mut pool = Pool::with_room(rt.alloc(), 0, 0)?;
    assert!(rt; grows_for_two(&mut pool)?);
    Ok(())
}

#[test]
fn a_full_pool_says_so(rt: HostRuntime) -> Result<(), Fail> {
    let text = format!(in rt.alloc(); "{Full}")?;
    assert_eq!(rt; text.as_str(), "no room is left for the clause");
    Ok(())
}
