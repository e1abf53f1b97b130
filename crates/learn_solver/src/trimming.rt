//! The needed chains of a log, with new numbers.

ghost use Rattle.std.specs.Prelude.{◌≡◌, ℕ, ◌+◌, ◌<◌, ◌≤◌, ◌^◌, [], List, IfOk, OnOk, length};
ghost use Rattle.clause_pool.specs.Clauses.{Clause};
ghost use Rattle.pair_miter.specs.Log.{IsRefutation, NamesNoLiteral};
ghost use Rattle.learn_solver.specs.Needed.{IsTrimmedTo, KeepsEnds, number_after, renumbered_chain};
ghost use Rattle.learn_solver.specs.Trimmed.{IsEachUsed};

use crate::needed::needed;
use pair_miter::{Chain, Log};
use std::alloc::{AllocError, Global};

/// Leaves out of a log over `count` clauses the chains that its end doesn't need, and gives the others new numbers.
/// If the log is a refutation of these clauses within a limit, so is the result; each chain of it except the last is
/// used by a later one, it has no more chains than the log, and its chains name no literals if those of the log name
/// none. A proof is trimmed like this from its end (Heule, Hunt and Wetzler 2013).
pub fn trim(alloc: Global, log: &Log, count: u32) -> Result<Log, AllocError>
    requires few { count + length log.now < 2 ^ 32 }
    ensures refutes { IfOk result (λ short. (clauses : List Clause) (limit : ℕ) → length clauses ≡ count → IsRefutation clauses limit log.now → IsRefutation clauses limit short) }
    ensures used { IfOk result (IsEachUsed count) }
    ensures bare { IfOk result (λ short. NamesNoLiteral log.now → NamesNoLiteral short) }
    ensures fewer { IfOk result (λ short. length short ≤ length log.now) }
{
    let mut short = Log::new(alloc);
    let all = log.as_slice();
    if all.is_empty() {
        return Ok(short);
    }
    let (chains, last) = (&all[..all.len() - 1], &all[all.len() - 1]);
    let marks = needed(alloc, chains, last, count)?;
    let numbers = keep_needed(alloc, chains, marks.as_slice(), count, &mut short)?;
    short.push(renumbered(alloc, last, count, numbers.as_slice())?)?;
    Ok(short)
}

// Puts the marked chains into a log, with new numbers, and returns for each chain the new number of its end, or 0 if
// it isn't marked.
fn keep_needed(
    alloc: Global,
    chains: &[Chain],
    marks: &[bool],
    count: u32,
    short: &mut Log,
) -> Result<Vec<u32>, AllocError>
    requires marks { length marks.now ≡ length chains.now }
    requires few { count + length chains.now < 2 ^ 32 }
    requires none { short.old ≡ [] }
    ensures trimmed { IfOk result (λ numbers. IsTrimmedTo count chains.now marks.now (length chains.now) numbers.items short.new) }
    ensures ends { IfOk result (λ numbers. KeepsEnds count chains.now marks.now numbers.items short.new) }
{
    let mut number = count;
    let mut numbers = Vec::with_capacity(alloc, chains.len())?;
    for (at, chain) in chains.iter().enumerate() {
        if marks[at] {
            short.push(renumbered(alloc, chain, count, numbers.as_slice())?)?;
            number += 1;
            numbers.push(number)?;
        } else {
            numbers.push(0)?;
        }
    }
    Ok(numbers)
}

// Returns the chain with the new numbers of the ends of the chains before it.
fn renumbered(
    alloc: Global,
    chain: &Chain,
    count: u32,
    numbers: &[u32],
) -> Result<Chain, AllocError>
    ensures { IfOk result (λ new. new ≡ renumbered_chain count numbers.now chain.now) }
{
    let mut new = Chain::new(alloc, new_number(chain.start(), count, numbers), chain.at());
    for (pivot, number) in chain.steps() {
        new.push(*pivot, new_number(*number, count, numbers))?;
    }
    Ok(new)
}

// Returns the new number of a clause.
fn new_number(number: u32, count: u32, numbers: &[u32]) -> u32
    ensures { result ≡ number_after count numbers.now number }
{
    if number <= count {
        return number;
    }
    match numbers.get((number - count - 1) as usize) {
        Some(new) => *new,
        None => number,
    }
}
