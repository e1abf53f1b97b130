//! The fault numbers of the fewest mismatches.

ghost use Rattle.std.specs.Prelude.{◌≡◌, ◌<◌, ◌≤◌, ◌+◌, ◌^◌, [], ◌∷◌, ◌++◌, All, length, filter, nat_le, if◌then◌else◌, IfOk, OnOk};
ghost use Rattle.ranked_diag.specs.Ranked.{least, counted_numbers, IsRanking};

use crate::ranks::{Counts, Ranking};
use std::alloc::{AllocError, Global};

/// Returns the numbers whose count is at most `within` above the least, each with its count, ascending by count and
/// then by number.
pub fn ranking(alloc: Global, counts: &Counts, within: u32) -> Result<Ranking, AllocError>
    requires some { 0 < length counts.now }
    requires few { length counts.now < 2 ^ 32 }
    ensures { IfOk result (IsRanking counts.now within) }
{
    let counts = counts.as_slice();
    let lowest = least_of(counts);
    let mut ranks = ranks_near(alloc, counts, lowest, within as u64)?;
    ranks.sort_unstable();
    Ok(Ranking::from_ranks(ranks))
}

fn least_of(counts: &[u64]) -> u64
    requires { 0 < length counts.now }
    ensures { result ≡ least counts.now }
{
    let mut lowest = counts[0];
    for count in counts {
        lowest = lowest.min(*count);
    }
    lowest
}

// Returns the counts that are at most `within` above the lowest, each with its number.
fn ranks_near(
    alloc: Global,
    counts: &[u64],
    lowest: u64,
    within: u64,
) -> Result<Vec<(u64, u32)>, AllocError>
    requires few { length counts.now < 2 ^ 32 }
    requires lowest { All (λ count. lowest ≤ count) counts.now }
    ensures { IfOk result (λ ranks. ranks.items ≡ filter (λ rank. nat_le rank.0 (lowest + within)) (counted_numbers counts.now)) }
{
    let mut ranks = Vec::new(alloc);
    for (number, count) in counts.iter().enumerate() {
        let is_near = *count - lowest <= within;
        keep(&mut ranks, (*count, number as u32), is_near)?;
    }
    Ok(ranks)
}

// Appends the rank if it is kept.
fn keep(ranks: &mut Vec<(u64, u32)>, rank: (u64, u32), kept: bool) -> Result<(), AllocError>
    ensures { OnOk result (ranks.new.items ≡ (if kept then ranks.old.items ++ rank ∷ [] else ranks.old.items)) }
{
    if kept {
        ranks.push(rank)?;
    }
    Ok(())
}
