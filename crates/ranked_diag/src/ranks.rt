//! Fault numbers by their mismatches.

ghost use Rattle.std.specs.Prelude.{◌≡◌, ◌<◌, [], ◌∷◌, ◌++◌, length, Some, slice_index, slice_get, IfOk, OnOk};

use std::alloc::{AllocError, Global};
use std::marker::Model;

/// A count of mismatches for each fault number.
#[derive(Debug, Drop)]
pub struct Counts {
    counts: Vec<u64>,
}

impl Model for Counts {
    ghost use Rattle.std.specs.Prelude.{ℕ, List};

    ghost Value = { List ℕ };

    ghost view = { λ c. c.counts.items };
}

impl Counts {
    /// Returns how many fault numbers there are.
    pub fn len(&self) -> usize
        ensures { result ≡ length self.now }
    {
        self.counts.len()
    }

    /// Returns the count of a number.
    pub fn get(&self, number: u32) -> u64
        requires { number < length self.now }
        ensures { result ≡ slice_index self.now number }
    {
        self.counts[number as usize]
    }

    // Returns no counts yet, with room for `numbers` of them.
    pub(crate) fn with_room(alloc: Global, numbers: usize) -> Result<Counts, AllocError>
        ensures { IfOk result (λ counts. counts ≡ []) }
    {
        Ok(Counts {
            counts: Vec::with_capacity(alloc, numbers)?,
        })
    }

    pub(crate) fn push(&mut self, count: u64) -> Result<(), AllocError>
        ensures { OnOk result (self.new ≡ self.old ++ count ∷ []) }
    {
        Ok(self.counts.push(count)?)
    }

    pub(crate) fn as_slice(&self) -> &[u64]
        ensures { result.now ≡ self.now }
    {
        self.counts.as_slice()
    }
}

/// A list of pairs: a count, and a fault number that has it.
#[derive(Debug, Drop)]
pub struct Ranking {
    ranks: Vec<(u64, u32)>,
}

impl Model for Ranking {
    ghost use Rattle.std.specs.Prelude.{ℕ, List};

    ghost Value = { List (ℕ × ℕ) };

    ghost view = { λ r. r.ranks.items };
}

impl Ranking {
    /// Returns how many numbers are ranked.
    pub fn len(&self) -> usize
        ensures { result ≡ length self.now }
    {
        self.ranks.len()
    }

    /// Returns the count and the number at place `at`.
    pub fn get(&self, at: usize) -> (u64, u32)
        requires { at < length self.now }
        ensures { slice_get self.now at ≡ Some result }
    {
        self.ranks[at]
    }

    pub(crate) fn from_ranks(ranks: Vec<(u64, u32)>) -> Ranking
        ensures { result ≡ ranks.items }
    {
        Ranking { ranks }
    }
}
