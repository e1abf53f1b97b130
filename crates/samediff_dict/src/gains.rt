//! How many pairs of classes each candidate tells apart.

ghost use Rattle.std.specs.Prelude.{◌≡◌, ◌<◌, ◌^◌, length, IfOk, slice_index};
ghost use Rattle.samediff_dict.specs.PlaceGroups.{AreBelow, AreGains, AreGroups, InBoth, IsTallyOf, gain_at, in_one, IsFirstMost, IsFoundAbove};
ghost use Rattle.samediff_dict.specs.Partition.{IsListed, are_together};

use crate::groups::{PlaceGroups, Tally};
use crate::numbers::SparseNumbers;
use crate::partition::{Partition, keys_at};
use std::alloc::{AllocError, Global};

impl PlaceGroups {
    // Returns for each candidate how many pairs of places in one group it tells apart. `answers` has the candidate that
    // each place answers.
    fn gains(
        &self,
        alloc: Global,
        answers: &[u64],
        candidates: usize,
    ) -> Result<Vec<u64>, AllocError>
        requires long { length answers.now ≡ length self.now.group_of.items }
        requires few { length answers.now < 2 ^ 32 }
        requires within { AreBelow self.now.group_of.items self.now.count }
        requires known { AreBelow answers.now candidates }
        ensures { IfOk result (λ gains. AreGains (in_one self.now.group_of.items) answers.now candidates gains.items) }
    {
        let cells = self.meet(alloc, answers)?;
        let all = self.tally(alloc)?;
        let alike = cells.tally(alloc)?;
        self.gains_by(alloc, answers, candidates, &cells, &all, &alike)
    }

    // As `gains`, by the sizes of the groups (`all`) and those of their parts that answer alike (`alike`).
    fn gains_by(
        &self,
        alloc: Global,
        answers: &[u64],
        candidates: usize,
        cells: &PlaceGroups,
        all: &Tally,
        alike: &Tally,
    ) -> Result<Vec<u64>, AllocError>
        requires long { length answers.now ≡ length self.now.group_of.items }
        requires few { length answers.now < 2 ^ 32 }
        requires within { AreBelow self.now.group_of.items self.now.count }
        requires known { AreBelow answers.now candidates }
        requires cells { AreGroups (length answers.now) (InBoth self.now.group_of.items answers.now) cells.now.group_of.items cells.now.count }
        requires all { IsTallyOf self.now.group_of.items self.now.count all.now.sizes.items all.now.together }
        requires alike { IsTallyOf cells.now.group_of.items cells.now.count alike.now.sizes.items alike.now.together }
        ensures { IfOk result (λ gains. AreGains (in_one self.now.group_of.items) answers.now candidates gains.items) }
    {
        let groups = self.group_of.as_slice();
        let parts = cells.group_of.as_slice();
        let sizes = all.sizes.as_slice();
        let part_sizes = alike.sizes.as_slice();
        let mut gains = vec![in alloc; 0u64; candidates]?;
        for place in 0..answers.len() {
            let size = size_of(groups, sizes, place);
            let part = size_of(parts, part_sizes, place);
            gains[answers[place] as usize] += u64::from(size - part);
        }
        Ok(gains)
    }
}

impl Partition {
    /// Returns the first of the candidates that tell most pairs apart.
    pub(crate) fn first_most(
        &self,
        alloc: Global,
        answers: &SparseNumbers,
        candidates: u32,
    ) -> Result<u32, AllocError>
        requires listed { IsListed (length answers.now) self.now }
        requires few { length answers.now < 2 ^ 32 }
        requires known { AreBelow answers.now candidates }
        requires some { 0 < candidates }
        ensures { IfOk result (IsFirstMost (gain_at (are_together self.now) answers.now) candidates) }
    {
        let gains = self.gains(alloc, answers, candidates as usize)?;
        Ok(place_of_most(gains.as_slice()) as u32)
    }

    /// Returns for each candidate how many pairs of classes that are together it tells apart.
    pub(crate) fn gains(
        &self,
        alloc: Global,
        answers: &SparseNumbers,
        candidates: usize,
    ) -> Result<Vec<u64>, AllocError>
        requires listed { IsListed (length answers.now) self.now }
        requires few { length answers.now < 2 ^ 32 }
        requires known { AreBelow answers.now candidates }
        ensures { IfOk result (λ gains. AreGains (are_together self.now) answers.now candidates gains.items) }
    {
        let own_answers = keys_at(alloc, answers, self.classes.as_slice())?;
        self.groups.gains(alloc, own_answers.as_slice(), candidates)
    }
}

pub(crate) fn size_of(groups: &[u32], sizes: &[u32], place: usize) -> u32
    requires place { place < length groups.now }
    requires within { AreBelow groups.now (length sizes.now) }
    ensures { result ≡ slice_index sizes.now (slice_index groups.now place) }
{
    sizes[groups[place] as usize]
}

// Returns the first place of the greatest number.
fn place_of_most(gains: &[u64]) -> usize
    requires { 0 < length gains.now }
    ensures { IsFirstMost (slice_index gains.now) (length gains.now) result }
{
    let mut best = 0;
    for place in 1..gains.len() {
        if gains[best] < gains[place] {
            best = place;
        }
    }
    best
}

/// Returns the first place whose number is greater than that at `current`, or none.
pub(crate) fn place_above(gains: &[u64], current: usize) -> Option<usize>
    requires { current < length gains.now }
    ensures { IsFoundAbove (slice_index gains.now) (length gains.now) current result }
{
    for place in 0..gains.len() {
        if gains[current] < gains[place] {
            return Some(place);
        }
    }
    None
}
