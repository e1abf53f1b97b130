//! A candidate in place of another at a pattern: the groups in which this can put classes together or split them, and
//! the gains at another pattern after it.

ghost use Rattle.std.specs.Prelude.{◌≡◌, ◌+◌, ◌*◌, ◌<◌, ◌≤◌, ◌^◌, ◌==◌, ◌||◌, EachIndex, IfOk, OnOk, filter, length, slice_index};
ghost use Rattle.std.specs.List.{range_with_len};
ghost use Rattle.samediff_dict.specs.Moved.{AreAtPlaces, AreGainsAfter, AreGainsBefore, AreMixedPlaces, AreSides, HasMixedOf, has_both_sides};
ghost use Rattle.samediff_dict.specs.Partition.{IsListed};
ghost use Rattle.samediff_dict.specs.PlaceGroups.{AreBelow};

use crate::groups::{PlaceGroups, side_of};
use crate::numbers::SparseNumbers;
use crate::partition::{Partition, numbers_at, picked};
use std::alloc::{AllocError, Global};

/// The number `new` of a candidate in place of `old` at a pattern. `numbers` has the number of each class there.
#[derive(Clone, Copy)]
pub(crate) struct Move<'a> {
    pub(crate) numbers: &'a SparseNumbers,
    pub(crate) old: u32,
    pub(crate) new: u32,
}

impl PlaceGroups {
    // Returns places, ascending, among them all of each group that has both a place that is moved and one that isn't.
    fn mixed(
        &self,
        alloc: Global,
        numbers: &[u32],
        old: u32,
        new: u32,
    ) -> Result<Vec<u32>, AllocError>
        requires long { length numbers.now ≡ length self.now.group_of.items }
        requires few { length self.now.group_of.items < 2 ^ 32 }
        requires within { AreBelow self.now.group_of.items self.now.count }
        ensures { IfOk result (λ places. AreMixedPlaces self.now.group_of.items numbers.now old new places.items) }
    {
        let sides = self.sides(alloc, numbers, old, new)?;
        self.two_sided(alloc, sides.as_slice())
    }

    // Returns two marks for each group: the first is set if it has a place that is moved, the second if it has one that
    // isn't.
    fn sides(
        &self,
        alloc: Global,
        numbers: &[u32],
        old: u32,
        new: u32,
    ) -> Result<Vec<bool>, AllocError>
        requires long { length numbers.now ≡ length self.now.group_of.items }
        requires within { AreBelow self.now.group_of.items self.now.count }
        ensures { IfOk result (λ sides. AreSides self.now.group_of.items self.now.count numbers.now old new (length self.now.group_of.items) sides.items) }
    {
        let groups = self.group_of.as_slice();
        let mut sides = vec![in alloc; false; 2 * self.count as usize]?;
        for place in 0..groups.len() {
            let side = side_of(groups[place], is_either(numbers[place], old, new));
            sides[side] = true;
        }
        Ok(sides)
    }

    // Returns, ascending, the places of each group with both sides marked.
    fn two_sided(&self, alloc: Global, sides: &[bool]) -> Result<Vec<u32>, AllocError>
        requires few { length self.now.group_of.items < 2 ^ 32 }
        requires within { AreBelow self.now.group_of.items self.now.count }
        requires long { length sides.now ≡ 2 * self.now.count }
        ensures { IfOk result (λ places. places.items ≡ filter (has_both_sides self.now.group_of.items sides.now) (range_with_len 0 (length self.now.group_of.items))) }
    {
        let groups = self.group_of.as_slice();
        let mut places = Vec::new(alloc);
        for place in 0..groups.len() {
            if has_both_sides(groups, sides, place) {
                places.push(place as u32)?;
            }
        }
        Ok(places)
    }
}

impl Partition {
    /// Returns groups with only pairs of these, among them each pair of a class that is moved and one that isn't.
    pub(crate) fn mixed(&self, alloc: Global, step: Move) -> Result<Partition, AllocError>
        requires few { length step.numbers.now < 2 ^ 32 }
        requires listed { IsListed (length step.numbers.now) self.now }
        ensures listed { IfOk result (IsListed (length step.entry.numbers.now)) }
        ensures has { IfOk result (λ part. HasMixedOf (length step.entry.numbers.now) self.now part step.entry.numbers.now step.entry.old step.entry.new) }
    {
        let own_numbers = numbers_at(alloc, step.numbers, self.classes.as_slice())?;
        let places = self
            .groups
            .mixed(alloc, own_numbers.as_slice(), step.old, step.new)?;
        self.at_places(alloc, places.as_slice())
    }

    // Returns the listed classes at `places`, in their groups.
    fn at_places(&self, alloc: Global, places: &[u32]) -> Result<Partition, AllocError>
        requires one_each { length self.now.groups.group_of.items ≡ length self.now.classes.items }
        requires within { AreBelow places.now (length self.now.classes.items) }
        ensures { IfOk result (AreAtPlaces self.now places.now) }
    {
        let group_of = picked(alloc, self.groups.group_of.as_slice(), places)?;
        Ok(Partition {
            classes: picked(alloc, self.classes.as_slice(), places)?,
            groups: PlaceGroups {
                group_of,
                count: self.groups.count,
            },
        })
    }

    /// Repairs the gains of a pattern's candidates after the replacement `step` at another pattern. The partition has
    /// the pairs that the replacement may put together or split.
    pub(crate) fn repair(
        &self,
        alloc: Global,
        step: Move,
        answers: &SparseNumbers,
        gains: &mut [u64],
    ) -> Result<(), AllocError>
        requires listed { IsListed (length answers.now) self.now }
        requires numbers { length step.numbers.now ≡ length answers.now }
        requires few { length answers.now < 2 ^ 32 }
        requires known { AreBelow answers.now (length gains.old) }
        requires gains { AreGainsBefore self.now step.numbers.now step.old step.new answers.now gains.old }
        ensures { OnOk result (AreGainsAfter self.now step.entry.numbers.now step.entry.old step.entry.new answers.now gains.old gains.new) }
    {
        let after = self.cut(alloc, step.numbers, step.new)?;
        let before = self.cut(alloc, step.numbers, step.old)?;
        let more = after.gains(alloc, answers, gains.len())?;
        let fewer = before.gains(alloc, answers, gains.len())?;
        exchange(gains, more.as_slice(), fewer.as_slice());
        Ok(())
    }
}

fn is_either(number: u32, old: u32, new: u32) -> bool
    ensures { result ≡ (number == old || number == new) }
{
    number == old || number == new
}

// Returns whether both sides of the place's group are marked.
fn has_both_sides(groups: &[u32], sides: &[bool], place: usize) -> bool
    requires place { place < length groups.now }
    requires within { 2 * slice_index groups.now place + 1 < length sides.now }
    ensures { result ≡ has_both_sides groups.now sides.now place }
{
    let group = groups[place];
    sides[side_of(group, true)] && sides[side_of(group, false)]
}

// Adds to each number what `more` has at its place, and subtracts what `fewer` has.
fn exchange(gains: &mut [u64], more: &[u64], fewer: &[u64])
    requires more_each { length more.now ≡ length gains.old }
    requires fewer_each { length fewer.now ≡ length gains.old }
    requires fits { EachIndex gains.old (λ place. slice_index gains.old place + slice_index more.now place < 2 ^ 64) }
    requires enough { EachIndex gains.old (λ place. slice_index fewer.now place ≤ slice_index gains.old place + slice_index more.now place) }
    ensures { EachIndex gains.old (λ place. slice_index gains.new place + slice_index fewer.now place ≡ slice_index gains.old place + slice_index more.now place) }
{
    for place in 0..gains.len() {
        gains[place] = gains[place] + more[place] - fewer[place];
    }
}
