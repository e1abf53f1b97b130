//! Where the answers of places differ from the fault-free ones: a list for each position.

ghost use Rattle.std.specs.Prelude.{◌≡◌, ℕ, ◌+◌, ◌<◌, ◌^◌, None, length, slice_index, IfOk, OnOk, MatchOption};
ghost use Rattle.std.specs.List.{range_with_len};
ghost use Rattle.answer_numbers.specs.Differences.{AreLists, HasPush, HasPlace, IsItem, found_at};

use fault_sim::FaultSim;
use std::alloc::{AllocError, Global};
use word_sim::Lanes;

/// A place, the lanes in which it differs at a position, and the number of what comes after it in the position's list.
#[derive(Clone, Copy)]
pub(crate) struct Item {
    pub(crate) place: u32,
    pub(crate) lanes: Lanes,
    pub(crate) next: u32,
}

/// A list of items for each position. The number of a position is the end of its list. The numbers starting at the
/// count of positions are those of the items, in the order in which they came.
#[derive(Drop)]
pub(crate) struct PositionLists {
    pub(crate) firsts: Vec<u32>,
    pub(crate) items: Vec<Item>,
}

impl PositionLists {
    /// Returns an empty list for each of `positions` positions.
    pub(crate) fn new(alloc: Global, positions: u32) -> Result<PositionLists, AllocError>
        ensures count { IfOk result (λ lists. length lists.firsts.items ≡ positions) }
        ensures lists { IfOk result AreLists }
        ensures none { IfOk result (λ lists. (position place : ℕ) → position < positions → found_at lists position place ≡ None) }
    {
        Ok(PositionLists {
            firsts: numbers_below(alloc, positions)?,
            items: Vec::new(alloc),
        })
    }

    /// Returns how many positions there are.
    pub(crate) fn positions(&self) -> u32
        requires { length self.now.firsts.items < 2 ^ 32 }
        ensures { result ≡ length self.now.firsts.items }
    {
        self.firsts.len() as u32
    }

    /// Returns the number of what comes first in the list of `position`.
    pub(crate) fn first(&self, position: u32) -> u32
        requires { position < length self.now.firsts.items }
        ensures { result ≡ slice_index self.now.firsts.items position }
    {
        self.firsts[position as usize]
    }

    /// Returns the item of `number`, or none if `number` is the end of a list.
    pub(crate) fn at(&self, number: u32) -> Option<Item>
        requires { number < length self.now.firsts.items + length self.now.items.items }
        ensures { MatchOption result (number < length self.now.firsts.items) (IsItem self.now number) }
    {
        let at = (number as usize).checked_sub(self.firsts.len())?;
        Some(self.items[at])
    }

    // Puts `place` before all others in the list of `position`. It is an error if 32 bits can't number one more item.
    fn push(&mut self, position: u32, place: u32, lanes: Lanes) -> Result<(), AllocError>
        requires lists { AreLists self.old }
        requires position { position < length self.old.firsts.items }
        requires absent { found_at self.old position place ≡ None }
        ensures { OnOk result (HasPush position place lanes self.old self.new) }
    {
        let number = self.firsts.len() + self.items.len();
        if number >= u32::MAX as usize {
            return Err(AllocError);
        }
        let next = self.firsts[position as usize];
        self.items.push(Item { place, lanes, next })?;
        self.firsts[position as usize] = number as u32;
        Ok(())
    }

    /// Puts `place` into the list of each position at which the answers of the fault that `sim` injected last differ.
    pub(crate) fn add_place(&mut self, sim: &FaultSim, place: u32) -> Result<(), AllocError>
        requires lists { AreLists self.old }
        requires positions { length self.old.firsts.items ≡ length sim.now.circuit.positions }
        requires absent { (position : ℕ) → position < length self.old.firsts.items → found_at self.old position place ≡ None }
        ensures { OnOk result (HasPlace sim.now place self.old self.new) }
    {
        for position in sim.differing_positions() {
            self.push(*position, place, sim.differs(*position))?;
        }
        Ok(())
    }
}

/// Returns the numbers below `count`, ascending.
pub(crate) fn numbers_below(alloc: Global, count: u32) -> Result<Vec<u32>, AllocError>
    ensures { IfOk result (λ numbers. numbers.items ≡ range_with_len 0 count) }
{
    let mut numbers = Vec::with_capacity(alloc, count as usize)?;
    for number in 0..count {
        numbers.push(number)?;
    }
    Ok(numbers)
}
