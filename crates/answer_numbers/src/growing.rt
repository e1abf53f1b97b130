//! The trees of all places, grown position by position.

ghost use Rattle.std.specs.Prelude.{◌≡◌, ℕ, ◌+◌, ◌*◌, ◌<◌, ◌≤◌, ◌^◌, true, false, length, IfOk, OnOk};
ghost use Rattle.net_model.specs.Answer.{bit_at};
ghost use Rattle.net_model.specs.Rows.{bit_of};
ghost use Rattle.word_sim.specs.declared.lanes.TheConstants.{LANES};
ghost use Rattle.answer_numbers.specs.Differences.{AreLists};
ghost use Rattle.answer_numbers.specs.Trees.{AreTrees, AreGrown};
ghost use Rattle.answer_numbers.specs.Growing.{AreLaneLists, AreWholeTrees, in_word, in_lanes, differs_in_cell};

use crate::differences::PositionLists;
use crate::trees::LaneTrees;
use std::alloc::{AllocError, Global};
use word_sim::{LANES, Lanes};

impl LaneTrees {
    /// Returns the trees of `lanes` lanes in which each of `places` places is at the node of the positions at which it
    /// differs.
    pub(crate) fn grown(
        alloc: Global,
        lists: &PositionLists,
        lanes: u32,
        places: usize,
    ) -> Result<LaneTrees, AllocError>
        requires lists { AreLaneLists lanes (places * lanes) lists.now }
        requires lanes { lanes ≤ LANES }
        requires places { places < 2 ^ 32 }
        ensures { IfOk result (AreWholeTrees lists.now lanes places (length lists.now.firsts.items)) }
    {
        let mut trees = LaneTrees::new(alloc, lanes, places)?;
        for position in 0..lists.positions() {
            trees.grow(lists, position)?;
        }
        Ok(trees)
    }

    // Advances each place that differs at `position`, in the lanes in which it differs.
    fn grow(&mut self, lists: &PositionLists, position: u32) -> Result<(), AllocError>
        requires trees { AreTrees (position + 1) self.old }
        requires lists { AreLaneLists self.old.lanes (length self.old.stands.items) lists.now }
        requires some { 0 < length self.old.stands.items → 0 < self.old.lanes }
        requires few { self.old.lanes ≤ LANES }
        requires position { position < length lists.now.firsts.items }
        ensures { OnOk result (AreGrown position (differs_in_cell lists.now self.old.lanes position) self.old self.new) }
    {
        let mut number = lists.first(position);
        while let Some(item) = lists.at(number) {
            self.step_lanes(item.place, item.lanes, position)?;
            number = item.next;
        }
        Ok(())
    }

    // Advances `place` in each of `lanes`.
    fn step_lanes(&mut self, place: u32, lanes: Lanes, position: u32) -> Result<(), AllocError>
        requires trees { AreTrees (position + 1) self.old }
        requires place { place * self.old.lanes + self.old.lanes ≤ length self.old.stands.items }
        requires few { self.old.lanes ≤ LANES }
        requires past { (lane : ℕ) → self.old.lanes ≤ lane → lane < LANES → bit_at lanes lane ≡ false }
        requires position { position + 1 < 2 ^ 32 }
        ensures { OnOk result (AreGrown position (in_lanes (place * self.old.lanes) lanes) self.old self.new) }
    {
        let first = place as usize * self.lanes as usize;
        for at in 0..LANES / 64 {
            self.step_word(first + at as usize * 64, lanes.word(at), position)?;
        }
        Ok(())
    }

    // Advances each cell whose bit is set in `word`, starting at cell `first`.
    fn step_word(&mut self, first: usize, word: u64, position: u32) -> Result<(), AllocError>
        requires trees { AreTrees (position + 1) self.old }
        requires within { (k : ℕ) → k < 64 → bit_of word k ≡ true → first + k < length self.old.stands.items }
        requires first { first < 2 ^ 48 }
        requires position { position + 1 < 2 ^ 32 }
        ensures { OnOk result (AreGrown position (in_word first word) self.old self.new) }
    {
        let mut left = word;
        while left != 0 {
            let digit = left.trailing_zeros();
            left = left & !(1 << digit);
            self.step(first + digit as usize, position)?;
        }
        Ok(())
    }
}
