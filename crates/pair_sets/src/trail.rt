//! The pairs of all lines, and their changes, which can be undone.

ghost use Rattle.std.specs.Prelude.{◌≡◌, ℕ, ◌<◌, ◌≤◌, ◌∷◌, [], ◌++◌, All, Contains, IfOk, drop, length, slice_set, vec_capacity};
ghost use Rattle.pair_sets.specs.CubeState.{set_at};
ghost use Rattle.pair_sets.specs.Trail.{HasChangeRoom, change_with, pairs_in_set, undone};

use crate::pair_set::PairSet;
use std::alloc::{AllocError, Global};

/// A line whose pairs changed, and the pairs that it had before.
#[derive(Clone, Copy, Debug)]
pub(crate) struct Change {
    pub(crate) line: u32,
    pub(crate) was: PairSet,
}

/// The pairs of all lines, and the changes that led to them.
#[derive(Debug, Drop)]
pub(crate) struct PairTrail {
    pub(crate) sets: Vec<PairSet>,
    pub(crate) changes: Vec<Change>,
}

impl PairTrail {
    /// Returns a trail with the pairs `sets`, no changes, and room for `room` changes.
    pub(crate) fn of(alloc: Global, sets: &[PairSet], room: usize) -> Result<PairTrail, AllocError>
        ensures sets { IfOk result (λ trail. trail.sets.items ≡ sets.now) }
        ensures changes { IfOk result (λ trail. trail.changes.items ≡ []) }
        ensures room { IfOk result (λ trail. vec_capacity trail.changes ≡ room) }
    {
        Ok(PairTrail {
            sets: Vec::from_slice(alloc, sets)?,
            changes: Vec::with_capacity(alloc, room)?,
        })
    }

    /// Replaces the pairs of `line` by fewer ones, and notes the change. It allocates no memory.
    pub(crate) fn set(&mut self, line: u32, pairs: PairSet)
        requires line { line < length self.old.sets.items }
        requires fewer { pairs_in_set pairs < pairs_in_set (set_at self.old.sets.items line) }
        requires room { HasChangeRoom self.old }
        ensures sets { self.new.sets.items ≡ slice_set self.old.sets.items line pairs }
        ensures changes { self.new.changes.items ≡ self.old.changes.items ++ change_with line (set_at self.old.sets.items line) ∷ [] }
        ensures capacity { vec_capacity self.new.changes ≡ vec_capacity self.old.changes }
        ensures room { HasChangeRoom self.new }
    {
        let was = self.sets[line as usize];
        self.changes.push_reserved(Change { line, was });
        self.sets[line as usize] = pairs;
    }

    /// Gives the lines the pairs that they had after the first `start` changes. The noted changes stay.
    pub(crate) fn restore(&mut self, start: usize)
        requires start { start ≤ length self.old.changes.items }
        requires within { All (λ change. change.line < length self.old.sets.items) self.old.changes.items }
        ensures sets { self.new.sets.items ≡ undone (drop start self.old.changes.items) self.old.sets.items }
        ensures changes { self.new.changes ≡ self.old.changes }
    {
        let mut end = self.changes.len();
        while end > start {
            end -= 1;
            let change = self.changes[end];
            self.sets[change.line as usize] = change.was;
        }
    }

    /// Gives each of `lines` the pairs that it has in `from`.
    pub(crate) fn copy(&mut self, from: &[PairSet], lines: &[u32])
        requires within { All (λ line. line < length self.old.sets.items) lines.now }
        requires width { length from.now ≡ length self.old.sets.items }
        ensures changes { self.new.changes ≡ self.old.changes }
        ensures width { length self.new.sets.items ≡ length self.old.sets.items }
        ensures here { (line : ℕ) → Contains lines.now line → set_at self.new.sets.items line ≡ set_at from.now line }
        ensures kept { (line : ℕ) → set_at self.old.sets.items line ≡ set_at from.now line → set_at self.new.sets.items line ≡ set_at from.now line }
    {
        for line in lines {
            self.sets[*line as usize] = from[*line as usize];
        }
    }
}
