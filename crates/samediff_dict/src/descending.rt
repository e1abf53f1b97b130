//! The descent over halves of the patterns, which counts or repairs the gains of all candidates.

ghost use Rattle.std.specs.Prelude.{◌≡◌, ◌+◌, ◌<◌, ◌≤◌, ℕ, length, slice_index, IfOk, OnOk};
ghost use Rattle.samediff_dict.specs.Partition.{IsListed};
ghost use Rattle.samediff_dict.specs.GainTable.{AreGainsIn, HaveGains, KeepsRowsOutside};
ghost use Rattle.samediff_dict.specs.PlaceGroups.{AreBelow};
ghost use Rattle.samediff_dict.specs.Descent.{CanDescend, HasAlike, IsKeyIn, IsNarrowed, together_of_new, together_of_old};

use crate::gain_table::GainTable;
use crate::moved::Move;
use crate::numbering::Candidates;
use crate::partition::Partition;
use crate::setting::end_after;
use net_model::{AnswerRows, low_bits, with_bit, word_at};
use std::alloc::{AllocError, Global};

const WORD_BITS: usize = 64;

/// What the gains are counted from: the candidates of each pattern, the `chosen` ones, and the entry of each class by
/// these. With a `step` the gains are repaired instead, after another candidate took the place of the chosen one at
/// pattern `out`, which is then left out.
#[derive(Clone, Copy)]
pub(crate) struct Descent<'a, 'b> {
    pub(crate) count: u32,
    pub(crate) patterns: &'a [Candidates],
    pub(crate) chosen: &'b [u32],
    pub(crate) entries: &'b AnswerRows,
    pub(crate) out: usize,
    pub(crate) step: Option<Move<'a>>,
}

impl Descent<'_, '_> {
    /// Counts the gains of all patterns, or with a `step` repairs them.
    pub(crate) fn run(&self, alloc: Global, table: &mut GainTable) -> Result<(), AllocError>
        requires can { CanDescend self.now }
        requires gains { HaveGains self.now.patterns.now (together_of_old self.now) table.old }
        ensures { OnOk result (HaveGains self.now.patterns.now (together_of_new self.now) table.new) }
    {
        if self.patterns.is_empty() {
            return Ok(());
        }
        let whole = Partition::whole(alloc, self.count)?;
        self.descend(alloc, &whole, 0, self.patterns.len(), table)
    }

    // Counts or repairs the gains of the patterns in `first..end`. `part` has the classes that are alike outside this
    // range. Each half gets those that are alike at the patterns of the other half too.
    fn descend(
        &self,
        alloc: Global,
        part: &Partition,
        first: usize,
        end: usize,
        table: &mut GainTable,
    ) -> Result<(), AllocError>
        requires can { CanDescend self.now }
        requires some { first < end }
        requires within { end ≤ length self.now.patterns.now }
        requires part { HasAlike self.now first end part.now }
        requires rows { length table.old ≡ length self.now.patterns.now }
        requires gains { AreGainsIn self.now.patterns.now (together_of_old self.now) first end table.old }
        ensures gains { OnOk result (AreGainsIn self.now.patterns.now (together_of_new self.now) first end table.new) }
        ensures others { OnOk result (KeepsRowsOutside first end table.old table.new) }
    {
        if part.classes.is_empty() {
            return Ok(());
        }
        if end - first == 1 {
            return self.leaf(alloc, part, first, table);
        }
        let middle = first + (end - first) / 2;
        let left = self.narrowed(alloc, part, middle, end)?;
        self.descend(alloc, &left, first, middle, table)?;
        let right = self.narrowed(alloc, part, first, middle)?;
        self.descend(alloc, &right, middle, end, table)
    }

    // Counts or repairs the gains of one pattern. `part` has the classes that are alike at all others. The gains of
    // pattern `out` stay.
    fn leaf(
        &self,
        alloc: Global,
        part: &Partition,
        pattern: usize,
        table: &mut GainTable,
    ) -> Result<(), AllocError>
        requires can { CanDescend self.now }
        requires within { pattern < length self.now.patterns.now }
        requires part { HasAlike self.now pattern (pattern + 1) part.now }
        requires rows { length table.old ≡ length self.now.patterns.now }
        requires gains { AreGainsIn self.now.patterns.now (together_of_old self.now) pattern (pattern + 1) table.old }
        ensures gains { OnOk result (AreGainsIn self.now.patterns.now (together_of_new self.now) pattern (pattern + 1) table.new) }
        ensures others { OnOk result (KeepsRowsOutside pattern (pattern + 1) table.old table.new) }
    {
        if pattern == self.out {
            return Ok(());
        }
        let candidates = &self.patterns[pattern];
        let Some(step) = self.step else {
            let count = candidates.count as usize;
            table.set(pattern, part.gains(alloc, &candidates.numbers, count)?);
            return Ok(());
        };
        table.repair(alloc, pattern, part, step, &candidates.numbers)
    }

    // Returns the groups of `part` cut by the patterns in `first..end`, 64 patterns at a time.
    fn narrowed(
        &self,
        alloc: Global,
        part: &Partition,
        first: usize,
        end: usize,
    ) -> Result<Partition, AllocError>
        requires can { CanDescend self.now }
        requires some { first < end }
        requires within { end ≤ length self.now.patterns.now }
        requires listed { IsListed self.now.count part.now }
        ensures { IfOk result (IsNarrowed self.now first end part.now) }
    {
        let mut done = end_after(first, WORD_BITS, end);
        let mut rest = self.cut_by(alloc, part, first, done)?;
        while done < end {
            if rest.classes.is_empty() {
                return Ok(rest);
            }
            let next = end_after(done, WORD_BITS, end);
            rest = self.cut_by(alloc, &rest, done, next)?;
            done = next;
        }
        Ok(rest)
    }

    // Returns the groups of `part` cut by the patterns in `first..end`, which fit a word. Groups with no pair that
    // counts may be left out.
    fn cut_by(
        &self,
        alloc: Global,
        part: &Partition,
        first: usize,
        end: usize,
    ) -> Result<Partition, AllocError>
        requires can { CanDescend self.now }
        requires some { first < end }
        requires few { end ≤ first + 64 }
        requires within { end ≤ length self.now.patterns.now }
        requires listed { IsListed self.now.count part.now }
        ensures { IfOk result (IsNarrowed self.now first end part.now) }
    {
        let keys = self.keys(alloc, part.classes.as_slice(), first, end)?;
        let cut = part.meet(alloc, keys.as_slice())?;
        let Some(step) = self.step else {
            return Ok(cut);
        };
        cut.mixed(alloc, step)
    }

    // Returns a key for each of `classes`. Classes that are alike at the patterns in `first..end`, `out` aside, have
    // the same key.
    fn keys(
        &self,
        alloc: Global,
        classes: &[u32],
        first: usize,
        end: usize,
    ) -> Result<Vec<u64>, AllocError>
        requires can { CanDescend self.now }
        requires some { first < end }
        requires few { end ≤ first + 64 }
        requires within { end ≤ length self.now.patterns.now }
        requires known { AreBelow classes.now self.now.count }
        ensures long { IfOk result (λ keys. length keys.items ≡ length classes.now) }
        ensures each { IfOk result (λ keys. (k : ℕ) → k < length classes.now → IsKeyIn self.now first end (slice_index classes.now k) (slice_index keys.items k)) }
    {
        let mut keys = Vec::with_capacity(alloc, classes.len())?;
        for place in 0..classes.len() {
            keys.push(self.key(classes[place] as usize, first, end))?;
        }
        Ok(keys)
    }

    // Returns the bits of the class's entry at the patterns in `first..end`, the lowest first. The bit of pattern `out`
    // is 0.
    fn key(&self, class: usize, first: usize, end: usize) -> u64
        requires can { CanDescend self.now }
        requires some { first < end }
        requires few { end ≤ first + 64 }
        requires within { end ≤ length self.now.patterns.now }
        requires class { class < self.now.count }
        ensures { IsKeyIn self.now first end class result }
    {
        let word = word_at(self.entries.row_words(class), first);
        let bits = low_bits(word, end - first);
        if first <= self.out && self.out < end {
            with_bit(bits, self.out - first, false)
        } else {
            bits
        }
    }
}
