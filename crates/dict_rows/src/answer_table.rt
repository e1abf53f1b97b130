//! The answers of all fault numbers to all patterns.

ghost use Rattle.std.specs.Prelude.{◌≡◌, ◌+◌, ◌*◌, ◌<◌, ◌≤◌, ◌%◌, ◌^◌, ℕ, false, length, map, All, IfOk};
ghost use Rattle.std.specs.List.{range_with_len};
ghost use Rattle.net_model.specs.Rows.{row_at};
ghost use Rattle.dict_rows.specs.AnswerTable.{HasSizes, IsTable, HasBitSet, ArePicked, IsNumberSet, answer_to, answer_bit};
ghost use Rattle.dict_rows.specs.Rows.{AreRows, IsRowSet, IsWordOf};
ghost use Rattle.dict_rows.specs.Entries.{full_entry};

use crate::bits::{copy_words, rows_at, set_bit};
use net_model::{AnswerRows, low_bits, word_at};
use std::alloc::{AllocError, Global};
use std::marker::Model;

/// A table with a bit for each pattern, fault number and position: what the number answers to the pattern at the
/// position.
#[derive(Debug, Drop)]
pub struct AnswerTable {
    // A row for each number: its answers, pattern by pattern.
    cells: AnswerRows,
    patterns: u32,
    numbers: u32,
    positions: u32,
}

impl Model for AnswerTable {
    ghost use Rattle.dict_rows.specs.AnswerTableFields.{table_of, AreCells};
    ghost use Rattle.dict_rows.specs.AnswerTable.{Answers};

    ghost Value = { Answers };

    ghost invariant = { AreCells };

    ghost view = { table_of };
}

impl AnswerTable {
    /// Returns a table of the given numbers of patterns, numbers and positions whose bits are all 0.
    pub fn zeros(
        alloc: Global,
        patterns: u32,
        numbers: u32,
        positions: u32,
    ) -> Result<AnswerTable, AllocError>
        ensures sizes { IfOk result (λ table. HasSizes table patterns numbers positions) }
        ensures clear { IfOk result (λ table. (pattern number position : ℕ) → answer_bit table pattern number position ≡ false) }
    {
        let width = width_of(patterns, positions);
        Ok(AnswerTable {
            cells: AnswerRows::zeros(alloc, numbers as usize, width)?,
            patterns,
            numbers,
            positions,
        })
    }

    /// States that the table has the sizes that it reports, which is true of every table. Does nothing. A function
    /// whose proof needs this calls it if it calls nothing else that states it.
    pub fn stands(&self)
        ensures { IsTable self.now }
    {
        let _ = &self.cells;
    }

    pub fn patterns(&self) -> u32
        ensures value { result ≡ length self.now.rows }
        ensures table { IsTable self.now }
    {
        self.patterns
    }

    pub fn numbers(&self) -> u32
        ensures value { result ≡ self.now.numbers }
        ensures table { IsTable self.now }
    {
        self.numbers
    }

    pub fn positions(&self) -> u32
        ensures value { result ≡ self.now.positions }
        ensures table { IsTable self.now }
    {
        self.positions
    }

    /// Returns a row for each number: its answers, pattern by pattern.
    pub fn cells(&self) -> &AnswerRows
        ensures table { IsTable self.now }
        ensures entries { result.now ≡ map (full_entry self.now.rows) (range_with_len 0 self.now.numbers) }
        ensures shape { AreRows self.now.numbers (length self.now.rows * self.now.positions) result.now }
    {
        &self.cells
    }

    /// Turns the table into a row for each number: its answers, pattern by pattern.
    pub fn into_cells(self) -> AnswerRows
        ensures entries { result ≡ map (full_entry self.rows) (range_with_len 0 self.numbers) }
        ensures shape { AreRows self.numbers (length self.rows * self.positions) result }
    {
        self.cells
    }

    /// Returns the table with the answers of the given numbers, in their order.
    pub fn pick(&self, alloc: Global, numbers: &[u32]) -> Result<AnswerTable, AllocError>
        requires inside { All (λ number. number < self.now.numbers) numbers.now }
        requires few { length numbers.now < 2 ^ 32 }
        ensures { IfOk result (ArePicked self.now numbers.now) }
    {
        let cells = rows_at(alloc, &self.cells, numbers)?;
        Ok(AnswerTable {
            cells,
            patterns: self.patterns,
            numbers: numbers.len() as u32,
            positions: self.positions,
        })
    }

    pub fn get(&self, pattern: u32, number: u32, position: u32) -> bool
        requires pattern { pattern < length self.now.rows }
        requires number { number < self.now.numbers }
        requires position { position < self.now.positions }
        ensures { result ≡ answer_bit self.now pattern number position }
    {
        let at = place(pattern, self.positions, position);
        self.cells.get(number as usize, at)
    }

    pub fn set(&mut self, pattern: u32, number: u32, position: u32, bit: bool)
        requires pattern { pattern < length self.old.rows }
        requires number { number < self.old.numbers }
        requires position { position < self.old.positions }
        ensures { HasBitSet self.old self.new pattern number position bit }
    {
        let at = place(pattern, self.positions, position);
        set_bit(&mut self.cells, number as usize, at, bit);
    }

    /// Returns the bits of a number's answer to a pattern at the 64 positions of a word, the lowest position as the
    /// lowest bit, and 0 past the last position.
    pub fn answer_word(&self, pattern: u32, number: u32, word: u32) -> u64
        requires pattern { pattern < length self.now.rows }
        requires number { number < self.now.numbers }
        requires word { word * 64 < self.now.positions }
        ensures { IsWordOf (answer_to self.now pattern number) word result }
    {
        let positions = self.positions;
        let first = word * 64;
        let at = place(pattern, positions, first);
        let bits = word_at(self.cells.row_words(number as usize), at);
        low_bits(bits, (positions - first) as usize)
    }

    /// Copies the answer of a number to a pattern into a row with a bit for each position.
    pub fn copy_answer(&self, pattern: u32, number: u32, rows: &mut AnswerRows, row: usize)
        requires pattern { pattern < length self.now.rows }
        requires number { number < self.now.numbers }
        requires row { row < length rows.old }
        requires width { length (row_at rows.old row) ≡ self.now.positions }
        ensures { IsRowSet rows.old rows.new row (answer_to self.now pattern number) }
    {
        for word in 0..self.positions().div_ceil(64) {
            let bits = self.answer_word(pattern, number, word);
            rows.set_word(row, word as usize, bits);
        }
    }

    /// Copies the first `count` answers of the only number of `block` as the answers of `number` to the `count`
    /// patterns starting at `first`, a multiple of 64. The answers of `number` to later patterns may change.
    pub fn copy_block(&mut self, number: u32, first: u32, count: u32, block: &AnswerTable)
        requires number { number < self.old.numbers }
        requires aligned { first % 64 ≡ 0 }
        requires within { first + count ≤ length self.old.rows }
        requires few { count ≤ length block.now.rows }
        requires one { block.now.numbers ≡ 1 }
        requires positions { block.now.positions ≡ self.old.positions }
        ensures { IsNumberSet (λ lane n k bit. bit ≡ answer_bit block.now lane 0 k) count self.old self.new number first self.old.positions }
    {
        let begin = words_before(first, self.positions);
        let words = width_of(count, self.positions).div_ceil(64);
        copy_words(
            &block.cells,
            0,
            &mut self.cells,
            number as usize,
            begin,
            words,
        );
    }
}

// Returns the number of bits of a number's answers.
fn width_of(patterns: u32, positions: u32) -> usize
    ensures { result ≡ patterns * positions }
{
    patterns as usize * positions as usize
}

// Returns the place of a bit in the answers of a number.
fn place(pattern: u32, positions: u32, position: u32) -> usize
    requires { position < positions }
    ensures { result ≡ pattern * positions + position }
{
    pattern as usize * positions as usize + position as usize
}

// Returns the number of words of the answers to the patterns before `first`, which fill whole words.
fn words_before(first: u32, positions: u32) -> usize
    requires { first % 64 ≡ 0 }
    ensures words { result * 64 ≡ first * positions }
    ensures few { result ≤ 2 ^ 58 }
{
    first as usize / 64 * positions as usize
}
