//! Writing and copying the bits of rows.

ghost use Rattle.std.specs.Prelude.{◌≡◌, ◌+◌, ◌*◌, ◌^◌, ◌<◌, ℕ, length, map, All, IfOk};
ghost use Rattle.net_model.specs.Rows.{bit_of, row_at, row_bit};
ghost use Rattle.dict_rows.specs.Rows.{AreBitsSet, IsBitSet, IsRowSet, IsRowTested};

use net_model::{AnswerRows, with_bit};
use std::alloc::{AllocError, Global};

/// Writes one bit of a row.
#[inline]
pub(crate) fn set_bit(rows: &mut AnswerRows, row: usize, at: usize, bit: bool)
    requires row { row < length rows.old }
    requires at { at < length (row_at rows.old row) }
    ensures { IsBitSet rows.old rows.new row at bit }
{
    rows.set(row, at, bit);
}

/// Writes a row: each place gets the bit that `test` returns for it.
pub fn write_row<F: Fn(usize) -> bool>(rows: &mut AnswerRows, row: usize, test: F)
    requires row { row < length rows.old }
    requires callable { (at : ℕ) → at < length (row_at rows.old row) → F.pre test at }
    ensures { IsRowTested (F.post test) rows.old rows.new row (length (row_at rows.old row)) }
{
    let width = rows.width();
    for word in 0..width.div_ceil(64) {
        let bits = tested_word(&test, word * 64, width);
        rows.set_word(row, word, bits);
    }
}

// Returns what `test` returns for the 64 places starting at `first`, or for those before `end` if there are fewer, the
// lowest place as the lowest bit.
fn tested_word<F: Fn(usize) -> bool>(test: &F, first: usize, end: usize) -> u64
    requires some { first < end }
    requires callable { (at : ℕ) → at < end → F.pre test.now at }
    ensures { (k : ℕ) → k < 64 → first + k < end → F.post test.now (first + k) (bit_of result k) }
{
    let count = (end - first).min(64);
    let mut bits = 0;
    for at in 0..count {
        let bit = test(first + at);
        bits = with_bit(bits, at, bit);
    }
    bits
}

/// Copies a row into a row of the same width.
pub(crate) fn copy_row(from: &AnswerRows, source: usize, to: &mut AnswerRows, target: usize)
    requires source { source < length from.now }
    requires target { target < length to.old }
    requires width { length (row_at to.old target) ≡ length (row_at from.now source) }
    ensures { IsRowSet to.old to.new target (row_at from.now source) }
{
    for (word, bits) in from.row_words(source).iter().enumerate() {
        to.set_word(target, word, *bits);
    }
}

/// Copies the first `count` words of a row into another row, starting at word `begin`.
pub(crate) fn copy_words(
    from: &AnswerRows,
    source: usize,
    to: &mut AnswerRows,
    target: usize,
    begin: usize,
    count: usize,
)
    requires source { source < length from.now }
    requires target { target < length to.old }
    requires few { begin + count < 2 ^ 63 }
    requires room { count * 64 < length (row_at from.now source) + 64 }
    requires within { (begin + count) * 64 < length (row_at to.old target) + 64 }
    ensures { AreBitsSet to.old to.new target (begin * 64) (count * 64) (row_bit from.now source) }
{
    let words = from.row_words(source);
    for word in 0..count {
        to.set_word(target, begin + word, words[word]);
    }
}

/// Returns the rows at the given places, in their order.
pub fn rows_at(alloc: Global, rows: &AnswerRows, places: &[u32]) -> Result<AnswerRows, AllocError>
    requires { All (λ place. place < length rows.now) places.now }
    ensures { IfOk result (λ picked. picked ≡ map (row_at rows.now) places.now) }
{
    let width = rows.width();
    let mut picked = AnswerRows::zeros(alloc, places.len(), width)?;
    for (at, place) in places.iter().enumerate() {
        copy_row(rows, *place as usize, &mut picked, at);
    }
    Ok(picked)
}

/// Returns a copy of the rows.
pub(crate) fn copy_rows(alloc: Global, rows: &AnswerRows) -> Result<AnswerRows, AllocError>
    ensures { IfOk result (λ copy. copy ≡ rows.now) }
{
    let (count, width) = (rows.rows(), rows.width());
    let mut copy = AnswerRows::zeros(alloc, count, width)?;
    for row in 0..count {
        copy_row(rows, row, &mut copy, row);
    }
    Ok(copy)
}
