//! Numbers that are chosen one after another: each time the one whose row has most lines that are left, until no row
//! has any.

ghost use Rattle.std.specs.Prelude.{◌≡◌, ◌<◌, ◌≤◌, ◌^◌, true, Bool, List, length, replicate, slice_index, if◌then◌else◌, ◌||◌, ◌&&◌, ◌==◌, nat_lt, IfOk};
ghost use Rattle.net_model.specs.Rows.{row_at};
ghost use Rattle.dict_rows.specs.Rows.{AreRows};
ghost use Rattle.suspect_scores.specs.Chosen.{left_count, IsBestOf, IsWithout, AreAllLeft, AreChosenFrom};

use crate::choices::Choice;
use net_model::{AnswerRows, Bits};
use std::alloc::{AllocError, Global};

/// The place of a row, and how many of the lines that are left it has.
#[derive(Clone, Copy)]
pub(crate) struct Best {
    pub(crate) place: usize,
    pub(crate) count: u32,
}

/// Returns numbers that together have all lines that any row has, chosen one after another, each with how many lines it
/// adds. `lines` is how many lines there are.
pub(crate) fn choose(
    alloc: Global,
    numbers: &[u32],
    rows: &AnswerRows,
    lines: usize,
) -> Result<Vec<Choice>, AllocError>
    requires rows { AreRows (length numbers.now) lines rows.now }
    requires few { lines < 2 ^ 32 }
    ensures { IfOk result (λ choices. (left : List Bool) × AreAllLeft lines left × AreChosenFrom rows.now numbers.now left choices.items) }
{
    let mut left = all_left(alloc, lines)?;
    let mut choices = Vec::new(alloc);
    let mut best = best_of(numbers, rows, &left);
    while best.count > 0 {
        choices.push(Choice {
            number: numbers[best.place],
            explained: best.count,
        })?;
        leave(rows, best.place, &mut left);
        best = best_of(numbers, rows, &left);
    }
    Ok(choices)
}

// Returns a bit for each line, all 1.
fn all_left(alloc: Global, lines: usize) -> Result<Bits, AllocError>
    ensures { IfOk result (AreAllLeft lines) }
{
    let mut left = Bits::zeros(alloc, lines)?;
    for line in 0..lines {
        left.set(line, true);
    }
    Ok(left)
}

// Returns the row with most lines that are left, and of several such rows that of the lowest number.
fn best_of(numbers: &[u32], rows: &AnswerRows, left: &Bits) -> Best
    requires rows { AreRows (length numbers.now) (length left.now) rows.now }
    requires few { length left.now < 2 ^ 32 }
    ensures { IsBestOf rows.now numbers.now left.now (length numbers.now) result }
{
    let mut best = Best { place: 0, count: 0 };
    for place in 0..numbers.len() {
        let count = count_left(rows, place, left);
        let is_better = beats(count, numbers[place], best.count, numbers[best.place]);
        best = better(best, Best { place, count }, is_better);
    }
    best
}

// Returns whether a count is more than the best one, or is equal to it and has the lower number.
fn beats(count: u32, number: u32, best_count: u32, best_number: u32) -> bool
    ensures { result ≡ (nat_lt best_count count || (count == best_count && nat_lt number best_number)) }
{
    count > best_count || (count == best_count && number < best_number)
}

fn better(best: Best, other: Best, is_better: bool) -> Best
    ensures { result ≡ (if is_better then other else best) }
{
    if is_better { other } else { best }
}

// Returns how many of the lines that are left the row has.
fn count_left(rows: &AnswerRows, row: usize, left: &Bits) -> u32
    requires row { row < length rows.now }
    requires wide { length (row_at rows.now row) ≡ length left.now }
    requires few { length left.now < 2 ^ 32 }
    ensures { result ≡ left_count (row_at rows.now row) left.now }
{
    let mut count = 0;
    for line in 0..left.len() {
        let is_left = left.get(line);
        count += as_one(is_left & rows.get(row, line));
    }
    count
}

fn as_one(bit: bool) -> u32
    ensures { result ≡ (if bit then 1 else 0) }
{
    u32::from(bit)
}

// Removes the lines that the row has from those that are left.
fn leave(rows: &AnswerRows, row: usize, left: &mut Bits)
    requires row { row < length rows.now }
    requires wide { length (row_at rows.now row) ≡ length left.old }
    ensures { IsWithout (row_at rows.now row) left.old left.new }
{
    for line in 0..left.len() {
        let is_left = left.get(line) & !rows.get(row, line);
        left.set(line, is_left);
    }
}
