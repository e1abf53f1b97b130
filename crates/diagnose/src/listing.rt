//! The fault numbers that observed answers point to.

ghost use Rattle.std.specs.Prelude.{◌≡◌, ◌≢◌, ◌<◌, ◌+◌, ◌*◌, ◌^◌, ◌==◌, ℕ, [], ◌∷◌, ◌++◌, length, flat_map, filter, All, slice_index, slice_index_or, if◌then◌else◌, IfOk, OnOk, MatchOption};
ghost use Rattle.std.specs.List.{range_with_len};
ghost use Rattle.net_model.specs.ClassTable.{same_bits};
ghost use Rattle.dict_rows.specs.Rows.{AreRows};
ghost use Rattle.dict_rows.specs.Dictionary.{IsGroupedDict, IsShaped, observed_entry, listed_numbers};
ghost use Rattle.dict_rows.specs.Entries.{differences};

use dict_rows::{Dict, DictKind, write_row};
use net_model::AnswerRows;
use std::alloc::{AllocError, Global};

/// Returns, ascending, the fault numbers whose entry is that of the observed answers. `observed` has a row for each
/// pattern, with a bit for each position.
pub fn matches(alloc: Global, dict: &Dict, observed: &AnswerRows) -> Result<Vec<u32>, AllocError>
    requires grouped { IsGroupedDict dict.now }
    requires shaped { IsShaped dict.now }
    requires observed { AreRows dict.now.patterns dict.now.positions observed.now }
    ensures { IfOk result (λ listed. listed.items ≡ listed_numbers dict.now observed.now) }
{
    let entry = entry_of(alloc, dict, observed)?;
    match find_row(&dict.entries, &entry) {
        None => Ok(Vec::new(alloc)),
        Some(group) => numbers_in(alloc, dict.groups.as_slice(), dict.numbers, group),
    }
}

// Returns, as the only row, the entry that the observed answers would have.
fn entry_of(alloc: Global, dict: &Dict, observed: &AnswerRows) -> Result<AnswerRows, AllocError>
    requires shaped { IsShaped dict.now }
    requires observed { AreRows dict.now.patterns dict.now.positions observed.now }
    ensures { IfOk result (λ row. row ≡ observed_entry dict.now.kind dict.now.baselines observed.now ∷ []) }
{
    match dict.kind {
        DictKind::PassFail | DictKind::SameDiff => differing(alloc, observed, &dict.baselines),
        DictKind::Full => joined(
            alloc,
            observed,
            dict.patterns as usize,
            dict.positions as usize,
        ),
    }
}

// Returns one row with a bit for each row of `observed`: whether it differs from the row of `baselines`.
fn differing(
    alloc: Global,
    observed: &AnswerRows,
    baselines: &AnswerRows,
) -> Result<AnswerRows, AllocError>
    requires rows { length observed.now ≡ length baselines.now }
    requires wide { (row : ℕ) → row < length observed.now → length (slice_index_or observed.now row []) ≡ length (slice_index_or baselines.now row []) }
    ensures { IfOk result (λ row. row ≡ differences observed.now baselines.now ∷ []) }
{
    let mut bits = AnswerRows::zeros(alloc, 1, observed.rows())?;
    write_row(&mut bits, 0, |row| !is_same(observed, row, baselines, row));
    Ok(bits)
}

// Returns whether row `row` of `rows` is equal to row `other` of `others`.
fn is_same(rows: &AnswerRows, row: usize, others: &AnswerRows, other: usize) -> bool
    requires row { row < length rows.now }
    requires other { other < length others.now }
    requires wide { length (slice_index_or rows.now row []) ≡ length (slice_index_or others.now other []) }
    ensures { result ≡ same_bits (slice_index_or rows.now row []) (slice_index_or others.now other []) }
{
    rows.row_words(row) == others.row_words(other)
}

// Returns one row with the bits of all rows, one after another.
fn joined(
    alloc: Global,
    observed: &AnswerRows,
    rows: usize,
    width: usize,
) -> Result<AnswerRows, AllocError>
    requires rows { AreRows rows width observed.now }
    requires room { rows * width < 2 ^ 64 }
    ensures { IfOk result (λ row. row ≡ flat_map (λ bits. bits) observed.now ∷ []) }
{
    let mut bits = AnswerRows::zeros(alloc, 1, rows * width)?;
    write_row(&mut bits, 0, |at| observed.get(at / width, at % width));
    Ok(bits)
}

// Returns the place of a row of `rows` that is equal to the only row of `one`, or none if no row is.
fn find_row(rows: &AnswerRows, one: &AnswerRows) -> Option<usize>
    requires one { length one.now ≡ 1 }
    requires wide { All (λ row. length row ≡ length (slice_index_or one.now 0 [])) rows.now }
    ensures { MatchOption result ((row : ℕ) → row < length rows.now → slice_index_or rows.now row [] ≢ slice_index_or one.now 0 []) (λ row. (row < length rows.now) × (slice_index_or rows.now row [] ≡ slice_index_or one.now 0 [])) }
{
    let count = rows.rows();
    for row in 0..count {
        if is_same(rows, row, one, 0) {
            return Some(row);
        }
    }
    None
}

// Returns, ascending, the numbers in group `group`.
fn numbers_in(
    alloc: Global,
    groups: &[u32],
    numbers: u32,
    group: usize,
) -> Result<Vec<u32>, AllocError>
    requires { length groups.now ≡ numbers }
    ensures { IfOk result (λ listed. listed.items ≡ filter (λ number. slice_index groups.now number == group) (range_with_len 0 numbers)) }
{
    let mut listed = Vec::new(alloc);
    for number in 0..numbers {
        let of = groups[number as usize] as usize;
        keep(&mut listed, number, of == group)?;
    }
    Ok(listed)
}

// Appends the number if it is kept.
fn keep(listed: &mut Vec<u32>, number: u32, kept: bool) -> Result<(), AllocError>
    ensures { OnOk result (listed.new.items ≡ (if kept then listed.old.items ++ number ∷ [] else listed.old.items)) }
{
    if kept {
        listed.push(number)?;
    }
    Ok(())
}
