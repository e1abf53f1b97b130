//! Rows and dictionaries as texts, and rows from texts.

ghost use Rattle.std.specs.Prelude.{◌<◌, length, IsTrue};
ghost use Rattle.dict_rows.specs.Rows.{AreRows};

use net_model::AnswerRows;
use std::alloc::{AllocError, Global};
use std::test::Fail;
use table_dicts::Dict;

// Adds the kind of a dictionary, how many positions, patterns and numbers it has, its baselines, and the group and the
// entry of each number.
fn push_dict(text: &mut String, dict: &Dict) -> Result<(), Fail> {
    write!(
        text,
        "{:?} {} {} {}: ",
        dict.kind, dict.positions, dict.patterns, dict.numbers
    )?;
    push_rows(text, &dict.baselines)?;
    text.push_str(": ")?;
    push_numbers(text, dict.groups.as_slice())?;
    text.push_str(": ")?;
    push_entries(text, dict)
}

/// Returns whether a dictionary is the wanted one.
pub(crate) fn is_dict(alloc: Global, dict: &Dict, wanted: &str) -> Result<bool, Fail> {
    let mut text = String::new(alloc);
    push_dict(&mut text, dict)?;
    Ok(text.as_str() == wanted)
}

// Adds the numbers, each with a blank after it.
fn push_numbers(text: &mut String, numbers: &[u32]) -> Result<(), AllocError> {
    for number in numbers {
        write!(text, "{number} ")?;
    }
    Ok(())
}

/// Returns whether the rows are the wanted ones, each with a blank after it.
pub(crate) fn are_spelled(
    alloc: Global,
    rows: &AnswerRows,
    wanted: &str,
) -> Result<bool, AllocError> {
    let mut text = String::new(alloc);
    push_rows(&mut text, rows)?;
    Ok(text.as_str() == wanted)
}

/// Adds the rows, each with a blank after it.
pub(crate) fn push_rows(text: &mut String, rows: &AnswerRows) -> Result<(), AllocError> {
    for row in 0..rows.rows() {
        push_row(text, rows, row)?;
    }
    Ok(())
}

// Adds the entry of each number, with a blank after it.
fn push_entries(text: &mut String, dict: &Dict) -> Result<(), Fail> {
    for group in dict.groups.as_slice() {
        let row = *group as usize;
        if row >= dict.entries.rows() {
            return Err(Fail::new("a group has no entry"));
        }
        push_row(text, &dict.entries, row)?;
    }
    Ok(())
}

fn push_row(text: &mut String, rows: &AnswerRows, row: usize) -> Result<(), AllocError>
    requires { row < length rows.now }
{
    for at in 0..rows.width() {
        text.push_str(if rows.get(row, at) { "1" } else { "0" })?;
    }
    text.push_str(" ")
}

/// Returns rows of this width that are 1 at these rows and places, and 0 elsewhere.
pub(crate) fn rows_with(
    alloc: Global,
    count: usize,
    width: usize,
    ones: &[(usize, usize)],
) -> Result<AnswerRows, Fail> {
    let mut rows = AnswerRows::zeros(alloc, count, width)?;
    set_bits(&mut rows, ones)?;
    Ok(rows)
}

fn set_bits(rows: &mut AnswerRows, ones: &[(usize, usize)]) -> Result<(), Fail> {
    for (row, at) in ones {
        set_bit(rows, *row, *at, true)?;
    }
    Ok(())
}

/// Returns a row of the digits of each text.
pub(crate) fn rows_of(alloc: Global, width: usize, texts: &[&str]) -> Result<AnswerRows, Fail> {
    let mut rows = AnswerRows::zeros(alloc, texts.len(), width)?;
    enter_rows(&mut rows, texts)?;
    Ok(rows)
}

fn enter_rows(rows: &mut AnswerRows, texts: &[&str]) -> Result<(), Fail> {
    for (row, text) in texts.iter().enumerate() {
        enter_row(rows, row, text.as_bytes())?;
    }
    Ok(())
}

/// Enters the digits of a text into a row.
pub(crate) fn enter_row(rows: &mut AnswerRows, row: usize, digits: &[u8]) -> Result<(), Fail> {
    for (at, digit) in digits.iter().enumerate() {
        set_bit(rows, row, at, *digit == b'1')?;
    }
    Ok(())
}

fn set_bit(rows: &mut AnswerRows, row: usize, at: usize, bit: bool) -> Result<(), Fail> {
    if row >= rows.rows() || at >= rows.width() {
        return Err(Fail::new("there is no such bit"));
    }
    rows.set(row, at, bit);
    Ok(())
}

/// Returns whether there are `count` rows, each of this width.
pub(crate) fn fit(rows: &AnswerRows, count: u32, width: u32) -> bool
    ensures { IsTrue result → AreRows count width rows.now }
{
    rows.rows() == count as usize && rows.width() == width as usize
}
