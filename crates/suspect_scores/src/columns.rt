//! The marks of a log by position: for each position two rows with a bit for each line. Also the positions that are
//! wrong in some line.

ghost use Rattle.std.specs.Prelude.{◌≡◌, ℕ, ◌<◌, ◌≤◌, ◌++◌, ◌∷◌, [], false, length, if◌then◌else◌, IfOk, OnOk};
ghost use Rattle.net_model.specs.Rows.{row_at, row_bit};
ghost use Rattle.dict_rows.specs.Rows.{AreRows, IsRowSet};
ghost use Rattle.suspect_scores.specs.Scored.{AreMarkRows};
ghost use Rattle.suspect_scores.specs.Columns.{AreColumns, AreTransposed, column_of, AreWrongPositions};

use crate::marks::{LogMarks, set_bit};
use net_model::AnswerRows;
use std::alloc::{AllocError, Global};

/// Rows of bits, one for each position, with a bit for each line of a log.
#[derive(Debug, Drop)]
pub struct LogColumns {
    /// Where an observed bit differs from that of number 0.
    pub wrong: AnswerRows,
    /// Where an observed bit doesn't differ.
    pub right: AnswerRows,
    /// Positions, ascending, among them each that is wrong in some line.
    pub wrong_positions: Vec<u32>,
}

impl LogColumns {
    /// Returns the marks of a log by position.
    pub(crate) fn of(
        alloc: Global,
        marks: &LogMarks,
        lines: usize,
        positions: u32,
    ) -> Result<LogColumns, AllocError>
        requires { AreMarkRows lines positions marks.now }
        ensures { IfOk result (AreColumns lines positions marks.now) }
    {
        let wrong = transposed(alloc, &marks.wrong, lines, positions)?;
        let right = transposed(alloc, &marks.right, lines, positions)?;
        let wrong_positions = wrong_positions(alloc, &wrong, positions)?;
        Ok(LogColumns {
            wrong,
            right,
            wrong_positions,
        })
    }
}

// Returns a row for each position, with its bit in each line.
fn transposed(
    alloc: Global,
    rows: &AnswerRows,
    lines: usize,
    positions: u32,
) -> Result<AnswerRows, AllocError>
    requires { AreRows lines positions rows.now }
    ensures { IfOk result (AreTransposed lines positions rows.now) }
{
    let mut columns = AnswerRows::zeros(alloc, positions as usize, lines)?;
    for position in 0..positions {
        transpose(rows, &mut columns, lines, position as usize);
    }
    Ok(columns)
}

fn transpose(rows: &AnswerRows, columns: &mut AnswerRows, lines: usize, position: usize)
    requires rows { (line : ℕ) → line < lines → position < length (row_at rows.now line) }
    requires lines { lines ≤ length rows.now }
    requires column { position < length columns.old }
    requires wide { length (row_at columns.old position) ≡ lines }
    ensures { IsRowSet columns.old columns.new position (column_of rows.now lines position) }
{
    for line in 0..lines {
        set_bit(columns, position, line, rows.get(line, position));
    }
}

// Returns positions, ascending, among them each whose row has a bit that is set.
fn wrong_positions(
    alloc: Global,
    wrong: &AnswerRows,
    positions: u32,
) -> Result<Vec<u32>, AllocError>
    requires { length wrong.now ≡ positions }
    ensures { IfOk result (λ listed. AreWrongPositions wrong.now positions listed.items) }
{
    let mut listed = Vec::new(alloc);
    for position in 0..positions {
        push_if(&mut listed, position, has_some(wrong, position as usize))?;
    }
    Ok(listed)
}

fn push_if(listed: &mut Vec<u32>, position: u32, wanted: bool) -> Result<(), AllocError>
    ensures { OnOk result (listed.new.items ≡ (if wanted then listed.old.items ++ position ∷ [] else listed.old.items)) }
{
    if wanted {
        listed.push(position)?;
    }
    Ok(())
}

// Returns false only if no bit of the row is set.
fn has_some(rows: &AnswerRows, row: usize) -> bool
    requires { row < length rows.now }
    ensures { result ≡ false → (at : ℕ) → row_bit rows.now row at ≡ false }
{
    rows.row_words(row).iter().any(|word| *word != 0)
}
