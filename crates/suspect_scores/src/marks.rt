//! The marks of a log. Each line has three rows of bits: what number 0 answers, where an observed bit differs from it,
//! and where one doesn't.

ghost use Rattle.std.specs.Prelude.{◌≡◌, ◌<◌, ◌&&◌, not, length, All, IfOk};
ghost use Rattle.net_model.specs.Rows.{row_at};
ghost use Rattle.dict_rows.specs.AnswerTable.{answer_to};
ghost use Rattle.dict_rows.specs.Rows.{IsBitSet, IsRowSet};
ghost use Rattle.ranked_diag.specs.Seen.{is_seen, differs};
ghost use Rattle.suspect_scores.specs.Marks.{AreMarksBegun, AreMarksOf, wrong_row, right_row};

use net_model::AnswerRows;
use ranked_diag::{Partial, Seen};
use std::alloc::{AllocError, Global};
use table_dicts::AnswerTable;

/// Rows of bits, one for each line of a log, with a bit for each position.
#[derive(Debug, Drop)]
pub struct LogMarks {
    /// What number 0 answers.
    pub free: AnswerRows,
    /// Where an observed bit differs from that.
    pub wrong: AnswerRows,
    /// Where an observed bit doesn't differ from that.
    pub right: AnswerRows,
}

impl LogMarks {
    /// Returns the marks of a log. `free` has what number 0 answers to the pattern of each line.
    pub(crate) fn new(
        alloc: Global,
        free: &AnswerTable,
        partial: &Partial,
    ) -> Result<LogMarks, AllocError>
        requires lines { length free.now.rows ≡ length partial.now }
        requires some { 0 < free.now.numbers }
        requires wide { All (λ line. length line.1 ≡ free.now.positions) partial.now }
        ensures { IfOk result (AreMarksOf (λ k. answer_to free.now k 0) free.now.positions partial.now) }
    {
        let (rows, width) = (free.patterns() as usize, free.positions() as usize);
        let mut marks = LogMarks {
            free: AnswerRows::zeros(alloc, rows, width)?,
            wrong: AnswerRows::zeros(alloc, rows, width)?,
            right: AnswerRows::zeros(alloc, rows, width)?,
        };
        marks.mark_all(free, partial);
        Ok(marks)
    }

    fn mark_all(&mut self, free: &AnswerTable, partial: &Partial)
        requires lines { length free.now.rows ≡ length partial.now }
        requires some { 0 < free.now.numbers }
        requires wide { All (λ line. length line.1 ≡ free.now.positions) partial.now }
        requires begun { AreMarksBegun (λ k. answer_to free.now k 0) free.now.positions partial.now 0 self.old }
        ensures { AreMarksOf (λ k. answer_to free.now k 0) free.now.positions partial.now self.new }
    {
        for line in 0..free.patterns() {
            let (_pattern, seen) = partial.line(line as usize);
            free.copy_answer(line, 0, &mut self.free, line as usize);
            self.mark(line as usize, seen);
        }
    }

    fn mark(&mut self, line: usize, seen: &[Seen])
        requires free { line < length self.old.free }
        requires wrong { line < length self.old.wrong }
        requires right { line < length self.old.right }
        requires free_wide { length (row_at self.old.free line) ≡ length seen.now }
        requires wrong_wide { length (row_at self.old.wrong line) ≡ length seen.now }
        requires right_wide { length (row_at self.old.right line) ≡ length seen.now }
        ensures free { self.new.free ≡ self.old.free }
        ensures wrong { IsRowSet self.old.wrong self.new.wrong line (wrong_row (row_at self.old.free line) seen.now) }
        ensures right { IsRowSet self.old.right self.new.right line (right_row (row_at self.old.free line) seen.now) }
    {
        for (at, one) in seen.iter().enumerate() {
            let free = self.free.get(line, at);
            set_bit(&mut self.wrong, line, at, is_wrong(*one, free));
            set_bit(&mut self.right, line, at, is_right(*one, free));
        }
    }
}

pub(crate) fn set_bit(rows: &mut AnswerRows, row: usize, at: usize, bit: bool)
    requires row { row < length rows.old }
    requires at { at < length (row_at rows.old row) }
    ensures { IsBitSet rows.old rows.new row at bit }
{
    rows.set(row, at, bit);
}

// Returns whether a bit was observed and differs from `bit`.
fn is_wrong(seen: Seen, bit: bool) -> bool
    ensures { result ≡ differs seen bit }
{
    match seen {
        Seen::Zero => bit,
        Seen::One => !bit,
        Seen::Unseen => false,
    }
}

// Returns whether a bit was observed and is `bit`.
fn is_right(seen: Seen, bit: bool) -> bool
    ensures { result ≡ (is_seen seen && not (differs seen bit)) }
{
    match seen {
        Seen::Zero => !bit,
        Seen::One => bit,
        Seen::Unseen => false,
    }
}
