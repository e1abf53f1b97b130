//! The entries of the classes, written by words: at which patterns each class answers otherwise than chosen. Also the
//! change of one baseline in them.

ghost use Rattle.std.specs.Prelude.{◌≡◌, ◌<◌, length, slice_set, IfOk};
ghost use Rattle.net_model.specs.Answer.{bit_at};
ghost use Rattle.net_model.specs.Rows.{row_at};
ghost use Rattle.dict_rows.specs.Rows.{AreRows, IsRowSet};
ghost use Rattle.samediff_dict.specs.Copied.{AreEntries, HaveClasses, HasNumbers, class_entry};

use crate::numbering::Candidates;
use dict_rows::write_row;
use net_model::AnswerRows;
use std::alloc::{AllocError, Global};

/// Returns the entries of the first `classes` classes: a bit for each pattern, set if the class answers otherwise than
/// chosen.
pub(crate) fn class_entries(
    alloc: Global,
    patterns: &[Candidates],
    chosen: &[u32],
    classes: u32,
) -> Result<AnswerRows, AllocError>
    requires { HaveClasses classes patterns.now chosen.now }
    ensures entries { IfOk result (AreEntries classes patterns.now chosen.now) }
    ensures shape { IfOk result (AreRows classes (length chosen.now)) }
{
    let mut entries = AnswerRows::zeros(alloc, classes as usize, chosen.len())?;
    for class in 0..classes {
        write_entry(patterns, chosen, class as usize, &mut entries);
    }
    Ok(entries)
}

/// Changes the entries of the classes to those with `number` in place of the chosen one at `pattern`.
pub(crate) fn put_chosen(
    patterns: &[Candidates],
    chosen: &[u32],
    pattern: usize,
    number: u32,
    classes: u32,
    entries: &mut AnswerRows,
)
    requires classes { HaveClasses classes patterns.now chosen.now }
    requires pattern { pattern < length chosen.now }
    requires entries { AreEntries classes patterns.now chosen.now entries.old }
    ensures { AreEntries classes patterns.now (slice_set chosen.now pattern number) entries.new }
{
    let numbers = &patterns[pattern].numbers;
    for class in 0..classes as usize {
        entries.set(class, pattern, numbers.get(class) != number);
    }
}

fn write_entry(patterns: &[Candidates], chosen: &[u32], class: usize, entries: &mut AnswerRows)
    requires numbers { HasNumbers class patterns.now chosen.now }
    requires class { class < length entries.old }
    requires width { length (row_at entries.old class) ≡ length chosen.now }
    ensures { IsRowSet entries.old entries.new class (class_entry patterns.now chosen.now class) }
{
    write_row(entries, class, |pattern| {
        answers_otherwise(patterns, chosen, class, pattern)
    });
}

// Returns whether the class has another number at the pattern than the chosen one.
fn answers_otherwise(patterns: &[Candidates], chosen: &[u32], class: usize, pattern: usize) -> bool
    requires numbers { HasNumbers class patterns.now chosen.now }
    requires pattern { pattern < length chosen.now }
    ensures { result ≡ bit_at (class_entry patterns.now chosen.now class) pattern }
{
    let number = patterns[pattern].numbers.get(class);
    number != chosen[pattern]
}
