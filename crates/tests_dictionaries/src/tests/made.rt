//! Makes tables and classes of answers that are given as texts.

ghost use Rattle.std.specs.Prelude.{◌≡◌, ◌<◌, length, IfOk};

use crate::tests::spelled::enter_row;
use class_refine::Classes;
use net_model::AnswerRows;
use std::alloc::Global;
use std::test::Fail;
use table_dicts::AnswerTable;

/// The number of fault numbers, the number of positions, and for each pattern the answer of each number, with blanks
/// between them.
pub(crate) type GivenTable = (u32, u32, &'static [&'static str]);

/// Returns the table of these answers.
pub(crate) fn table_of(
    alloc: Global,
    numbers: u32,
    positions: u32,
    answers: &[&str],
) -> Result<AnswerTable, Fail>
    ensures { IfOk result (λ table. table.numbers ≡ numbers) }
{
    let Ok(patterns) = u32::try_from(answers.len()) else {
        return Err(Fail::new("there are too many patterns"));
    };
    let mut table = AnswerTable::zeros(alloc, patterns, numbers, positions)?;
    for (pattern, text) in answers.iter().enumerate() {
        enter_answers(&mut table, pattern, text.as_bytes())?;
    }
    if table.numbers() != numbers {
        return Err(Fail::new("there is another number of numbers"));
    }
    Ok(table)
}

// Enters the answers to a pattern.
fn enter_answers(table: &mut AnswerTable, pattern: usize, text: &[u8]) -> Result<(), Fail> {
    for (number, digits) in text.split(|byte| *byte == b' ').enumerate() {
        for (position, digit) in digits.iter().enumerate() {
            set_answer(table, pattern, number, position, *digit == b'1')?;
        }
    }
    Ok(())
}

fn set_answer(
    table: &mut AnswerTable,
    pattern: usize,
    number: usize,
    position: usize,
    bit: bool,
) -> Result<(), Fail> {
    if pattern >= table.patterns() as usize || number >= table.numbers() as usize {
        return Err(Fail::new("there is no such answer"));
    }
    if position >= table.positions() as usize {
        return Err(Fail::new("there is no such position"));
    }
    table.set(pattern as u32, number as u32, position as u32, bit);
    Ok(())
}

/// Returns the classes that the answers to one pattern after another leave.
pub(crate) fn classes_of(
    alloc: Global,
    answers: &[&str],
    numbers: u32,
    positions: u32,
) -> Result<Classes, Fail>
    requires { 0 < numbers }
    ensures { IfOk result (λ classes. length classes.class_of ≡ numbers) }
{
    let mut classes = Classes::new(alloc, numbers)?;
    refine_all(alloc, &mut classes, answers, numbers, positions)?;
    Ok(classes)
}

fn refine_all(
    alloc: Global,
    classes: &mut Classes,
    answers: &[&str],
    numbers: u32,
    positions: u32,
) -> Result<(), Fail>
    requires { length classes.old.class_of ≡ numbers }
    ensures { length classes.new.class_of ≡ numbers }
{
    for text in answers {
        refine_by(alloc, classes, text.as_bytes(), numbers, positions)?;
    }
    Ok(())
}

// Refines classes by the answers of a text.
fn refine_by(
    alloc: Global,
    classes: &mut Classes,
    text: &[u8],
    numbers: u32,
    positions: u32,
) -> Result<(), Fail>
    requires { length classes.old.class_of ≡ numbers }
    ensures { length classes.new.class_of ≡ numbers }
{
    let rows = rows_of(alloc, numbers as usize, positions as usize, text)?;
    refine(classes, numbers, &rows)
}

fn refine(classes: &mut Classes, numbers: u32, answers: &AnswerRows) -> Result<(), Fail>
    requires { length classes.old.class_of ≡ numbers }
    ensures { length classes.new.class_of ≡ numbers }
{
    if answers.rows() != numbers as usize {
        return Err(Fail::new("there is another number of answers"));
    }
    classes.refine(answers)?;
    Ok(())
}

// Returns the rows of the digits of a text, which has a blank between two rows.
fn rows_of(alloc: Global, count: usize, width: usize, text: &[u8]) -> Result<AnswerRows, Fail> {
    let mut rows = AnswerRows::zeros(alloc, count, width)?;
    enter_rows(&mut rows, text)?;
    Ok(rows)
}

fn enter_rows(rows: &mut AnswerRows, text: &[u8]) -> Result<(), Fail> {
    for (row, digits) in text.split(|byte| *byte == b' ').enumerate() {
        enter_row(rows, row, digits)?;
    }
    Ok(())
}
