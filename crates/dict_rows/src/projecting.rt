//! Dictionaries made from a table of answers.

ghost use Rattle.net_model.specs.ClassTable.{same_bits};
ghost use Rattle.net_model.specs.Rows.{row_at};
ghost use Rattle.std.specs.List.{range_with_len};
ghost use Rattle.std.specs.Prelude.{◌≡◌, ◌*◌, ◌<◌, ◌≢◌, length, map, not, IfOk};
ghost use Rattle.dict_rows.specs.AnswerTable.{answer_to};
ghost use Rattle.dict_rows.specs.Dictionary.{IsFull, IsPassFail, IsSameDiff, IsDictionary};
ghost use Rattle.dict_rows.specs.Entries.{answers_of, same_diff_entry};
ghost use Rattle.dict_rows.specs.Rows.{AreRows, IsRowSet};

use crate::answer_table::AnswerTable;
use crate::bits::{copy_rows, write_row};
use crate::dict::{Dict, DictKind};
use crate::grouping::group_rows;
use net_model::AnswerRows;
use std::alloc::{AllocError, Global};

/// Returns the full-response dictionary: an entry has all bits of a number's answers, pattern by pattern.
pub fn full(alloc: Global, table: &AnswerTable) -> Result<Dict, AllocError>
    requires { 0 < table.now.numbers }
    ensures { IfOk result (IsFull table.now) }
{
    let numbers = table.numbers();
    let grouped = group_rows(alloc, table.cells())?;
    Ok(Dict {
        kind: DictKind::Full,
        positions: table.positions(),
        patterns: table.patterns(),
        numbers,
        baselines: AnswerRows::zeros(alloc, 0, 0)?,
        groups: grouped.groups,
        entries: grouped.entries,
    })
}

/// Returns the pass/fail dictionary: an entry says at which patterns a number answers differently from number 0, the
/// fault-free circuit.
pub fn pass_fail(alloc: Global, table: &AnswerTable) -> Result<Dict, AllocError>
    requires { 0 < table.now.numbers }
    ensures { IfOk result (IsPassFail table.now) }
{
    let free = answers_of(alloc, table, 0)?;
    by_baselines(alloc, DictKind::PassFail, table, free)
}

/// Returns the same/different dictionary: an entry says at which patterns a number's answer differs from the baseline.
pub fn project(
    alloc: Global,
    table: &AnswerTable,
    baselines: &AnswerRows,
) -> Result<Dict, AllocError>
    requires some { 0 < table.now.numbers }
    requires baselines { AreRows (length table.now.rows) table.now.positions baselines.now }
    ensures { IfOk result (IsSameDiff table.now baselines.now) }
{
    let baselines = copy_rows(alloc, baselines)?;
    by_baselines(alloc, DictKind::SameDiff, table, baselines)
}

// Returns the dictionary of a kind with baselines.
fn by_baselines(
    alloc: Global,
    kind: DictKind,
    table: &AnswerTable,
    baselines: AnswerRows,
) -> Result<Dict, AllocError>
    requires kind { kind ≢ DictKind.Full }
    requires baselines { AreRows (length table.now.rows) table.now.positions baselines }
    ensures { IfOk result (λ dict. IsDictionary dict kind table.now baselines (same_diff_entry table.now.rows baselines)) }
{
    let numbers = table.numbers();
    let rows = differences(alloc, table, &baselines)?;
    let grouped = group_rows(alloc, &rows)?;
    Ok(Dict {
        kind,
        positions: table.positions(),
        patterns: table.patterns(),
        numbers,
        baselines,
        groups: grouped.groups,
        entries: grouped.entries,
    })
}

/// Returns what a number answers, a row for each pattern.
pub fn answers_of(alloc: Global, table: &AnswerTable, number: u32) -> Result<AnswerRows, AllocError>
    requires { number < table.now.numbers }
    ensures rows { IfOk result (λ rows. rows ≡ answers_of table.now.rows number) }
    ensures shape { IfOk result (AreRows (length table.now.rows) table.now.positions) }
{
    let (patterns, positions) = (table.patterns(), table.positions());
    let mut rows = AnswerRows::zeros(alloc, patterns as usize, positions as usize)?;
    for pattern in 0..patterns {
        table.copy_answer(pattern, number, &mut rows, pattern as usize);
    }
    Ok(rows)
}

// Returns the entry of each number: at which patterns its answer differs from the baseline.
fn differences(
    alloc: Global,
    table: &AnswerTable,
    baselines: &AnswerRows,
) -> Result<AnswerRows, AllocError>
    requires { AreRows (length table.now.rows) table.now.positions baselines.now }
    ensures entries { IfOk result (λ rows. rows ≡ map (same_diff_entry table.now.rows baselines.now) (range_with_len 0 table.now.numbers)) }
    ensures shape { IfOk result (AreRows table.now.numbers (length table.now.rows)) }
{
    let (numbers, patterns) = (table.numbers(), table.patterns());
    let mut rows = AnswerRows::zeros(alloc, numbers as usize, patterns as usize)?;
    for number in 0..numbers {
        write_differences(table, baselines, number, &mut rows);
    }
    Ok(rows)
}

// Writes the entry of `number`.
fn write_differences(
    table: &AnswerTable,
    baselines: &AnswerRows,
    number: u32,
    rows: &mut AnswerRows,
)
    requires number { number < table.now.numbers }
    requires baselines { AreRows (length table.now.rows) table.now.positions baselines.now }
    requires shape { AreRows table.now.numbers (length table.now.rows) rows.old }
    ensures { IsRowSet rows.old rows.new number (same_diff_entry table.now.rows baselines.now number) }
{
    let _patterns = table.patterns();
    write_row(rows, number as usize, |pattern| {
        differs(table, baselines, pattern as u32, number)
    });
}

// Returns whether the answer of a number to a pattern differs from the baseline.
fn differs(table: &AnswerTable, baselines: &AnswerRows, pattern: u32, number: u32) -> bool
    requires pattern { pattern < length table.now.rows }
    requires number { number < table.now.numbers }
    requires baselines { AreRows (length table.now.rows) table.now.positions baselines.now }
    ensures { result ≡ not (same_bits (answer_to table.now pattern number) (row_at baselines.now pattern)) }
{
    let baseline = baselines.row_words(pattern as usize);
    for word in 0..table.positions().div_ceil(64) {
        if table.answer_word(pattern, number, word) != baseline[word as usize] {
            return true;
        }
    }
    false
}
