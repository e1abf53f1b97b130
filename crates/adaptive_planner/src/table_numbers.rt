//! Numbers of what the classes answer, from a table of answers.

ghost use Rattle.std.specs.Prelude.{◌≡◌, ◌+◌, ◌<◌, ◌^◌, Bool, List, [], length, map, All, slice_index_or, IfOk, OnOk};
ghost use Rattle.class_refine.specs.Fields.{IsWhole};
ghost use Rattle.dict_rows.specs.AnswerTable.{answer_to, IsTable};
ghost use Rattle.dict_rows.specs.Rows.{AreRows};
ghost use Rattle.adaptive_planner.specs.Numbering.{AreClassNumbers, AreNumbersTo, AreNumbersOfTable, lead_answer};

use crate::class_numbers::ClassNumbers;
use class_refine::Classes;
use net_model::AnswerRows;
use packed_bits::PackedBits;
use std::alloc::{AllocError, Global};
use table_dicts::{AnswerTable, group_rows, representatives};

/// Returns the numbers of what the classes answer to the patterns of a table.
pub(crate) fn numbers_of_table(
    alloc: Global,
    table: &AnswerTable,
    classes: &Classes,
) -> Result<ClassNumbers, AllocError>
    requires { length classes.now.class_of ≡ table.now.numbers }
    ensures are { IfOk result AreClassNumbers }
    ensures of { IfOk result (AreNumbersOfTable classes.now table.now) }
    ensures whole { IsWhole classes.now }
    ensures table { IsTable table.now }
{
    let positions = table.positions() as usize;
    let leads = representatives(alloc, classes)?;
    let mut numbers = ClassNumbers::new(alloc, leads.len())?;
    let mut rows = AnswerRows::zeros(alloc, leads.len(), positions)?;
    for pattern in 0..table.patterns() {
        add_row(
            alloc,
            table,
            leads.as_slice(),
            pattern,
            &mut rows,
            &mut numbers,
        )?;
    }
    Ok(numbers)
}

// Adds a pattern of the table. `rows` is working space for the answers.
fn add_row(
    alloc: Global,
    table: &AnswerTable,
    leads: &[u32],
    pattern: u32,
    rows: &mut AnswerRows,
    numbers: &mut ClassNumbers,
) -> Result<(), AllocError>
    requires known { All (λ lead. lead < table.now.numbers) leads.now }
    requires few { length leads.now < 2 ^ 32 }
    requires some { 0 < length leads.now }
    requires pattern { pattern < length table.now.rows }
    requires few_patterns { length table.now.rows < 2 ^ 32 }
    requires shape { AreRows (length leads.now) table.now.positions rows.old }
    requires are { AreClassNumbers numbers.old }
    requires to { AreNumbersTo (lead_answer table.now leads.now) pattern (length leads.now) numbers.old }
    ensures shape { OnOk result (AreRows (length leads.now) table.now.positions rows.new) }
    ensures are { OnOk result (AreClassNumbers numbers.new) }
    ensures to { OnOk result (AreNumbersTo (lead_answer table.now leads.now) (pattern + 1) (length leads.now) numbers.new) }
{
    copy_answers(table, leads, pattern, rows);
    let grouped = group_rows(alloc, rows)?;
    let mut answers = rows_as_bits(alloc, &grouped.entries)?;
    numbers.add_pattern(grouped.groups.as_slice(), &mut answers)?;
    Ok(())
}

// Writes what each lead answers to a pattern to a row of its own, in order.
fn copy_answers(table: &AnswerTable, leads: &[u32], pattern: u32, rows: &mut AnswerRows)
    requires known { All (λ lead. lead < table.now.numbers) leads.now }
    requires pattern { pattern < length table.now.rows }
    requires shape { AreRows (length leads.now) table.now.positions rows.old }
    ensures rows { rows.new ≡ map (answer_to table.now pattern) leads.now }
    ensures shape { AreRows (length leads.now) table.now.positions rows.new }
{
    for (class, lead) in leads.iter().enumerate() {
        table.copy_answer(pattern, *lead, rows, class);
    }
}

// Returns each row as packed bits.
fn rows_as_bits(alloc: Global, rows: &AnswerRows) -> Result<Vec<PackedBits>, AllocError>
    ensures { IfOk result (λ all. all.items ≡ rows.now) }
{
    let mut all = Vec::with_capacity(alloc, rows.rows())?;
    for row in 0..rows.rows() {
        all.push(row_as_bits(alloc, rows, row)?)?;
    }
    Ok(all)
}

// Returns a row as packed bits.
fn row_as_bits(alloc: Global, rows: &AnswerRows, row: usize) -> Result<PackedBits, AllocError>
    requires { row < length rows.now }
    ensures { IfOk result (λ bits. bits ≡ slice_index_or rows.now row []) }
{
    let width = rows.width();
    let mut bits = PackedBits::zeros(alloc, width)?;
    for at in 0..width {
        bits.set(at, rows.get(row, at));
    }
    Ok(bits)
}
