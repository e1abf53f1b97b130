//! Baselines chosen from a table of answers: the rows of the chosen candidates.

ghost use Rattle.std.specs.Prelude.{◌≡◌, ◌+◌, ◌<◌, ◌≤◌, ℕ, Bool, List, length, slice_index, All, Contains, IfOk};
ghost use Rattle.net_model.specs.ClassTable.{class_count};
ghost use Rattle.dict_rows.specs.Rows.{AreRows, AreRowsBegun};
ghost use Rattle.samediff_dict.specs.Chosen.{chosen_baselines};
ghost use Rattle.samediff_dict.specs.Numbered.{AnswerAlike, HaveCandidates};
ghost use Rattle.samediff_dict.specs.Copied.{HaveClasses, AreLeads, AreWanted};

use crate::choosing::choose_numbers;
use crate::numbering::{Candidates, add_candidates};
use crate::numbers::SparseNumbers;
use class_refine::Classes;
use net_model::AnswerRows;
use std::alloc::{AllocError, Global};
use table_dicts::{AnswerTable, representatives};

/// Returns the baselines that the three steps choose, a row for each pattern. Members of one class must have the same
/// answers in `table`.
pub fn choose(
    alloc: Global,
    table: &AnswerTable,
    classes: &Classes,
) -> Result<AnswerRows, AllocError>
    requires { AnswerAlike classes.now table.now }
    ensures chosen { IfOk result (λ rows. rows ≡ chosen_baselines classes.now table.now.rows) }
    ensures shape { IfOk result (AreRows (length table.now.rows) table.now.positions) }
{
    let leads = representatives(alloc, classes)?;
    let mut patterns = Vec::with_capacity(alloc, table.patterns() as usize)?;
    add_candidates(alloc, table, leads.as_slice(), &mut patterns)?;
    chosen_rows(alloc, table, classes, patterns.as_slice())
}

// Returns the baselines that are chosen among the candidates of the table's patterns.
fn chosen_rows(
    alloc: Global,
    table: &AnswerTable,
    classes: &Classes,
    patterns: &[Candidates],
) -> Result<AnswerRows, AllocError>
    ghost rows: { List (List (List Bool)) }
    requires rows { rows ≡ table.now.rows }
    requires numbers { length classes.now.class_of ≡ table.now.numbers }
    requires numbered { HaveCandidates classes.now rows patterns.now }
    ensures chosen { IfOk result (λ baselines. baselines ≡ chosen_baselines classes.now rows) }
    ensures shape { IfOk result (AreRows (length rows) table.now.positions) }
{
    let chosen = choose_numbers(alloc, classes, patterns)?;
    let leads = chosen_leads(alloc, classes, patterns, chosen.as_slice())?;
    own_rows(alloc, table, leads.as_slice())
}

// Returns for each pattern of the table the answer of the number that `numbers` has for it.
fn own_rows(alloc: Global, table: &AnswerTable, numbers: &[u32]) -> Result<AnswerRows, AllocError>
    requires known { All (λ number. number < table.now.numbers) numbers.now }
    requires one_each { length numbers.now ≡ length table.now.rows }
    ensures { IfOk result (λ rows. (wanted : ℕ → List Bool) → AreWanted table.now numbers.now 0 wanted → AreRowsBegun (length table.now.rows) table.now.positions (length table.now.rows) wanted rows) }
{
    let mut rows = AnswerRows::zeros(alloc, numbers.len(), table.positions() as usize)?;
    copy_own(table, numbers, 0, &mut rows);
    Ok(rows)
}

/// Returns for each pattern the lowest number of a class whose candidate there is the chosen one.
pub(crate) fn chosen_leads(
    alloc: Global,
    classes: &Classes,
    patterns: &[Candidates],
    chosen: &[u32],
) -> Result<Vec<u32>, AllocError>
    requires { HaveClasses (class_count classes.now) patterns.now chosen.now }
    ensures { IfOk result (λ leads. AreLeads classes.now patterns.now chosen.now (length chosen.now) leads.items) }
{
    let _count = classes.count();
    let mut leads = Vec::with_capacity(alloc, chosen.len())?;
    for pattern in 0..chosen.len() {
        let class = class_with(&patterns[pattern].numbers, chosen[pattern]);
        leads.push(classes.representative(class as u32))?;
    }
    Ok(leads)
}

/// Copies an answer to each pattern of the table into `rows`, starting at row `first`. `numbers` has for each pattern
/// the number whose answer it is.
pub(crate) fn copy_own(table: &AnswerTable, numbers: &[u32], first: usize, rows: &mut AnswerRows)
    requires known { All (λ number. number < table.now.numbers) numbers.now }
    requires one_each { length numbers.now ≡ length table.now.rows }
    requires within { first + length table.now.rows ≤ length rows.old }
    requires width { All (λ row. length row ≡ table.now.positions) rows.old }
    ensures { (count : ℕ) (wanted : ℕ → List Bool) → AreWanted table.now numbers.now first wanted → AreRowsBegun count table.now.positions first wanted rows.old → AreRowsBegun count table.now.positions (first + length table.now.rows) wanted rows.new }
{
    let _count = rows.rows();
    for pattern in 0..table.patterns() {
        let number = numbers[pattern as usize];
        table.copy_answer(pattern, number, rows, first + pattern as usize);
    }
}

// Returns a class that has `number`.
fn class_with(numbers: &SparseNumbers, number: u32) -> usize
    requires { Contains numbers.now number }
    ensures within { result < length numbers.now }
    ensures has { slice_index numbers.now result ≡ number }
{
    for class in 0..numbers.len() {
        if numbers.get(class) == number {
            return class;
        }
    }
    unreachable!()
}
