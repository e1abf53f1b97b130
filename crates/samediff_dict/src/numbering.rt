//! The candidates of patterns, and which of them each class answers.

ghost use Rattle.answer_numbers.specs.AnswerNumbers.{numbered_vectors, vector_in};
ghost use Rattle.samediff_dict.specs.Numbered.{AreAdded, AreNumbersOf, AreLeadCandidates, AreLanesAdded};
ghost use Rattle.std.specs.Prelude.{◌≡◌, ◌<◌, ◌^◌, length, map, All, IfOk, OnOk};
ghost use Rattle.dict_rows.specs.AnswerTable.{answer_to};
ghost use Rattle.dict_rows.specs.Rows.{AreRows};

use crate::numbers::SparseNumbers;
use answer_numbers::AnswerNumbers;
use net_model::AnswerRows;
use std::alloc::{AllocError, Global};
use table_dicts::{AnswerTable, group_rows};

/// Which candidate of a pattern each class answers, by its number, and how many candidates there are.
#[derive(Drop)]
pub(crate) struct Candidates {
    pub(crate) numbers: SparseNumbers,
    pub(crate) count: u32,
}

// Writes what the numbers `leads` answer to the pattern, a row for each.
fn copy_answers(table: &AnswerTable, leads: &[u32], pattern: u32, rows: &mut AnswerRows)
    requires known { All (λ lead. lead < table.now.numbers) leads.now }
    requires pattern { pattern < length table.now.rows }
    requires shape { AreRows (length leads.now) table.now.positions rows.old }
    ensures rows { rows.new ≡ map (answer_to table.now pattern) leads.now }
    ensures shape { AreRows (length leads.now) table.now.positions rows.new }
{
    for (class, lead) in leads.iter().enumerate() {
        table.copy_answer(pattern, *lead, rows, class);
    }
}

/// Appends the candidates of each pattern of the table. `leads` has for each class a number of the table that answers
/// as it does.
pub(crate) fn add_candidates(
    alloc: Global,
    table: &AnswerTable,
    leads: &[u32],
    patterns: &mut Vec<Candidates>,
) -> Result<(), AllocError>
    requires known { All (λ lead. lead < table.now.numbers) leads.now }
    requires few { length leads.now < 2 ^ 32 }
    ensures { OnOk result (AreAdded table.now leads.now patterns.old.items patterns.new.items) }
{
    let mut rows = AnswerRows::zeros(alloc, leads.len(), table.positions() as usize)?;
    for pattern in 0..table.patterns() {
        let next = candidates_at(alloc, table, leads, pattern, &mut rows)?;
        patterns.push(next)?;
    }
    Ok(())
}

// Returns the candidates of a pattern of the table. `rows` is room for the answers.
fn candidates_at(
    alloc: Global,
    table: &AnswerTable,
    leads: &[u32],
    pattern: u32,
    rows: &mut AnswerRows,
) -> Result<Candidates, AllocError>
    requires known { All (λ lead. lead < table.now.numbers) leads.now }
    requires few { length leads.now < 2 ^ 32 }
    requires pattern { pattern < length table.now.rows }
    requires shape { AreRows (length leads.now) table.now.positions rows.old }
    ensures numbers { IfOk result (AreNumbersOf (map (answer_to table.now pattern) leads.now)) }
    ensures shape { OnOk result (AreRows (length leads.now) table.now.positions rows.new) }
{
    copy_answers(table, leads, pattern, rows);
    let grouped = group_rows(alloc, rows)?;
    let count = grouped.entries.rows() as u32;
    let numbers = sparse(alloc, grouped.groups.as_slice())?;
    Ok(Candidates { numbers, count })
}

fn sparse(alloc: Global, numbers: &[u32]) -> Result<SparseNumbers, AllocError>
    requires { length numbers.now < 2 ^ 32 }
    ensures { IfOk result (λ same. same ≡ numbers.now) }
{
    let mut same = SparseNumbers::with_room(alloc, numbers.len())?;
    for number in numbers {
        same.push(*number)?;
    }
    Ok(same)
}

/// Appends the candidates of each vector of the block that was numbered last. `leads` and `lanes` are how many leads
/// and vectors there are.
pub(crate) fn add_lanes(
    alloc: Global,
    numbers: &AnswerNumbers,
    leads: u32,
    lanes: u32,
    patterns: &mut Vec<Candidates>,
) -> Result<(), AllocError>
    requires leads { leads ≡ length numbers.now.leads }
    requires lanes { lanes ≡ length (numbered_vectors numbers.now) }
    ensures { OnOk result (AreLanesAdded numbers.now lanes patterns.old.items patterns.new.items) }
{
    for lane in 0..lanes {
        let next = candidates_in(alloc, numbers, leads, lane)?;
        patterns.push(next)?;
    }
    Ok(())
}

// Returns the candidates of the vector in a lane.
fn candidates_in(
    alloc: Global,
    numbers: &AnswerNumbers,
    leads: u32,
    lane: u32,
) -> Result<Candidates, AllocError>
    requires leads { leads ≡ length numbers.now.leads }
    requires lane { lane < length (numbered_vectors numbers.now) }
    ensures { IfOk result (AreLeadCandidates numbers.now.circuit numbers.now.leads (vector_in numbers.now lane)) }
{
    let mut own = SparseNumbers::with_room(alloc, leads as usize)?;
    for place in 0..leads {
        own.push(numbers.number(lane, place as usize))?;
    }
    Ok(Candidates {
        numbers: own,
        count: numbers.count(lane),
    })
}
