//! The candidates of all patterns of a circuit, a block of patterns at a time, and what the chosen ones answer.

ghost use Rattle.net_model.specs.ClassTable.{class_count, representative};
ghost use Rattle.net_model.specs.FaultList.{fault_count};
ghost use Rattle.net_model.specs.Rows.{row_at};
ghost use Rattle.samediff_dict.specs.Numbered.{HaveCandidates, baselines_at};
ghost use Rattle.samediff_dict.specs.Setting.{AreAnswersOfNumbers, AreChosenOf};
ghost use Rattle.std.specs.List.{range_with_len};
ghost use Rattle.std.specs.Prelude.{◌≡◌, ◌+◌, ◌-◌, ◌<◌, ◌≤◌, ◌^◌, ℕ, length, map, All, IfOk, OnOk};
ghost use Rattle.dict_rows.specs.AnswerTable.{Answers, HasSizes, answer_to};
ghost use Rattle.dict_rows.specs.Rows.{AreRows, AreRowsBegun};
ghost use Rattle.table_dicts.specs.Setting.{IsSetting, AreAnswersAt};

use crate::copying::{chosen_leads, copy_own};
use crate::numbering::{Candidates, add_lanes};
use crate::partition::first_numbers;
use answer_numbers::AnswerNumbers;
use net_model::AnswerRows;
use std::alloc::{AllocError, Global};
use table_dicts::{AnswerTable, Setting, fill_block, number_answers_at, representatives};
use word_sim::{Block, LANES};

/// Returns the candidates of each pattern.
pub(crate) fn candidates(alloc: Global, setting: &Setting) -> Result<Vec<Candidates>, AllocError>
    requires { IsSetting setting.now }
    ensures { IfOk result (λ patterns. (t : Answers) → AreAnswersAt setting.now t → HaveCandidates setting.now.classes.now t.rows patterns.items) }
{
    let leads = representatives(alloc, setting.classes)?;
    candidates_of(alloc, setting, leads.as_slice())
}

// As `candidates`, by the lowest number of each class in `leads`.
fn candidates_of(
    alloc: Global,
    setting: &Setting,
    leads: &[u32],
) -> Result<Vec<Candidates>, AllocError>
    requires setting { IsSetting setting.now }
    requires leads { leads.now ≡ map (representative setting.now.classes.now) (range_with_len 0 (class_count setting.now.classes.now)) }
    requires within { All (λ number. number < fault_count setting.now.subject.now) leads.now }
    requires few { length leads.now < 2 ^ 32 }
    ensures { IfOk result (λ patterns. (t : Answers) → AreAnswersAt setting.now t → HaveCandidates setting.now.classes.now t.rows patterns.items) }
{
    let vectors = setting.patterns.as_slice();
    let circuit = setting.subject.circuit();
    let mut numbers = AnswerNumbers::new(alloc, circuit, setting.subject.listed(), leads)?;
    let mut block = Block::new(alloc, circuit.sources())?;
    let mut patterns = Vec::with_capacity(alloc, vectors.len())?;
    let mut first = 0;
    while first < vectors.len() {
        let end = end_after(first, LANES as usize, vectors.len());
        fill_block(&mut block, vectors, first, end);
        numbers.number_block(alloc, &block)?;
        add_lanes(
            alloc,
            &numbers,
            leads.len() as u32,
            block.live(),
            &mut patterns,
        )?;
        first = end;
    }
    Ok(patterns)
}

/// Returns the baselines that have the numbers `chosen` among the candidates.
pub(crate) fn baselines(
    alloc: Global,
    setting: &Setting,
    patterns: &[Candidates],
    chosen: &[u32],
) -> Result<AnswerRows, AllocError>
    ghost t: { Answers }
    requires { AreChosenOf setting.now t patterns.now chosen.now }
    ensures rows { IfOk result (λ rows. rows ≡ baselines_at setting.now.classes.now t.rows chosen.now) }
    ensures shape { IfOk result (AreRows (length t.rows) t.positions) }
{
    let positions = setting.subject.circuit().positions().len();
    let mut rows = AnswerRows::zeros(alloc, chosen.len(), positions)?;
    let mut first = 0;
    while first < chosen.len() {
        let end = end_after(first, LANES as usize, chosen.len());
        copy_range(alloc, setting, patterns, chosen, first, end, &mut rows)?;
        first = end;
    }
    Ok(rows)
}

// Copies the baselines of the patterns in `first..end` into `rows`.
fn copy_range(
    alloc: Global,
    setting: &Setting,
    patterns: &[Candidates],
    chosen: &[u32],
    first: usize,
    end: usize,
    rows: &mut AnswerRows,
) -> Result<(), AllocError>
    ghost t: { Answers }
    requires chosen { AreChosenOf setting.now t patterns.now chosen.now }
    requires first { first ≤ end }
    requires end { end ≤ length chosen.now }
    requires begun { AreRowsBegun (length chosen.now) t.positions first (row_at (baselines_at setting.now.classes.now t.rows chosen.now)) rows.old }
    ensures { OnOk result (AreRowsBegun (length chosen.now) t.positions end (row_at (baselines_at setting.now.classes.now t.rows chosen.now)) rows.new) }
{
    let table = chosen_answers(alloc, setting, patterns, chosen, first, end)?;
    let places = first_numbers(alloc, table.patterns())?;
    copy_own(&table, places.as_slice(), first, rows);
    Ok(())
}

/// Returns the end of a range that begins at `first`: it has at least one place, at most `count` places, and none at or
/// after `all`.
pub(crate) fn end_after(first: usize, count: usize, all: usize) -> usize
    requires first { first < all }
    requires some { 0 < count }
    ensures more { first < result }
    ensures few { result ≤ first + count }
    ensures within { result ≤ all }
{
    first + count.min(all - first)
}

// Returns what classes with the chosen numbers answer to the patterns in `first..end`, a class for each pattern.
fn chosen_answers(
    alloc: Global,
    setting: &Setting,
    patterns: &[Candidates],
    chosen: &[u32],
    first: usize,
    end: usize,
) -> Result<AnswerTable, AllocError>
    ghost t: { Answers }
    requires chosen { AreChosenOf setting.now t patterns.now chosen.now }
    requires first { first ≤ end }
    requires end { end ≤ length chosen.now }
    ensures sizes { IfOk result (λ table. HasSizes table (end - first) (end - first) t.positions) }
    ensures own { IfOk result (λ table. (k : ℕ) → first + k < end → answer_to table k k ≡ row_at (baselines_at setting.now.classes.now t.rows chosen.now) (first + k)) }
{
    let candidates = &patterns[first..end];
    let own = &chosen[first..end];
    let leads = chosen_leads(alloc, setting.classes, candidates, own)?;
    let table = number_answers(alloc, setting, leads.as_slice(), first, end)?;
    Ok(table)
}

// Returns what `numbers` answer to the patterns in `first..end`.
fn number_answers(
    alloc: Global,
    setting: &Setting,
    numbers: &[u32],
    first: usize,
    end: usize,
) -> Result<AnswerTable, AllocError>
    requires setting { IsSetting setting.now }
    requires numbers { All (λ number. number < fault_count setting.now.subject.now) numbers.now }
    requires count { length numbers.now < 2 ^ 32 }
    requires first { first ≤ end }
    requires end { end ≤ length setting.now.patterns.now }
    ensures { IfOk result (AreAnswersOfNumbers setting.now numbers.now first end) }
{
    setting.subject.circuit().stands();
    let patterns = setting.patterns.as_slice();
    let some = &patterns[first..end];
    let table = number_answers_at(alloc, setting.subject, some, numbers)?;
    Ok(table)
}
