//! Which failing lines of a log each number explains: a row of bits for each number, one block of lines after another.

ghost use Rattle.std.specs.Prelude.{◌≡◌, ℕ, ◌+◌, ◌%◌, ◌<◌, ◌≤◌, List, length, slice_index, All, IfOk};
ghost use Rattle.net_model.specs.FaultList.{fault_count};
ghost use Rattle.net_model.specs.Rows.{row_at};
ghost use Rattle.word_sim.specs.declared.lanes.TheConstants.{LANES};
ghost use Rattle.dict_rows.specs.AnswerTable.{Answers};
ghost use Rattle.dict_rows.specs.Rows.{AreRows};
ghost use Rattle.table_dicts.specs.Setting.{AreAnswersAt};
ghost use Rattle.ranked_diag.specs.PartialLog.{Line};
ghost use Rattle.suspect_scores.specs.Marks.{IsLogged, IsMarked};
ghost use Rattle.suspect_scores.specs.Columns.{AreColumnRows, AreSame, lane_score};
ghost use Rattle.table_dicts.specs.Blocks.{HasRunPatterns};
ghost use Rattle.suspect_scores.specs.NotedRows.{AreLinesNoted, IsNoted, AreNoted};
ghost use Rattle.suspect_scores.specs.Chosen.{explained_by};

use crate::block_scores::explained_word;
use crate::columns::LogColumns;
use crate::logged::Logged;
use fault_sim::FaultSim;
use net_model::AnswerRows;
use std::alloc::{AllocError, Global};
use table_dicts::{PatternSim, Setting};

/// Returns for each number a row with a bit for each line: whether the line is failing and the number explains it.
pub(crate) fn explained_rows(
    alloc: Global,
    setting: &Setting,
    logged: &Logged,
    numbers: &[u32],
) -> Result<AnswerRows, AllocError>
    requires answered { IsMarked setting.now logged.now }
    requires numbers { All (λ number. number < fault_count setting.now.subject.now) numbers.now }
    ensures shape { IfOk result (AreRows (length numbers.now) (length logged.now.patterns.items)) }
    ensures rows { IfOk result (λ rows. (lines : List Line) (table : Answers) → IsLogged setting.now lines logged.now → AreAnswersAt setting.now table → (place : ℕ) → place < length numbers.now → row_at rows place ≡ explained_by table lines (slice_index numbers.now place)) }
{
    let patterns = logged.patterns.as_slice();
    let mut pattern_sim = PatternSim::new(alloc, setting.subject)?;
    let mut rows = AnswerRows::zeros(alloc, numbers.len(), patterns.len())?;
    let mut first = 0;
    while first < patterns.len() {
        let end = pattern_sim.run(patterns, first);
        note_lines(
            &mut rows,
            &mut pattern_sim,
            &logged.columns,
            first as u32,
            numbers,
        );
        first = end;
    }
    Ok(rows)
}

// Notes for each number which lines of the block that was run it explains. Line `first` is the first one of the block.
fn note_lines(
    rows: &mut AnswerRows,
    pattern_sim: &mut PatternSim,
    columns: &LogColumns,
    first: u32,
    numbers: &[u32],
)
    requires run { HasRunPatterns pattern_sim.old }
    requires columns { AreColumnRows (length pattern_sim.old.good.circuit.positions) columns.now }
    requires aligned { first % 64 ≡ 0 }
    requires numbers { All (λ number. number < fault_count pattern_sim.old.good.circuit) numbers.now }
    requires rows { length rows.old ≡ length numbers.now }
    requires wide { All (λ row. first + length pattern_sim.old.block.vectors ≤ length row) rows.old }
    ensures pattern_sim { pattern_sim.new ≡ record pattern_sim.old { sim = pattern_sim.new.sim } }
    ensures run { HasRunPatterns pattern_sim.new }
    ensures noted { AreNoted pattern_sim.old.good.circuit pattern_sim.old.block.vectors columns.now first rows.old rows.new numbers.now (length numbers.now) }
{
    for (place, number) in numbers.iter().enumerate() {
        note_number(rows, place, pattern_sim, *number, columns, first);
    }
}

// Notes in a row which lines of the block that was run a number explains.
fn note_number(
    rows: &mut AnswerRows,
    row: usize,
    pattern_sim: &mut PatternSim,
    number: u32,
    columns: &LogColumns,
    first: u32,
)
    requires run { HasRunPatterns pattern_sim.old }
    requires columns { AreColumnRows (length pattern_sim.old.good.circuit.positions) columns.now }
    requires aligned { first % 64 ≡ 0 }
    requires number { number < fault_count pattern_sim.old.good.circuit }
    requires row { row < length rows.old }
    requires wide { first + length pattern_sim.old.block.vectors ≤ length (row_at rows.old row) }
    ensures pattern_sim { pattern_sim.new ≡ record pattern_sim.old { sim = pattern_sim.new.sim } }
    ensures run { HasRunPatterns pattern_sim.new }
    ensures noted { IsNoted pattern_sim.old.good.circuit pattern_sim.old.block.vectors columns.now first rows.old rows.new row number }
{
    pattern_sim.inject(number);
    note_words(
        rows,
        row,
        columns,
        &pattern_sim.sim,
        first,
        pattern_sim.block.live(),
    );
}

// Notes in a row which of `count` lines, starting at `first`, the injected number explains.
fn note_words(
    rows: &mut AnswerRows,
    row: usize,
    columns: &LogColumns,
    sim: &FaultSim,
    first: u32,
    count: u32,
)
    requires columns { AreColumnRows (length sim.now.circuit.positions) columns.now }
    requires aligned { first % 64 ≡ 0 }
    requires count { count ≤ LANES }
    requires past { AreSame sim.now count LANES }
    requires row { row < length rows.old }
    requires wide { first + count ≤ length (row_at rows.old row) }
    ensures { AreLinesNoted (lane_score columns.now sim.now first) first count rows.old rows.new row }
{
    for word in 0..count.div_ceil(64) {
        let explained = explained_word(columns, sim, first, count, word);
        rows.set_word(row, (first / 64 + word) as usize, explained);
    }
}
