//! Simulates a circuit with each of its lines turned at the patterns of a log, one block of patterns after another.

ghost use Rattle.std.specs.Prelude.{◌≡◌, ℕ, ◌+◌, ◌%◌, ◌<◌, ◌≤◌, not, nat_lt, List, length, OnOk, IfOk};
ghost use Rattle.net_model.specs.Circuit.{line_count};
ghost use Rattle.net_model.specs.Answer.{bit_at};
ghost use Rattle.net_model.specs.Rows.{row_at};
ghost use Rattle.word_sim.specs.declared.lanes.TheConstants.{LANES};
ghost use Rattle.dict_rows.specs.Rows.{AreRows};
ghost use Rattle.table_dicts.specs.Blocks.{HasRunPatterns};
ghost use Rattle.suspect_scores.specs.Marks.{IsMarked};
ghost use Rattle.suspect_scores.specs.Scored.{row_bits, meets_all};
ghost use Rattle.suspect_scores.specs.Columns.{AreColumnRows, AreSame, lane_score};
ghost use Rattle.bridging_faults.specs.Simulated.{IsFreeValue, IsTurnedBit, IsTurnedLane, AreKnown, HaveRoom, AreLanesNoted, IsLineNoted, AreLinesNoted};

use fault_heads::Head;
use fault_sim::FaultSim;
use net_model::{AnswerRows, Bits};
use std::alloc::{AllocError, Global};
use suspect_scores::{LogColumns, Logged, fitting_word, is_failing};
use table_dicts::{PatternSim, Setting};
use word_sim::{LANES, Lanes};

/// Returns for each line of a log whether it isn't failing.
pub(crate) fn passing_lines(alloc: Global, logged: &Logged) -> Result<Bits, AllocError>
    ensures count { IfOk result (λ bits. length bits ≡ length logged.now.marks.wrong) }
    ensures passes { IfOk result (λ bits. (k : ℕ) → k < length logged.now.marks.wrong → bit_at bits k ≡ not (nat_lt 0 (row_bits (row_at logged.now.marks.wrong k)))) }
{
    let lines = logged.marks.wrong.rows();
    let mut passes = Bits::zeros(alloc, lines)?;
    for line in 0..lines {
        passes.set(line, !is_failing(logged, line));
    }
    Ok(passes)
}

/// Notes the fault-free values of each line of the circuit in `good`, and in `turned` which lines of the log the
/// circuit fits with that line turned.
pub(crate) fn simulate(
    alloc: Global,
    setting: &Setting,
    logged: &Logged,
    good: &mut AnswerRows,
    turned: &mut AnswerRows,
) -> Result<(), AllocError>
    requires marked { IsMarked setting.now logged.now }
    requires good { AreRows (line_count setting.now.subject.now) (length logged.now.patterns.items) good.old }
    requires turned { AreRows (line_count setting.now.subject.now) (length logged.now.patterns.items) turned.old }
    ensures good { OnOk result (AreKnown (IsFreeValue setting.now.subject.now logged.now.patterns.items) (line_count setting.now.subject.now) (length logged.now.patterns.items) (length logged.now.patterns.items) good.new) }
    ensures turned { OnOk result (AreKnown (IsTurnedBit setting.now logged.now) (line_count setting.now.subject.now) (length logged.now.patterns.items) (length logged.now.patterns.items) turned.new) }
{
    let patterns = logged.patterns.as_slice();
    let mut pattern_sim = PatternSim::new(alloc, setting.subject)?;
    let mut first = 0;
    while first < patterns.len() {
        let end = pattern_sim.run(patterns, first);
        note_lines(
            good,
            turned,
            &mut pattern_sim,
            &logged.columns,
            first as u32,
        );
        first = end;
    }
    Ok(())
}

// Notes what is known of all lines at the patterns that were run. These are the patterns of the log's lines starting at
// `first`.
fn note_lines(
    good: &mut AnswerRows,
    turned: &mut AnswerRows,
    pattern_sim: &mut PatternSim,
    columns: &LogColumns,
    first: u32,
)
    requires run { HasRunPatterns pattern_sim.old }
    requires columns { AreColumnRows (length pattern_sim.old.good.circuit.positions) columns.now }
    requires aligned { first % 64 ≡ 0 }
    requires good { HaveRoom (line_count pattern_sim.old.good.circuit) first (length pattern_sim.old.block.vectors) good.old }
    requires turned { HaveRoom (line_count pattern_sim.old.good.circuit) first (length pattern_sim.old.block.vectors) turned.old }
    ensures pattern_sim { pattern_sim.new ≡ record pattern_sim.old { sim = pattern_sim.new.sim } }
    ensures run { HasRunPatterns pattern_sim.new }
    ensures good { AreLinesNoted (IsFreeValue pattern_sim.old.good.circuit pattern_sim.old.block.vectors) first (length pattern_sim.old.block.vectors) good.old good.new (line_count pattern_sim.old.good.circuit) }
    ensures turned { AreLinesNoted (IsTurnedLane pattern_sim.old.good.circuit pattern_sim.old.block.vectors columns.now first) first (length pattern_sim.old.block.vectors) turned.old turned.new (line_count pattern_sim.old.good.circuit) }
{
    let lines = pattern_sim.good.circuit().lines();
    for line in 0..lines {
        note_line(good, turned, pattern_sim, columns, first, line);
    }
}

// Notes the same of one line of the circuit.
fn note_line(
    good: &mut AnswerRows,
    turned: &mut AnswerRows,
    pattern_sim: &mut PatternSim,
    columns: &LogColumns,
    first: u32,
    line: u32,
)
    requires run { HasRunPatterns pattern_sim.old }
    requires columns { AreColumnRows (length pattern_sim.old.good.circuit.positions) columns.now }
    requires aligned { first % 64 ≡ 0 }
    requires line { line < line_count pattern_sim.old.good.circuit }
    requires good { HaveRoom (line_count pattern_sim.old.good.circuit) first (length pattern_sim.old.block.vectors) good.old }
    requires turned { HaveRoom (line_count pattern_sim.old.good.circuit) first (length pattern_sim.old.block.vectors) turned.old }
    ensures pattern_sim { pattern_sim.new ≡ record pattern_sim.old { sim = pattern_sim.new.sim } }
    ensures run { HasRunPatterns pattern_sim.new }
    ensures good { IsLineNoted (IsFreeValue pattern_sim.old.good.circuit pattern_sim.old.block.vectors) first (length pattern_sim.old.block.vectors) good.old good.new line }
    ensures turned { IsLineNoted (IsTurnedLane pattern_sim.old.good.circuit pattern_sim.old.block.vectors columns.now first) first (length pattern_sim.old.block.vectors) turned.old turned.new line }
{
    pattern_sim
        .sim
        .flip(&pattern_sim.good, Head::Line(line), Lanes::all(true));
    let count = pattern_sim.block.live();
    let row = line as usize;
    note_lanes(good, row, pattern_sim.good.lanes(line), first, count);
    note_fitting(turned, row, columns, &pattern_sim.sim, first, count);
}

// Writes the first `count` lanes to a row, at the lines of the log starting at `first`.
fn note_lanes(rows: &mut AnswerRows, row: usize, lanes: Lanes, first: u32, count: u32)
    requires aligned { first % 64 ≡ 0 }
    requires count { count ≤ LANES }
    requires row { row < length rows.old }
    requires wide { first + count ≤ length (row_at rows.old row) }
    ensures { AreLanesNoted (bit_at lanes) first count rows.old rows.new row }
{
    for word in 0..count.div_ceil(64) {
        rows.set_word(row, (first / 64 + word) as usize, lanes.word(word));
    }
}

// Writes to a row, for each of the first `count` lanes, whether the answers have every observed bit of the log's line.
fn note_fitting(
    rows: &mut AnswerRows,
    row: usize,
    columns: &LogColumns,
    sim: &FaultSim,
    first: u32,
    count: u32,
)
    requires columns { AreColumnRows (length sim.now.circuit.positions) columns.now }
    requires aligned { first % 64 ≡ 0 }
    requires count { count ≤ LANES }
    requires past { AreSame sim.now count LANES }
    requires row { row < length rows.old }
    requires wide { first + count ≤ length (row_at rows.old row) }
    ensures { AreLanesNoted (λ lane. meets_all (lane_score columns.now sim.now first lane)) first count rows.old rows.new row }
{
    for word in 0..count.div_ceil(64) {
        let fitting = fitting_word(columns, sim, first, count, word);
        rows.set_word(row, (first / 64 + word) as usize, fitting);
    }
}
