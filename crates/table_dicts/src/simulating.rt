//! The answers of fault numbers to patterns, by simulation of a block of patterns at once.

ghost use Rattle.std.specs.Prelude.{◌≡◌, ◌<◌, ◌^◌, length, All, IfOk};
ghost use Rattle.net_model.specs.FaultList.{fault_count};
ghost use Rattle.dict_rows.specs.AnswerTable.{AreAnswerable, IsNumberSet};
ghost use Rattle.table_dicts.specs.Blocks.{HasRunPatterns, FitsAt, IsKeptBit, IsListedBit, kept_width, AreNumbersSet, AreRightBits};

use crate::free_block::FreeBlock;
use crate::pattern_sim::PatternSim;
use dict_rows::AnswerTable;
use fault_collapse::Subject;
use net_model::Vector;
use std::alloc::{AllocError, Global};

/// What is kept of a number's answer to a pattern: its bits, or whether it differs from the fault-free one.
#[derive(Clone, Copy)]
pub(crate) enum Kept {
    Bits,
    Fails,
}

/// Returns what is kept of the answers of the given numbers to patterns, in the order of the numbers.
pub(crate) fn tabulate(
    alloc: Global,
    subject: &Subject,
    patterns: &[Vector],
    kept: Kept,
    numbers: &[u32],
) -> Result<AnswerTable, AllocError>
    requires answerable { AreAnswerable subject.now patterns.now }
    requires numbers { All (λ number. number < fault_count subject.now) numbers.now }
    requires count { length numbers.now < 2 ^ 32 }
    ensures { IfOk result (AreRightBits (IsListedBit kept subject.now patterns.now numbers.now) (length patterns.now) (length numbers.now) (kept_width kept (length subject.now.positions)) (length patterns.now)) }
{
    let positions = subject.circuit().positions();
    let width = width_of(kept, positions.len() as u32);
    let mut table = AnswerTable::zeros(alloc, patterns.len() as u32, numbers.len() as u32, width)?;
    let mut pattern_sim = PatternSim::new(alloc, subject)?;
    let mut first = 0;
    while first < patterns.len() {
        let end = pattern_sim.run(patterns, first);
        let free = FreeBlock::new(alloc, &mut pattern_sim, kept, width)?;
        write_block(
            &mut pattern_sim,
            kept,
            numbers,
            first as u32,
            &free,
            &mut table,
        );
        first = end;
    }
    Ok(table)
}

// Returns how many bits are kept of an answer.
fn width_of(kept: Kept, positions: u32) -> u32
    ensures { result ≡ kept_width kept positions }
{
    match kept {
        Kept::Bits => positions,
        Kept::Fails => 1,
    }
}

// Writes what is kept of the numbers' answers to the patterns that were run, which are those starting at `first`.
fn write_block(
    pattern_sim: &mut PatternSim,
    kept: Kept,
    numbers: &[u32],
    first: u32,
    free: &FreeBlock,
    table: &mut AnswerTable,
)
    requires run { HasRunPatterns pattern_sim.old }
    requires numbers { All (λ number. number < fault_count pattern_sim.old.good.circuit) numbers.now }
    requires count { length numbers.now < 2 ^ 32 }
    requires rows { table.old.numbers ≡ length numbers.now }
    requires fits { FitsAt kept pattern_sim.old table.old first }
    requires free { length free.now.lanes.items ≡ table.old.positions }
    ensures pattern_sim { pattern_sim.new ≡ record pattern_sim.old { sim = pattern_sim.new.sim } }
    ensures run { HasRunPatterns pattern_sim.new }
    ensures set { AreNumbersSet (IsListedBit kept pattern_sim.old.good.circuit pattern_sim.old.block.vectors numbers.now) (length pattern_sim.old.block.vectors) table.old table.new (length numbers.now) first }
{
    for (place, number) in numbers.iter().enumerate() {
        write_number(pattern_sim, kept, *number, place as u32, first, free, table);
    }
}

// Writes what is kept of a number's answers to the patterns that were run, as those of the table's number at `place`.
fn write_number(
    pattern_sim: &mut PatternSim,
    kept: Kept,
    number: u32,
    place: u32,
    first: u32,
    free: &FreeBlock,
    table: &mut AnswerTable,
)
    requires run { HasRunPatterns pattern_sim.old }
    requires number { number < fault_count pattern_sim.old.good.circuit }
    requires place { place < table.old.numbers }
    requires fits { FitsAt kept pattern_sim.old table.old first }
    requires free { length free.now.lanes.items ≡ table.old.positions }
    ensures pattern_sim { pattern_sim.new ≡ record pattern_sim.old { sim = pattern_sim.new.sim } }
    ensures run { HasRunPatterns pattern_sim.new }
    ensures set { IsNumberSet (λ lane at. IsKeptBit kept pattern_sim.old.good.circuit pattern_sim.old.block.vectors lane number) (length pattern_sim.old.block.vectors) table.old table.new place first table.old.positions }
{
    pattern_sim.inject(number);
    free.write(pattern_sim, kept, number, table, place, first);
}
