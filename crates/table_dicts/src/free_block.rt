//! What is kept of a number's answers to a block of patterns. It is written only where it differs from that of the
//! fault-free answers.

ghost use Rattle.std.specs.Prelude.{◌≡◌, ◌+◌, ◌^◌, ◌<◌, ◌≤◌, ℕ, length, IfOk};
ghost use Rattle.net_model.specs.Answer.{bit_at};
ghost use Rattle.net_model.specs.FaultList.{fault_numbered};
ghost use Rattle.fault_sim.specs.FaultSim.{AreDifferences};
ghost use Rattle.dict_rows.specs.AnswerTable.{answer_bit, IsNumberSet};
ghost use Rattle.table_dicts.specs.Blocks.{HasRunPatterns, HasLanes, FitsAt, IsKeptBit, kept_width, IsColumnSet};

use crate::pattern_sim::PatternSim;
use crate::simulating::Kept;
use dict_rows::AnswerTable;
use std::alloc::{AllocError, Global};
use word_sim::{LANES, Lanes};

/// What is kept of the fault-free answers to a block of patterns: its lanes at each position, and the same as a table
/// of one number.
#[derive(Drop)]
pub(crate) struct FreeBlock {
    lanes: Vec<Lanes>,
    answers: AnswerTable,
    ghost same: { HasLanes answers lanes.items },
}

impl FreeBlock {
    /// Returns what is kept of the fault-free answers to the patterns that were run.
    pub(crate) fn new(
        alloc: Global,
        pattern_sim: &mut PatternSim,
        kept: Kept,
        width: u32,
    ) -> Result<FreeBlock, AllocError>
        requires run { HasRunPatterns pattern_sim.old }
        requires width { width ≡ kept_width kept (length pattern_sim.old.good.circuit.positions) }
        ensures pattern_sim { pattern_sim.new ≡ record pattern_sim.old { sim = pattern_sim.new.sim } }
        ensures run { HasRunPatterns pattern_sim.new }
        ensures width { IfOk result (λ free. length free.lanes.items ≡ width) }
    {
        let none = Lanes::all(false);
        let mut lanes = Vec::with_capacity(alloc, width as usize)?;
        let mut answers = AnswerTable::zeros(alloc, LANES, 1, width)?;
        pattern_sim.inject(0);
        for position in 0..width {
            let column = pattern_sim.lanes(kept, 0, position);
            correct(&mut answers, 0, 0, LANES, position, none, column);
            lanes.push(column)?;
        }
        Ok(FreeBlock { lanes, answers })
    }

    /// Writes what is kept of the injected number's answers to the patterns that were run into the table, as the
    /// answers of its number at `place`.
    pub(crate) fn write(
        &self,
        pattern_sim: &PatternSim,
        kept: Kept,
        number: u32,
        table: &mut AnswerTable,
        place: u32,
        first: u32,
    )
        requires run { HasRunPatterns pattern_sim.now }
        requires differ { AreDifferences pattern_sim.now.good.circuit (fault_numbered pattern_sim.now.good.circuit number) pattern_sim.now.block.vectors pattern_sim.now.sim.differences }
        requires place { place < table.old.numbers }
        requires fits { FitsAt kept pattern_sim.now table.old first }
        requires free { length self.now.lanes.items ≡ table.old.positions }
        ensures { IsNumberSet (λ lane at. IsKeptBit kept pattern_sim.now.good.circuit pattern_sim.now.block.vectors lane number) (length pattern_sim.now.block.vectors) table.old table.new place first table.old.positions }
    {
        // The proof takes from this that there are few patterns.
        let _patterns = table.patterns();
        let count = pattern_sim.block.live();
        table.copy_block(place, first, count, &self.answers);
        let free = self.lanes.as_slice();
        for position in 0..table.positions() {
            let stands = free[position as usize];
            let column = pattern_sim.lanes(kept, number, position);
            correct(table, place, first, count, position, stands, column);
        }
    }
}

// Writes a column of lanes as a number's answers at a position, which now has the lanes of `stands`. Writes nothing if
// no lane differs.
fn correct(
    table: &mut AnswerTable,
    number: u32,
    first: u32,
    count: u32,
    position: u32,
    stands: Lanes,
    column: Lanes,
)
    requires number { number < table.old.numbers }
    requires within { first + count ≤ length table.old.rows }
    requires few { count ≤ LANES }
    requires fits { first + count < 2 ^ 32 }
    requires position { position < table.old.positions }
    requires stands { (lane : ℕ) → lane < count → answer_bit table.old (first + lane) number position ≡ bit_at stands lane }
    ensures { IsColumnSet column count table.old table.new number first position }
{
    let differ = column.xor(stands).any();
    if !differ {
        return;
    }
    for lane in 0..count {
        table.set(first + lane, number, position, column.get(lane));
    }
}
