//! Numbers of what the classes answer, from the simulation of a block of patterns at a time.

ghost use Rattle.std.specs.Prelude.{◌≡◌, ◌+◌, ◌<◌, ◌≤◌, ◌^◌, length, map, All, IfOk, OnOk};
ghost use Rattle.std.specs.List.{range_with_len};
ghost use Rattle.net_model.specs.Answer.{IsAnswer};
ghost use Rattle.net_model.specs.Circuit.{IsCircuit};
ghost use Rattle.net_model.specs.ClassTable.{class_count, representative};
ghost use Rattle.net_model.specs.FaultList.{fault_count};
ghost use Rattle.net_model.specs.declared.fault.Fault.TheVariants.{Free};
ghost use Rattle.answer_numbers.specs.AnswerNumbers.{numbered_vectors, vector_in};
ghost use Rattle.table_dicts.specs.Setting.{IsSetting};
ghost use Rattle.adaptive_planner.specs.Numbering.{AreClassNumbers};
ghost use Rattle.adaptive_planner.specs.CircuitNumbers.{AreLaneNumbers, AddsLane, AddsLanes, AreLeadsNumbered};

use crate::class_numbers::ClassNumbers;
use answer_numbers::AnswerNumbers;
use packed_bits::PackedBits;
use std::alloc::{AllocError, Global};
use table_dicts::{Setting, fill_block};
use word_sim::{Block, LANES};

/// Returns the numbers of what the leads answer to all patterns. There is a lead for each class, its lowest number.
pub(crate) fn numbers_of_leads(
    alloc: Global,
    setting: &Setting,
    leads: &[u32],
) -> Result<ClassNumbers, AllocError>
    requires setting { IsSetting setting.now }
    requires known { All (λ lead. lead < fault_count setting.now.subject.now) leads.now }
    requires few { length leads.now < 2 ^ 32 }
    requires some { 0 < length leads.now }
    ensures { IfOk result (AreLeadsNumbered setting.now.subject.now setting.now.patterns.now leads.now (length setting.now.patterns.now)) }
{
    let vectors = setting.patterns.as_slice();
    let circuit = setting.subject.circuit();
    let mut source = AnswerNumbers::new(alloc, circuit, setting.subject.listed(), leads)?;
    let mut block = Block::new(alloc, circuit.sources())?;
    let mut numbers = ClassNumbers::new(alloc, leads.len())?;
    let mut first = 0;
    while first < vectors.len() {
        let end = first + (vectors.len() - first).min(LANES as usize);
        fill_block(&mut block, vectors, first, end);
        source.number_block(alloc, &block)?;
        add_lanes(alloc, &source, leads.len(), block.live(), &mut numbers)?;
        first = end;
    }
    Ok(numbers)
}

// Adds the vectors of the first `lanes` lanes.
fn add_lanes(
    alloc: Global,
    source: &AnswerNumbers,
    leads: usize,
    lanes: u32,
    numbers: &mut ClassNumbers,
) -> Result<(), AllocError>
    requires circuit { IsCircuit source.now.circuit }
    requires leads { leads ≡ length source.now.leads }
    requires some { 0 < leads }
    requires lanes { lanes ≤ length (numbered_vectors source.now) }
    requires are { AreClassNumbers numbers.old }
    requires classes { length numbers.old.own.items ≡ leads }
    requires few { length numbers.old.firsts.items + lanes < 2 ^ 32 }
    ensures { OnOk result (AddsLanes source.now lanes numbers.old numbers.new) }
{
    for lane in 0..lanes {
        add_lane(alloc, source, leads, lane, numbers)?;
    }
    Ok(())
}

// Adds the vector of a lane, after those of the lanes before it.
fn add_lane(
    alloc: Global,
    source: &AnswerNumbers,
    leads: usize,
    lane: u32,
    numbers: &mut ClassNumbers,
) -> Result<(), AllocError>
    requires circuit { IsCircuit source.now.circuit }
    requires leads { leads ≡ length source.now.leads }
    requires some { 0 < leads }
    requires lane { lane < length (numbered_vectors source.now) }
    requires are { AreClassNumbers numbers.old }
    requires classes { length numbers.old.own.items ≡ leads }
    requires few { length numbers.old.firsts.items + 1 < 2 ^ 32 }
    ensures { OnOk result (AddsLane source.now lane numbers.old numbers.new) }
{
    let free = source.free_answer(alloc, lane)?;
    let mut found = LaneNumbers {
        numbers: Vec::with_capacity(alloc, leads)?,
        answers: Vec::new(alloc),
    };
    for place in 0..leads {
        found.add(source, lane, place, &free)?;
    }
    numbers.add_pattern(found.numbers.as_slice(), &mut found.answers)?;
    Ok(())
}

/// The numbers of what the leads answer to a vector, and the answers by number.
#[derive(Drop)]
pub(crate) struct LaneNumbers {
    pub(crate) numbers: Vec<u32>,
    pub(crate) answers: Vec<PackedBits>,
}

impl LaneNumbers {
    // Adds the next place, given the fault-free answer. Numbers ascend in the order of the lowest places that give the
    // answers.
    fn add(
        &mut self,
        source: &AnswerNumbers,
        lane: u32,
        place: usize,
        free: &PackedBits,
    ) -> Result<(), AllocError>
        requires circuit { IsCircuit source.now.circuit }
        requires lane { lane < length (numbered_vectors source.now) }
        requires place { place < length source.now.leads }
        requires free { IsAnswer source.now.circuit Free (vector_in source.now lane) free.now }
        requires numbers { AreLaneNumbers source.now lane place self.old }
        ensures { OnOk result (AreLaneNumbers source.now lane (place + 1) self.new) }
    {
        let number = source.number(lane, place);
        self.numbers.push(number)?;
        if number as usize == self.answers.len() {
            self.answers.push(source.answer_over(lane, place, free)?)?;
        }
        Ok(())
    }
}
