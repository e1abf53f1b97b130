//! `AnswerNumbers`: the numbers of the answers to the vectors of a block.

ghost use Rattle.std.specs.Prelude.{◌≡◌, ℕ, ◌+◌, ◌<◌, ◌≤◌, ◌^◌, None, Some, false, [], length, slice_index_or, All, IsSome, IfOk, OnOk, OnErr};
ghost use Rattle.net_model.specs.Circuit.{Circuit, IsCircuit};
ghost use Rattle.net_model.specs.Fault.{IsFaultOf};
ghost use Rattle.net_model.specs.declared.fault.Fault.TheVariants.{Free};
ghost use Rattle.net_model.specs.FaultList.{faults as faults_of, fault_count};
ghost use Rattle.net_model.specs.Answer.{bit_at, IsAnswer};
ghost use Rattle.word_sim.specs.declared.lanes.TheConstants.{LANES};
ghost use Rattle.word_sim.specs.GoodSim.{GoodSim, vectors_of};
ghost use Rattle.answer_numbers.specs.AnswerNumbers.{answer_numbers_with, numbered_vectors, vector_in, lead_fault, IsAnswerNumber, IsAnswerCount, IsLeadDifference};
ghost use Rattle.answer_numbers.specs.Compared.{AreKnownLeads, AreCompared, AreLeadNumbers};

use crate::differences::PositionLists;
use crate::node_numbers::NodeNumbers;
use crate::trees::LaneTrees;
use fault_list::FaultList;
use fault_sim::FaultSim;
use net_model::{Answer, Circuit};
use packed_bits::PackedBits;
use std::alloc::{AllocError, Global};
use std::marker::Model;
use word_sim::{Block, GoodSim, Lanes};

/// What some fault numbers, the leads, answer to the vectors of the block that was numbered last.
///
/// In each lane equal answers have one number. The numbers go up from 0, in order of the lowest place among the leads
/// that gives each answer. If the first lead is fault number 0, the fault-free circuit, then answer number 0 is the
/// fault-free one.
#[derive(Debug)]
pub struct AnswerNumbers<'a> {
    faults: &'a FaultList,
    leads: &'a [u32],
    good: GoodSim<'a>,
    sim: FaultSim<'a>,
    numbered: Option<Numbered>,
}

// The lanes in which each place differs from the fault-free answer, its node in each lane, and the number of each node.
#[derive(Debug, Drop)]
pub(crate) struct Numbered {
    pub(crate) differing: Vec<Lanes>,
    pub(crate) trees: LaneTrees,
    pub(crate) numbers: NodeNumbers,
}

// Where places differ from the fault-free answers: the lanes in which each place does, and the places that do at each
// position.
#[derive(Drop)]
pub(crate) struct Compared {
    pub(crate) differing: Vec<Lanes>,
    pub(crate) lists: PositionLists,
}

// Written by hand, since the proof of each function that drops the numbers then has one step for it.
impl Drop for AnswerNumbers<'_> {
    fn drop(self) {
        let AnswerNumbers {
            faults: _,
            leads: _,
            good: _,
            sim: _,
            numbered: _,
        } = self;
    }
}

impl<'a> Model for AnswerNumbers<'a> {
    ghost use Rattle.answer_numbers.specs.AnswerNumbers as spec;
    ghost use Rattle.answer_numbers.specs.AnswerNumbersFields.{answer_numbers_of, AreAnswerNumbersFields};

    ghost Value = { spec.AnswerNumbers };

    ghost view = { answer_numbers_of };

    ghost invariant = { AreAnswerNumbersFields };
}

impl<'a> AnswerNumbers<'a> {
    /// Returns the numbers of what `leads` answer, with no block numbered yet. The leads are fault numbers of
    /// `circuit`, and `faults` is the list of its faults.
    pub fn new(
        alloc: Global,
        circuit: &'a Circuit,
        faults: &'a FaultList,
        leads: &'a [u32],
    ) -> Result<AnswerNumbers<'a>, AllocError>
        requires faults { faults.now ≡ faults_of circuit.now }
        requires leads { All (λ lead. lead < fault_count circuit.now) leads.now }
        requires few { length leads.now < 2 ^ 32 }
        ensures { IfOk result (λ numbers. numbers ≡ answer_numbers_with circuit.now leads.now None) }
    {
        Ok(AnswerNumbers {
            faults,
            leads,
            good: GoodSim::new(alloc, circuit)?,
            sim: FaultSim::new(alloc, circuit)?,
            numbered: None,
        })
    }

    /// Runs the vectors of `block`, and numbers what each lead answers to them. Returns the error also for a block with
    /// more differences, or more nodes in its trees, than 32 bits can number. After an error circuit and leads are as
    /// before and no block is numbered: the numbers of the last block are gone, and another block may come.
    pub fn number_block(&mut self, alloc: Global, block: &Block) -> Result<(), AllocError>
        requires { block.now.sources ≡ self.old.circuit.sources }
        ensures ok { OnOk result (self.new ≡ answer_numbers_with self.old.circuit self.old.leads (Some block.now.vectors)) }
        ensures err { OnErr result (self.new ≡ answer_numbers_with self.old.circuit self.old.leads None) }
    {
        self.numbered = None;
        self.good.run(block);
        let made = number_leads(
            alloc,
            &self.good,
            &mut self.sim,
            self.faults,
            self.leads,
            block.live(),
        )?;
        self.numbered = Some(made);
        Ok(())
    }

    /// Returns the number of what the lead at `place` answers to the vector of `lane`.
    pub fn number(&self, lane: u32, place: usize) -> u32
        requires lane { lane < length (numbered_vectors self.now) }
        requires place { place < length self.now.leads }
        ensures { IsAnswerNumber self.now lane place result }
    {
        let Some(numbered) = &self.numbered else {
            unreachable!()
        };
        numbered.numbers.number(numbered.trees.stand(place, lane))
    }

    /// Returns how many different answers the leads give to the vector of `lane`.
    pub fn count(&self, lane: u32) -> u32
        requires { lane < length (numbered_vectors self.now) }
        ensures { IsAnswerCount self.now lane result }
    {
        let Some(numbered) = &self.numbered else {
            unreachable!()
        };
        numbered.numbers.count(lane)
    }

    /// Returns what the lead at `place` answers to the vector of `lane`.
    pub fn answer(&self, alloc: Global, lane: u32, place: usize) -> Result<Answer, AllocError>
        requires lane { lane < length (numbered_vectors self.now) }
        requires place { place < length self.now.leads }
        ensures { IfOk result (λ answer. IsAnswer self.now.circuit (lead_fault self.now.circuit self.now.leads place) (vector_in self.now lane) answer) }
    {
        let free = self.free_answer(alloc, lane)?;
        let answer = self.answer_over(lane, place, &free)?;
        answer.unpack(alloc)
    }

    /// Returns the fault-free answer to the vector of `lane`, packed.
    pub fn free_answer(&self, alloc: Global, lane: u32) -> Result<PackedBits, AllocError>
        requires { lane < length (numbered_vectors self.now) }
        ensures { IfOk result (λ free. IsAnswer self.now.circuit Free (vector_in self.now lane) free) }
    {
        let Some(_) = &self.numbered else {
            unreachable!()
        };
        let free = free_answer(alloc, &self.good, lane)?;
        Ok(free)
    }

    /// Returns what the lead at `place` answers to the vector of `lane`, packed. `free` is the fault-free answer to
    /// this vector.
    pub fn answer_over(
        &self,
        lane: u32,
        place: usize,
        free: &PackedBits,
    ) -> Result<PackedBits, AllocError>
        requires lane { lane < length (numbered_vectors self.now) }
        requires place { place < length self.now.leads }
        requires free { IsAnswer self.now.circuit Free (vector_in self.now lane) free.now }
        ensures { IfOk result (λ answer. IsAnswer self.now.circuit (lead_fault self.now.circuit self.now.leads place) (vector_in self.now lane) answer) }
    {
        let Some(numbered) = &self.numbered else {
            unreachable!()
        };
        let mut answer = free.copy()?;
        let node = numbered.trees.stand(place, lane);
        numbered.trees.turn_bits(node, &mut answer);
        Ok(answer)
    }

    /// Returns in which lanes the answer of the lead at `place` differs from the fault-free one. A lane without a
    /// vector is false.
    pub fn differing(&self, place: usize) -> Lanes
        requires numbered { IsSome self.now.ran }
        requires place { place < length self.now.leads }
        ensures live { (lane : ℕ) → lane < length (numbered_vectors self.now) → IsLeadDifference self.now lane place (bit_at result lane) }
        ensures past { (lane : ℕ) → length (numbered_vectors self.now) ≤ lane → lane < LANES → bit_at result lane ≡ false }
    {
        let Some(numbered) = &self.numbered else {
            unreachable!()
        };
        numbered.differing[place]
    }
}

// Numbers what the leads answer to the vectors that were run. There are `lanes` of them.
fn number_leads(
    alloc: Global,
    good: &GoodSim,
    sim: &mut FaultSim,
    faults: &FaultList,
    leads: &[u32],
    lanes: u32,
) -> Result<Numbered, AllocError>
    requires circuit { IsCircuit good.now.circuit }
    requires leads { AreKnownLeads good.now.circuit faults.now leads.now }
    requires sim { sim.old.circuit ≡ good.now.circuit }
    requires ran { IsSome good.now.ran }
    requires lanes { lanes ≡ length (vectors_of good.now) }
    requires few { lanes ≤ LANES }
    ensures sim { sim.new.circuit ≡ sim.old.circuit }
    ensures numbers { IfOk result (AreLeadNumbers good.now.circuit leads.now (vectors_of good.now)) }
{
    let compared = compare(alloc, good, sim, faults, leads)?;
    let trees = LaneTrees::grown(alloc, &compared.lists, lanes, leads.len())?;
    let numbers = NodeNumbers::of_places(alloc, &trees, leads.len() as u32)?;
    Ok(Numbered {
        differing: compared.differing,
        trees,
        numbers,
    })
}

// Compares what each lead answers to the vectors that were run with the fault-free answers.
fn compare(
    alloc: Global,
    good: &GoodSim,
    sim: &mut FaultSim,
    faults: &FaultList,
    leads: &[u32],
) -> Result<Compared, AllocError>
    requires leads { AreKnownLeads good.now.circuit faults.now leads.now }
    requires sim { sim.old.circuit ≡ good.now.circuit }
    requires ran { IsSome good.now.ran }
    requires few { length (vectors_of good.now) ≤ LANES }
    ensures sim { sim.new.circuit ≡ sim.old.circuit }
    ensures compared { IfOk result (AreCompared good.now.circuit leads.now (vectors_of good.now) (length leads.now)) }
{
    let positions = good.circuit().positions().len() as u32;
    let mut compared = Compared {
        differing: Vec::with_capacity(alloc, leads.len())?,
        lists: PositionLists::new(alloc, positions)?,
    };
    for (place, lead) in leads.iter().enumerate() {
        sim.inject(good, &faults.get(*lead));
        compared.differing.push(sim.any_difference())?;
        compared.lists.add_place(sim, place as u32)?;
    }
    Ok(compared)
}

fn free_answer(alloc: Global, good: &GoodSim, lane: u32) -> Result<PackedBits, AllocError>
    requires { lane < length (vectors_of good.now) }
    ensures { IfOk result (IsAnswer good.now.circuit Free (slice_index_or (vectors_of good.now) lane [])) }
{
    let positions = good.circuit().positions();
    let mut answer = PackedBits::zeros(alloc, positions.len())?;
    for (position, line) in positions.iter().enumerate() {
        answer.set(position, good.bit(*line, lane));
    }
    Ok(answer)
}
