//! The classes of the patterns that remain, kept from the first to the last, a block at a time.

ghost use Rattle.std.specs.Prelude.{◌≡◌, ◌<◌, ◌≤◌, ◌+◌, ℕ, Bool, List, All, length, slice_range, IfOk, OnOk};
ghost use Rattle.net_model.specs.FaultList.{faults as faults_of, fault_count};
ghost use Rattle.net_model.specs.PatternRows.{AreAnswerRows, IsTableOf};
ghost use Rattle.kept_vectors.specs.Kept.{SplitInTurn};
ghost use Rattle.word_sim.specs.Block.{block_with};
ghost use Rattle.answer_numbers.specs.AnswerNumbers.{numbered_vectors};
ghost use Rattle.compact_tests.specs.Remaining.{Answered, answered_rows};
ghost use Rattle.compact_tests.specs.Mixed.{ListsMixed};
ghost use Rattle.compact_tests.specs.Thinning.{AreAnswersOf, IsNumbered, AreLanesNumbered, IsBlockOf};
ghost use Rattle.compact_tests.specs.Keeping.{vectors_at, IsKeeping, IsKeptTo, AreNeededOf};

use crate::mixed::{mixed_classes, mixed_groups};
use crate::numbered::{WIDTH, number_members};
use crate::sharing::lowest_of;
use answer_numbers::AnswerNumbers;
use class_refine::Classes;
use fault_list::FaultList;
use net_model::{AnswerRows, Circuit, Vector};
use std::alloc::{AllocError, Global};
use word_sim::{Block, LANES};

/// Returns the classes of the patterns at these places. Each of them must split a class of those before it. `classes`
/// are those of all patterns, and `faults` is the list of the circuit's faults.
pub(crate) fn classes_at(
    alloc: Global,
    circuit: &Circuit,
    faults: &FaultList,
    classes: &Classes,
    patterns: &[Vector],
    places: &[usize],
) -> Result<Classes, AllocError>
    requires faults { faults.now ≡ faults_of circuit.now }
    requires answered { AreAnswersOf circuit.now patterns.now classes.now }
    requires places { All (λ place. place < length patterns.now) places.now }
    requires split { SplitInTurn circuit.now (vectors_at patterns.now places.now) }
    ensures { IfOk result (IsTableOf circuit.now (vectors_at patterns.now places.now)) }
{
    let mut keeping = Keeping::new(alloc, classes, faults.len())?;
    let mut block = Block::new(alloc, circuit.sources())?;
    let mut first = 0;
    while first < places.len() {
        let end = first + (places.len() - first).min(LANES as usize);
        fill_from(&mut block, patterns, places, first, end);
        keeping.keep_block(alloc, circuit, faults, &block)?;
        first = end;
    }
    Ok(keeping.into_kept())
}

// Fills the block with the patterns at the places in the range from `first` up to `end`.
fn fill_from(block: &mut Block, patterns: &[Vector], places: &[usize], first: usize, end: usize)
    requires widths { All (λ v. length v ≡ block.old.sources) patterns.now }
    requires places { All (λ place. place < length patterns.now) places.now }
    requires first { first ≤ end }
    requires few { end ≤ first + LANES }
    requires end { end ≤ length places.now }
    ensures { block.new ≡ block_with block.old.sources (slice_range (vectors_at patterns.now places.now) first end) }
{
    block.clear();
    for at in first..end {
        block.push(&patterns[places[at]]);
    }
}

/// The classes of the patterns that are kept so far.
pub(crate) struct Keeping<'a> {
    // The classes of all patterns.
    pub(crate) classes: &'a Classes,
    pub(crate) kept: Classes,
    // For each number the number of its answer to the pattern kept last. A row stays as it is if the class of its
    // number is already distinguished from all others.
    pub(crate) rows: AnswerRows,
}

// Written by hand so that a drop of a `Keeping` is one step in the proof of each function that drops one.
impl Drop for Keeping<'_> {
    fn drop(self) {
        let Keeping {
            classes: _,
            kept: _,
            rows: _,
        } = self;
    }
}

impl<'a> Keeping<'a> {
    // Returns the classes before the first pattern, for the given number of numbers.
    fn new(alloc: Global, classes: &'a Classes, numbers: u32) -> Result<Keeping<'a>, AllocError>
        requires some { 0 < numbers }
        requires numbers { numbers ≡ length classes.now.class_of }
        ensures keeping { IfOk result (IsKeeping classes.now) }
        ensures begun { IfOk result (λ keeping. (kept : List Answered) → IsKeptTo classes.now kept 0 keeping) }
    {
        let kept = Classes::new(alloc, numbers)?;
        let rows = AnswerRows::zeros(alloc, numbers as usize, WIDTH)?;
        Ok(Keeping {
            classes,
            kept,
            rows,
        })
    }

    // Keeps the patterns of a block. Only classes that aren't distinguished from all others are simulated.
    fn keep_block(
        &mut self,
        alloc: Global,
        circuit: &Circuit,
        faults: &FaultList,
        block: &Block,
    ) -> Result<(), AllocError>
        requires faults { faults.now ≡ faults_of circuit.now }
        requires sources { block.now.sources ≡ circuit.now.sources }
        requires numbers { length self.old.classes.now.class_of ≡ fault_count circuit.now }
        requires keeping { IsKeeping self.old.classes.now self.old }
        ensures classes { self.new.classes ≡ self.old.classes }
        ensures keeping { OnOk result (IsKeeping self.new.classes.now self.new) }
        ensures kept { OnOk result ((patterns : List (List Bool)) (kept : List Answered) (first : ℕ) → AreAnswerRows circuit.now patterns (answered_rows kept) → AreNeededOf self.old.classes.now kept → IsBlockOf patterns first block.now.vectors → IsKeptTo self.old.classes.now kept first self.old → IsKeptTo self.old.classes.now kept (first + length block.now.vectors) self.new) }
    {
        let listed = mixed_classes(alloc, self.classes, &self.kept)?;
        let leads = lowest_of(alloc, self.classes, listed.as_slice())?;
        let mut numbers = AnswerNumbers::new(alloc, circuit, faults, leads.as_slice())?;
        numbers.number_block(alloc, block)?;
        self.keep_lanes(alloc, &numbers, listed.as_slice(), block.live())?;
        Ok(())
    }

    // Keeps the patterns of the first `count` lanes of a block. `listed` are the classes of the leads.
    fn keep_lanes(
        &mut self,
        alloc: Global,
        numbers: &AnswerNumbers,
        listed: &[u32],
        count: u32,
    ) -> Result<(), AllocError>
        requires keeping { IsKeeping self.old.classes.now self.old }
        requires count { count ≡ length (numbered_vectors numbers.now) }
        requires leads { length listed.now ≡ length numbers.now.leads }
        requires listed { ListsMixed self.old.classes.now self.old.kept listed.now }
        ensures classes { self.new.classes ≡ self.old.classes }
        ensures keeping { OnOk result (IsKeeping self.new.classes.now self.new) }
        ensures kept { OnOk result ((kept : List Answered) (first : ℕ) → AreNeededOf self.old.classes.now kept → AreLanesNumbered numbers.now listed.now self.old.classes.now kept first count → IsKeptTo self.old.classes.now kept first self.old → IsKeptTo self.old.classes.now kept (first + count) self.new) }
    {
        for lane in 0..count {
            self.keep(alloc, numbers, listed, lane)?;
        }
        Ok(())
    }

    // Keeps the pattern whose vector is in the lane.
    fn keep(
        &mut self,
        alloc: Global,
        numbers: &AnswerNumbers,
        listed: &[u32],
        lane: u32,
    ) -> Result<(), AllocError>
        requires keeping { IsKeeping self.old.classes.now self.old }
        requires lane { lane < length (numbered_vectors numbers.now) }
        requires leads { length listed.now ≡ length numbers.now.leads }
        requires listed { ListsMixed self.old.classes.now self.old.kept listed.now }
        ensures classes { self.new.classes ≡ self.old.classes }
        ensures keeping { OnOk result (IsKeeping self.new.classes.now self.new) }
        ensures listed { OnOk result (ListsMixed self.new.classes.now self.new.kept listed.now) }
        ensures kept { OnOk result ((kept : List Answered) (pattern : ℕ) → AreNeededOf self.old.classes.now kept → IsNumbered numbers.now lane listed.now self.old.classes.now kept pattern → IsKeptTo self.old.classes.now kept pattern self.old → IsKeptTo self.old.classes.now kept (pattern + 1) self.new) }
    {
        number_members(&mut self.rows, self.classes, numbers, listed, lane);
        let mixed = mixed_groups(alloc, self.classes, &self.kept)?;
        self.kept.refine_in(mixed.as_slice(), &self.rows)?;
        Ok(())
    }

    fn into_kept(self) -> Classes
        ensures { result ≡ self.entry.kept }
    {
        let Keeping {
            classes: _,
            kept,
            rows: _,
        } = self;
        kept
    }
}
