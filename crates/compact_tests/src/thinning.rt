//! Which patterns the classes need: static compaction from the last pattern to the first, a block at a time.

ghost use Rattle.std.specs.Prelude.{◌≡◌, ◌+◌, ◌<◌, ◌^◌, ℕ, Bool, List, All, length, IfOk, OnOk};
ghost use Rattle.net_model.specs.FaultList.{faults as faults_of, fault_count};
ghost use Rattle.answer_numbers.specs.AnswerNumbers.{numbered_vectors};
ghost use Rattle.compact_tests.specs.Remaining.{Answered, remaining};
ghost use Rattle.compact_tests.specs.Sharing.{ListsSharing};
ghost use Rattle.compact_tests.specs.Thinning.{IsAnswered, AreAnswersOf, IsThinning, IsThinnedTo, IsTableOfAll, IsNumbered, AreLanesNumbered, IsBlockOf, AreRemainingPlaces, patterns_at};

use crate::earlier::{share_earlier, step_back};
use crate::numbered::part;
use crate::sharing::{lowest_of, shared_groups, sharing_numbers};
use answer_numbers::AnswerNumbers;
use class_refine::Classes;
use fault_list::FaultList;
use net_model::Circuit;
use result_file::Checked;
use std::alloc::{AllocError, Global};
use table_dicts::fill_block;
use word_sim::{Block, LANES};

/// Returns the places of the patterns that remain, ascending. `faults` is the list of the circuit's faults.
pub(crate) fn needed_patterns(
    alloc: Global,
    circuit: &Circuit,
    faults: &FaultList,
    checked: &Checked,
) -> Result<Vec<usize>, AllocError>
    requires faults { faults.now ≡ faults_of circuit.now }
    requires answered { AreAnswersOf circuit.now checked.now.patterns checked.now.classes }
    ensures { IfOk result (λ needed. AreRemainingPlaces circuit.now checked.now.patterns checked.now.classes needed.items) }
{
    let mut thinning = Thinning::new(alloc, &checked.classes)?;
    thinning.pass_all(alloc, circuit, faults, checked)?;
    Ok(thinning.into_needed())
}

/// The patterns found needed, on the way from the last pattern to the first.
pub(crate) struct Thinning<'a> {
    // The classes of all patterns.
    pub(crate) classes: &'a Classes,
    // For each class the class that it was before the pattern.
    pub(crate) earlier: Vec<u32>,
    // Groups of classes: the needed patterns don't distinguish the classes of one group.
    pub(crate) groups: Classes,
    // The groups of two classes or more, ascending. A class that is alone in its group isn't looked at again.
    pub(crate) shared: Vec<u32>,
    // Room for looking for a repeated class in a group. No mark is set.
    pub(crate) marks: Vec<bool>,
    // The needed patterns, the last one first.
    pub(crate) needed: Vec<usize>,
}

// As for `Keeping`. A derived one takes a step for each vector in it.
impl Drop for Thinning<'_> {
    fn drop(self) {
        let Thinning {
            classes: _,
            earlier: _,
            groups: _,
            shared: _,
            marks: _,
            needed: _,
        } = self;
    }
}

impl<'a> Thinning<'a> {
    // Returns the state after the last pattern, before any is looked at.
    fn new(alloc: Global, classes: &'a Classes) -> Result<Thinning<'a>, AllocError>
        ensures thinning { IfOk result (IsThinning classes.now) }
        ensures begun { IfOk result (λ thinning. (numbers : ℕ) (all : List Answered) → IsTableOfAll numbers classes.now all → IsThinnedTo numbers classes.now all (length all) thinning) }
    {
        let count = classes.count();
        let mut earlier = Vec::with_capacity(alloc, count as usize)?;
        for class in 0..count {
            earlier.push(class)?;
        }
        let groups = Classes::new(alloc, count)?;
        let shared = shared_groups(alloc, &groups)?;
        Ok(Thinning {
            classes,
            earlier,
            groups,
            shared,
            marks: vec![in alloc; false; count as usize]?,
            needed: Vec::new(alloc),
        })
    }

    // Looks at all patterns, from the last to the first.
    fn pass_all(
        &mut self,
        alloc: Global,
        circuit: &Circuit,
        faults: &FaultList,
        checked: &Checked,
    ) -> Result<(), AllocError>
        requires faults { faults.now ≡ faults_of circuit.now }
        requires answered { AreAnswersOf circuit.now checked.now.patterns checked.now.classes }
        requires numbers { length checked.now.classes.class_of ≡ fault_count circuit.now }
        requires thinning { IsThinning checked.now.classes self.old }
        requires begun { (numbers : ℕ) (all : List Answered) → IsTableOfAll numbers checked.now.classes all → IsThinnedTo numbers checked.now.classes all (length all) self.old }
        ensures classes { self.new.classes ≡ self.old.classes }
        ensures thinned { OnOk result ((all : List Answered) → IsAnswered circuit.now checked.now.patterns checked.now.classes all → IsThinnedTo (fault_count circuit.now) checked.now.classes all 0 self.new) }
    {
        let vectors = checked.patterns.as_slice();
        let mut block = Block::new(alloc, circuit.sources())?;
        let mut end = vectors.len();
        while end > 0 {
            let first = end.saturating_sub(LANES as usize);
            fill_block(&mut block, vectors, first, end);
            self.pass_block(alloc, circuit, faults, &block, first)?;
            end = first;
        }
        Ok(())
    }

    // Looks at the patterns of a block, whose first pattern is `first`, from the last to the first. Only classes that
    // aren't distinguished from all others are simulated.
    fn pass_block(
        &mut self,
        alloc: Global,
        circuit: &Circuit,
        faults: &FaultList,
        block: &Block,
        first: usize,
    ) -> Result<(), AllocError>
        requires faults { faults.now ≡ faults_of circuit.now }
        requires sources { block.now.sources ≡ circuit.now.sources }
        requires numbers { length self.old.classes.now.class_of ≡ fault_count circuit.now }
        requires thinning { IsThinning self.old.classes.now self.old }
        requires within { first + length block.now.vectors < 2 ^ 64 }
        ensures classes { self.new.classes ≡ self.old.classes }
        ensures thinning { OnOk result (IsThinning self.new.classes.now self.new) }
        ensures passed { OnOk result ((patterns : List (List Bool)) (all : List Answered) → IsAnswered circuit.now patterns self.old.classes.now all → IsBlockOf patterns first block.now.vectors → IsThinnedTo (fault_count circuit.now) self.old.classes.now all (first + length block.now.vectors) self.old → IsThinnedTo (fault_count circuit.now) self.old.classes.now all first self.new) }
    {
        let listed = sharing_numbers(alloc, &self.groups, self.classes.count())?;
        let leads = lowest_of(alloc, self.classes, listed.as_slice())?;
        let mut numbers = AnswerNumbers::new(alloc, circuit, faults, leads.as_slice())?;
        numbers.number_block(alloc, block)?;
        self.pass_lanes(alloc, &numbers, listed.as_slice(), first, block.live())?;
        Ok(())
    }

    // Looks at the patterns of the first `count` lanes of a block, from the last to the first. Lane 0 has the vector of
    // the pattern `first`. `listed` are the classes of the leads.
    fn pass_lanes(
        &mut self,
        alloc: Global,
        numbers: &AnswerNumbers,
        listed: &[u32],
        first: usize,
        count: u32,
    ) -> Result<(), AllocError>
        requires thinning { IsThinning self.old.classes.now self.old }
        requires count { count ≡ length (numbered_vectors numbers.now) }
        requires leads { length listed.now ≡ length numbers.now.leads }
        requires listed { ListsSharing self.old.groups listed.now }
        requires within { first + count < 2 ^ 64 }
        ensures classes { self.new.classes ≡ self.old.classes }
        ensures thinning { OnOk result (IsThinning self.new.classes.now self.new) }
        ensures passed { OnOk result ((n : ℕ) (all : List Answered) → IsTableOfAll n self.old.classes.now all → AreLanesNumbered numbers.now listed.now self.old.classes.now all first count → IsThinnedTo n self.old.classes.now all (first + count) self.old → IsThinnedTo n self.old.classes.now all first self.new) }
    {
        let mut lane = count;
        while lane > 0 {
            lane -= 1;
            self.pass(alloc, numbers, listed, first + lane as usize, lane)?;
        }
        Ok(())
    }

    // Looks at a pattern, whose vector is in the lane, and notes it if it is needed.
    fn pass(
        &mut self,
        alloc: Global,
        numbers: &AnswerNumbers,
        listed: &[u32],
        pattern: usize,
        lane: u32,
    ) -> Result<(), AllocError>
        requires thinning { IsThinning self.old.classes.now self.old }
        requires lane { lane < length (numbered_vectors numbers.now) }
        requires leads { length listed.now ≡ length numbers.now.leads }
        requires listed { ListsSharing self.old.groups listed.now }
        ensures classes { self.new.classes ≡ self.old.classes }
        ensures thinning { OnOk result (IsThinning self.new.classes.now self.new) }
        ensures listed { OnOk result (ListsSharing self.new.groups listed.now) }
        ensures passed { OnOk result ((n : ℕ) (all : List Answered) → IsTableOfAll n self.old.classes.now all → IsNumbered numbers.now lane listed.now self.old.classes.now all pattern → IsThinnedTo n self.old.classes.now all (pattern + 1) self.old → IsThinnedTo n self.old.classes.now all pattern self.new) }
    {
        step_back(self.earlier.as_mut_slice(), self.classes, pattern);
        let needed = share_earlier(
            &self.groups,
            self.shared.as_slice(),
            self.earlier.as_slice(),
            self.marks.as_mut_slice(),
        );
        if needed {
            let count = self.earlier.len();
            let shared = self.shared.as_slice();
            part(
                alloc,
                &mut self.groups,
                shared,
                numbers,
                listed,
                count,
                lane,
            )?;
            self.shared = shared_groups(alloc, &self.groups)?;
            self.needed.push(pattern)?;
        }
        Ok(())
    }

    // Returns the needed patterns, ascending.
    fn into_needed(self) -> Vec<usize>
        ensures places { (all : List Answered) → All (λ place. place < length all) self.entry.needed.items → All (λ place. place < length all) result.items }
        ensures needed { (n : ℕ) (all : List Answered) → IsThinnedTo n self.entry.classes.now all 0 self.entry → patterns_at all result.items ≡ remaining n all }
    {
        let Thinning {
            classes: _,
            earlier: _,
            groups: _,
            shared: _,
            marks: _,
            mut needed,
        } = self;
        needed.as_mut_slice().reverse();
        needed
    }
}
