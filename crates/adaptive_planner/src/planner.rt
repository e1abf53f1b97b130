//! Builds the plan of all classes, one set of classes after another, in the order of its steps.

ghost use Rattle.std.specs.Prelude.{◌≡◌, ◌+◌, ◌<◌, ◌^◌, [], length, IfOk, OnOk};
ghost use Rattle.std.specs.List.{range_with_len};
ghost use Rattle.net_model.specs.ClassTable.{ClassTable};
ghost use Rattle.dict_rows.specs.AnswerTable.{Answers};
ghost use Rattle.adaptive_planner.specs.Numbering.{AreClassNumbers, AreAllTold, AreNumbersOfTable};
ghost use Rattle.adaptive_planner.specs.Planning.{IsPlanner, IsToldSet, AddsNode, AreNodeSteps, FinishesNode};

use crate::class_numbers::ClassNumbers;
use crate::counting::AnswerCounts;
use crate::parting::{Branch, part};
use adaptive_tree::{Step, Steps};
use std::alloc::{AllocError, Global};

/// The steps so far, and the branches whose steps are still to come, the next one last.
pub(crate) struct Planner {
    pub(crate) counts: AnswerCounts,
    pub(crate) slots: Vec<u32>,
    pub(crate) waiting: Vec<Branch>,
    pub(crate) steps: Steps,
}

// As for `ClassNumbers`.
impl Drop for Planner {
    fn drop(self) {
        let Planner {
            counts: _,
            slots: _,
            waiting: _,
            steps: _,
        } = self;
    }
}

/// Returns the steps of the node for all classes.
pub(crate) fn steps_of(alloc: Global, numbers: &ClassNumbers) -> Result<Steps, AllocError>
    requires numbers { AreClassNumbers numbers.now }
    requires told { AreAllTold numbers.now }
    ensures { IfOk result (λ steps. (t : ClassTable) (table : Answers) → AreNumbersOfTable t table numbers.now → AreNodeSteps t table numbers.now (range_with_len 0 (length numbers.now.own.items)) steps) }
{
    let classes = first_classes(alloc, numbers.classes() as u32)?;
    let mut planner = Planner::new(alloc, numbers)?;
    planner.add_node(alloc, numbers, classes.as_slice())?;
    planner.finish(alloc, numbers)?;
    Ok(planner.into_steps())
}

// Returns the first `count` classes.
fn first_classes(alloc: Global, count: u32) -> Result<Vec<u32>, AllocError>
    ensures { IfOk result (λ classes. classes.items ≡ range_with_len 0 count) }
{
    let mut classes = Vec::with_capacity(alloc, count as usize)?;
    for class in 0..count {
        classes.push(class)?;
    }
    Ok(classes)
}

impl Planner {
    // Returns a planner without steps and without waiting branches.
    fn new(alloc: Global, numbers: &ClassNumbers) -> Result<Planner, AllocError>
        ensures planner { IfOk result (IsPlanner numbers.now) }
        ensures waiting { IfOk result (λ planner. planner.waiting.items ≡ []) }
        ensures steps { IfOk result (λ planner. planner.steps ≡ []) }
    {
        Ok(Planner {
            counts: AnswerCounts::new(alloc, numbers)?,
            slots: vec![in alloc; 0; numbers.patterns.len()]?,
            waiting: Vec::new(alloc),
            steps: Steps::new(alloc),
        })
    }

    // Adds the node of a set: its class if it has only one, else an ask, whose branches then wait.
    fn add_node(
        &mut self,
        alloc: Global,
        numbers: &ClassNumbers,
        set: &[u32],
    ) -> Result<(), AllocError>
        requires numbers { AreClassNumbers numbers.now }
        requires set { IsToldSet numbers.now set.now }
        requires planner { IsPlanner numbers.now self.old }
        ensures { OnOk result (AddsNode numbers.now set.now self.old self.new) }
    {
        if set.len() > 1 {
            return self.add_ask(alloc, numbers, set);
        }
        self.steps.push(Step::Class(set[0]))?;
        Ok(())
    }

    // Adds an ask of the pattern that splits most pairs of a set.
    fn add_ask(
        &mut self,
        alloc: Global,
        numbers: &ClassNumbers,
        set: &[u32],
    ) -> Result<(), AllocError>
        requires numbers { AreClassNumbers numbers.now }
        requires set { IsToldSet numbers.now set.now }
        requires several { 1 < length set.now }
        requires planner { IsPlanner numbers.now self.old }
        ensures { OnOk result (AddsNode numbers.now set.now self.old self.new) }
    {
        let pattern = self.counts.most_parting(numbers, set);
        let slots = self.slots.as_mut_slice();
        let mut branches = part(alloc, numbers, pattern, set, slots)?;
        self.steps.push(Step::Ask(pattern, branches.len() as u32))?;
        branches.as_mut_slice().reverse();
        self.waiting.append(&mut branches)?;
        Ok(())
    }

    // Adds the waiting branches one after another until none waits.
    fn finish(&mut self, alloc: Global, numbers: &ClassNumbers) -> Result<(), AllocError>
        requires numbers { AreClassNumbers numbers.now }
        requires planner { IsPlanner numbers.now self.old }
        ensures { OnOk result (FinishesNode numbers.now self.old self.new) }
    {
        while let Some(branch) = self.waiting.pop() {
            let bits = numbers.answer(branch.pattern, branch.number)?;
            self.steps.push(Step::On(bits))?;
            self.add_node(alloc, numbers, branch.classes.as_slice())?;
        }
        Ok(())
    }

    fn into_steps(self) -> Steps
        ensures { result ≡ self.steps }
    {
        let Planner {
            counts: _,
            slots: _,
            waiting: _,
            steps,
        } = self;
        steps
    }
}
