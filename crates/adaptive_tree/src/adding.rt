//! Adds the step of a line to a plan while the plan is read.

ghost use Rattle.std.specs.Prelude.{◌∷◌, ◌++◌, List, [], reverse, OnOk, MatchOption};
ghost use Rattle.text_fields.specs.Fields.{digit_bits, AreDigitsOf};
ghost use Rattle.adaptive_tree.specs.declared.steps.Step as spec;
ghost use Rattle.adaptive_tree.specs.declared.steps.Step.TheVariants.{Ask, On, Class};
ghost use Rattle.adaptive_tree.specs.PlanText.{step};
ghost use Rattle.adaptive_tree.specs.Forms.{HasDigits, form_line};
ghost use Rattle.adaptive_tree.specs.Reading.{IsReadingPlan, HaveCome, HasNodeEnded, IsRightNext, IsRightForm, IsLineAdded, IsInnermostWhole, IsInnermostOpen, HasBranchLeft, IsInnermostBegun};

use crate::digits::bits_of;
use crate::line::Form;
use crate::reader::{Next, OpenAsk, Reader};
use crate::steps::Step;
use std::alloc::{AllocError, Global};
use std::collections::BTreeSet;

impl<'a> Reader<'a> {
    /// Adds the step of a line.
    pub(crate) fn add(&mut self, alloc: Global, form: Form<'a>) -> Result<(), AllocError>
        requires reading { IsReadingPlan self.old }
        requires right { IsRightForm self.old form }
        requires digits { HasDigits form }
        ensures { OnOk result (IsLineAdded self.old self.new (form_line form.entry)) }
    {
        match form {
            Form::Ask(pattern, branches) => self.add_ask(alloc, pattern, branches),
            Form::On(digits) => self.add_branch(alloc, digits),
            Form::Class(class) => self.add_class(class),
            Form::Head(_, _, _) | Form::End => Ok(()),
        }
    }

    fn add_ask(&mut self, alloc: Global, pattern: u32, branches: u32) -> Result<(), AllocError>
        requires reading { IsReadingPlan self.old }
        requires right { IsRightNext self.old (Ask pattern branches) }
        ensures { OnOk result (IsLineAdded self.old self.new (step (Ask pattern branches))) }
    {
        let ask = OpenAsk {
            pattern,
            left: branches,
            answers: BTreeSet::new(alloc),
        };
        self.plan.steps.push(Step::Ask(pattern, branches))?;
        self.asked.insert(pattern)?;
        self.open.push(ask)?;
        self.next = Next::Branch;
        Ok(())
    }

    fn add_branch(&mut self, alloc: Global, digits: &'a [u8]) -> Result<(), AllocError>
        requires reading { IsReadingPlan self.old }
        requires digits { AreDigitsOf (digit_bits digits.now) digits.now }
        requires right { IsRightNext self.old (On (digit_bits digits.now)) }
        ensures { OnOk result (IsLineAdded self.old self.new (step (On (digit_bits digits.now)))) }
    {
        let answer = bits_of(alloc, digits)?;
        self.plan.steps.push(Step::On(answer))?;
        begin_branch(&mut self.open, digits)?;
        self.next = Next::Node;
        Ok(())
    }

    fn add_class(&mut self, class: u32) -> Result<(), AllocError>
        requires reading { IsReadingPlan self.old }
        requires right { IsRightNext self.old (Class class) }
        ensures { OnOk result (IsLineAdded self.old self.new (step (Class class))) }
    {
        self.plan.steps.push(Step::Class(class))?;
        self.next = end_node(&mut self.open, &mut self.asked);
        Ok(())
    }
}

// Notes that one more branch of the innermost ask has begun, for the answer of these digits.
fn begin_branch<'a>(asks: &mut Vec<OpenAsk<'a>>, digits: &'a [u8]) -> Result<(), AllocError>
    requires { HasBranchLeft (reverse asks.old.items) }
    ensures { OnOk result (IsInnermostBegun (reverse asks.old.items) (reverse asks.new.items) digits.entry) }
{
    let Some(mut ask) = asks.pop() else {
        return Ok(());
    };
    ask.begin(digits)?;
    asks.push(ask)?;
    Ok(())
}

// Closes the asks whose nodes are whole after a node below the innermost ask has ended, and returns what may come next.
fn end_node(asks: &mut Vec<OpenAsk<'_>>, asked: &mut BTreeSet<u32>) -> Next
    ensures { (steps : List spec.Step) → HasNodeEnded steps (reverse asks.old.items) asked.old → HaveCome steps result (reverse asks.new.items) asked.new }
{
    while let Some(pattern) = innermost_whole(asks) {
        asks.pop();
        asked.remove(&pattern);
    }
    if asks.is_empty() {
        Next::Nothing
    } else {
        Next::Branch
    }
}

// Returns the pattern of the innermost ask if all its branches have begun.
fn innermost_whole(asks: &[OpenAsk<'_>]) -> Option<u32>
    ensures { MatchOption result (IsInnermostOpen (reverse asks.now)) (IsInnermostWhole (reverse asks.now)) }
{
    let ask = asks.last()?;
    if ask.left == 0 {
        return Some(ask.pattern);
    }
    None
}
