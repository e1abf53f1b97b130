//! Judges whether a line of a plan is right after the lines before it.

ghost use Rattle.std.specs.Prelude.{◌≡◌, true, reverse, MatchResult};
ghost use Rattle.text_fields.specs.Fields.{digit_bits, AreDigitsOf};
ghost use Rattle.adaptive_tree.specs.declared.steps.Step.TheVariants.{Ask, On, Class};
ghost use Rattle.adaptive_tree.specs.PlanText.{step};
ghost use Rattle.adaptive_tree.specs.Refusal.{PlanRestRefused};
ghost use Rattle.adaptive_tree.specs.Forms.{HasDigits, IsFirstForm, form_line};
ghost use Rattle.adaptive_tree.specs.Reading.{IsReadingPlan, IsRightNext, IsRightForm, IsWrongLine, goes_on, innermost_has, lines_so_far};

use crate::fault::PlanKind;
use crate::line::{FirstForm, Form, first_form};
use crate::reader::{OpenAsk, Reader};

impl<'a> Reader<'a> {
    /// Returns the line that `rest` begins with if it is right after the lines before it, else the kind of rule that is
    /// broken.
    pub(crate) fn right_line(&self, rest: &'a [u8]) -> Result<FirstForm<'a>, PlanKind>
        requires reading { IsReadingPlan self.now }
        requires open { goes_on self.now.next ≡ true }
        ensures { MatchResult result (λ line. IsFirstForm rest.now line.form line.rest.now × IsRightForm self.now line.form) (PlanRestRefused (lines_so_far self.now.plan) rest.now) }
    {
        if rest.is_empty() {
            return Err(PlanKind::Order);
        }
        let Some(line) = first_form(rest) else {
            return Err(PlanKind::Syntax);
        };
        match self.judge(line.form) {
            Ok(()) => Ok(line),
            Err(kind) => Err(kind),
        }
    }

    // Checks that a line may come here and that its values are right.
    fn judge(&self, form: Form<'a>) -> Result<(), PlanKind>
        requires reading { IsReadingPlan self.now }
        requires open { goes_on self.now.next ≡ true }
        requires digits { HasDigits form }
        ensures { MatchResult result (λ _. IsRightForm self.now form.entry) (IsWrongLine self.now.plan (form_line form.entry)) }
    {
        match form {
            Form::Ask(pattern, branches) => self.judge_ask(pattern, branches),
            Form::On(digits) => self.judge_branch(digits),
            Form::Class(class) => self.judge_class(class),
            Form::Head(_, _, _) | Form::End => Err(PlanKind::Order),
        }
    }

    fn judge_ask(&self, pattern: u32, branches: u32) -> Result<(), PlanKind>
        requires { IsReadingPlan self.now }
        ensures { MatchResult result (λ _. IsRightNext self.now (Ask pattern branches)) (IsWrongLine self.now.plan (step (Ask pattern branches))) }
    {
        if !self.next.is_node() {
            return Err(PlanKind::Order);
        }
        if pattern >= self.plan.patterns {
            return Err(PlanKind::Value);
        }
        if branches < 2 {
            return Err(PlanKind::Value);
        }
        if self.asked.contains(&pattern) {
            return Err(PlanKind::Value);
        }
        Ok(())
    }

    fn judge_branch(&self, digits: &'a [u8]) -> Result<(), PlanKind>
        requires reading { IsReadingPlan self.now }
        requires digits { AreDigitsOf (digit_bits digits.now) digits.now }
        ensures { MatchResult result (λ _. IsRightNext self.now (On (digit_bits digits.now))) (IsWrongLine self.now.plan (step (On (digit_bits digits.now)))) }
    {
        if !self.next.is_branch() {
            return Err(PlanKind::Order);
        }
        if digits.len() != self.plan.positions as usize {
            return Err(PlanKind::Value);
        }
        if has_begun(&self.open, digits) {
            return Err(PlanKind::Value);
        }
        Ok(())
    }

    fn judge_class(&self, class: u32) -> Result<(), PlanKind>
        requires { IsReadingPlan self.now }
        ensures { MatchResult result (λ _. IsRightNext self.now (Class class)) (IsWrongLine self.now.plan (step (Class class))) }
    {
        if !self.next.is_node() {
            return Err(PlanKind::Order);
        }
        if class >= self.plan.classes {
            return Err(PlanKind::Value);
        }
        Ok(())
    }
}

// Returns whether the innermost ask has a branch for the answer of these digits.
fn has_begun<'a>(asks: &[OpenAsk<'a>], digits: &'a [u8]) -> bool
    ensures { result ≡ innermost_has (reverse asks.now) digits.entry }
{
    match asks.last() {
        None => false,
        Some(ask) => ask.answers.contains(&digits),
    }
}
