//! Builds the numbers of what classes answer, pattern by pattern.

ghost use Rattle.std.specs.Prelude.{◌≡◌, ◌+◌, ◌<◌, ◌≤◌, ◌^◌, ◌∷◌, ◌++◌, [], ℕ, Bool, List, length, replicate, All, slice_index, slice_index_or, IfOk, OnOk};
ghost use Rattle.adaptive_planner.specs.Numbering.{AreClassNumbers, AreNumbersTo, AddsPattern, HasPattern, HaveMore};

use crate::class_numbers::{ClassNumbers, OwnNumbers};
use packed_bits::PackedBits;
use std::alloc::{AllocError, Global};

impl ClassNumbers {
    /// Returns the numbers of `classes` classes for no patterns.
    pub(crate) fn new(alloc: Global, classes: usize) -> Result<ClassNumbers, AllocError>
        requires { classes < 2 ^ 32 }
        ensures are { IfOk result AreClassNumbers }
        ensures none { IfOk result (λ numbers. numbers.firsts.items ≡ []) }
        ensures classes { IfOk result (λ numbers. length numbers.own.items ≡ classes) }
    {
        let mut answers = Vec::new(alloc);
        answers.push(PackedBits::zeros(alloc, 0)?)?;
        let mut own = Vec::with_capacity(alloc, classes)?;
        for _ in 0..classes {
            own.push(OwnNumbers::new(alloc))?;
        }
        Ok(ClassNumbers {
            firsts: Vec::new(alloc),
            patterns: vec![in alloc; 0; 1]?,
            answers,
            own,
        })
    }

    /// Adds a pattern. `numbers` has for each class the place among `answers` of what the class answers to it; the
    /// answers are moved out. Returns an error also if 32 bits can't number all answers.
    pub(crate) fn add_pattern(
        &mut self,
        numbers: &[u32],
        answers: &mut Vec<PackedBits>,
    ) -> Result<(), AllocError>
        requires are { AreClassNumbers self.old }
        requires few { length self.old.firsts.items + 1 < 2 ^ 32 }
        requires one_each { length numbers.now ≡ length self.old.own.items }
        requires within { All (λ number. number < length answers.old.items) numbers.now }
        requires some { 0 < length numbers.now }
        ensures { OnOk result (AddsPattern numbers.now answers.old.items self.old self.new) }
    {
        if self.patterns.len() + answers.len() > u32::MAX as usize {
            return Err(AllocError);
        }
        self.push_pattern(numbers, answers)?;
        Ok(())
    }

    // Does the same, given that 32 bits number the answers.
    fn push_pattern(
        &mut self,
        numbers: &[u32],
        answers: &mut Vec<PackedBits>,
    ) -> Result<(), AllocError>
        requires few { length self.old.patterns.items + length answers.old.items < 2 ^ 32 }
        requires few_patterns { length self.old.firsts.items < 2 ^ 32 }
        requires one_each { length numbers.now ≡ length self.old.own.items }
        requires within { All (λ number. number < length answers.old.items) numbers.now }
        ensures { OnOk result (HasPattern numbers.now answers.old.items self.old self.new) }
    {
        let base = self.patterns.len() as u32;
        let pattern = self.firsts.len() as u32;
        self.firsts.push(base)?;
        push_times(&mut self.patterns, pattern, answers.len())?;
        self.answers.append(answers)?;
        add_own(&mut self.own, numbers, base)
    }
}

// Appends `base` plus its number to the own numbers of each class whose number isn't 0.
fn add_own(own: &mut Vec<OwnNumbers>, numbers: &[u32], base: u32) -> Result<(), AllocError>
    requires one_each { length numbers.now ≡ length own.old.items }
    requires few { All (λ number. base + number < 2 ^ 32) numbers.now }
    ensures { OnOk result (HaveMore base (length numbers.now) numbers.now own.old.items own.new.items) }
{
    for class in 0..numbers.len() {
        let number = numbers[class];
        if number > 0 {
            own[class].push(base + number)?;
        }
    }
    Ok(())
}

// Appends `number` `count` times.
fn push_times(numbers: &mut Vec<u32>, number: u32, count: usize) -> Result<(), AllocError>
    ensures { OnOk result (numbers.new.items ≡ numbers.old.items ++ replicate count number) }
{
    for _ in 0..count {
        numbers.push(number)?;
    }
    Ok(())
}
