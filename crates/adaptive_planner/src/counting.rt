//! `AnswerCounts`: finds the pattern that splits most pairs of a set of classes, by counts of the answers that aren't
//! those of class 0.

ghost use Rattle.std.specs.Prelude.{◌≡◌, ◌+◌, ◌<◌, ◌^◌, ℕ, List, [], take, length, All, slice_index, IfOk};
ghost use Rattle.adaptive_planner.specs.Numbering.{AreClassNumbers};
ghost use Rattle.adaptive_planner.specs.Counting.{AreCountsOf, IsMostParting, pairs_parted};

use crate::class_numbers::ClassNumbers;
use std::alloc::{AllocError, Global};

/// For each number how many classes of a set have it (`often`); for each pattern how many of them don't answer as class
/// 0 does (`others`), and how many pairs of these answer differently (`apart`). Between sets all counts are 0.
#[derive(Drop)]
pub(crate) struct AnswerCounts {
    pub(crate) often: Vec<u32>,
    pub(crate) others: Vec<u32>,
    pub(crate) apart: Vec<u64>,
}

impl AnswerCounts {
    pub(crate) fn new(alloc: Global, numbers: &ClassNumbers) -> Result<AnswerCounts, AllocError>
        ensures { IfOk result (AreCountsOf numbers.now []) }
    {
        let patterns = numbers.firsts.len();
        Ok(AnswerCounts {
            often: vec![in alloc; 0; numbers.patterns.len()]?,
            others: vec![in alloc; 0; patterns]?,
            apart: vec![in alloc; 0; patterns]?,
        })
    }

    /// Returns the pattern that splits most pairs of a set of classes, the lowest on a tie.
    pub(crate) fn most_parting(&mut self, numbers: &ClassNumbers, set: &[u32]) -> u32
        requires numbers { AreClassNumbers numbers.now }
        requires set { All (λ class. class < length numbers.now.own.items) set.now }
        requires few { length set.now < 2 ^ 32 }
        requires some { 0 < length numbers.now.firsts.items }
        requires none { AreCountsOf numbers.now [] self.old }
        ensures most { IsMostParting numbers.now set.now result }
        ensures none { AreCountsOf numbers.now [] self.new }
    {
        for at in 0..set.len() {
            self.add(numbers, set, at);
        }
        let best = self.best(numbers, set);
        let mut end = set.len();
        while end > 0 {
            end -= 1;
            self.remove(numbers, set, end);
        }
        best
    }

    // Counts what the class at place `at` of a set answers. The classes before it are already counted.
    fn add(&mut self, numbers: &ClassNumbers, set: &[u32], at: usize)
        requires numbers { AreClassNumbers numbers.now }
        requires set { All (λ class. class < length numbers.now.own.items) set.now }
        requires few { length set.now < 2 ^ 32 }
        requires at { at < length set.now }
        requires counted { AreCountsOf numbers.now (take at set.now) self.old }
        ensures { AreCountsOf numbers.now (take (at + 1) set.now) self.new }
    {
        let own = numbers.own(set[at]);
        for number in own {
            let number = *number as usize;
            let pattern = numbers.patterns[number] as usize;
            let often = self.often[number];
            let others = self.others[pattern];
            self.apart[pattern] += u64::from(others - often);
            self.others[pattern] = others + 1;
            self.often[number] = often + 1;
        }
    }

    // Uncounts what the class at place `at` of a set answers. The classes after it aren't counted.
    fn remove(&mut self, numbers: &ClassNumbers, set: &[u32], at: usize)
        requires numbers { AreClassNumbers numbers.now }
        requires set { All (λ class. class < length numbers.now.own.items) set.now }
        requires few { length set.now < 2 ^ 32 }
        requires at { at < length set.now }
        requires counted { AreCountsOf numbers.now (take (at + 1) set.now) self.old }
        ensures { AreCountsOf numbers.now (take at set.now) self.new }
    {
        let own = numbers.own(set[at]);
        let mut end = own.len();
        while end > 0 {
            end -= 1;
            let number = own[end] as usize;
            let pattern = numbers.patterns[number] as usize;
            let often = self.often[number];
            let others = self.others[pattern];
            self.apart[pattern] -= u64::from(others - often);
            self.others[pattern] = others - 1;
            self.often[number] = often - 1;
        }
    }

    // Returns the pattern that splits most pairs of the counted set, the lowest on a tie.
    fn best(&self, numbers: &ClassNumbers, set: &[u32]) -> u32
        requires numbers { AreClassNumbers numbers.now }
        requires few { length set.now < 2 ^ 32 }
        requires some { 0 < length numbers.now.firsts.items }
        requires counted { AreCountsOf numbers.now set.now self.now }
        ensures { IsMostParting numbers.now set.now result }
    {
        let mut best = 0;
        let mut most = 0;
        for pattern in 0..numbers.firsts.len() as u32 {
            let pairs = self.parted(numbers, set, pattern);
            if pairs > most {
                best = pattern;
                most = pairs;
            }
        }
        best
    }

    // Returns how many pairs of the counted set a pattern splits: those in which exactly one class answers as class 0
    // does, and those in which neither does and the answers differ.
    fn parted(&self, numbers: &ClassNumbers, set: &[u32], pattern: u32) -> u64
        requires few { length set.now < 2 ^ 32 }
        requires pattern { pattern < length numbers.now.firsts.items }
        requires counted { AreCountsOf numbers.now set.now self.now }
        ensures { result ≡ pairs_parted numbers.now set.now pattern }
    {
        let others = u64::from(self.others[pattern as usize]);
        others * (set.len() as u64 - others) + self.apart[pattern as usize]
    }
}
