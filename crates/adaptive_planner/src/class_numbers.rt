//! `ClassNumbers`: the numbers of what the classes answer, kept for a class only if it doesn't answer as class 0 does,
//! and the answers by pattern and number, packed.

ghost use Rattle.std.specs.Prelude.{◌≡◌, ◌<◌, ◌∷◌, ◌++◌, [], length, slice_index_or, IfOk, OnOk};
ghost use Rattle.adaptive_planner.specs.Numbering.{AreClassNumbers, class_number, own_numbers, number_for, numbered_bits};

use packed_bits::PackedBits;
use std::alloc::{AllocError, Global};
use std::marker::Model;

/// The numbers of a class's answers that aren't 0.
#[derive(Drop)]
pub(crate) struct OwnNumbers {
    numbers: Vec<u32>,
}

impl Model for OwnNumbers {
    ghost use Rattle.std.specs.Prelude.{List, ℕ};

    ghost Value = { List ℕ };

    ghost view = { λ own. own.numbers.items };
}

impl OwnNumbers {
    pub(crate) fn new(alloc: Global) -> OwnNumbers
        ensures { result ≡ [] }
    {
        OwnNumbers {
            numbers: Vec::new(alloc),
        }
    }

    pub(crate) fn push(&mut self, number: u32) -> Result<(), AllocError>
        ensures { OnOk result (self.new ≡ self.old ++ number ∷ []) }
    {
        self.numbers.push(number)?;
        Ok(())
    }

    pub(crate) fn as_slice(&self) -> &[u32]
        ensures { result.now ≡ self.now }
    {
        self.numbers.as_slice()
    }
}

/// What each class answers to each pattern. The answer of class 0 has number 0 at each pattern. Each other answer to a
/// pattern has a number of its own, above 0.
pub(crate) struct ClassNumbers {
    // For each pattern the place of class 0's answer among all answers.
    pub(crate) firsts: Vec<u32>,
    // The pattern of each answer, and all answers. The place of an answer is its number, unless it is that of class 0.
    // The first entry is unused.
    pub(crate) patterns: Vec<u32>,
    pub(crate) answers: Vec<PackedBits>,
    // The numbers of each class that aren't 0, at most one for each pattern.
    pub(crate) own: Vec<OwnNumbers>,
}

// Written by hand, as it is then one step in the proof of each function that drops the numbers.
impl Drop for ClassNumbers {
    fn drop(self) {
        let ClassNumbers {
            firsts: _,
            patterns: _,
            answers: _,
            own: _,
        } = self;
    }
}

impl ClassNumbers {
    /// Returns the number of classes.
    pub(crate) fn classes(&self) -> usize
        ensures { result ≡ length self.now.own.items }
    {
        self.own.len()
    }

    /// Returns the numbers of a class that aren't 0.
    pub(crate) fn own(&self, class: u32) -> &[u32]
        requires { class < length self.now.own.items }
        ensures { result.now ≡ own_numbers self.now class }
    {
        self.own[class as usize].as_slice()
    }

    /// Returns the number of what a class answers to a pattern.
    pub(crate) fn number(&self, pattern: u32, class: u32) -> u32
        requires numbers { AreClassNumbers self.now }
        requires class { class < length self.now.own.items }
        ensures value { result ≡ class_number self.now pattern class }
        ensures within { result < length self.now.patterns.items }
    {
        let own = self.own(class);
        for number in own {
            if self.patterns[*number as usize] == pattern {
                return *number;
            }
        }
        0
    }

    /// Returns the answer to `pattern` that has this number.
    pub(crate) fn answer(&self, pattern: u32, number: u32) -> Result<PackedBits, AllocError>
        requires numbers { AreClassNumbers self.now }
        requires pattern { pattern < length self.now.firsts.items }
        requires number { number < length self.now.patterns.items }
        ensures { IfOk result (λ bits. bits ≡ numbered_bits self.now pattern number) }
    {
        let at = if number == 0 {
            self.firsts[pattern as usize]
        } else {
            number
        };
        self.answers[at as usize].copy()
    }
}
