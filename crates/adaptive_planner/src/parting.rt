//! Splits a set of classes by what they answer to a pattern.

ghost use Rattle.std.specs.Prelude.{◌≡◌, ◌+◌, ◌<◌, ◌^◌, ◌∷◌, ◌++◌, [], take, length, All, slice_index, ℕ, IfOk, OnOk, MatchOption};
ghost use Rattle.adaptive_planner.specs.Numbering.{AreClassNumbers, class_number};
ghost use Rattle.adaptive_planner.specs.Parting.{AreBranchesOf, ArePartsTo, ArePlacesNoted, HaveNotNumber, HasNumber, branch_numbers};

use crate::class_numbers::ClassNumbers;
use std::alloc::{AllocError, Global};

/// A branch of an ask that is still to be written: the pattern, the number of the answer, and the classes that give it,
/// ascending.
#[derive(Drop)]
pub(crate) struct Branch {
    pub(crate) pattern: u32,
    pub(crate) number: u32,
    pub(crate) classes: Vec<u32>,
}

/// Returns the branches for what a set of classes answers to a pattern, in the order of their lowest classes. `slots`
/// is working space with a place for each number.
pub(crate) fn part(
    alloc: Global,
    numbers: &ClassNumbers,
    pattern: u32,
    set: &[u32],
    slots: &mut [u32],
) -> Result<Vec<Branch>, AllocError>
    requires numbers { AreClassNumbers numbers.now }
    requires set { All (λ class. class < length numbers.now.own.items) set.now }
    requires few { length set.now < 2 ^ 32 }
    requires room { length slots.old ≡ length numbers.now.patterns.items }
    ensures parts { IfOk result (λ branches. AreBranchesOf numbers.now pattern set.now branches.items) }
    ensures few { IfOk result (λ branches. length branches.items < 2 ^ 32) }
    ensures known { IfOk result (λ branches. (place : ℕ) → place < length branches.items → slice_index (branch_numbers branches.items) place < length numbers.now.patterns.items) }
{
    let mut branches = Vec::new(alloc);
    for at in 0..set.len() {
        put(alloc, numbers, pattern, set, at, &mut branches, slots)?;
    }
    Ok(branches)
}

// Puts the class at place `at` of a set into its branch.
fn put(
    alloc: Global,
    numbers: &ClassNumbers,
    pattern: u32,
    set: &[u32],
    at: usize,
    branches: &mut Vec<Branch>,
    slots: &mut [u32],
) -> Result<(), AllocError>
    requires numbers { AreClassNumbers numbers.now }
    requires set { All (λ class. class < length numbers.now.own.items) set.now }
    requires few { length set.now < 2 ^ 32 }
    requires at { at < length set.now }
    requires parts { ArePartsTo numbers.now pattern (take at set.now) branches.old.items slots.old }
    ensures { OnOk result (ArePartsTo numbers.now pattern (take (at + 1) set.now) branches.new.items slots.new) }
{
    let class = set[at];
    let number = numbers.number(pattern, class);
    match place_of(branches.as_slice(), slots, number) {
        Some(place) => branches[place].classes.push(class)?,
        None => {
            slots[number as usize] = branches.len() as u32;
            branches.push(Branch {
                pattern,
                number,
                classes: vec![in alloc; class]?,
            })?;
        }
    }
    Ok(())
}

// Returns the place of the branch with this number, if there is one.
fn place_of(branches: &[Branch], slots: &[u32], number: u32) -> Option<usize>
    requires noted { ArePlacesNoted slots.now branches.now }
    requires number { number < length slots.now }
    ensures { MatchOption result (HaveNotNumber branches.now number) (HasNumber branches.now number) }
{
    let place = slots[number as usize] as usize;
    if place < branches.len() && branches[place].number == number {
        Some(place)
    } else {
        None
    }
}
