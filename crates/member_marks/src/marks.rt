//! `Marks`: the mark of a number, and the lowest number without one.

ghost use Rattle.std.specs.Prelude.{◌≡◌, ◌<◌, ◌^◌, ℕ, List, Option, length, replicate, slice_set, None, Some, IfOk, IsSome, MatchOption};
ghost use Rattle.result_records.specs.Marks.{mark_of as mark_by};
ghost use Rattle.member_marks.specs.declared.marks.Given as declared;
ghost use Rattle.member_marks.specs.Given.{given_mark, AreAllMarked, IsLowestOpen};

use class_refine::Classes;
use result_records::{Mark, Proof};
use std::alloc::{AllocError, Global};
use std::marker::Model;

/// The mark that the last evidence about a number gives it, with the representative that the evidence names.
#[derive(Clone, Copy, Debug)]
pub struct Given {
    pub partner: u32,
    pub mark: Mark,
}

/// What was given to each number so far. A mark counts only while the number has the representative with which it was
/// given.
#[derive(Debug, Drop)]
pub struct Marks {
    given: Vec<Option<Given>>,
}

impl Model for Marks {
    ghost Value = { List (Option declared.Given) };

    ghost view = { λ marks. marks.given.items };

    ghost invariant = { λ marks. length marks.given.items < 2 ^ 32 };
}

impl Marks {
    /// Returns marks for the numbers below `numbers`, none of them given.
    pub fn none(alloc: Global, numbers: u32) -> Result<Marks, AllocError>
        ensures { IfOk result (λ marks. marks ≡ replicate numbers None) }
    {
        let given = vec![in alloc; None; numbers as usize]?;
        Ok(Marks { given })
    }

    /// Gives the mark `mark` to `number` with the representative `partner`.
    pub fn give(&mut self, number: u32, partner: u32, mark: Mark)
        requires { number < length self.old }
        ensures { self.new ≡ slice_set self.old number (Some (record { partner = partner; mark = mark })) }
    {
        self.given[number as usize] = Some(Given { partner, mark });
    }

    /// Returns the mark of `number`: a representative has its own, and another number has the one that was given to it
    /// with its present representative. Returns none exactly if the number isn't a representative and has no mark with
    /// its present one.
    pub fn of(&self, classes: &Classes, number: u32) -> Option<Mark>
        requires number { number < length classes.now.class_of }
        requires whole { length self.now ≡ length classes.now.class_of }
        ensures { result ≡ given_mark classes.now self.now number }
    {
        let lead = classes.representative(classes.class_of(number));
        if lead == number {
            return Some(Mark::Rep);
        }
        match self.given[number as usize] {
            Some(given) if given.partner == lead => Some(given.mark),
            _ => None,
        }
    }

    /// Returns the lowest number that is neither a representative nor marked, and none exactly if each number is a
    /// representative or marked. Each number below `from` is one or the other, so it looks only at those starting
    /// there.
    pub fn next_open(&self, classes: &Classes, from: u32) -> Option<u32>
        requires whole { length self.now ≡ length classes.now.class_of }
        requires below { (n : ℕ) → n < from → IsSome (given_mark classes.now self.now n) }
        ensures { MatchOption result (AreAllMarked classes.now self.now) (IsLowestOpen classes.now self.now) }
    {
        for number in from..self.given.len() as u32 {
            if self.of(classes, number).is_none() {
                return Some(number);
            }
        }
        None
    }
}

/// Returns the mark that `proof` gives.
pub fn mark_of(proof: &Proof) -> Mark
    ensures { result ≡ mark_by proof.now }
{
    match proof {
        Proof::Collapse | Proof::Covered(_) | Proof::Refuted(_, _) => Mark::Equal,
        Proof::Spent(_, _) => Mark::Spent,
    }
}
