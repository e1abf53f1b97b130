//! Marked numbers, with a list of them.

ghost use Rattle.std.specs.Prelude.{◌≡◌, ◌<◌, ◌^◌, ◌++◌, ◌∷◌, ℕ, [], true, false, All, Contains, IfOk, filter, length, slice_set, vec_capacity};
ghost use Rattle.std.specs.List.{range_with_len};
ghost use Rattle.net_model.specs.Answer.{bit_at};
ghost use Rattle.event_queue.specs.Pending.{is_pending, IsEmpty};
ghost use Rattle.pair_scope.specs.Listed.{IsBlank, IsListed, AreListed};

use event_queue::NumberQueue;
use std::alloc::{AllocError, Global};

/// A mark for each number below a count, and a list of those that are marked.
#[derive(Debug, Drop)]
pub(crate) struct Listed {
    pub(crate) marks: Vec<bool>,
    pub(crate) numbers: Vec<u32>,
}

impl Listed {
    /// Returns marks for the numbers below `count`, none of them marked. No later call allocates memory.
    pub(crate) fn none(alloc: Global, count: usize) -> Result<Listed, AllocError>
        ensures { IfOk result (IsBlank count) }
    {
        Ok(Listed {
            marks: vec![in alloc; false; count]?,
            numbers: Vec::with_capacity(alloc, count)?,
        })
    }

    /// Marks `number`, which isn't marked yet, and appends it to the list.
    pub(crate) fn push(&mut self, number: u32)
        requires inside { number < length self.old.marks.items }
        requires room { length self.old.numbers.items < vec_capacity self.old.numbers }
        ensures marks { self.new.marks.items ≡ slice_set self.old.marks.items number true }
        ensures numbers { self.new.numbers.items ≡ self.old.numbers.items ++ number ∷ [] }
        ensures room { vec_capacity self.new.numbers ≡ vec_capacity self.old.numbers }
    {
        self.marks[number as usize] = true;
        self.numbers.push_reserved(number);
    }

    /// Removes all marks. It touches only numbers that are marked.
    pub(crate) fn clear(&mut self)
        requires { AreListed self.old }
        ensures { (count : ℕ) → count ≡ length self.old.marks.items → IsBlank count self.new }
    {
        while let Some(number) = self.numbers.pop() {
            self.marks[number as usize] = false;
        }
    }

    /// Moves the numbers that wait in `queue` into these marks, which are blank before. They are listed ascending.
    pub(crate) fn drain(&mut self, queue: &mut NumberQueue)
        requires blank { IsBlank (length queue.old) self.old }
        requires few { length queue.old < 2 ^ 32 }
        ensures listed { IsListed (length queue.old) (is_pending queue.old) (filter (is_pending queue.old) (range_with_len 0 (length queue.old))) self.new }
        ensures room { length queue.new ≡ length queue.old }
        ensures none { IsEmpty queue.new }
    {
        let mut from = 0;
        while let Some(number) = queue.take_lowest(from) {
            self.push(number);
            from = number + 1;
        }
    }
}
