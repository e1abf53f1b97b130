//! Groups of numbers.

ghost use Rattle.std.specs.Prelude.{◌≡◌, ◌++◌, ℕ, List, [], ◌∷◌, filter, IfOk, OnOk};
ghost use Rattle.std.specs.List.{range_with_len};
ghost use Rattle.class_refine.specs.Steps.{is_in};

use std::alloc::{AllocError, Global};
use std::marker::Model;

/// Some of the numbers, ascending.
#[derive(Debug, Drop)]
pub(crate) struct Group {
    numbers: Vec<u32>,
}

impl Model for Group {
    ghost Value = { List ℕ };

    ghost view = { λ group. group.numbers.items };
}

impl Group {
    /// Returns the numbers below `limit`.
    pub(crate) fn below(alloc: Global, limit: u32) -> Result<Group, AllocError>
        ensures { IfOk result (λ group. group ≡ range_with_len 0 limit) }
    {
        let mut numbers = Vec::with_capacity(alloc, limit as usize)?;
        for n in 0..limit {
            numbers.push(n)?;
        }
        Ok(Group { numbers })
    }

    /// Returns the group of one number.
    pub(crate) fn of(alloc: Global, n: u32) -> Result<Group, AllocError>
        ensures { IfOk result (λ group. group ≡ n ∷ []) }
    {
        let numbers = vec![in alloc; n]?;
        Ok(Group { numbers })
    }

    pub(crate) fn push(&mut self, n: u32) -> Result<(), AllocError>
        ensures { OnOk result (self.new ≡ self.old ++ n ∷ []) }
    {
        self.numbers.push(n)?;
        Ok(())
    }

    pub(crate) fn as_slice(&self) -> &[u32]
        ensures { result.now ≡ self.now }
    {
        self.numbers.as_slice()
    }

    /// Keeps only the numbers that are of `class`.
    pub(crate) fn keep(&mut self, class_of: &[u32], class: u32)
        ensures { self.new ≡ filter (is_in class_of.now class) self.old }
    {
        self.numbers.retain(|n| is_of_class(class_of, class, *n));
    }
}

fn is_of_class(class_of: &[u32], class: u32, n: u32) -> bool
    ensures { result ≡ is_in class_of.now class n }
{
    match class_of.get(n as usize) {
        Some(own) => *own == class,
        None => false,
    }
}
