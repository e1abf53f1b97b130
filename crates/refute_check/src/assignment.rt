//! Literals that are held true.

ghost use Rattle.std.specs.Prelude.{◌≡◌, ◌+◌, ◌<◌, [], ◌∷◌, ◌++◌, Some, All, IfOk, length, slice_set};
ghost use Rattle.clause_pool.specs.Literal.{Literal};
ghost use Rattle.refute_check.specs.Assignment.{IsAssignment};
ghost use Rattle.refute_check.specs.Held.{IsLook, IsLiteralOpen, value_at};

use clause_pool::Lit;
use std::alloc::{AllocError, Global};

/// What unit propagation finds at a clause: a literal is held or two are undetermined (`Quiet`); or the literal at
/// this place is undetermined and all others are false (`Unit`); or all are false (`False`).
#[derive(Clone, Copy)]
pub(crate) enum Look {
    Quiet,
    Unit(usize),
    False,
}

/// The values of variables by number, or none if the variable is undetermined, and the literals that are held, in the
/// order in which they became so. Number 0 is no variable.
#[derive(Drop)]
pub(crate) struct Assignment {
    pub(crate) values: Vec<Option<bool>>,
    pub(crate) trail: Vec<Lit>,
}

impl Assignment {
    /// Returns the assignment of variables 0 to `variables`, all of them undetermined.
    pub(crate) fn new(alloc: Global, variables: u32) -> Result<Assignment, AllocError>
        ensures assignment { IfOk result IsAssignment }
        ensures size { IfOk result (λ assignment. length assignment.values.items ≡ variables + 1) }
        ensures empty { IfOk result (λ assignment. (l : Literal) → IsLiteralOpen assignment.values.items l) }
    {
        let count = variables as usize + 1;
        Ok(Assignment {
            values: vec![in alloc; None; count]?,
            trail: Vec::with_capacity(alloc, count)?,
        })
    }

    /// Returns whether the literal is true or false, or none if its variable is undetermined.
    pub(crate) fn value(&self, lit: Lit) -> Option<bool>
        requires { lit.variable < length self.now.values.items }
        ensures { result ≡ value_at self.now.values.items lit }
    {
        let value = self.values[lit.variable() as usize]?;
        Some(value == lit.positive())
    }

    /// Holds a literal that is undetermined. Allocates no memory.
    pub(crate) fn hold(&mut self, lit: Lit)
        requires assignment { IsAssignment self.old }
        requires within { lit.variable < length self.old.values.items }
        requires undetermined { IsLiteralOpen self.old.values.items lit }
        ensures assignment { IsAssignment self.new }
        ensures values { self.new.values.items ≡ slice_set self.old.values.items lit.variable (Some lit.positive) }
        ensures trail { self.new.trail.items ≡ self.old.trail.items ++ lit ∷ [] }
    {
        self.values[lit.variable() as usize] = Some(lit.positive());
        self.trail.push_reserved(lit);
    }

    /// Drops all literals, along the list of those that are held.
    pub(crate) fn clear(&mut self)
        requires { IsAssignment self.old }
        ensures assignment { IsAssignment self.new }
        ensures size { length self.new.values.items ≡ length self.old.values.items }
        ensures empty { (l : Literal) → IsLiteralOpen self.new.values.items l }
    {
        while let Some(lit) = self.trail.pop() {
            self.values[lit.variable() as usize] = None;
        }
    }

    /// Returns what unit propagation finds at the clause.
    pub(crate) fn look(&self, clause: &[Lit]) -> Look
        requires { All (λ (l : Literal). l.variable < length self.now.values.items) clause.now }
        ensures { IsLook self.now.values.items clause.now result }
    {
        let mut unit = None;
        for (place, lit) in clause.iter().enumerate() {
            match self.value(*lit) {
                Some(true) => return Look::Quiet,
                Some(false) => {}
                None => match unit {
                    None => unit = Some(place),
                    Some(first) if clause[first] == *lit => {}
                    Some(_) => return Look::Quiet,
                },
            }
        }
        match unit {
            Some(place) => Look::Unit(place),
            None => Look::False,
        }
    }
}
