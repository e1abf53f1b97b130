//! Marks of the variables that an analysis has met and still has to treat.

ghost use Rattle.std.specs.Prelude.{◌≡◌, ℕ, ◌+◌, ◌<◌, false, true, IsTrue, IfOk, OnOk, OnErr, length, replicate, slice_set, All};
ghost use Rattle.net_model.specs.Answer.{bit_at};

use net_model::Bits;
use std::alloc::{AllocError, Global};
use std::marker::Model;

/// A mark for each variable, and the list of the variables that were marked since the list was cleared.
#[derive(Drop)]
pub(crate) struct MetVariables {
    bits: Bits,
    met: Vec<u32>,
    left: usize,
}

impl Model for MetVariables {
    ghost use Rattle.std.specs.Prelude.{Bool, List};
    ghost use Rattle.learn_solver.specs.Marks.{AreMetCounted};

    ghost Value = { List Bool };

    ghost view = { λ m. m.bits };

    ghost invariant = { λ m. AreMetCounted m.bits m.met.items m.left };
}

impl MetVariables {
    /// Returns the marks of variables 0 to `variables`, none of them set.
    pub(crate) fn new(alloc: Global, variables: u32) -> Result<MetVariables, AllocError>
        ensures { IfOk result (λ marks. marks ≡ replicate (variables + 1) false) }
    {
        Ok(MetVariables {
            bits: Bits::zeros(alloc, variables as usize + 1)?,
            met: Vec::new(alloc),
            left: 0,
        })
    }

    /// Returns whether the variable is marked.
    pub(crate) fn has(&self, variable: u32) -> bool
        requires { variable < length self.now }
        ensures { result ≡ bit_at self.now variable }
    {
        self.bits.get(variable as usize)
    }

    /// Marks a variable that isn't marked. After an error nothing has changed.
    pub(crate) fn add(&mut self, variable: u32) -> Result<(), AllocError>
        requires inside { variable < length self.old }
        requires unmarked { bit_at self.old variable ≡ false }
        ensures ok { OnOk result (self.new ≡ slice_set self.old variable true) }
        ensures err { OnErr result (self.new ≡ self.old) }
    {
        let _places = self.bits.len();
        self.met.push(variable)?;
        self.bits.set(variable as usize, true);
        self.left += 1;
        Ok(())
    }

    /// Removes the mark of a marked variable.
    pub(crate) fn remove(&mut self, variable: u32)
        requires inside { variable < length self.old }
        requires marked { bit_at self.old variable ≡ true }
        ensures { self.new ≡ slice_set self.old variable false }
    {
        self.bits.set(variable as usize, false);
        self.left -= 1;
    }

    /// Returns true only if no variable is marked.
    pub(crate) fn are_clear(&self) -> bool
        ensures { IsTrue result → (variable : ℕ) → bit_at self.now variable ≡ false }
    {
        self.left == 0
    }

    /// Returns the variables that were marked since the list was cleared.
    pub(crate) fn met(&self) -> &[u32]
        ensures { All (λ variable. variable < length self.now) result.now }
    {
        self.met.as_slice()
    }

    /// Clears the list, and leaves the marks as they are.
    pub(crate) fn clear_met(&mut self)
        ensures { self.new ≡ self.old }
    {
        self.met.clear();
    }
}
