//! When each clause was looked at.

ghost use Rattle.std.specs.Prelude.{◌≡◌, ◌≤◌, ◌<◌, ◌+◌, ◌⊎◌, ℕ, IfOk, OnOk, IsTrue, length};
ghost use Rattle.refute_check.specs.Looked.{IsLookedAt};

use std::alloc::{AllocError, Global};

/// How many literals were held when a clause was looked at last, for each clause that was looked at since all was
/// forgotten.
#[derive(Drop)]
pub(crate) struct Looked {
    pub(crate) base: usize,
    // by the clause's number: at most `base` if the clause wasn't looked at, else `base` plus the number of literals
    // and one, or the highest value, which says nothing
    pub(crate) stamps: Vec<usize>,
}

impl Looked {
    /// Returns the state in which none of `clauses` clauses was looked at.
    pub(crate) fn none(alloc: Global, clauses: u32) -> Result<Looked, AllocError>
        ensures room { IfOk result (λ looked. length looked.stamps.items ≡ clauses + 1) }
        ensures none { IfOk result (λ looked. (number held : ℕ) → ¬ IsLookedAt looked number held) }
    {
        Ok(Looked {
            base: 0,
            stamps: vec![in alloc; 0; clauses as usize + 1]?,
        })
    }

    /// Adds one more clause, which wasn't looked at.
    pub(crate) fn add(&mut self) -> Result<(), AllocError>
        ensures room { OnOk result (length self.new.stamps.items ≡ length self.old.stamps.items + 1) }
        ensures none { OnOk result ((number held : ℕ) → IsLookedAt self.new number held → IsLookedAt self.old number held) }
    {
        self.stamps.push(0)?;
        Ok(())
    }

    /// Returns true only if the clause was looked at while at least `held` literals were held.
    pub(crate) fn since(&self, number: u32, held: usize) -> bool
        requires { number < length self.now.stamps.items }
        ensures { IsTrue result → (at : ℕ) × (held ≤ at) × IsLookedAt self.now number at }
    {
        let stamp = self.stamps[number as usize];
        if stamp < usize::MAX {
            self.base < stamp && held < stamp - self.base
        } else {
            false
        }
    }

    /// Notes that the clause is looked at while `held` literals are held.
    pub(crate) fn note(&mut self, number: u32, held: usize)
        requires { number < length self.old.stamps.items }
        ensures room { length self.new.stamps.items ≡ length self.old.stamps.items }
        ensures noted { (other at : ℕ) → IsLookedAt self.new other at → IsLookedAt self.old other at ⊎ ((other ≡ number) × (at ≤ held)) }
    {
        self.stamps[number as usize] = self.base.saturating_add(held).saturating_add(1);
    }

    /// Forgets all. No clause was looked at while more than `held` literals were held.
    pub(crate) fn forget(&mut self, held: usize)
        requires { (number at : ℕ) → IsLookedAt self.old number at → at ≤ held }
        ensures room { length self.new.stamps.items ≡ length self.old.stamps.items }
        ensures none { (number at : ℕ) → ¬ IsLookedAt self.new number at }
    {
        self.base = self.base.saturating_add(held).saturating_add(1);
    }
}
