//! What a search found for numbers before their turn.

ghost use Rattle.std.specs.Prelude.{◌≡◌, ◌<◌, All, IfOk, IfSome, length};
ghost use Rattle.net_model.specs.Circuit.{Circuit};
ghost use Rattle.net_model.specs.FaultList.{fault_numbered};
ghost use Rattle.result_records.specs.declared.record.Budgets.{Budgets};
ghost use Rattle.dia_gen.specs.Settled.{IsSearchedFor, IsKnownOf, IsAheadFor};

use crate::setting::GenerationSetting;
use distinguish_search::Searched;
use std::alloc::{AllocError, Global};

// What a search found for a number and `lead`, the representative that it had then. It holds whatever the classes are.
#[derive(Drop)]
pub(crate) struct Known {
    pub(crate) lead: u32,
    pub(crate) found: Searched,
}

// For each number: what is known of it, and whether it is the lowest number with its root. Only that one of the numbers
// with one root is searched before its turn.
#[derive(Drop)]
pub(crate) struct Ahead {
    pub(crate) known: Vec<Option<Known>>,
    pub(crate) lowest: Vec<bool>,
}

impl Ahead {
    // Returns an `Ahead` in which nothing is known of any number.
    pub(crate) fn new(alloc: Global, setting: &GenerationSetting) -> Result<Ahead, AllocError>
        ensures { IfOk result (IsAheadFor setting.now.circuit setting.now.budgets) }
    {
        let roots = setting.roots();
        let mut known = Vec::new(alloc);
        for _number in 0..roots.len() {
            known.push(None)?;
        }
        let lowest = lowest_of_roots(alloc, roots)?;
        Ok(Ahead { known, lowest })
    }

    // Returns whether `number` is the lowest number with its root.
    pub(crate) fn is_lowest(&self, number: u32) -> bool
        requires { number < length self.now.lowest.items }
    {
        self.lowest[number as usize]
    }

    // Takes out what is known of `number`, and returns it if it was found with the representative `lead`; otherwise
    // drops it and returns none.
    pub(crate) fn take(&mut self, lead: u32, number: u32) -> Option<Searched>
        requires { number < length self.old.known.items }
        ensures ahead { (c : Circuit) (budgets : Budgets) → IsAheadFor c budgets self.old → IsAheadFor c budgets self.new }
        ensures found { (c : Circuit) (budgets : Budgets) → IsAheadFor c budgets self.old → IfSome result (IsSearchedFor c (fault_numbered c lead) (fault_numbered c number) budgets) }
    {
        match self.known[number as usize].take() {
            Some(known) if known.lead == lead => Some(known.found),
            _ => None,
        }
    }

    // Keeps `known` for `number` until the turn of `number`.
    pub(crate) fn put(&mut self, number: u32, known: Known)
        requires { number < length self.old.known.items }
        ensures { (c : Circuit) (budgets : Budgets) → IsAheadFor c budgets self.old → IsKnownOf c budgets number known → IsAheadFor c budgets self.new }
    {
        self.known[number as usize] = Some(known);
    }
}

// Returns for each number whether it is the lowest number with its root, but no clause says so.
fn lowest_of_roots(alloc: Global, roots: &[u32]) -> Result<Vec<bool>, AllocError>
    requires { All (λ root. root < length roots.now) roots.now }
    ensures { IfOk result (λ lowest. length lowest.items ≡ length roots.now) }
{
    let mut seen = vec![in alloc; false; roots.len()]?;
    let mut lowest = vec![in alloc; false; roots.len()]?;
    for number in 0..roots.len() {
        let root = roots[number] as usize;
        lowest[number] = !seen[root];
        seen[root] = true;
    }
    Ok(lowest)
}
