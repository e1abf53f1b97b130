//! `OpenWays`: how many asks are open, and the most that were open at once, noted as steps are added to a plan.

ghost use Rattle.std.specs.Prelude.{◌≡◌, ◌+◌, ◌++◌, ◌∷◌, List, [], length, reverse, max, OnOk, OnErr};
ghost use Rattle.adaptive_tree.specs.declared.steps.Step as spec;
ghost use Rattle.adaptive_tree.specs.OpenWays.{AreOpenWays, node_ended};

use crate::steps::Step;
use std::alloc::{AllocError, Global};

/// For each open ask, the innermost last, the number of its branches that aren't whole; and the greatest number of asks
/// that were open at once.
#[derive(Debug, Drop)]
pub(crate) struct OpenWays {
    pub(crate) left: Vec<u32>,
    pub(crate) most: u64,
}

impl OpenWays {
    /// Returns the counts before any step.
    pub(crate) fn new(alloc: Global) -> OpenWays
        ensures { AreOpenWays [] result.left.items result.most }
    {
        OpenWays {
            left: Vec::new(alloc),
            most: 0,
        }
    }

    /// Notes the next step. After an error nothing has changed.
    pub(crate) fn note(&mut self, step: &Step) -> Result<(), AllocError>
        ensures ok { OnOk result ((steps : List spec.Step) → AreOpenWays steps self.old.left.items self.old.most → AreOpenWays (steps ++ step.now ∷ []) self.new.left.items self.new.most) }
        ensures err { OnErr result ((self.new.left.items ≡ self.old.left.items) × (self.new.most ≡ self.old.most)) }
    {
        match step {
            Step::Ask(_, branches) => self.open(*branches),
            Step::On(_) => Ok(()),
            Step::Class(_) => {
                self.end_node();
                Ok(())
            }
        }
    }

    // Opens an ask with the given number of branches.
    fn open(&mut self, branches: u32) -> Result<(), AllocError>
        ensures ok { OnOk result ((self.new.left.items ≡ self.old.left.items ++ branches ∷ []) × (self.new.most ≡ max self.old.most (length self.old.left.items + 1))) }
        ensures err { OnErr result ((self.new.left.items ≡ self.old.left.items) × (self.new.most ≡ self.old.most)) }
    {
        self.left.push(branches)?;
        self.most = self.most.max(self.left.len() as u64);
        Ok(())
    }

    // Notes that a node has ended.
    fn end_node(&mut self)
        ensures left { reverse self.new.left.items ≡ node_ended (reverse self.old.left.items) }
        ensures most { self.new.most ≡ self.old.most }
    {
        let mut count = self.left.len();
        while count > 0 && self.left[count - 1] <= 1 {
            count -= 1;
        }
        self.left.truncate(count);
        if count > 0 {
            self.left[count - 1] -= 1;
        }
    }
}
