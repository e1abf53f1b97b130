//! `Plan`: a plan as a list of steps in prefix order.

ghost use Rattle.std.specs.Prelude.{◌≡◌, [], ◌∷◌, ◌++◌, length, OnOk, OnErr};
ghost use Rattle.adaptive_tree.specs.OpenWays.{open_ways};

use crate::open_ways::OpenWays;
use packed_bits::PackedBits;
use std::alloc::{AllocError, Global};
use std::marker::Model;

/// A step of a plan: `Ask(pattern, branches)` asks a pattern, and that number of branches follows; `On(answer)` begins
/// the branch for an answer, whose node follows; `Class(class)` reaches a class.
#[derive(Debug, Drop)]
pub enum Step {
    Ask(u32, u32),
    On(PackedBits),
    Class(u32),
}

/// A list of steps.
#[derive(Debug, Drop)]
pub struct Steps {
    steps: Vec<Step>,
    // With these the depth of a plan is known without taking memory.
    ways: OpenWays,
}

impl Model for Steps {
    ghost use Rattle.std.specs.Prelude.{List};
    ghost use Rattle.adaptive_tree.specs.declared.steps.Step.{Step};
    ghost use Rattle.adaptive_tree.specs.OpenWays.{AreOpenWays};

    ghost Value = { List Step };

    ghost view = { λ a. a.steps.items };

    ghost invariant = { λ a. AreOpenWays a.steps.items a.ways.left.items a.ways.most };
}

impl Steps {
    /// Returns an empty list.
    pub fn new(alloc: Global) -> Steps
        ensures { result ≡ [] }
    {
        Steps {
            steps: Vec::new(alloc),
            ways: OpenWays::new(alloc),
        }
    }

    /// Adds a step after all others. After an error nothing has changed.
    pub fn push(&mut self, step: Step) -> Result<(), AllocError>
        ensures ok { OnOk result (self.new ≡ self.old ++ step ∷ []) }
        ensures err { OnErr result (self.new ≡ self.old) }
    {
        self.steps.push(step)?;
        let noted = self.ways.note(&self.steps[self.steps.len() - 1]);
        if noted.is_err() {
            self.steps.pop();
        }
        noted
    }

    /// Returns the number of steps.
    pub fn len(&self) -> usize
        ensures { result ≡ length self.now }
    {
        self.steps.len()
    }

    /// Returns the steps as a slice.
    pub fn as_slice(&self) -> &[Step]
        ensures { result.now ≡ self.now }
    {
        &self.steps
    }

    // Returns the greatest number of asks that are open at once.
    pub(crate) fn most_open(&self) -> u64
        ensures { result ≡ (open_ways self.now).most }
    {
        self.ways.most
    }
}

/// A plan for `classes` classes, by answers of `positions` bits each to some of `patterns` patterns.
#[derive(Debug, Drop)]
pub struct Plan {
    pub positions: u32,
    pub patterns: u32,
    pub classes: u32,
    pub steps: Steps,
}
