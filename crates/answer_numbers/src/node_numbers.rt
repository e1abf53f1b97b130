//! Numbers of the nodes at which places are, in each lane in order of the lowest place at a node.

ghost use Rattle.std.specs.Prelude.{◌≡◌, ℕ, ◌+◌, ◌*◌, ◌<◌, ◌≤◌, ◌^◌, length, slice_index, IfOk};
ghost use Rattle.answer_numbers.specs.NodeNumbers.{HaveOwnLanes, AreNumberedTo, HasNodeNumber};

use crate::trees::LaneTrees;
use std::alloc::{AllocError, Global};

// The number of a node at which no place is.
const UNNUMBERED: u32 = u32::MAX;

/// The number of each node, and how many nodes of each lane have one.
#[derive(Debug, Drop)]
pub(crate) struct NodeNumbers {
    pub(crate) numbers: Vec<u32>,
    pub(crate) counts: Vec<u32>,
}

impl NodeNumbers {
    /// Returns the numbers of the nodes at which the first `places` places are, which are all of them.
    pub(crate) fn of_places(
        alloc: Global,
        trees: &LaneTrees,
        places: u32,
    ) -> Result<NodeNumbers, AllocError>
        requires cells { HaveOwnLanes trees.now }
        requires places { length trees.now.stands.items ≡ places * trees.now.lanes }
        ensures { IfOk result (AreNumberedTo trees.now (λ lane. places)) }
    {
        let mut numbers = NodeNumbers {
            numbers: vec![in alloc; UNNUMBERED; trees.nodes.len()]?,
            counts: vec![in alloc; 0; trees.lanes as usize]?,
        };
        for place in 0..places {
            numbers.add_place(trees, place);
        }
        Ok(numbers)
    }

    // Numbers the node of `place` in each lane, if it has no number.
    fn add_place(&mut self, trees: &LaneTrees, place: u32)
        requires cells { HaveOwnLanes trees.now }
        requires place { place * trees.now.lanes + trees.now.lanes ≤ length trees.now.stands.items }
        requires few { place + 1 < 2 ^ 32 }
        requires numbered { AreNumberedTo trees.now (λ lane. place) self.old }
        ensures { AreNumberedTo trees.now (λ lane. place + 1) self.new }
    {
        let first = place as usize * trees.lanes as usize;
        for lane in 0..trees.lanes {
            self.add(trees.stands[first + lane as usize], lane);
        }
    }

    // Gives `node` the next number of `lane`, if it has no number.
    fn add(&mut self, node: u32, lane: u32)
        requires node { node < length self.old.numbers.items }
        requires lane { lane < length self.old.counts.items }
        requires few { slice_index self.old.counts.items lane + 1 < 2 ^ 32 }
        ensures { HasNodeNumber node lane self.old self.new }
    {
        if self.numbers[node as usize] == UNNUMBERED {
            let count = self.counts[lane as usize];
            self.numbers[node as usize] = count;
            self.counts[lane as usize] = count + 1;
        }
    }

    /// Returns the number of `node`.
    pub(crate) fn number(&self, node: u32) -> u32
        requires { node < length self.now.numbers.items }
        ensures { result ≡ slice_index self.now.numbers.items node }
    {
        self.numbers[node as usize]
    }

    /// Returns how many nodes of `lane` have a number.
    pub(crate) fn count(&self, lane: u32) -> u32
        requires { lane < length self.now.counts.items }
        ensures { result ≡ slice_index self.now.counts.items lane }
    {
        self.counts[lane as usize]
    }
}
