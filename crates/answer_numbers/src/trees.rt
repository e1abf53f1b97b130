//! For each lane a tree of answers, whose steps down are positions, and the node of each place in it.

ghost use Rattle.std.specs.Prelude.{◌≡◌, ℕ, ◌+◌, ◌*◌, ◌%◌, ◌<◌, ◌≤◌, ◌^◌, ◌==◌, length, slice_index, All, IfOk, OnOk};
ghost use Rattle.word_sim.specs.declared.lanes.TheConstants.{LANES};
ghost use Rattle.answer_numbers.specs.NodeNumbers.{stand_of};
ghost use Rattle.answer_numbers.specs.Trees.{AreTrees, IsForest, HasChild, AreGrown, AreBareTrees, node_at, way_of, turned};

use crate::differences::numbers_below;
use packed_bits::PackedBits;
use std::alloc::{AllocError, Global};

/// A node of a tree.
#[derive(Clone, Copy, Debug)]
pub(crate) struct Node {
    /// The node above, and the position at which the answer of this node differs from the answer of the node above.
    pub(crate) above: u32,
    pub(crate) position: u32,
    /// One more than the last position for which a node below was made, and that node.
    pub(crate) turn: u32,
    pub(crate) child: u32,
}

/// For each lane a tree. Its root is the fault-free answer and has the lane's number. The way down to a node has the
/// positions at which the answer of this node differs from the fault-free one, ascending. `stands` has the node at
/// which each place is in each lane's tree, by place and then by lane.
#[derive(Debug, Drop)]
pub(crate) struct LaneTrees {
    pub(crate) lanes: u32,
    pub(crate) nodes: Vec<Node>,
    pub(crate) stands: Vec<u32>,
}

impl LaneTrees {
    /// Returns `lanes` trees of their roots alone, at which all places are.
    pub(crate) fn new(alloc: Global, lanes: u32, places: usize) -> Result<LaneTrees, AllocError>
        requires lanes { lanes ≤ LANES }
        requires places { places < 2 ^ 32 }
        ensures { IfOk result (AreBareTrees lanes places) }
    {
        let root = Node {
            above: 0,
            position: 0,
            turn: 0,
            child: 0,
        };
        let nodes = vec![in alloc; root; lanes as usize]?;
        let row = numbers_below(alloc, lanes)?;
        let stands = repeated(alloc, row.as_slice(), places)?;
        Ok(LaneTrees {
            lanes,
            nodes,
            stands,
        })
    }

    /// Advances the place of `cell` in the lane of `cell`: from its node to the node below it for `position`.
    pub(crate) fn step(&mut self, cell: usize, position: u32) -> Result<(), AllocError>
        requires trees { AreTrees (position + 1) self.old }
        requires cell { cell < length self.old.stands.items }
        requires position { position + 1 < 2 ^ 32 }
        ensures { OnOk result (AreGrown position (λ other. other == cell) self.old self.new) }
    {
        let node = self.stands[cell];
        let below = self.child(node, position)?;
        self.stands[cell] = below;
        Ok(())
    }

    // Returns the node below `node` for `position`, and makes it if it isn't there.
    fn child(&mut self, node: u32, position: u32) -> Result<u32, AllocError>
        requires forest { IsForest self.old.lanes (position + 1) self.old.nodes.items }
        requires node { node < length self.old.nodes.items }
        requires position { position + 1 < 2 ^ 32 }
        ensures { IfOk result (HasChild node position self.old self.new) }
    {
        let above = self.nodes[node as usize];
        if above.turn == position + 1 {
            return Ok(above.child);
        }
        let child = self.nodes.len();
        if child >= u32::MAX as usize {
            return Err(AllocError);
        }
        self.nodes.push(Node {
            above: node,
            position,
            turn: 0,
            child: 0,
        })?;
        self.nodes[node as usize] = Node {
            above: above.above,
            position: above.position,
            turn: position + 1,
            child: child as u32,
        };
        Ok(child as u32)
    }

    /// Returns the node at which `place` is in `lane`.
    pub(crate) fn stand(&self, place: usize, lane: u32) -> u32
        requires lanes { self.now.lanes ≤ LANES }
        requires place { place < 2 ^ 32 }
        requires cell { place * self.now.lanes + lane < length self.now.stands.items }
        ensures { result ≡ stand_of self.now place lane }
    {
        self.stands[place * self.lanes as usize + lane as usize]
    }

    /// Turns the bits of the positions on the way up from `node`.
    pub(crate) fn turn_bits(&self, node: u32, bits: &mut PackedBits)
        requires lower { (n : ℕ) → self.now.lanes ≤ n → n < length self.now.nodes.items → (node_at self.now.nodes.items n).above < n }
        requires node { node < length self.now.nodes.items }
        requires within { All (λ position. position < length bits.old) (way_of self.now.lanes self.now.nodes.items node).positions }
        ensures { bits.new ≡ turned (way_of self.now.lanes self.now.nodes.items node).positions bits.old }
    {
        let mut at = node;
        while at >= self.lanes {
            let own = self.nodes[at as usize];
            let position = own.position as usize;
            bits.set(position, !bits.get(position));
            at = own.above;
        }
    }
}

// Returns `row`, `times` times.
fn repeated(alloc: Global, row: &[u32], times: usize) -> Result<Vec<u32>, AllocError>
    requires long { length row.now ≤ LANES }
    requires times { times < 2 ^ 32 }
    ensures count { IfOk result (λ all. length all.items ≡ times * length row.now) }
    ensures each { IfOk result (λ all. (k : ℕ) → k < times * length row.now → slice_index all.items k ≡ slice_index row.now (k % length row.now)) }
{
    let mut all = Vec::with_capacity(alloc, times * row.len())?;
    for _time in 0..times {
        all.extend_from_slice(row)?;
    }
    Ok(all)
}
