//! `Block`: vectors that are simulated at once, each in a lane of its own.

ghost use Rattle.std.specs.Prelude.{◌≡◌, ◌≢◌, ℕ, ◌<◌, [], ◌∷◌, ◌++◌, length, slice_index_or, IfOk};
ghost use Rattle.net_model.specs.Answer.{bit_at};
ghost use Rattle.word_sim.specs.Block.{IsBlock, block_with};
ghost use Rattle.word_sim.specs.BlockFields.{column};

use crate::lanes::{LANES, Lanes};
use net_model::{Bits, Vector};
use std::alloc::{AllocError, Global};
use std::marker::Model;

/// Vectors that are simulated at once, at most one for each lane.
#[derive(Debug, Drop)]
pub struct Block {
    pub(crate) rows: Vec<Lanes>,
    pub(crate) live: u32,
}

impl Model for Block {
    ghost use Rattle.word_sim.specs.Block as spec;
    ghost use Rattle.word_sim.specs.BlockFields.{block_of, AreBlockFields};

    ghost Value = { spec.Block };

    ghost view = { block_of };

    ghost invariant = { AreBlockFields };
}

impl Block {
    /// Returns a block for `sources` sources, without a vector.
    pub fn new(alloc: Global, sources: u32) -> Result<Block, AllocError>
        ensures { IfOk result (λ block. block ≡ block_with sources []) }
    {
        let rows = vec![in alloc; Lanes::all(false); sources as usize]?;
        Ok(Block { rows, live: 0 })
    }

    pub fn sources(&self) -> u32
        ensures value { result ≡ self.now.sources }
        ensures block { IsBlock self.now }
    {
        self.rows.len() as u32
    }

    /// Returns how many vectors the block has.
    pub fn live(&self) -> u32
        ensures value { result ≡ length self.now.vectors }
        ensures block { IsBlock self.now }
    {
        self.live
    }

    pub fn clear(&mut self)
        ensures { self.new ≡ block_with self.old.sources [] }
    {
        self.live = 0;
    }

    /// Puts the vector `v`, which has a bit for each source, into the next lane.
    pub fn push(&mut self, v: &Vector)
        requires room { length self.old.vectors < LANES }
        requires width { length v.now ≡ self.old.sources }
        ensures { self.new ≡ block_with self.old.sources (self.old.vectors ++ v.now ∷ []) }
    {
        set_lane(&mut self.rows, self.live, v);
        self.live += 1;
    }

    pub fn vector(&self, lane: u32) -> Result<Vector, AllocError>
        requires { lane < length self.now.vectors }
        ensures value { IfOk result (λ v. v ≡ slice_index_or self.now.vectors lane []) }
        ensures width { IfOk result (λ v. length v ≡ self.now.sources) }
    {
        let mut v = Bits::zeros(*self.rows.allocator(), self.rows.len())?;
        for source in 0..self.rows.len() {
            v.set(source, self.rows[source].get(lane));
        }
        Ok(v)
    }

    // Returns the bits of a source by lane. Nothing is said of lanes without a vector.
    pub(crate) fn row(&self, source: u32) -> Lanes
        requires { source < self.now.sources }
        ensures { (lane : ℕ) → lane < length self.now.vectors → bit_at result lane ≡ bit_at (slice_index_or self.now.vectors lane []) source }
    {
        self.rows[source as usize]
    }
}

fn set_lane(rows: &mut [Lanes], lane: u32, v: &Vector)
    requires lane { lane < LANES }
    requires width { length v.now ≡ length rows.old }
    ensures written { column rows.new lane ≡ v.now }
    ensures others { (other : ℕ) → other < LANES → other ≢ lane → column rows.new other ≡ column rows.old other }
{
    for source in 0..rows.len() {
        rows[source] = rows[source].with(lane, v.get(source));
    }
}
