//! `Cube`: some sources have a bit, and the others are free; and the vectors of cubes in a block.

ghost use Rattle.std.specs.Prelude.{◌≡◌, ◌<◌, ◌↔◌, ℕ, List, Bool, [], Some, None, true, false, All, IsTrue, length, slice_index_or};
ghost use Rattle.net_model.specs.Answer.{bit_at};
ghost use Rattle.word_sim.specs.Block.{IsBlock};
ghost use Rattle.kept_vectors.specs.Cube.{IsOfCube};

use std::marker::Model;
use word_sim::{Block, Lanes};

/// A bit for each source, or none if the source is free.
#[derive(Debug, Drop)]
pub struct Cube {
    bits: Vec<Option<bool>>,
}

impl Model for Cube {
    ghost use Rattle.std.specs.Prelude.{List, Option, Bool};

    ghost Value = { List (Option Bool) };

    ghost view = { λ cube. cube.bits.items };
}

impl Cube {
    /// Returns the cube with these bits.
    pub fn new(bits: Vec<Option<bool>>) -> Cube
        ensures { result ≡ bits.items }
    {
        Cube { bits }
    }

    /// Returns the bit of each source, or none if it is free.
    pub fn bits(&self) -> &[Option<bool>]
        ensures { result.now ≡ self.now }
    {
        self.bits.as_slice()
    }

    /// Binds each source that `other` binds, unless the two cubes have different bits at a source. Returns false
    /// exactly if no vector is of both cubes; then the cube is as before.
    pub fn join(&mut self, other: &[Option<bool>]) -> bool
        requires { length other.now ≡ length self.old }
        ensures width { length self.new ≡ length self.old }
        ensures joined { IsTrue result → (v : List Bool) → IsOfCube self.new v ↔ (IsOfCube self.old v × IsOfCube other.now v) }
        ensures apart { ¬ IsTrue result → (v : List Bool) → IsOfCube self.old v → IsOfCube other.now v → ⊥ }
        ensures same { ¬ IsTrue result → self.new ≡ self.old }
    {
        if contradict(self.bits.as_slice(), other) {
            return false;
        }
        bind(self.bits.as_mut_slice(), other);
        true
    }
}

// Returns whether two cubes have different bits at a source.
fn contradict(one: &[Option<bool>], other: &[Option<bool>]) -> bool
    requires { length other.now ≡ length one.now }
    ensures apart { IsTrue result → (v : List Bool) → IsOfCube one.now v → IsOfCube other.now v → ⊥ }
    ensures agree { ¬ IsTrue result → (source : ℕ) (bit also : Bool) → slice_index_or one.now source None ≡ Some bit → slice_index_or other.now source None ≡ Some also → bit ≡ also }
{
    for source in 0..one.len() {
        if let (Some(bit), Some(also)) = (one[source], other[source])
            && bit != also
        {
            return true;
        }
    }
    false
}

// Binds each source that `other` binds.
fn bind(cube: &mut [Option<bool>], other: &[Option<bool>])
    requires { length other.now ≡ length cube.old }
    ensures width { length cube.new ≡ length cube.old }
    ensures bound { (source : ℕ) (bit : Bool) → slice_index_or other.now source None ≡ Some bit → slice_index_or cube.new source None ≡ Some bit }
    ensures free { (source : ℕ) → slice_index_or other.now source None ≡ None → slice_index_or cube.new source None ≡ slice_index_or cube.old source None }
{
    for source in 0..other.len() {
        if other[source].is_some() {
            cube[source] = other[source];
        }
    }
}

// Gives the cubes equal shares of the lanes of `block`, one after another, and sets the bound sources of each cube in
// its share. Lanes that are left over stay as they are.
pub(crate) fn fix_cubes(block: &mut Block, cubes: &[Cube])
    requires some { 0 < length cubes.now }
    requires live { 0 < length block.old.vectors }
    requires widths { All (λ cube. length cube ≡ block.old.sources) cubes.now }
    ensures sources { block.new.sources ≡ block.old.sources }
    ensures count { length block.new.vectors ≡ length block.old.vectors }
    ensures block { IsBlock block.new }
    ensures first { IsOfCube (slice_index_or cubes.now 0 []) (slice_index_or block.new.vectors 0 []) }
{
    let live = block.live();
    let share = (live as usize / cubes.len()).max(1) as u32;
    let mut from = 0;
    for cube in cubes {
        let end = (from + share).min(live);
        fix_sources(block, cube, Lanes::first(end).and(Lanes::first(from).not()));
        from = end;
    }
}

// Sets the bound sources of `cube` in the vectors of `lanes`.
fn fix_sources(block: &mut Block, cube: &Cube, lanes: Lanes)
    requires { length cube.now ≡ block.old.sources }
    ensures sources { block.new.sources ≡ block.old.sources }
    ensures count { length block.new.vectors ≡ length block.old.vectors }
    ensures block { IsBlock block.new }
    ensures fixed { (lane : ℕ) → lane < length block.old.vectors → bit_at lanes lane ≡ true → IsOfCube cube.now (slice_index_or block.new.vectors lane []) }
    ensures others { (lane : ℕ) → lane < length block.old.vectors → bit_at lanes lane ≡ false → slice_index_or block.new.vectors lane [] ≡ slice_index_or block.old.vectors lane [] }
{
    let bits = cube.bits();
    for source in 0..block.sources() {
        if let Some(bit) = bits[source as usize] {
            block.fix(source, bit, lanes);
        }
    }
}
