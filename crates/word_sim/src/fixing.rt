//! `Block::fix`: a source gets the same bit in some vectors of a block.

ghost use Rattle.std.specs.Prelude.{◌≡◌, ◌<◌, ℕ, [], true, false, length, slice_index_or, slice_set};
ghost use Rattle.net_model.specs.Answer.{bit_at};

use crate::block::Block;
use crate::lanes::Lanes;

impl Block {
    /// Sets the bit of `source` to `bit` in each vector whose lane has 1 in `lanes`. The other vectors stay.
    pub fn fix(&mut self, source: u32, bit: bool, lanes: Lanes)
        requires { source < self.old.sources }
        ensures sources { self.new.sources ≡ self.old.sources }
        ensures count { length self.new.vectors ≡ length self.old.vectors }
        ensures fixed { (lane : ℕ) → lane < length self.old.vectors → bit_at lanes lane ≡ true → slice_index_or self.new.vectors lane [] ≡ slice_set (slice_index_or self.old.vectors lane []) source bit }
        ensures others { (lane : ℕ) → lane < length self.old.vectors → bit_at lanes lane ≡ false → slice_index_or self.new.vectors lane [] ≡ slice_index_or self.old.vectors lane [] }
    {
        let row = self.rows[source as usize];
        self.rows[source as usize] = lanes.select(row, Lanes::all(bit));
    }
}
