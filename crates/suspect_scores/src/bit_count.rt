//! Counts of the bits of words.

ghost use Rattle.std.specs.Prelude.{◌≡◌, ℕ, ◌+◌, ◌<◌, ◌^◌, ◌||◌, count_ones};
ghost use Rattle.net_model.specs.Rows.{bit_of};

/// How many bits of some words are set, and which are set in at least one of them.
#[derive(Clone, Copy)]
pub(crate) struct BitCount {
    pub(crate) bits: u64,
    pub(crate) some: u64,
}

impl BitCount {
    /// Returns the count of no word.
    pub(crate) fn new() -> BitCount
        ensures bits { result.bits ≡ 0 }
        ensures some { result.some ≡ 0 }
    {
        BitCount { bits: 0, some: 0 }
    }

    pub(crate) fn add(&mut self, word: u64)
        requires { self.old.bits + 64 < 2 ^ 64 }
        ensures bits { self.new.bits ≡ self.old.bits + count_ones word }
        ensures some { (k : ℕ) → k < 64 → bit_of self.new.some k ≡ (bit_of self.old.some k || bit_of word k) }
    {
        self.bits += u64::from(word.count_ones());
        self.some |= word;
    }
}
