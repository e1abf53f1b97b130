//! What was seen of a word of an entry.

ghost use Rattle.std.specs.Prelude.{◌≡◌, ◌<◌, ℕ, Bool, List};
ghost use Rattle.dict_rows.specs.Rows.{IsWordOf};
ghost use Rattle.ranked_diag.specs.SeenWords.{word_mismatches, IsBitSeen};

use net_model::with_bit;

/// Which bits of a word of an entry were seen, and which of these are 1.
#[derive(Clone, Copy, Debug)]
pub(crate) struct SeenWord {
    pub(crate) word: usize,
    pub(crate) seen: u64,
    pub(crate) ones: u64,
}

impl SeenWord {
    /// Returns the word with bit `at` seen as `one`.
    pub(crate) fn with(self, at: usize, one: bool) -> SeenWord
        requires { at < 64 }
        ensures { IsBitSeen self result at one }
    {
        SeenWord {
            word: self.word,
            seen: with_bit(self.seen, at, true),
            ones: with_bit(self.ones, at, one),
        }
    }

    /// Returns how many bits that were seen differ from `bits`, the same word of an entry.
    pub(crate) fn mismatches(self, bits: u64) -> u64
        ensures { (entry : List Bool) → IsWordOf entry self.word bits → result ≡ word_mismatches entry self }
    {
        let differing = (bits ^ self.ones) & self.seen;
        differing.count_ones() as u64
    }
}
