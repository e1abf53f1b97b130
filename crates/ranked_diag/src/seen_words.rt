//! The words of an entry in which a bit was seen, and how many of these bits differ from a row.

ghost use Rattle.std.specs.Prelude.{◌≡◌, ◌+◌, ◌<◌, ◌^◌, [], ◌∷◌, length, slice_index_or, OnOk, IfSome};
ghost use Rattle.net_model.specs.Rows.{row_at};
ghost use Rattle.ranked_diag.specs.declared.seen_word.SeenWord.{SeenWord};
ghost use Rattle.ranked_diag.specs.Seen.{seen_of};
ghost use Rattle.ranked_diag.specs.SeenWords.{seen_mismatches, AreSeenBefore, IsSeenToo};

use crate::partial::Seen;
use crate::seen_word::SeenWord;
use net_model::AnswerRows;
use std::alloc::{AllocError, Global};
use std::marker::Model;

/// The words of an entry in which a bit was seen, and no others.
#[derive(Drop)]
pub(crate) struct SeenWords {
    words: Vec<SeenWord>,
}

impl Model for SeenWords {
    ghost use Rattle.std.specs.Prelude.{List};
    ghost use Rattle.ranked_diag.specs.declared.seen_word.SeenWord.{SeenWord};

    ghost Value = { List SeenWord };

    ghost view = { λ w. w.words.items };
}

impl SeenWords {
    pub(crate) fn new(alloc: Global) -> SeenWords
        ensures { result ≡ [] }
    {
        let words = Vec::new(alloc);
        SeenWords { words }
    }

    /// Adds what was seen of the bits starting at `place`, after all that was added before.
    pub(crate) fn see(&mut self, place: usize, seen: &[Seen]) -> Result<(), AllocError>
        requires before { AreSeenBefore place self.old }
        requires room { place + length seen.now < 2 ^ 64 }
        ensures { OnOk result (IsSeenToo self.old self.new place seen.now) }
    {
        for (at, one) in seen.iter().enumerate() {
            self.see_one(place + at, *one)?;
        }
        Ok(())
    }

    /// Adds what was seen of the bit at `place`, after all that was added before.
    pub(crate) fn see_one(&mut self, place: usize, seen: Seen) -> Result<(), AllocError>
        requires { AreSeenBefore place self.old }
        ensures { OnOk result (IsSeenToo self.old self.new place (seen ∷ [])) }
    {
        match seen {
            Seen::Zero => self.see_bit(place, false),
            Seen::One => self.see_bit(place, true),
            Seen::Unseen => Ok(()),
        }
    }

    fn see_bit(&mut self, place: usize, one: bool) -> Result<(), AllocError>
        requires { AreSeenBefore place self.old }
        ensures { OnOk result (IsSeenToo self.old self.new place (seen_of one ∷ [])) }
    {
        let word = place / 64;
        let at = place % 64;
        match self.last_in(word) {
            Some(last) => {
                self.words[last] = self.words[last].with(at, one);
                Ok(())
            }
            None => {
                let none = SeenWord {
                    word,
                    seen: 0,
                    ones: 0,
                };
                Ok(self.words.push(none.with(at, one))?)
            }
        }
    }

    // Returns the place of the last word if it is word `word`.
    fn last_in(&self, word: usize) -> Option<usize>
        ensures { IfSome result (λ last. (last < length self.now) × ((d : SeenWord) → (slice_index_or self.now last d).word ≡ word)) }
    {
        let count = self.words.len();
        if count > 0 && self.words[count - 1].word == word {
            return Some(count - 1);
        }
        None
    }

    /// Returns how many bits that were seen differ from the row.
    pub(crate) fn count(&self, rows: &AnswerRows, row: usize) -> u64
        requires row { row < length rows.now }
        requires wide { length (row_at rows.now row) < 2 ^ 64 }
        requires before { AreSeenBefore (length (row_at rows.now row)) self.now }
        ensures { result ≡ seen_mismatches self.now (row_at rows.now row) }
    {
        let bits = rows.row_words(row);
        let mut count = 0;
        for seen in &self.words {
            count += seen.mismatches(bits[seen.word]);
        }
        count
    }
}
