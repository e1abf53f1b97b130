//! Bits of rows by whole words: 64 bits starting at any place, the lowest bits, one bit set or cleared.

ghost use Rattle.std.specs.Prelude.{◌≡◌, ◌+◌, ◌==◌, ◌&&◌, ◌<◌, ℕ, nat_lt, slice_index, if◌then◌else◌};
ghost use Rattle.net_model.specs.Rows.{bit_of, word_bit};

/// Returns the 64 bits of packed `words` that start at bit `at`, the lowest first. Bits past the end of the words are
/// 0.
pub fn word_at(words: &[u64], at: usize) -> u64
    ensures { (k : ℕ) → k < 64 → bit_of result k ≡ word_bit words.now 0 (at + k) }
{
    let low = word_or_zero(words, at / 64);
    let shift = at % 64;
    if shift == 0 {
        return low;
    }
    let high = word_or_zero(words, at / 64 + 1);
    (low >> shift) | (high << (64 - shift))
}

// Returns the word at `place`, or 0 past the end of the words.
fn word_or_zero(words: &[u64], place: usize) -> u64
    ensures { result ≡ slice_index words.now place }
{
    words.get(place).copied().unwrap_or(0)
}

/// Returns the lowest `count` bits of `word`, and 0 in place of the others.
#[inline]
pub fn low_bits(word: u64, count: usize) -> u64
    ensures { (k : ℕ) → k < 64 → bit_of result k ≡ (nat_lt k count && bit_of word k) }
{
    if count < 64 {
        word & ((1 << count) - 1)
    } else {
        word
    }
}

/// Returns `word` with the bit at `at` set or cleared.
#[inline]
pub fn with_bit(word: u64, at: usize, bit: bool) -> u64
    requires { at < 64 }
    ensures { (k : ℕ) → k < 64 → bit_of result k ≡ (if k == at then bit else bit_of word k) }
{
    let mask = 1u64 << at;
    if bit { word | mask } else { word & !mask }
}
