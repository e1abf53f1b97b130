//! `Lanes`, a bit for each vector of a block, in four words of 64 bits that are one SIMD vector, and `LANES`, how many
//! bits these are.

ghost use Rattle.std.specs.Prelude.{◌≡◌, ℕ, ◌+◌, ◌/◌, ◌%◌, ◌<◌, ◌≤◌, ◌≢◌, Bool, List, [], ◌∷◌, ◌++◌, length, true, not, ◌&&◌, ◌||◌, nat_lt, IsTrue, ◌↔◌, if◌then◌else◌};
ghost use Rattle.net_model.specs.Gate.{folded_bit, inverted};
ghost use Rattle.net_model.specs.Answer.{bit_at};
ghost use Rattle.net_model.specs.Rows.{bit_of};

use net_model::{Fold, low_bits, with_bit};
use std::fmt;
use std::marker::Model;
use std::simd::u64x4;

/// How many vectors a block can hold.
pub const LANES: u32 = 256;

/// A bit for each lane. Lane `t` is that of vector `t` of a block.
#[derive(Clone, Copy)]
pub struct Lanes {
    // Each word has 64 lanes, the lowest digit first.
    words: u64x4,
}

impl Model for Lanes {
    ghost use Rattle.std.specs.Prelude.{List, Bool};

    ghost Value = { List Bool };

    ghost use Rattle.word_sim.specs.Lanes.{words_of};
    ghost use Rattle.word_sim.specs.LanesFields.{lane_bits, AreFourWords, words_of-bits_of};

    ghost view = { lane_bits };

    ghost invariant = { λ l. AreFourWords l.words };

    ghost inverse = { λ bits. record { words = words_of bits } };

    ghost inverse_ok = { λ l h. λ i. record { words = words_of-bits_of l h i } };
}

// Written by hand, since `u64x4` has no `Debug`.
impl fmt::Debug for Lanes {
    fn fmt<W: fmt::Write>(&self, f: &mut fmt::Formatter<W>) -> fmt::Result {
        let words = self.words.to_array();
        write!(f, "Lanes({words:?})")
    }
}

impl Lanes {
    /// Returns lanes that all have `bit`.
    #[inline]
    pub fn all(bit: bool) -> Lanes
        ensures { (lane : ℕ) → lane < LANES → bit_at result lane ≡ bit }
    {
        Lanes {
            words: u64x4::splat(if bit { u64::MAX } else { 0 }),
        }
    }

    /// Returns the bit of `lane`.
    #[inline]
    pub fn get(&self, lane: u32) -> bool
        requires { lane < LANES }
        ensures value { result ≡ bit_at self.now lane }
        ensures whole { length self.now ≡ LANES }
    {
        (self.words.to_array()[(lane / 64) as usize] >> (lane % 64)) & 1 == 1
    }

    /// Returns 1 in each lane in which both have 1.
    #[inline]
    pub fn and(self, other: Lanes) -> Lanes
        ensures { (lane : ℕ) → lane < LANES → bit_at result lane ≡ (bit_at self lane && bit_at other lane) }
    {
        Lanes {
            words: self.words & other.words,
        }
    }

    /// Returns 1 in each lane in which at least one of the two has 1.
    #[inline]
    pub fn or(self, other: Lanes) -> Lanes
        ensures { (lane : ℕ) → lane < LANES → bit_at result lane ≡ (bit_at self lane || bit_at other lane) }
    {
        Lanes {
            words: self.words | other.words,
        }
    }

    /// Returns 1 in each lane in which the two differ.
    #[inline]
    pub fn xor(self, other: Lanes) -> Lanes
        ensures { (lane : ℕ) → lane < LANES → bit_at result lane ≡ (if bit_at self lane then not (bit_at other lane) else bit_at other lane) }
    {
        Lanes {
            words: self.words ^ other.words,
        }
    }

    /// Returns the opposite bit in each lane.
    #[inline]
    pub fn not(self) -> Lanes
        ensures { (lane : ℕ) → lane < LANES → bit_at result lane ≡ not (bit_at self lane) }
    {
        Lanes { words: !self.words }
    }

    /// Returns the opposite bit in each lane if `inverts` is true, else the same bit.
    #[inline]
    pub fn inverted(self, inverts: bool) -> Lanes
        ensures { (lane : ℕ) → lane < LANES → bit_at result lane ≡ inverted inverts (bit_at self lane) }
    {
        Lanes::all(inverts).xor(self)
    }

    /// Returns in each lane the bit of `zero` if `self` has 0 there, and the bit of `one` if it has 1.
    #[inline]
    pub fn select(self, zero: Lanes, one: Lanes) -> Lanes
        ensures { (lane : ℕ) → lane < LANES → bit_at result lane ≡ (if bit_at self lane then bit_at one lane else bit_at zero lane) }
    {
        self.and(one).or(self.not().and(zero))
    }

    /// Returns in each lane the value of `fold` for no bits.
    #[inline]
    pub fn folded_none(fold: Fold) -> Lanes
        ensures { (lane : ℕ) → lane < LANES → bit_at result lane ≡ folded_bit fold [] }
    {
        match fold {
            Fold::AllOf => Lanes::all(true),
            Fold::AnyOf | Fold::OddOf => Lanes::all(false),
        }
    }

    /// Adds one bit to the fold in each lane: if `self` has the value of `fold` for some bits, the result has its value
    /// for these bits and the bit of `other`.
    #[inline]
    pub fn folded_more(self, fold: Fold, other: Lanes) -> Lanes
        ensures { (lane : ℕ) (bits : List Bool) → lane < LANES → bit_at self lane ≡ folded_bit fold bits → bit_at result lane ≡ folded_bit fold (bits ++ bit_at other lane ∷ []) }
    {
        match fold {
            Fold::AllOf => self.and(other),
            Fold::AnyOf => self.or(other),
            Fold::OddOf => self.xor(other),
        }
    }

    /// Returns whether some lane has 1.
    #[inline]
    pub fn any(self) -> bool
        ensures { IsTrue result ↔ ((lane : ℕ) × (lane < LANES) × IsTrue (bit_at self lane)) }
    {
        self.words.reduce_or() != 0
    }

    // Returns the same bits except in `lane`, which has `bit`.
    #[inline]
    pub(crate) fn with(self, lane: u32, bit: bool) -> Lanes
        requires { lane < LANES }
        ensures same { bit_at result lane ≡ bit }
        ensures others { (other : ℕ) → other < LANES → other ≢ lane → bit_at result other ≡ bit_at self other }
    {
        let at = lane / 64;
        self.with_word(at, with_bit(self.word(at), (lane % 64) as usize, bit))
    }

    /// Returns 1 in the first `live` lanes, and 0 in all others.
    #[inline]
    pub fn first(live: u32) -> Lanes
        requires { live ≤ LANES }
        ensures { (lane : ℕ) → lane < LANES → bit_at result lane ≡ nat_lt lane live }
    {
        Lanes {
            words: u64x4::from_array([
                first_word(live, 0),
                first_word(live, 64),
                first_word(live, 128),
                first_word(live, 192),
            ]),
        }
    }

    /// Returns the bits of the 64 lanes starting at lane `64 * at` as a word. The first lane is its lowest digit.
    #[inline]
    pub fn word(self, at: u32) -> u64
        requires { at < LANES / 64 }
        ensures { (lane : ℕ) → lane < LANES → lane / 64 ≡ at → bit_of result (lane % 64) ≡ bit_at self lane }
    {
        self.words.to_array()[at as usize]
    }

    // Returns the same bits except in the 64 lanes starting at lane `64 * at`, which have the binary digits of `word`.
    #[inline]
    pub(crate) fn with_word(self, at: u32, word: u64) -> Lanes
        requires { at < LANES / 64 }
        ensures here { (lane : ℕ) → lane < LANES → lane / 64 ≡ at → bit_at result lane ≡ bit_of word (lane % 64) }
        ensures others { (lane : ℕ) → lane < LANES → lane / 64 ≢ at → bit_at result lane ≡ bit_at self lane }
    {
        let mut words = self.words.to_array();
        words[at as usize] = word;
        Lanes {
            words: u64x4::from_array(words),
        }
    }
}

// Returns the word of the 64 lanes starting at `start`, with 1 in each lane below `live`.
#[inline]
fn first_word(live: u32, start: u32) -> u64
    ensures { (at : ℕ) → at < 64 → bit_of result at ≡ nat_lt (start + at) live }
{
    low_bits(u64::MAX, live.saturating_sub(start) as usize)
}
