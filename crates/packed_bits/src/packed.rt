//! `PackedBits`: a list of bits in words of 64.

ghost use Rattle.std.specs.Prelude.{◌≡◌, ◌<◌, ℕ, false, length, replicate, slice_set, IfOk};
ghost use Rattle.net_model.specs.Answer.{bit_at};

use net_model::{Bits, with_bit};
use std::alloc::{AllocError, Global};
use std::marker::Model;

/// A list of bits, of any length, in an eighth of the memory of `Bits`.
#[derive(Debug, Drop)]
pub struct PackedBits {
    words: Vec<u64>,
    len: usize,
}

impl Model for PackedBits {
    ghost use Rattle.std.specs.Prelude.{◌≤◌, ◌*◌, Bool, List, length};
    ghost use Rattle.packed_bits.specs.Packed.{packed_bits};

    ghost Value = { List Bool };

    ghost view = { λ p. packed_bits p.len p.words.items };

    ghost invariant = { λ p. p.len ≤ length p.words.items * 64 };
}

impl PackedBits {
    /// Returns `len` bits, all 0.
    pub fn zeros(alloc: Global, len: usize) -> Result<PackedBits, AllocError>
        ensures { IfOk result (λ packed. packed ≡ replicate len false) }
    {
        Ok(PackedBits {
            words: vec![in alloc; 0; len.div_ceil(64)]?,
            len,
        })
    }

    /// Returns the same bits, unpacked.
    pub fn unpack(&self, alloc: Global) -> Result<Bits, AllocError>
        ensures { IfOk result (λ bits. bits ≡ self.now) }
    {
        let len = self.len();
        let mut bits = Bits::zeros(alloc, len)?;
        for at in 0..len {
            bits.set(at, self.get(at));
        }
        Ok(bits)
    }

    /// Returns the number of bits.
    #[inline]
    pub fn len(&self) -> usize
        ensures { result ≡ length self.now }
    {
        self.len
    }

    /// Returns the bit at a place, which is below `len`.
    #[inline]
    pub fn get(&self, at: usize) -> bool
        requires { at < length self.now }
        ensures { result ≡ bit_at self.now at }
    {
        (self.words[at / 64] >> (at % 64)) & 1 == 1
    }

    /// Sets or clears the bit at a place, which is below `len`.
    #[inline]
    pub fn set(&mut self, at: usize, bit: bool)
        requires { at < length self.old }
        ensures { self.new ≡ slice_set self.old at bit }
    {
        let word = at / 64;
        self.words[word] = with_bit(self.words[word], at % 64, bit);
    }

    /// Returns a copy of the bits.
    pub fn copy(&self) -> Result<PackedBits, AllocError>
        ensures { IfOk result (λ packed. packed ≡ self.now) }
    {
        Ok(PackedBits {
            words: Vec::from_slice(*self.words.allocator(), self.words.as_slice())?,
            len: self.len,
        })
    }
}
