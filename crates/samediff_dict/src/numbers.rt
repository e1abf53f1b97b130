//! `SparseNumbers`: marks of the numbers that aren't 0, how many of them come before each word of marks, and these
//! numbers.

ghost use Rattle.std.specs.Prelude.{◌≡◌, ◌+◌, ◌/◌, ◌%◌, ◌^◌, ◌<◌, [], ◌∷◌, ◌++◌, length, slice_index, count_ones, IfOk, OnOk, OnErr};
ghost use Rattle.samediff_dict.specs.Sparse.{sparse_list, AreSparse};

use std::alloc::{AllocError, Global};
use std::marker::Model;

/// A list of numbers that are mostly 0.
///
/// In memory there are the numbers that aren't 0, and one and a half bits for each number.
#[derive(Debug, Drop)]
pub struct SparseNumbers {
    // A bit for each number, which is 1 if it isn't 0, in words of 64, the lowest first.
    marks: Vec<u64>,
    // How many numbers that aren't 0 come before each word.
    before: Vec<u32>,
    // The numbers that aren't 0, in order of place.
    others: Vec<u32>,
    len: usize,
}

impl Model for SparseNumbers {
    ghost use Rattle.std.specs.Prelude.{List, ℕ};

    ghost Value = { List ℕ };

    ghost use Rattle.samediff_dict.specs.Sparse.{sparse_list, AreSparse};

    ghost view = { λ a. sparse_list a.marks.items a.before.items a.others.items a.len };

    ghost invariant = { λ a. AreSparse a.marks.items a.before.items a.others.items a.len };
}

impl SparseNumbers {
    /// Returns an empty list, with room for the marks of `count` numbers.
    pub fn with_room(alloc: Global, count: usize) -> Result<SparseNumbers, AllocError>
        ensures { IfOk result (λ numbers. numbers ≡ []) }
    {
        let words = count.div_ceil(64);
        Ok(SparseNumbers {
            marks: Vec::with_capacity(alloc, words)?,
            before: Vec::with_capacity(alloc, words)?,
            others: Vec::new(alloc),
            len: 0,
        })
    }

    /// Returns the count of numbers.
    pub fn len(&self) -> usize
        ensures { result ≡ length self.now }
    {
        self.len
    }

    /// Returns the number at a place, which is below `len`.
    #[inline]
    pub fn get(&self, place: usize) -> u32
        requires { place < length self.now }
        ensures { result ≡ slice_index self.now place }
    {
        let word = self.marks[place / 64];
        let bit = place % 64;
        if (word >> bit) & 1 == 0 {
            return 0;
        }
        self.others[self.before[place / 64] as usize + ones_below(word, bit)]
    }

    /// Adds a number at the end. After an error nothing has changed.
    pub fn push(&mut self, number: u32) -> Result<(), AllocError>
        requires { length self.old < 2 ^ 32 }
        ensures ok { OnOk result (self.new ≡ self.old ++ number ∷ []) }
        ensures err { OnErr result (self.new ≡ self.old) }
    {
        make_room(
            &mut self.marks,
            &mut self.before,
            self.others.as_slice(),
            self.len,
        )?;
        if number != 0 {
            self.others.push(number)?;
            let at = self.len / 64;
            self.marks[at] = with_bit_above(self.marks[at], self.len % 64);
        }
        self.len += 1;
        Ok(())
    }
}

// Ensures that the next place has a word.
fn make_room(
    marks: &mut Vec<u64>,
    before: &mut Vec<u32>,
    others: &[u32],
    len: usize,
) -> Result<(), AllocError>
    requires few { len < 2 ^ 32 }
    requires sparse { AreSparse marks.old.items before.old.items others.now len }
    ensures sparse { AreSparse marks.new.items before.new.items others.now len }
    ensures same { sparse_list marks.new.items before.new.items others.now len ≡ sparse_list marks.old.items before.old.items others.now len }
    ensures room { OnOk result (len / 64 < length marks.new.items) }
{
    if len / 64 < marks.len() {
        return Ok(());
    }
    before.reserve(1)?;
    marks.push(0)?;
    before.push_reserved(others.len() as u32);
    Ok(())
}

// Returns how many of the bits below `bit` are set.
#[inline]
fn ones_below(word: u64, bit: usize) -> usize
    requires { bit < 64 }
    ensures { result ≡ count_ones (word % 2 ^ bit) }
{
    (word & ((1 << bit) - 1)).count_ones() as usize
}

// Returns the word with a bit set that is above all of its own.
fn with_bit_above(word: u64, bit: usize) -> u64
    requires bit { bit < 64 }
    requires above { word < 2 ^ bit }
    ensures { result ≡ 2 ^ bit + word }
{
    word | (1 << bit)
}
