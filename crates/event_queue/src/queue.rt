//! `NumberQueue`: numbers below a count, in words of 64 bits; the lowest that waits is taken first.

ghost use Rattle.std.specs.Prelude.{◌≡◌, ◌≢◌, ◌<◌, ◌≤◌, ◌*◌, ◌^◌, ◌⊎◌, ℕ, true, false, length, slice_index, All, Contains, IfOk, IfSome, MatchOption};
ghost use Rattle.event_queue.specs.Pending.{is_pending, IsEmpty, IsLowest};

use std::alloc::{AllocError, Global};
use std::marker::Model;

/// A set of numbers that wait, all below a count.
#[derive(Debug, Drop)]
pub struct NumberQueue {
    words: Vec<u64>,
    count: usize,
    low: usize,
    top: usize,
}

impl Model for NumberQueue {
    ghost use Rattle.std.specs.Prelude.{List, Bool};

    ghost Value = { List Bool };

    ghost use Rattle.event_queue.specs.QueueFields.{marks_of, IsBounded};

    ghost view = { marks_of };

    ghost invariant = { IsBounded };
}

impl NumberQueue {
    /// Returns a queue of the numbers below `count` in which none waits. No later call takes memory.
    pub fn new(alloc: Global, count: usize) -> Result<NumberQueue, AllocError>
        requires { count < 2 ^ 32 }
        ensures none { IfOk result (λ queue. IsEmpty queue) }
        ensures room { IfOk result (λ queue. length queue ≡ count) }
    {
        Ok(NumberQueue {
            words: vec![in alloc; 0; count.div_ceil(64)]?,
            count,
            low: 0,
            top: 0,
        })
    }

    /// Returns a queue of the numbers below `count` in which all wait. No later call takes memory. This is for tests
    /// and for callers from outside.
    pub fn all(alloc: Global, count: usize) -> Result<NumberQueue, AllocError>
        requires { count < 2 ^ 32 }
        ensures all { IfOk result (λ queue. (n : ℕ) → n < count → is_pending queue n ≡ true) }
        ensures room { IfOk result (λ queue. length queue ≡ count) }
    {
        let mut queue = NumberQueue::new(alloc, count)?;
        for number in 0..count {
            queue.insert(number as u32);
        }
        Ok(queue)
    }

    /// Makes `number` wait.
    pub fn insert(&mut self, number: u32)
        requires { number < length self.old }
        ensures room { length self.new ≡ length self.old }
        ensures here { is_pending self.new number ≡ true }
        ensures others { (n : ℕ) → n ≢ number → is_pending self.new n ≡ is_pending self.old n }
    {
        let at = number as usize / 64;
        self.words[at] = self.words[at] | (1 << (number % 64));
        self.low = self.low.min(at);
        self.top = self.top.max(at + 1);
    }

    /// Makes each of `numbers` wait, besides those that wait already.
    pub fn wake(&mut self, numbers: &[u32])
        requires { All (λ number. number < length self.old) numbers.now }
        ensures room { length self.new ≡ length self.old }
        ensures here { (n : ℕ) → Contains numbers.now n → is_pending self.new n ≡ true }
        ensures kept { (n : ℕ) → is_pending self.old n ≡ true → is_pending self.new n ≡ true }
        ensures only { (n : ℕ) → is_pending self.new n ≡ true → is_pending self.old n ≡ true ⊎ Contains numbers.now n }
    {
        for number in numbers {
            self.insert(*number);
        }
    }

    /// Takes out the lowest number that waits and returns it; no number below `from` may wait. Returns none exactly if
    /// no number waits, and then none waits after the call either.
    pub fn take_lowest(&mut self, from: u32) -> Option<u32>
        requires { (n : ℕ) → n < from → is_pending self.old n ≡ false }
        ensures room { length self.new ≡ length self.old }
        ensures cases { MatchOption result (IsEmpty self.old × IsEmpty self.new) (IsLowest self.old self.new) }
        ensures above { IfSome result (λ lowest. from ≤ lowest) }
        ensures within { IfSome result (λ lowest. lowest < length self.old) }
    {
        let at = first_word(
            self.words.as_slice(),
            self.low.max(from as usize / 64),
            self.top,
        );
        if at >= self.top {
            self.low = self.words.len();
            self.top = 0;
            return None;
        }
        let word = self.words[at];
        let digit = word.trailing_zeros();
        self.words[at] = word & !(1 << digit);
        self.low = at;
        Some(at as u32 * 64 + digit)
    }
}

// Returns the place of the first word that isn't 0, starting at place `from`, or `end` if there is none before `end`.
fn first_word(words: &[u64], from: usize, end: usize) -> usize
    requires { end ≤ length words.now }
    ensures within { result ≤ end }
    ensures before { (at : ℕ) → from ≤ at → at < result → slice_index words.now at ≡ 0 }
    ensures found { result < end → 0 < slice_index words.now result }
{
    for at in from..end {
        if words[at] != 0 {
            return at;
        }
    }
    end
}
