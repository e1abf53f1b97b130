//! Bits as digits.

ghost use Rattle.std.specs.Prelude.{◌≡◌, ◌≢◌, ◌<◌, ◌↔◌, ◌++◌, ℕ, Bool, List, length, slice_index, IsTrue, EachIndex, MatchOption, IfOk, OnOk, OnErr};
ghost use Rattle.std.specs.String.{string_bytes};
ghost use Rattle.net_model.specs.BitText.{bits_text};
ghost use Rattle.text_fields.specs.Fields.{digit_bits, AreBitsOf, IsDigit, AreDigitsIn};

use net_model::Bits;
use std::alloc::{AllocError, Global};

/// Returns the digits of a field of bits: all of it, or no digits if it is a dash. Returns none exactly if the field is
/// no text of bits.
pub fn digits_of(field: &[u8]) -> Option<&[u8]>
    ensures { MatchOption result ((bits : List Bool) → bits_text bits ≢ field.now) (λ digits. AreDigitsIn field.now digits.now) }
{
    if field == b"-".as_slice() {
        return Some(&field[..0]);
    }
    if field.is_empty() {
        return None;
    }
    if !are_digits(field) {
        return None;
    }
    Some(field)
}

// Returns whether each byte is the digit of a bit.
fn are_digits(field: &[u8]) -> bool
    ensures { IsTrue result ↔ EachIndex field.now (λ k. IsDigit (slice_index field.now k)) }
{
    field.iter().all(|b| *b == b'0' || *b == b'1')
}

/// Returns the bits of digits.
pub fn bits_of(alloc: Global, digits: &[u8]) -> Result<Bits, AllocError>
    ensures { IfOk result (λ bits. bits ≡ digit_bits digits.now) }
{
    let mut bits = Bits::zeros(alloc, digits.len())?;
    for (at, digit) in digits.iter().enumerate() {
        bits.set(at, *digit == b'1');
    }
    Ok(bits)
}

/// Appends `count` bits as digits, the bit that `bit` returns at each place, or a dash if `count` is 0. After an error
/// the text that was there is followed by anything or nothing.
pub fn push_bits<F: Fn(usize) -> bool>(
    text: &mut String,
    count: usize,
    bit: F,
) -> Result<(), AllocError>
    requires { (at : ℕ) → at < count → F.pre bit at }
    ensures ok { (bits : List Bool) → AreBitsOf (F.post bit) count bits → OnOk result (string_bytes text.new ≡ string_bytes text.old ++ bits_text bits) }
    ensures err { OnErr result ((some : List ℕ) × (string_bytes text.new ≡ string_bytes text.old ++ some)) }
{
    if count == 0 {
        text.push('-')?;
    }
    for at in 0..count {
        text.push(if bit(at) { '1' } else { '0' })?;
    }
    Ok(())
}
