//! Bits from text, and text from bits.

ghost use Rattle.std.specs.Prelude.{◌≡◌, IfOk, map, string_bytes};
ghost use Rattle.net_model.specs.BitText.{bit_digit};
ghost use Rattle.sample_circuits.specs.Digits.{bits_of};

use net_model::Bits;
use std::alloc::{AllocError, Global};

/// Returns the bits of the text: 1 for each digit 1, and 0 for each other byte.
pub fn bits(alloc: Global, text: &str) -> Result<Bits, AllocError>
    ensures { IfOk result (λ bits. bits ≡ bits_of text.now) }
{
    let mut bits = Bits::zeros(alloc, text.len())?;
    for (at, digit) in text.as_bytes().iter().enumerate() {
        bits.set(at, *digit == b'1');
    }
    Ok(bits)
}

/// Returns the digits of the bits as text.
pub fn text_of(alloc: Global, bits: &Bits) -> Result<String, AllocError>
    ensures { IfOk result (λ text. string_bytes text ≡ map bit_digit bits.now) }
{
    let mut text = String::new(alloc);
    for at in 0..bits.len() {
        text.push_str(if bits.get(at) { "1" } else { "0" })?;
    }
    Ok(text)
}
