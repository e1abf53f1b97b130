//! Bits that are written as digits.

ghost use Rattle.std.specs.Prelude.{◌≡◌, IfOk};
ghost use Rattle.text_fields.specs.Fields.{digit_bits};

use packed_bits::PackedBits;
use std::alloc::{AllocError, Global};

/// Returns the bits that the digits spell.
pub(crate) fn bits_of(alloc: Global, digits: &[u8]) -> Result<PackedBits, AllocError>
    ensures { IfOk result (λ bits. bits ≡ digit_bits digits.now) }
{
    let mut bits = PackedBits::zeros(alloc, digits.len())?;
    for (at, digit) in digits.iter().enumerate() {
        bits.set(at, *digit == b'1');
    }
    Ok(bits)
}
