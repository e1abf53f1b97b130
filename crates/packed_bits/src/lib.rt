//! Lists of bits, in words of 64.
#![tactic(auto)]

mod packed;

pub use packed::PackedBits;
