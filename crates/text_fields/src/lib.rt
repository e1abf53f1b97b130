//! Numbers and bits as fields of a line of text, and texts that are cut at a byte.
#![tactic(auto)]

mod cutting;
mod digits;
mod numbers;

pub use cutting::cut;
pub use digits::{bits_of, digits_of, push_bits};
pub use numbers::{number_of, number_of_bytes};
