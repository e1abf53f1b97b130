//! What the crates of tests build: circuits, faults of these, and bits from text.
#![tactic(auto)]

mod building;
mod circuits;
mod faults;
mod texts;

pub use building::{CircuitParts, PartsFault, all_below, circuit, gate, takes};
pub use circuits::{
    AND_OF_TWO, BETWEEN_CONSTANTS, BUFFER, NOT_AND_OR, SAME_DATA, SHOWN_TWICE, WITH_CONSTANT,
    XOR_OF_ONE,
};
pub use faults::{pin, position, stands, stem};
pub use texts::{bits, text_of};
