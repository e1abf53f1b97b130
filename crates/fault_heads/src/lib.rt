//! Faults as heads: the line or position that a fault turns at the end of its way, and in which vectors of a block it
//! turns it.
#![tactic(auto)]

mod destination;
mod head;
mod heads;
mod laws;
mod pins;
mod turns;

pub use head::{Head, Turn};
pub use heads::Heads;
pub use laws::{line_turns_gate, pin_turns_gate, position_turns_itself, stem_turns_line};
pub use turns::first_turn;
