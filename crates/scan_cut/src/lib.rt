//! The full-scan cut of a netlist.
#![tactic(auto)]

mod cutting;
mod laws;
mod lines;
mod loops;
mod parts;

pub use cutting::cut;
pub use laws::{few_numbers, ordered_has_no_loop};
