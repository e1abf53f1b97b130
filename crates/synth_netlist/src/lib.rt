//! The netlist of a number: its text, and that it is accepted and never refused.
#![tactic(auto)]

mod cells;

pub use cells::{each_number_is_accepted, no_number_is_refused, synth_text};
