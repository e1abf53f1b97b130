//! The numbers and names of a circuit's stuck-at faults, and what a pair of them can change.
#![tactic(auto)]

mod destinations;
mod laws;
mod names;
mod numbers;
mod scope;
mod slots;

pub use laws::{one_number, unreached_positions_agree, unsplit_lines_agree};
pub use names::name_text;
pub use numbers::{FaultList, list};
pub use scope::Scope;
