//! The choice of baselines for a same/different dictionary.
#![tactic(auto)]

mod choosing;
mod copying;
mod descending;
mod differing;
mod gain_table;
mod gains;
mod groups;
mod improving;
mod laws;
mod made;
mod moved;
mod numbering;
mod numbers;
mod partition;
mod setting;

pub use copying::choose;
pub use laws::{keeps_as_many, no_row_is_better, none_is_left};
pub use made::same_diff_at;
pub use numbers::SparseNumbers;
