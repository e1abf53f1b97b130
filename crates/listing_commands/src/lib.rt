//! The commands that list faults, answers, suspects, covers and bridges, or write the log of a good chip, over any
//! shelf.
//!
//! What comments say of files and of the console holds on a shelf that tells them.
#![tactic(auto)]

mod applied;
mod bridges;
mod cover;
mod expect;
mod faults;
mod laws;
mod sim;
mod suspects;
mod texts;

pub use applied::{expect_log_at, list_bridges_at, list_cover_at, list_suspects_at};
pub use bridges::list_bridges;
pub use cover::list_cover;
pub use expect::expect_log;
pub use faults::list_faults;
pub use laws::{own_list_splits_none, own_patterns_say_same};
pub use sim::simulate;
pub use suspects::list_suspects;
