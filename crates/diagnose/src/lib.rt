//! Tester logs and lists of vectors read from text, and the fault numbers that a log points to.
#![tactic(auto)]

mod fault;
mod laws;
mod lines;
mod listing;
mod log;
mod vectors;

pub use fault::{LogFault, LogKind};
pub use laws::{list_is_read_once, log_is_read_once};
pub use lines::{TEXT_LIMIT, check_size};
pub use listing::matches;
pub use log::read_log;
pub use vectors::read_vectors;
