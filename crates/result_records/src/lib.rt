//! The records of a result file, how they are spelled, written and read, and lines of bytes that come in pieces.
#![tactic(auto)]

mod evidence;
mod fault;
mod laws;
mod limits;
mod lines;
mod read;
mod record;
mod words;
mod write;
mod write_log;

pub use fault::RecordFault;
pub use laws::{lines_are_what_was_fed, record_is_spelled_once};
pub use limits::{BLOCKS_LIMIT, CONFLICTS_LIMIT, CUBES_LIMIT, RESULT_LIMIT};
pub use lines::Lines;
pub use read::read_record;
pub use record::{Budgets, Evidence, Mark, Proof, Record};
pub use write::{push_line, push_pattern, write_record};
