//! What the commands of the program share: reading and judging files, printing texts, making files, and the endings of
//! runs.
//!
//! What comments say of files and of the console holds on a shelf that tells them.
#![tactic(auto)]

mod adaptive_plans;
mod dictionaries;
mod ending;
mod ends;
mod log_reads;
mod logs;
mod netlists;
mod reads;
mod results;
mod texts;
mod words;

pub use adaptive_plans::read_adaptive_plan;
pub use dictionaries::read_dictionary;
pub use ending::{FileKind, RunFault, one_ending_each, status_of};
pub use ends::{save, say, write_fault};
pub use log_reads::{read_log_at, read_log_of};
pub use logs::{read_list, read_observed, read_partial_log, read_vector_list, read_walk};
pub use netlists::{judge_netlist, read_design};
pub use results::{WholeResult, read_result, read_whole_result, setting_of};
pub use words::refuse_words;
