//! Which result files are valid, refused and true, and the lines of their tables.
#![tactic(auto)]

mod checked;
mod fault;
mod laws;
mod tables;

pub use checked::{Checked, Summary};
pub use fault::{ResultFault, ResultKind};
pub use laws::{closed_classes_are_equal, file_is_refused_once, valid_is_true};
pub use result_records::{
    Budgets, Evidence, Lines, Mark, Proof, Record, RecordFault, lines_are_what_was_fed, push_line,
    push_pattern, read_record, record_is_spelled_once, write_record,
};
pub use tables::{push_classes, push_head, push_members};
