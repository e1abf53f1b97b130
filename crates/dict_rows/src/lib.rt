//! Tables of answers, and the fault dictionaries made from them.
#![tactic(auto)]

mod answer_table;
mod bits;
mod dict;
mod grouping;
mod projecting;

pub use answer_table::AnswerTable;
pub use bits::{rows_at, write_row};
pub use dict::{Dict, DictKind, Groups};
pub use grouping::{Grouped, Sorted, first_repeat, group_rows};
pub use projecting::{answers_of, full, pass_fail, project};
