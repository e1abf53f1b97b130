//! Tables of answers, and the fault dictionaries made from them, by simulation.
#![tactic(auto)]

mod answers;
mod by_class;
mod by_root;
mod direct;
mod free_block;
mod laws;
mod pairs;
mod pattern_sim;
mod setting;
mod simulating;

pub use answers::{answers_at, number_answers_at};
pub use by_class::{dict_of_classes, representatives};
pub use dict_rows::{
    AnswerTable, Dict, DictKind, Grouped, Groups, first_repeat, full, group_rows, pass_fail,
    project,
};
pub use direct::{full_at, pass_fail_at};
pub use laws::one_table_of_answers;
pub use pairs::{apart, count_one};
pub use pattern_sim::{PatternSim, fill_block};
pub use setting::Setting;
