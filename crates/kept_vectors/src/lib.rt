//! The vectors that are kept for a circuit: each that splits a class of those kept before it.
#![tactic(auto)]

mod apart;
mod cube;
mod differences;
mod keeper;
mod laws;
mod leaving;
mod notes;
mod parting;
mod scan;
mod standing;
mod tally;
mod units;
mod waiting;

pub use cube::Cube;
pub use keeper::Keeper;
pub use laws::{
    kept_answer_alike, kept_once, kept_tell_as_much, none_of_list_splits, nothing_more_is_kept,
    splitters_are_kept, tables_are_parted_by,
};
pub use parting::classes_of;
