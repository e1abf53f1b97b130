//! The marks of the numbers of a class table, by the last evidence that names each, and how many are marked equal or
//! left open.
#![tactic(auto)]

mod counts;
mod marks;

pub use counts::MarkCounts;
pub use marks::{Given, Marks, mark_of};
