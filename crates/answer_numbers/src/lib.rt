//! Exact numbers of the answers of fault numbers to the vectors of a block.
#![tactic(auto)]

mod differences;
mod growing;
mod node_numbers;
mod numbers;
mod trees;

pub use numbers::AnswerNumbers;
