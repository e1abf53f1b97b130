//! The generator of results.
#![tactic(auto)]

mod ahead;
mod block;
mod counts;
mod draft;
mod fallen;
mod gathered;
mod laws;
mod output;
mod pair;
mod setting;
mod writing;

pub use laws::{
    file_of_list_is_one, file_of_stream_is_one, list_is_graded, patterns_split_in_turn,
};
pub use output::{ToppedUp, generate, top_up};
