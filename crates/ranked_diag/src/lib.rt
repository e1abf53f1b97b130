//! Ranked diagnosis of partial tester logs: fault numbers by how many observed bits differ from their entries.
#![tactic(auto)]

mod counting;
mod laws;
mod line;
mod nearest;
mod observing;
mod partial;
mod ranks;
mod reading;
mod seen_word;
mod seen_words;

pub use counting::mismatches;
pub use laws::{counts_have_one_ranking, partial_log_is_read_once, whole_log_ranks_as_listed};
pub use nearest::ranking;
pub use partial::{Partial, Seen};
pub use ranks::{Counts, Ranking};
pub use reading::{read_partial, read_partial_of};
