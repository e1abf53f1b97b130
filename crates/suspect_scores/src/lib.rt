//! Which faults explain what a chip answered, though none may explain all of it.
#![tactic(auto)]

mod bit_count;
mod block_scores;
mod choices;
mod choosing;
mod columns;
mod covering;
mod expecting;
mod explaining;
mod failed;
mod laws;
mod logged;
mod marks;
mod scoring;
mod suspect;
mod suspecting;

pub use block_scores::fitting_word;
pub use choices::{Choice, Cover};
pub use columns::LogColumns;
pub use covering::cover;
pub use expecting::expected_log;
pub use failed::{count_failing, is_failing};
pub use laws::{
    circuits_are_classed, classed_are_alike, expected_log_lists_nothing, members_score_alike,
    one_cover_explains, one_list_of_suspects,
};
pub use logged::Logged;
pub use marks::LogMarks;
pub use suspect::{Suspect, Suspects};
pub use suspecting::suspects;
