//! Test compaction: drops the patterns of a result that its classes don't need.
#![tactic(auto)]

mod compacting;
mod earlier;
mod keeping;
mod laws;
mod lines;
mod mixed;
mod numbered;
mod sharing;
mod text;
mod thin;
mod thinning;

pub use compacting::{compact, compact_subject};
pub use laws::{each_file_compacts_once, remaining_patterns_are_needed, thin_is_sound};
pub use thin::{Text, Thin};
