//! Bridging faults: which two lines of a chip may be shorted, even if no single stuck-at fault explains what it
//! answered.
#![tactic(auto)]

mod best;
mod bridge;
mod choosing;
mod cones;
mod laws;
mod line_rows;
mod listing;
mod scored;
mod searching;
mod simulating;

pub use bridge::{Bridge, BridgeKind};
pub use laws::{
    expected_log_lists_nothing, explains_as_one_number, one_bridged_valuation, one_list_of_bridges,
    own_log_is_exact, stems_explain_what_a_bridge_does, trimmed_log_finds_again, victim_is_stuck,
    wider_search_finds_more,
};
pub use listing::bridges;
pub use scored::{Bridges, ScoredBridge};
