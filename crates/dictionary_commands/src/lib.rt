//! The commands about dictionaries and adaptive plans, over any shelf.
//!
//! What comments say of files and of the console holds on a shelf that tells them.
#![tactic(auto)]

mod adapt;
mod convert;
mod diagnosis;
mod dict;
mod follow;
mod rank;
mod texts;

pub use adapt::make_plan;
pub use convert::convert_file;
pub use diagnosis::diagnose_log;
pub use dict::make_dictionary;
pub use follow::follow_log;
pub use rank::rank_log;
