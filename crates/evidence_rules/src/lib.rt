//! The rules of evidence: which trees of cubes and which logs of resolutions are right, how a wrong one is refused, and
//! what a right one shows.
#![tactic(auto)]

mod laws;
mod refusal;

pub use laws::{
    chain_ends_or_stops, log_is_refused_once, refutation_is_equal, tree_is_refused_once,
};
pub use refusal::{CheckFault, EvidenceKind, Refusal, RefusalKind, refused};
