//! The checker of evidence: trees of cubes, and logs of resolutions. It uses nothing of the search or of the solver.
#![tactic(auto)]

mod assignment;
mod chain;
mod clause;
mod freshness;
mod index;
mod log;
mod looked;
mod reached;
mod refusal;
mod tree;

pub use chain::run_chain;
pub use clause::{Clause, NoPivot, resolve};
pub use evidence_rules::{
    CheckFault, EvidenceKind, Refusal, RefusalKind, chain_ends_or_stops, log_is_refused_once,
    refutation_is_equal, tree_is_refused_once,
};
pub use freshness::fresh;
pub use log::check_log;
pub use refusal::ChainFault;
pub use tree::{TreeChecker, check_tree};
