//! The scope of a pair of faults as lists, in memory that is reused from pair to pair.
#![tactic(auto)]

mod listed;
mod places;
mod reached;
mod relevant;
mod scope;
mod split;

pub use scope::PairScope;
