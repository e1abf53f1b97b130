//! Numbers that wait; the lowest is taken first.
#![tactic(auto)]

mod queue;

pub use queue::NumberQueue;
