//! A fault at all vectors of a block at once: where the answers under it differ from the fault-free ones.
#![tactic(auto)]

mod events;
mod rows;
mod sim;
mod turned;

pub use sim::FaultSim;
