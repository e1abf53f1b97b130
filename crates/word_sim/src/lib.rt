//! Simulation of many vectors at once: the stream of vectors, blocks of vectors, and the circuit without a fault.
#![tactic(auto)]

mod block;
mod fixing;
mod gate_lanes;
mod good_sim;
mod lanes;
mod laws;
mod stream;

pub use block::Block;
pub use good_sim::GoodSim;
pub use lanes::{LANES, Lanes};
pub use laws::{first_block_has_all, stream_continues};
pub use stream::Stream;
