//! Which pairs of values two faults can give a line under a cube, and trees of cubes.
#![tactic(auto)]

mod base;
mod cone;
mod events;
mod fault_pair;
mod images;
mod laws;
mod pair_set;
mod reached;
mod shown;
mod sim;
mod spread;
mod state;
mod tally;
mod trail;
mod tree;

pub use laws::{
    all_same_is_closed, apart_separates, covering_is_equal, full_tree_is_covered, leaves_are_apart,
    leaves_are_closed, leaves_cover_all, no_leaf_is_empty, one_state, relevant_fixed_is_decided,
    sets_cover_real_pairs,
};
pub use pair_set::PairSet;
pub use sim::PairSim;
pub use state::PairState;
pub use tree::{Token, Tree};
