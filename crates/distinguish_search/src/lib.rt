//! A search for a vector that separates two faults, or for a tree of cubes that proves that there is none.
#![tactic(auto)]

mod climb;
mod depth_first;
mod descent;
mod end;
mod found;
mod frames;
mod levels;
mod pair_search;
mod rule;
mod searched;
mod stack;
mod step;
mod walk;

pub use depth_first::search_with;
pub use found::Found;
pub use levels::Levels;
pub use pair_search::search;
pub use searched::Searched;
