//! Adaptive diagnosis: plans in which the pattern to apply next depends on the answers so far, their texts, and the
//! walk that a log of answers takes in a plan.
#![tactic(auto)]

mod adding;
mod answer_line;
mod counts;
mod digits;
mod fault;
mod judging;
mod laws;
mod line;
mod open_ways;
mod outcome;
mod places;
mod reader;
mod reading;
mod steps;
mod walk;
mod writing;

pub use fault::{PlanFault, PlanKind};
pub use laws::{
    one_node_of_steps, plan_is_read_once, walk_is_read_once, well_formed_tree_is_right,
    written_plan_is_read,
};
pub use outcome::Outcome;
pub use reading::read_plan;
pub use steps::{Plan, Step, Steps};
pub use walk::follow;
pub use writing::write_plan;
