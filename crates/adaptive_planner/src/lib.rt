//! Adaptive diagnosis: the plan for the classes of a table of answers, or of a circuit's patterns.
#![tactic(auto)]

mod circuit_numbers;
mod class_numbers;
mod counting;
mod laws;
mod numbering;
mod parting;
mod planner;
mod planning;
mod table_numbers;

pub use laws::{one_plan_of_a_table, plan_of_a_table_is_good};
pub use planning::{plan, plan_at};
