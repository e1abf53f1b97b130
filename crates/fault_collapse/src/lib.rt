//! Fault collapse: which faults are equal because of the gates at which they are.
#![tactic(auto)]

mod forest;
mod laws;
mod roots;
mod subject;
mod successors;

pub use forest::{Forest, collapse};
pub use laws::{root_is_last, same_root_equal};
pub use subject::Subject;
