//! The clauses of a pair of faults, and logs of resolutions over them.
#![tactic(auto)]

mod building;
mod helpers;
mod laws;
mod log;
mod miter;
mod numbering;
mod operand;
mod reading;
mod rows;
mod side;
mod space;
mod split;
mod tidier;
mod writer;

pub use building::build;
pub use laws::{
    miter_is_proper, miter_is_small, model_separates, separated_pair_has_model,
    superset_is_not_fresh, tidy_keeps_models,
};
pub use log::{Chain, Log};
pub use miter::Miter;
pub use side::Side;
pub use space::MiterSpace;
pub use split::Copies;
