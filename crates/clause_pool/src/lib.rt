//! Clauses of literals, kept in one region with room for more. The definitions about clauses that other crates share,
//! such as which variables a clause has, are here.
#![tactic(auto)]

mod lit;
mod pool;

pub use lit::Lit;
pub use pool::{Full, Mark, Pool};
