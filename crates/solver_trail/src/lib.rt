//! The trail of a solver that learns clauses from conflicts (Marques-Silva and Sakallah 1996): the literals that are
//! set so far, and unit propagation with two watched literals over the clauses of a pool.
//!
//! A solver decides a literal, which begins a new level, and propagates: if all literals of a clause except one are
//! false, that one is set at the present level, with the clause as its reason. Propagation ends when nothing is left
//! to do, or at a clause that is false. The solver then learns a clause, goes back to a lower level, attaches the
//! clause, and propagates again.
//!
//! ```text
//! set_literals   the literals that are set, each with its level and its reason
//! choice         which two of its literals a clause watches when it is attached
//! link           a link from one watch to the next
//! watches        the watched literals, and for each literal the list of its watches
//! propagation    propagation over clauses of one literal, and over the watches of literals that have become false
//! trail          what a solver calls
//! ```
#![tactic(auto)]

mod choice;
mod laws;
mod link;
mod propagation;
mod set_literals;
mod trail;
mod watches;

pub use laws::longer_pool_fits;
pub use trail::{Propagated, Trail};
