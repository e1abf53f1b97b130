//! A conflict-driven clause learning solver (Marques-Silva and Sakallah 1996) over the miter of a pair of faults. It
//! logs the resolutions of each clause that it learns.
//!
//! A search decides and propagates until a clause is false, resolves that clause with reasons to a clause that says
//! why, goes back to where the learned clause would have forced a literal, and decides again.
//!
//! ```text
//! marks, marking     which variables an analysis has met
//! places, resolving  the walk back along the trail, literal by literal
//! analysis, learning the learned clause, and its place in the pool and on the trail
//! queue, decider     which literal is decided next
//! aim, descent       down to a conflict
//! search, step       one more conflict
//! restarts, sweep    when to begin anew, and where to begin
//! model, logs        what is returned
//! needed, trimming   a refutation without the chains that its end doesn't need
//! solver             all of it
//! ```
#![tactic(auto)]

mod aim;
mod analysis;
mod decider;
mod descent;
mod learning;
mod logs;
mod marking;
mod marks;
mod model;
mod needed;
mod places;
mod queue;
mod resolving;
mod restarts;
mod search;
mod solved;
mod solver;
mod step;
mod sweep;
mod trimming;

pub use solved::Solved;
pub use solver::solve;
pub use trimming::trim;
