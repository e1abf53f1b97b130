//! A shelf of real files and standard output.
#![tactic(auto)]

mod real;

pub use real::RealShelf;
