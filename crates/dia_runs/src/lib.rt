//! The runs of the program: `run` does what the words of the command line ask for, over any shelf.
#![tactic(auto)]

mod commands;

pub use commands::run;
