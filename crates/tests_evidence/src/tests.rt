//! The modules, by what they test.

mod logs;
mod miters;
mod pools;
mod solvers;
mod trails;
mod trees;
mod trimmed;
