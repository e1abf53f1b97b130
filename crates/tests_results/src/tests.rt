//! The modules, by what they test.

mod compacted;
mod fallen;
mod known;
mod lines;
mod logs;
mod outcome;
mod pieces;
mod reading;
mod refused;
mod tables;
mod texts;
mod valid;
