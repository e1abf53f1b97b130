//! What the words of the command line ask for. The first is a command; `clap` reads the others by a simple definition
//! of that command.
#![tactic(auto)]

mod arguments;
mod commands;
mod request;

pub use arguments::WordsFault;
pub use request::{EntryKind, Request, read_words};
