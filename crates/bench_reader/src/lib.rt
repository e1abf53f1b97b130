//! Netlist texts in the `.bench` format.
#![tactic(auto)]

mod drivers;
mod fault;
mod laws;
mod numbers;
mod parsed;
mod parsing;
mod reading;
mod scanner;
mod shape;
mod statement;
mod word;

pub use fault::{NetFault, NetKind, Place};
pub use laws::{
    accepted_or_refused, lines_spell, never_accepted_and_refused, one_netlist, one_refusal,
    spelled_is_accepted,
};
pub use reading::{NETLIST_LIMIT, read};
pub use statement::{Statement, Statements, Word, Words};
