//! The statements of a text, before their names are checked for drivers.
use crate::statement::Statement;
use std::marker::Model;

/// The statements in order, and the names by number.
#[derive(Drop)]
pub(crate) struct Parsed {
    pub(crate) statements: Vec<Statement>,
    pub(crate) names: Vec<Vec<u8>>,
}

impl Model for Parsed {
    ghost use Rattle.bench_reader.specs.Netlist.{Netlist};

    ghost Value = { Netlist };

    ghost use Rattle.bench_reader.specs.ParsedFields.{parsed_in};

    ghost view = { parsed_in };
}
