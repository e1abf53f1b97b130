//! The statements of a netlist.
ghost use Rattle.std.specs.Prelude.{◌≡◌, ◌<◌, ◌++◌, ◌∷◌, [], length, slice_index_or, OnOk, OnErr};
ghost use Rattle.bench_reader.specs.Driven.{IsDriven};

use crate::fault::Place;
use net_model::Kind;
use smallvec::SmallVec;
use std::alloc::{AllocError, Global};
use std::marker::Model;

/// A name, as its number, and the place where it is written.
#[derive(Clone, Copy, Debug, Default)]
pub struct Word {
    pub name: u32,
    pub place: Place,
}

/// A list of words.
#[derive(Debug)]
pub struct Words {
    words: SmallVec<Word, 4>,
}

impl Model for Words {
    ghost use Rattle.bench_reader.specs.declared.statement.Word.{Word};
    ghost use Rattle.std.specs.Prelude.{List};

    ghost Value = { List Word };

    ghost view = { λ a. a.words.items };
}

impl Words {
    pub(crate) fn new(alloc: Global) -> Words
        ensures { result ≡ [] }
    {
        let words = SmallVec::new(alloc);
        Words { words }
    }

    pub(crate) fn push(&mut self, word: Word) -> Result<(), AllocError>
        ensures ok { OnOk result (self.new ≡ self.old ++ word ∷ []) }
        ensures err { OnErr result (self.new ≡ self.old) }
    {
        Ok(self.words.push(word)?)
    }

    pub fn as_slice(&self) -> &[Word]
        ensures { result.now ≡ self.now }
    {
        self.words.as_slice()
    }
}

// As for `Statements`.
impl Drop for Words {
    fn drop(self) {
        let Words { words: _ } = self;
    }
}

/// An input; an observed name; a gate, with the name that it drives and its pins; or a flip-flop, with its output and
/// its data pin.
#[derive(Debug, Drop)]
pub enum Statement {
    Input(Word),
    Output(Word),
    Drive(Word, Kind, Words),
    Flop(Word, Word),
}

/// The statements of a netlist, and its names by number.
#[derive(Debug)]
pub struct Statements {
    pub(crate) statements: Vec<Statement>,
    pub(crate) names: Vec<Vec<u8>>,
}

// Written by hand, so that it is one step in the proof of each function that drops statements; a derived one is a step
// for each vector in them.
impl Drop for Statements {
    fn drop(self) {
        let Statements {
            statements: _,
            names: _,
        } = self;
    }
}

impl Model for Statements {
    ghost use Rattle.bench_reader.specs.Netlist.{Netlist};

    ghost Value = { Netlist };

    ghost use Rattle.bench_reader.specs.Fields.{netlist_in, AreStatementsFields};

    ghost view = { netlist_in };

    ghost invariant = { AreStatementsFields };
}

impl Statements {
    pub fn as_slice(&self) -> &[Statement]
        ensures statements { result.now ≡ self.now.statements }
        ensures driven { IsDriven self.now }
    {
        self.statements.as_slice()
    }

    /// Returns the name with a number.
    pub fn name(&self, number: u32) -> &[u8]
        requires { number < length self.now.names }
        ensures { result.now ≡ slice_index_or self.now.names number [] }
    {
        self.names[number as usize].as_slice()
    }

    /// Returns how many names there are.
    pub fn names_len(&self) -> u32
        ensures { result ≡ length self.now.names }
    {
        self.names.len() as u32
    }
}
