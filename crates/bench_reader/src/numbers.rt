//! Names and their numbers.
ghost use Rattle.std.specs.Prelude.{◌≡◌, ◌+◌, ◌<◌, ◌^◌, map, length, position, unwrap_or, OnOk, IfOk, IsTrue, All};
ghost use Rattle.std.specs.Str.{bytes_eq};
ghost use Rattle.bench_reader.specs.Names.{texts_in};
ghost use Rattle.bench_reader.specs.Grammar.{takes, phrase_names, has_right_pins};
ghost use Rattle.bench_reader.specs.Reading.{named_word, statement_of};
ghost use Rattle.bench_reader.specs.Scanning.{text_in, named_in, IsLexeme};
ghost use Rattle.bench_reader.specs.Shapes.{driver_in, phrase_in, names_in};
ghost use Rattle.bench_reader.specs.Numbering.{with_name, with_names, port_statement, gate_statement};

use crate::scanner::{Lexeme, text_of};
use crate::shape::Shape;
use crate::statement::{Statement, Word, Words};
use crate::word::{Driver, Port};
use indexmap::IndexSet;
use std::alloc::{AllocError, Global};

// Returns the number of a name. A new name gets the next number.
fn number_of(alloc: Global, names: &mut IndexSet<Vec<u8>>, name: &[u8]) -> Result<u32, AllocError>
    requires { length (texts_in names.old) < 2 ^ 31 }
    ensures names { OnOk result (texts_in names.new ≡ with_name (texts_in names.old) name.now) }
    ensures number { IfOk result (λ number. number ≡ unwrap_or (position (bytes_eq name.now) (texts_in names.new)) 0) }
{
    if let Some(number) = names.get_index_of(name) {
        return Ok(number as u32);
    }
    let number = names.len() as u32;
    let name = name.to_vec(alloc)?;
    names.insert(name)?;
    Ok(number)
}

fn word(
    alloc: Global,
    names: &mut IndexSet<Vec<u8>>,
    bytes: &[u8],
    name: Lexeme,
) -> Result<Word, AllocError>
    requires few { length (texts_in names.old) < 2 ^ 31 }
    requires name { IsLexeme bytes.now name }
    ensures names { OnOk result (texts_in names.new ≡ with_name (texts_in names.old) (text_in bytes.now name)) }
    ensures word { IfOk result (λ word. word ≡ named_word bytes.now (texts_in names.new) (named_in bytes.now name)) }
{
    let number = number_of(alloc, names, text_of(bytes, name))?;
    Ok(Word {
        name: number,
        place: name.place,
    })
}

fn words(
    alloc: Global,
    names: &mut IndexSet<Vec<u8>>,
    bytes: &[u8],
    pins: &[Lexeme],
) -> Result<Words, AllocError>
    requires few { length (texts_in names.old) + length pins.now < 2 ^ 31 }
    requires pins { All (IsLexeme bytes.now) pins.now }
    ensures names { OnOk result (texts_in names.new ≡ with_names (texts_in names.old) (map (named_in bytes.now) pins.now)) }
    ensures words { IfOk result (λ words. words ≡ map (named_word bytes.now (texts_in names.new)) (map (named_in bytes.now) pins.now)) }
{
    let mut words = Words::new(alloc);
    for pin in pins {
        let word = word(alloc, names, bytes, *pin)?;
        words.push(word)?;
    }
    Ok(words)
}

fn port_statement(port: Port, word: Word) -> Statement
    ensures { result ≡ port_statement port word }
{
    match port {
        Port::Input => Statement::Input(word),
        Port::Output => Statement::Output(word),
    }
}

fn gate_statement(driver: Driver, name: Word, pins: Words) -> Statement
    requires { IsTrue (takes (driver_in driver) (length pins)) }
    ensures { result ≡ gate_statement (driver_in driver) name pins }
{
    match driver {
        Driver::Gate(kind) => Statement::Drive(name, kind, pins),
        Driver::FlipFlop => Statement::Flop(name, pins.as_slice()[0]),
    }
}

/// Returns the statement of a shape. A name that is new gets the next number.
pub(crate) fn statement(
    alloc: Global,
    names: &mut IndexSet<Vec<u8>>,
    bytes: &[u8],
    shape: Shape,
) -> Result<Statement, AllocError>
    requires few { length (texts_in names.old) + length (phrase_names (phrase_in bytes.now shape)) < 2 ^ 31 }
    requires names { All (IsLexeme bytes.now) (names_in shape) }
    requires pins { IsTrue (has_right_pins (phrase_in bytes.now shape)) }
    ensures names { OnOk result (texts_in names.new ≡ with_names (texts_in names.old) (phrase_names (phrase_in bytes.now shape))) }
    ensures statement { IfOk result (λ statement. statement ≡ statement_of bytes.now (texts_in names.new) (phrase_in bytes.now shape)) }
{
    match shape {
        Shape::Port(port, name) => {
            let word = word(alloc, names, bytes, name)?;
            Ok(port_statement(port, word))
        }
        Shape::Gate(name, driver, _, pins) => {
            let word = word(alloc, names, bytes, name)?;
            let pins = words(alloc, names, bytes, pins.as_slice())?;
            Ok(gate_statement(driver, word, pins))
        }
    }
}
