//! One statement, as the places of its names.
ghost use Rattle.std.specs.Prelude.{◌≡◌, ◌≢◌, ◌<◌, ◌^◌, ◌∷◌, ◌++◌, length, IfOk, IfErr};
ghost use Rattle.bench_reader.specs.Scanning.{tokens_at, tokens_from, token_in, IsLexeme, IsNext};
ghost use Rattle.bench_reader.specs.Shapes.{stop_kind, head_tokens, IsGateHead, ArePins, IsStatement};
ghost use Rattle.bench_reader.specs.Stops.{IsStop};

use crate::fault::{NetFault, NetKind, Place};
use crate::scanner::{Lexeme, LexemeKind, behind, next_lexeme, text_of};
use crate::word::{Driver, Port, driver_of, port_of, takes};
use std::alloc::Global;

/// An input or an observed name; or a gate: the name that it drives, the meaning of its word, the word and its pins.
#[derive(Drop)]
pub(crate) enum Shape {
    Port(Port, Lexeme),
    Gate(Lexeme, Driver, Lexeme, Vec<Lexeme>),
}

/// The tokens with which a gate begins, up to the opening bracket, and the meaning of its word.
#[derive(Clone, Copy)]
pub(crate) struct GateHead {
    name: Lexeme,
    equals: Lexeme,
    word: Lexeme,
    driver: Driver,
    bracket: Lexeme,
}

// Returns the fault of a statement that can't go on with this lexeme.
fn stop(lexeme: Lexeme) -> NetFault
    ensures { result ≡ NetFault.At (stop_kind lexeme.kind) lexeme.place }
{
    match lexeme.kind {
        LexemeKind::BadByte => NetFault::At(NetKind::BadByte, lexeme.place),
        _ => NetFault::At(NetKind::Expected, lexeme.place),
    }
}

/// Returns the statement that begins with this lexeme, and the place after it.
pub(crate) fn statement_at(
    alloc: Global,
    bytes: &[u8],
    first: Lexeme,
) -> Result<(Shape, Place), NetFault>
    requires room { length bytes.now < 2 ^ 31 }
    requires first { IsLexeme bytes.now first }
    requires some { first.kind ≢ LexemeKind.End }
    ensures ok { IfOk result (IsStatement bytes.now (tokens_from bytes.now first)) }
    ensures refused { IfErr result (IsStop bytes.now (tokens_from bytes.now first)) }
{
    match first.kind {
        LexemeKind::Name => {}
        _ => return Err(stop(first)),
    }
    let second = next_lexeme(bytes, behind(first));
    match second.kind {
        LexemeKind::OpenBracket => observed(bytes, first, second),
        LexemeKind::Equals => gate(alloc, bytes, first, second),
        _ => Err(stop(second)),
    }
}

// Returns the statement of an input or an observed name, given its word and the opening bracket.
fn observed(bytes: &[u8], word: Lexeme, bracket: Lexeme) -> Result<(Shape, Place), NetFault>
    requires room { length bytes.now < 2 ^ 31 }
    requires word { IsLexeme bytes.now word }
    requires is_name { word.kind ≡ LexemeKind.Name }
    requires bracket { IsLexeme bytes.now bracket }
    requires is_bracket { bracket.kind ≡ LexemeKind.OpenBracket }
    ensures ok { IfOk result (IsStatement bytes.now (token_in bytes.now word ∷ tokens_from bytes.now bracket)) }
    ensures refused { IfErr result (IsStop bytes.now (token_in bytes.now word ∷ tokens_from bytes.now bracket)) }
{
    let text = text_of(bytes, word);
    let Some(port) = port_of(text) else {
        return Err(NetFault::At(NetKind::UnknownGate, word.place));
    };
    let name = next_lexeme(bytes, behind(bracket));
    match name.kind {
        LexemeKind::Name => {}
        _ => return Err(stop(name)),
    }
    let close = next_lexeme(bytes, behind(name));
    match close.kind {
        LexemeKind::CloseBracket => {}
        _ => return Err(stop(close)),
    }
    Ok((Shape::Port(port, name), behind(close)))
}

// Returns a gate, given the name that it drives and the equals sign.
fn gate(
    alloc: Global,
    bytes: &[u8],
    name: Lexeme,
    equals: Lexeme,
) -> Result<(Shape, Place), NetFault>
    requires room { length bytes.now < 2 ^ 31 }
    requires name { IsLexeme bytes.now name }
    requires equals { IsLexeme bytes.now equals }
    requires is_name { name.kind ≡ LexemeKind.Name }
    requires is_equals { equals.kind ≡ LexemeKind.Equals }
    ensures ok { IfOk result (IsStatement bytes.now (token_in bytes.now name ∷ tokens_from bytes.now equals)) }
    ensures refused { IfErr result (IsStop bytes.now (token_in bytes.now name ∷ tokens_from bytes.now equals)) }
{
    let head = gate_head(bytes, name, equals)?;
    let (pins, place) = pins(alloc, bytes, head)?;
    if !takes(head.driver, pins.len()) {
        return Err(NetFault::At(NetKind::WrongPins, head.word.place));
    }
    Ok((Shape::Gate(head.name, head.driver, head.word, pins), place))
}

// Returns the beginning of a gate, up to the opening bracket.
fn gate_head(bytes: &[u8], name: Lexeme, equals: Lexeme) -> Result<GateHead, NetFault>
    requires room { length bytes.now < 2 ^ 31 }
    requires name { IsLexeme bytes.now name }
    requires is_name { name.kind ≡ LexemeKind.Name }
    requires equals { IsLexeme bytes.now equals }
    requires is_equals { equals.kind ≡ LexemeKind.Equals }
    ensures head { IfOk result (IsGateHead bytes.now) }
    ensures tokens { IfOk result (λ head. token_in bytes.now name ∷ tokens_from bytes.now equals ≡ head_tokens bytes.now head ++ tokens_at bytes.now head.bracket.end) }
    ensures refused { IfErr result (IsStop bytes.now (token_in bytes.now name ∷ tokens_from bytes.now equals)) }
{
    let word = next_lexeme(bytes, behind(equals));
    match word.kind {
        LexemeKind::Name => {}
        _ => return Err(stop(word)),
    }
    let Some(driver) = driver_of(text_of(bytes, word)) else {
        return Err(NetFault::At(NetKind::UnknownGate, word.place));
    };
    let bracket = next_lexeme(bytes, behind(word));
    match bracket.kind {
        LexemeKind::OpenBracket => {}
        _ => return Err(stop(bracket)),
    }
    Ok(GateHead {
        name,
        equals,
        word,
        driver,
        bracket,
    })
}

// Returns the pins of a gate, and the place after the closing bracket. A gate that takes no pins may have none.
fn pins(alloc: Global, bytes: &[u8], head: GateHead) -> Result<(Vec<Lexeme>, Place), NetFault>
    requires room { length bytes.now < 2 ^ 31 }
    requires head { IsGateHead bytes.now head }
    ensures ok { IfOk result (ArePins bytes.now head) }
    ensures refused { IfErr result (IsStop bytes.now (head_tokens bytes.now head ++ tokens_at bytes.now head.bracket.end)) }
{
    let first = next_lexeme(bytes, behind(head.bracket));
    match first.kind {
        LexemeKind::Name => some_pins(alloc, bytes, head, first),
        LexemeKind::CloseBracket if takes(head.driver, 0) => Ok((Vec::new(alloc), behind(first))),
        _ => Err(stop(first)),
    }
}

// Returns the pins of a gate starting at its first one, and the place after the closing bracket.
fn some_pins(
    alloc: Global,
    bytes: &[u8],
    head: GateHead,
    first: Lexeme,
) -> Result<(Vec<Lexeme>, Place), NetFault>
    requires room { length bytes.now < 2 ^ 31 }
    requires head { IsGateHead bytes.now head }
    requires first { IsNext bytes.now head.bracket.end first }
    requires is_name { first.kind ≡ LexemeKind.Name }
    ensures ok { IfOk result (ArePins bytes.now head) }
    ensures refused { IfErr result (IsStop bytes.now (head_tokens bytes.now head ++ tokens_at bytes.now head.bracket.end)) }
{
    let mut pins = Vec::new(alloc);
    let mut pin = first;
    'pins: loop {
        pins.push(pin)?;
        let mark = next_lexeme(bytes, behind(pin));
        match mark.kind {
            LexemeKind::Comma => {}
            LexemeKind::CloseBracket => return Ok((pins, behind(mark))),
            _ => return Err(stop(mark)),
        }
        pin = next_lexeme(bytes, behind(mark));
        match pin.kind {
            LexemeKind::Name => {}
            _ => return Err(stop(pin)),
        }
    }
}
