//! Tokens, one after another, each with its place.
ghost use Rattle.std.specs.Prelude.{◌≡◌, ◌+◌, ◌≤◌, ◌<◌, ◌^◌, ◌&&◌, ◌||◌, ◌==◌, length, if◌then◌else◌};
ghost use Rattle.std.specs.List.{prefix_len};
ghost use Rattle.net_model.specs.Ascii.{line_feed};
ghost use Rattle.bench_reader.specs.Tokens.{is_blank, is_name_byte};
ghost use Rattle.bench_reader.specs.Scanning.{IsPlace, text_in, IsLexeme, IsNext};
ghost use Rattle.bench_reader.specs.Bytes.{kind_at, length_at, is_skipped, inside_behind, IsSkipped};

use crate::fault::Place;

/// What is at a place at which a token is read.
#[derive(Clone, Copy)]
pub(crate) enum LexemeKind {
    OpenBracket,
    CloseBracket,
    Comma,
    Equals,
    Name,
    BadByte,
    End,
}

/// A token, or the end of the text: its place, and the byte after its last one.
#[derive(Clone, Copy)]
pub(crate) struct Lexeme {
    pub(crate) kind: LexemeKind,
    pub(crate) place: Place,
    pub(crate) end: u32,
}

/// Returns the place after a lexeme.
pub(crate) fn behind(lexeme: Lexeme) -> Place
    ensures byte { result.byte ≡ lexeme.end }
    ensures line { result.line ≡ lexeme.place.line }
{
    Place {
        byte: lexeme.end,
        line: lexeme.place.line,
    }
}

/// Returns the bytes of a lexeme.
pub(crate) fn text_of(bytes: &[u8], lexeme: Lexeme) -> &[u8]
    requires { IsLexeme bytes.now lexeme }
    ensures { result.now ≡ text_in bytes.now lexeme }
{
    &bytes[lexeme.place.byte as usize..lexeme.end as usize]
}

fn is_blank(byte: u8) -> bool
    ensures { result ≡ is_blank byte }
{
    byte == b' ' || byte == b'\t' || byte == b'\n' || byte == b'\r'
}

#[tactic(auto, unfolding(crate::specs::Tokens::is_name_byte))]
fn is_name_byte(byte: u8) -> bool
    ensures { result ≡ is_name_byte byte }
{
    0x21 <= byte
        && byte <= 0x7E
        && !(byte == b'(' || byte == b')' || byte == b',' || byte == b'=' || byte == b'#')
}

// Returns how many bytes of a name a text begins with.
fn name_len(text: &[u8]) -> usize
    ensures { result ≡ prefix_len is_name_byte text.now }
{
    for (len, byte) in text.iter().enumerate() {
        if !is_name_byte(*byte) {
            return len;
        }
    }
    text.len()
}

// Returns the kind of lexeme that a byte begins, if the byte isn't skipped.
fn kind_at(byte: u8) -> LexemeKind
    ensures { result ≡ kind_at byte }
{
    match byte {
        b'(' => LexemeKind::OpenBracket,
        b')' => LexemeKind::CloseBracket,
        b',' => LexemeKind::Comma,
        b'=' => LexemeKind::Equals,
        _ if is_name_byte(byte) => LexemeKind::Name,
        _ => LexemeKind::BadByte,
    }
}

// Returns the length of the lexeme of this kind with which a text begins.
fn length_at(kind: LexemeKind, text: &[u8]) -> usize
    ensures { result ≡ length_at kind text.now }
{
    match kind {
        LexemeKind::Name => name_len(text),
        _ => 1,
    }
}

// Returns the place of the first byte, starting at `place`, that is neither blank nor in a comment, or the end of the
// text.
fn skip_blanks(bytes: &[u8], place: Place) -> Place
    requires room { length bytes.now < 2 ^ 31 }
    requires within { place.byte ≤ length bytes.now }
    requires place { IsPlace bytes.now place }
    ensures { IsSkipped bytes.now place.byte result }
{
    let mut place = place;
    let mut inside = false;
    'bytes: while (place.byte as usize) < bytes.len() {
        let byte = bytes[place.byte as usize];
        if !is_skipped(inside, byte) {
            return place;
        }
        inside = inside_behind(inside, byte);
        place = place_behind(place, byte);
    }
    place
}

// Returns whether a byte is skipped; `inside` says whether it is inside a comment.
fn is_skipped(inside: bool, byte: u8) -> bool
    ensures { result ≡ (inside || is_skipped byte) }
{
    inside || is_blank(byte) || byte == b'#'
}

// Returns whether the bytes after a skipped one are inside a comment.
fn inside_behind(inside: bool, byte: u8) -> bool
    ensures { result ≡ inside_behind inside byte }
{
    byte != b'\n' && (inside || byte == b'#')
}

fn place_behind(place: Place, byte: u8) -> Place
    requires byte { place.byte < 2 ^ 31 }
    requires line { place.line ≤ 2 ^ 31 }
    ensures byte { result.byte ≡ place.byte + 1 }
    ensures line { result.line ≡ place.line + (if byte == line_feed then 1 else 0) }
{
    Place {
        byte: place.byte + 1,
        line: if byte == b'\n' {
            place.line + 1
        } else {
            place.line
        },
    }
}

/// Returns the next lexeme, starting at `place`.
pub(crate) fn next_lexeme(bytes: &[u8], place: Place) -> Lexeme
    requires room { length bytes.now < 2 ^ 31 }
    requires within { place.byte ≤ length bytes.now }
    requires place { IsPlace bytes.now place }
    ensures { IsNext bytes.now place.byte result }
{
    let place = skip_blanks(bytes, place);
    let rest = &bytes[place.byte as usize..];
    let [first, ..] = rest else {
        return Lexeme {
            kind: LexemeKind::End,
            place,
            end: place.byte,
        };
    };
    let kind = kind_at(*first);
    Lexeme {
        kind,
        place,
        end: place.byte + length_at(kind, rest) as u32,
    }
}
