//! Lists of vectors.

ghost use Rattle.std.specs.Prelude.{◌≡◌, ◌≢◌, ◌≤◌, ◌++◌, ◌∷◌, [], ℕ, length, IfOk, IfErr, MatchOption, MatchResult};
ghost use Rattle.net_model.specs.Ascii.{line_feed};
ghost use Rattle.net_model.specs.BitText.{bits_text};
ghost use Rattle.text_fields.specs.Fields.{digit_bits};
ghost use Rattle.diagnose.specs.Lines.{text_limit, TellsLogFault};
ghost use Rattle.diagnose.specs.VectorText.{HasNoVector, IsVectorList, VectorsRefused, VectorRestRefused, IsRightVector};

use crate::fault::{LogFault, LogKind};
use crate::lines::check_size;
use net_model::Vectors;
use std::alloc::Global;
use text_fields::{bits_of, cut, digits_of};

/// Returns the vectors of a list, which has a line of bits for each vector, with a bit for each source. Memory aside,
/// returns `At` with a kind and a line exactly if the text isn't such a list: it is longer than `TEXT_LIMIT` bytes, or
/// this is its first line that breaks a rule. The kind is `Syntax`, `Width` or `TooLong`.
pub fn read_vectors(alloc: Global, sources: u32, bytes: &[u8]) -> Result<Vectors, LogFault>
    ensures read { IfOk result (λ vectors. IsVectorList sources bytes.now vectors) }
    ensures refused { IfErr result (TellsLogFault (VectorsRefused sources bytes.now)) }
{
    check_size(bytes)?;
    read_lines(alloc, sources, bytes)
}

fn read_lines(alloc: Global, sources: u32, bytes: &[u8]) -> Result<Vectors, LogFault>
    requires { length bytes.now ≤ text_limit }
    ensures read { IfOk result (λ vectors. IsVectorList sources bytes.now vectors) }
    ensures refused { IfErr result (TellsLogFault (VectorsRefused sources bytes.now)) }
{
    let mut vectors = Vectors::new(alloc);
    let mut rest = bytes;
    let mut number: u64 = 1;
    while !rest.is_empty() {
        let line = match right_vector(sources, rest) {
            Ok(line) => line,
            Err(kind) => return Err(LogFault::At(kind, number)),
        };
        let bits = bits_of(alloc, line.0)?;
        vectors.push(bits)?;
        rest = line.1;
        number += 1;
    }
    Ok(vectors)
}

// Returns the digits of the first line and what is after it, or the rule that the line breaks.
fn right_vector(sources: u32, rest: &[u8]) -> Result<(&[u8], &[u8]), LogKind>
    requires { rest.now ≢ [] }
    ensures { MatchResult result (λ line. IsRightVector sources rest.now line.0.now line.1.now) (λ kind. (before : ℕ) → VectorRestRefused sources before rest.now kind) }
{
    let Some((digits, after)) = first_vector(rest) else {
        return Err(LogKind::Syntax);
    };
    if digits.len() != sources as usize {
        return Err(LogKind::Width);
    }
    Ok((digits, after))
}

// Returns the digits of the line that a text begins with, and what is after it.
fn first_vector(text: &[u8]) -> Option<(&[u8], &[u8])>
    ensures { MatchOption result (HasNoVector text.now) (λ line. text.now ≡ bits_text (digit_bits line.0.now) ++ line_feed ∷ line.1.now) }
{
    let (line, rest) = cut(text, b'\n')?;
    let digits = digits_of(line)?;
    Some((digits, rest))
}
