//! Lines of partial logs.

ghost use Rattle.std.specs.Prelude.{◌≡◌, ◌≢◌, ◌<◌, ◌^◌, ◌↔◌, ◌⊎◌, [], List, length, slice_index, IsTrue, EachIndex, IfOk, MatchOption, MatchResult};
ghost use Rattle.ranked_diag.specs.declared.partial.Seen.{Seen};
ghost use Rattle.ranked_diag.specs.Seen.{seen_text};
ghost use Rattle.ranked_diag.specs.PartialLog.{Line, partial_line, BeginsWithPartial, HasNoPartial, PartialRestRefused};
ghost use Rattle.ranked_diag.specs.PartialLines.{digit_seen, digits_seen, IsSeenDigit, GoOnFrom, IsRightPartialLine};

use crate::partial::Seen;
use diagnose::LogKind;
use std::alloc::{AllocError, Global};
use text_fields::{cut, number_of_bytes};

/// A line of a partial log, and what is after it.
#[derive(Clone, Copy)]
pub(crate) struct PartialLine<'a> {
    pub(crate) pattern: u32,
    pub(crate) digits: &'a [u8],
    pub(crate) rest: &'a [u8],
}

/// Returns the line that `rest` begins with if its pattern is in `least..patterns` and it has a digit for each
/// position, and else the rule that is broken.
pub(crate) fn right_line(
    patterns: u32,
    positions: u32,
    least: u32,
    rest: &[u8],
) -> Result<PartialLine<'_>, LogKind>
    requires { rest.now ≢ [] }
    ensures { MatchResult result (λ line. IsRightPartialLine patterns positions least rest.now line.pattern line.digits.now line.rest.now) (λ kind. (before : List Line) → GoOnFrom patterns before least → PartialRestRefused patterns positions before rest.now kind) }
{
    let Some(line) = first_line(rest) else {
        return Err(LogKind::Syntax);
    };
    if line.pattern < least || line.pattern >= patterns {
        return Err(LogKind::Order);
    }
    if line.digits.len() != positions as usize {
        return Err(LogKind::Width);
    }
    Ok(line)
}

// Returns the line that a text begins with, or none if it begins with no line of a partial log.
fn first_line(text: &[u8]) -> Option<PartialLine<'_>>
    ensures { MatchOption result (HasNoPartial text.now) (λ line. BeginsWithPartial text.now (line.pattern, digits_seen line.digits.now) line.rest.now) }
{
    let (line, rest) = cut(text, b'\n')?;
    let (pattern, digits) = fields_of(line)?;
    Some(PartialLine {
        pattern,
        digits,
        rest,
    })
}

// Returns the pattern and the digits that a line spells.
fn fields_of(line: &[u8]) -> Option<(u32, &[u8])>
    ensures { MatchOption result ((spelled : Line) → spelled.0 < 2 ^ 32 → partial_line spelled ≢ line.now) (λ fields. (fields.0 < 2 ^ 32) × (partial_line (fields.0, digits_seen fields.1.now) ≡ line.now)) }
{
    let (number, field) = cut(line, b' ')?;
    let pattern = number_of_bytes(number)?;
    let digits = digits_of(field)?;
    Some((pattern, digits))
}

// Returns the digits of a field: the field itself, or no digits if it is a dash.
fn digits_of(field: &[u8]) -> Option<&[u8]>
    ensures { MatchOption result ((seen : List Seen) → seen_text seen ≢ field.now) (λ digits. seen_text (digits_seen digits.now) ≡ field.now) }
{
    if field == b"-".as_slice() {
        return Some(&field[..0]);
    }
    if field.is_empty() {
        return None;
    }
    if !are_digits(field) {
        return None;
    }
    Some(field)
}

// Returns whether each byte is a digit of what was seen: `0`, `1` or `x`.
fn are_digits(field: &[u8]) -> bool
    ensures { IsTrue result ↔ EachIndex field.now (λ k. IsSeenDigit (slice_index field.now k)) }
{
    field.iter().all(|b| *b == b'0' || *b == b'1' || *b == b'x')
}

/// Returns what was seen at each position, by its digit.
pub(crate) fn seen_of(alloc: Global, digits: &[u8]) -> Result<Vec<Seen>, AllocError>
    ensures { IfOk result (λ seen. seen.items ≡ digits_seen digits.now) }
{
    let mut seen = Vec::with_capacity(alloc, digits.len())?;
    for digit in digits {
        seen.push(seen_by(*digit))?;
    }
    Ok(seen)
}

fn seen_by(digit: u8) -> Seen
    ensures { result ≡ digit_seen digit }
{
    match digit {
        b'1' => Seen::One,
        b'0' => Seen::Zero,
        _ => Seen::Unseen,
    }
}
