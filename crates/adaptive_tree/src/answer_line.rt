//! One line of a log of answers.

ghost use Rattle.std.specs.Prelude.{◌≡◌, ◌≢◌, ◌<◌, ◌^◌, ℕ, Bool, List, MatchOption};
ghost use Rattle.text_fields.specs.Fields.{digit_bits};
ghost use Rattle.diagnose.specs.LogText.{log_line, BeginsWithLine, HasNoLine};

use text_fields::{cut, digits_of, number_of_bytes};

/// The line of an answer, and the text after it.
#[derive(Clone, Copy)]
pub(crate) struct AnswerLine<'a> {
    pub(crate) pattern: u32,
    pub(crate) digits: &'a [u8],
    pub(crate) rest: &'a [u8],
}

/// Returns the line that a log begins with, if it begins with one.
pub(crate) fn first_answer(text: &[u8]) -> Option<AnswerLine<'_>>
    ensures { MatchOption result (HasNoLine text.now) (λ line. BeginsWithLine text.now line.pattern (digit_bits line.digits.now) line.rest.now) }
{
    let (line, rest) = cut(text, b'\n')?;
    let (pattern, digits) = fields_of(line)?;
    Some(AnswerLine {
        pattern,
        digits,
        rest,
    })
}

// Returns the pattern and the digits that a line spells, if it spells them.
fn fields_of(line: &[u8]) -> Option<(u32, &[u8])>
    ensures { MatchOption result ((pattern : ℕ) (bits : List Bool) → pattern < 2 ^ 32 → log_line pattern bits ≢ line.now) (λ fields. (fields.0 < 2 ^ 32) × (log_line fields.0 (digit_bits fields.1.now) ≡ line.now)) }
{
    let (number, field) = cut(line, b' ')?;
    let pattern = number_of_bytes(number)?;
    let digits = digits_of(field)?;
    Some((pattern, digits))
}
