//! The fields of a line: literals, tokens, marks and bits.

ghost use Rattle.std.specs.Prelude.{◌≡◌, ◌≢◌, ℕ, decimal, MatchOption, ⊤};
ghost use Rattle.net_model.specs.BitText.{bits_text};
ghost use Rattle.clause_pool.specs.Literal.{Literal};
ghost use Rattle.pair_sets.specs.declared.tree.Token as token;
ghost use Rattle.result_records.specs.declared.record.Mark as mark;
ghost use Rattle.text_fields.specs.Fields.{IsNumber};
ghost use Rattle.result_records.specs.Spelling.{IsVariableNumber, IsLiteral, HasTokenSpelling, literal_field, token_field, mark_field};
ghost use Rattle.result_records.specs.Reading.{Reads};

use crate::fault::RecordFault;
use crate::record::Mark;
use clause_pool::Lit;
use net_model::Bits;
use pair_sets::Token;
use std::alloc::Global;
use text_fields::number_of;

/// Returns the literal that the field spells: a number, with a dash before it if the literal is negative.
pub(crate) fn literal_of(field: &str) -> Option<Lit>
    ensures { MatchOption result ((l : Literal) → IsLiteral l → literal_field l ≢ field.now) (λ l. IsLiteral l × (literal_field l ≡ field.now)) }
{
    match field.strip_prefix('-') {
        Some(digits) => literal_with(digits, false),
        None => literal_with(field, true),
    }
}

// Returns the literal of the variable that the digits spell.
fn literal_with(digits: &str, positive: bool) -> Option<Lit>
    ensures { MatchOption result ((n : ℕ) → IsVariableNumber n → decimal n ≢ digits.now) (λ l. IsVariableNumber l.variable × (decimal l.variable ≡ digits.now) × (l.positive ≡ positive)) }
{
    let variable = number_of(digits)?;
    if variable == 0 || variable >= 1 << 31 {
        return None;
    }
    Some(Lit::new(variable, positive))
}

/// Returns the token that the field spells.
pub(crate) fn token_of(field: &str) -> Option<Token>
    ensures { MatchOption result ((t : token.Token) → HasTokenSpelling t → token_field t ≢ field.now) (λ t. HasTokenSpelling t × (token_field t ≡ field.now)) }
{
    match field {
        "." => Some(Token::Closed),
        "?" => Some(Token::Rest),
        _ => Some(Token::Split(number_of(field)?)),
    }
}

/// Returns the mark that the field spells.
pub(crate) fn mark_of(field: &str) -> Option<Mark>
    ensures { MatchOption result ((m : mark.Mark) → mark_field m ≢ field.now) (λ m. mark_field m ≡ field.now) }
{
    match field {
        "rep" => Some(Mark::Rep),
        "equal" => Some(Mark::Equal),
        "open" => Some(Mark::Spent),
        _ => None,
    }
}

/// Returns the bits that the field spells: a digit for each, or a dash if there are none.
pub(crate) fn bits_of(alloc: Global, field: &str) -> Result<Bits, RecordFault>
    ensures { Reads (λ bits. ⊤) bits_text field.now result }
{
    let Some(digits) = text_fields::digits_of(field.as_bytes()) else {
        return Err(RecordFault::Syntax);
    };
    Ok(text_fields::bits_of(alloc, digits)?)
}
