//! Texts that are cut at a byte.

ghost use Rattle.std.specs.Prelude.{Contains, MatchOption};
ghost use Rattle.text_fields.specs.Fields.{IsCutAt};

use memchr::memchr;

/// Returns what comes before the first occurrence of `byte` in `text`, and what comes after it. Returns none exactly if
/// the byte isn't in the text.
pub fn cut(text: &[u8], byte: u8) -> Option<(&[u8], &[u8])>
    ensures { MatchOption result (¬ Contains text.now byte) (λ parts. IsCutAt byte text.now parts.0.now parts.1.now) }
{
    match memchr(byte, text) {
        None => None,
        Some(at) => Some((&text[..at], &text[at + 1..])),
    }
}
