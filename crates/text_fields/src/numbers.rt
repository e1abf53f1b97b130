//! Numbers that digits spell.

ghost use Rattle.std.specs.Prelude.{◌≡◌, ◌≢◌, ℕ, decimal, MatchOption};
ghost use Rattle.text_fields.specs.Fields.{IsNumber};

/// Returns the number below 2^32 that a field spells with digits and without a leading zero. Returns none exactly if
/// the field spells no such number.
pub fn number_of(field: &str) -> Option<u32>
    ensures { MatchOption result ((n : ℕ) → IsNumber n → decimal n ≢ field.now) (λ n. IsNumber n × (decimal n ≡ field.now)) }
{
    let bytes = field.as_bytes();
    if bytes.is_empty() || bytes[0] == b'+' {
        return None;
    }
    if bytes[0] == b'0' && bytes.len() > 1 {
        return None;
    }
    field.parse().ok()
}

/// Returns the same as `number_of`, for a field whose bytes need not be text.
pub fn number_of_bytes(field: &[u8]) -> Option<u32>
    ensures { MatchOption result ((n : ℕ) → IsNumber n → decimal n ≢ field.now) (λ n. IsNumber n × (decimal n ≡ field.now)) }
{
    let Ok(text) = str::from_utf8(field) else {
        return None;
    };
    number_of(text)
}
