//! What is left of a result.

ghost use Rattle.std.specs.Prelude.{◌≡◌};

use result_file::Summary;
use std::marker::Model;

/// A list of bytes.
#[derive(Debug, Drop)]
pub struct Text {
    bytes: Vec<u8>,
}

impl Model for Text {
    ghost use Rattle.std.specs.Prelude.{ℕ, List};

    ghost Value = { List ℕ };

    ghost view = { λ t. t.bytes.items };
}

impl Text {
    pub(crate) fn new(bytes: Vec<u8>) -> Text
        ensures { result ≡ bytes.items }
    {
        Text { bytes }
    }

    /// Returns the bytes.
    pub fn as_slice(&self) -> &[u8]
        ensures { result.now ≡ self.now }
    {
        &self.bytes
    }
}

/// The text of a result without the patterns that its classes don't need, its summary, and the number of patterns that
/// were dropped.
#[derive(Debug, Drop)]
pub struct Thin {
    pub text: Text,
    pub summary: Summary,
    pub dropped: u32,
}
