//! The limit of bytes of a text of lines.

ghost use Rattle.std.specs.Prelude.{◌≡◌, ◌<◌, ◌≤◌, ◌^◌, length, MatchResult};
ghost use Rattle.diagnose.specs.declared.fault.LogKind.TheVariants as log_kind;
ghost use Rattle.diagnose.specs.declared.fault.LogFault.TheVariants as log_fault;
ghost use Rattle.diagnose.specs.Lines.{text_limit, line_number};

use crate::fault::{LogFault, LogKind};

/// The most bytes of a tester's log (whole, partial or of answers to a plan), of a list of vectors, or of a plan: 2^30.
pub const TEXT_LIMIT: u64 = 1_073_741_824;

/// Returns `At` with `TooLong` exactly if the text is longer than `TEXT_LIMIT` bytes. The line is then that of byte
/// `TEXT_LIMIT`, the first one beyond the limit. Never returns `NoMemory`.
pub fn check_size(text: &[u8]) -> Result<(), LogFault>
    ensures { MatchResult result (λ _. length text.now ≤ text_limit) (λ fault. (text_limit < length text.now) × (fault ≡ log_fault.At log_kind.TooLong (line_number text.now text_limit))) }
{
    if text.len() as u64 <= TEXT_LIMIT {
        return Ok(());
    }
    Err(LogFault::At(LogKind::TooLong, line_at(text, TEXT_LIMIT as usize)))
}

// Returns the line of the byte at place `byte`, counted from 1.
fn line_at(text: &[u8], byte: usize) -> u64
    requires within { byte ≤ length text.now }
    requires small { byte < 2 ^ 32 }
    ensures { result ≡ line_number text.now byte }
{
    let feeds = text[..byte].iter().filter(|b| **b == b'\n').count();
    feeds as u64 + 1
}
