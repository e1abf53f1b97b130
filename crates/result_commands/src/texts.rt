//! The lines of the console that say what a result amounts to.

ghost use Rattle.std.specs.Prelude.{◌≡◌, IfOk, string_bytes};
ghost use Rattle.result_commands.specs.Texts.{summary_counts, summary_text, valid_text, dropped_text, kept_text};

use result_file::Summary;
use std::alloc::{AllocError, Global};

// Returns the counts of a result.
#[tactic(auto, unfolding(crate::specs::Texts::summary_counts))]
fn summary_counts(alloc: Global, summary: Summary) -> Result<String, AllocError>
    ensures { IfOk result (λ text. string_bytes text ≡ summary_counts summary) }
{
    let Summary {
        numbers,
        patterns,
        classes,
        equal,
        spent,
    } = summary;
    format!(in alloc;
        "numbers {numbers} patterns {patterns} classes {classes} equal {equal} open {spent}"
    )
}

/// Returns the line that says what a result amounts to.
#[tactic(auto, unfolding(crate::specs::Texts::summary_text))]
pub(crate) fn summary_text(alloc: Global, summary: Summary) -> Result<String, AllocError>
    ensures { IfOk result (λ text. string_bytes text ≡ summary_text summary) }
{
    let counts = summary_counts(alloc, summary)?;
    format!(in alloc; "{counts}\n")
}

/// Returns the line that says what a valid result amounts to.
#[tactic(auto, unfolding(crate::specs::Texts::valid_text))]
pub(crate) fn valid_text(alloc: Global, summary: Summary) -> Result<String, AllocError>
    ensures { IfOk result (λ text. string_bytes text ≡ valid_text summary) }
{
    let counts = summary_text(alloc, summary)?;
    format!(in alloc; "valid {counts}")
}

/// Returns the line that says what a result made from a list of `listed` vectors amounts to, and that `kept` of these
/// were kept.
#[tactic(auto, unfolding(crate::specs::Texts::kept_text))]
pub(crate) fn kept_text(
    alloc: Global,
    summary: Summary,
    kept: u32,
    listed: usize,
) -> Result<String, AllocError>
    ensures { IfOk result (λ text. string_bytes text ≡ kept_text summary kept listed) }
{
    let counts = summary_counts(alloc, summary)?;
    format!(in alloc; "{counts} kept {kept} of {listed}\n")
}

/// Returns the line that says what is left of a result, and how many patterns were dropped.
#[tactic(auto, unfolding(crate::specs::Texts::dropped_text))]
pub(crate) fn dropped_text(
    alloc: Global,
    summary: Summary,
    dropped: u32,
) -> Result<String, AllocError>
    ensures { IfOk result (λ text. string_bytes text ≡ dropped_text summary dropped) }
{
    let counts = summary_counts(alloc, summary)?;
    format!(in alloc; "{counts} dropped {dropped}\n")
}
