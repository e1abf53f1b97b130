//! The lines of the console about faults, logs, suspects, covers and bridges.

ghost use Rattle.std.specs.Prelude.{◌≡◌, ◌++◌, IfOk, OnOk, codes, decimal, string_bytes};
ghost use Rattle.bridging_faults.specs.Texts.{bridge_word, bridges_end};
ghost use Rattle.listing_commands.specs.Texts.{line_start, count_text, expected_counts_text, suspect_line, suspects_end, choice_line, cover_end};

use bridging_faults::BridgeKind;
use std::alloc::{AllocError, Global};
use suspect_scores::{Choice, Suspect};

/// Returns the beginning of a fault's line: its number and that of its root. The fault's name follows.
#[tactic(auto, unfolding(crate::specs::Texts::line_start))]
pub(crate) fn line_start(alloc: Global, number: u32, root: u32) -> Result<String, AllocError>
    ensures { IfOk result (λ text. string_bytes text ≡ line_start number root) }
{
    format!(in alloc; "{number} {root} ")
}

/// Returns the line with how many faults and roots there are.
#[tactic(auto, unfolding(crate::specs::Texts::count_text))]
pub(crate) fn count_text(alloc: Global, faults: u32, roots: u32) -> Result<String, AllocError>
    ensures { IfOk result (λ text. string_bytes text ≡ count_text faults roots) }
{
    format!(in alloc; "faults {faults} roots {roots}\n")
}

/// Returns the line with the numbers of patterns and positions of an expected log.
#[tactic(auto, unfolding(crate::specs::Texts::expected_counts_text))]
pub(crate) fn expected_counts_text(
    alloc: Global,
    patterns: u32,
    positions: u32,
) -> Result<String, AllocError>
    ensures { IfOk result (λ text. string_bytes text ≡ expected_counts_text patterns positions) }
{
    format!(in alloc; "patterns {patterns} positions {positions}\n")
}

/// Appends a suspect with its scores.
#[tactic(auto, unfolding(crate::specs::Texts::suspect_line))]
pub(crate) fn push_suspect(text: &mut String, suspect: Suspect) -> Result<(), AllocError>
    ensures { OnOk result (string_bytes text.new ≡ string_bytes text.old ++ suspect_line suspect) }
{
    let Suspect {
        number,
        explained,
        hit_bits,
        missed_bits,
        false_bits,
    } = suspect;
    writeln!(
        text,
        "{number} {explained} {hit_bits} {missed_bits} {false_bits}"
    )
}

/// Appends how many suspects are listed, and how many patterns are failing and logged.
#[tactic(auto, unfolding(crate::specs::Texts::suspects_end))]
pub(crate) fn push_suspects_end(
    text: &mut String,
    listed: usize,
    failing: usize,
    logged: usize,
) -> Result<(), AllocError>
    ensures { OnOk result (string_bytes text.new ≡ string_bytes text.old ++ suspects_end listed failing logged) }
{
    writeln!(text, "listed {listed} failing {failing} logged {logged}")
}

/// Appends a number, and how many patterns it explains.
#[tactic(auto, unfolding(crate::specs::Texts::choice_line))]
pub(crate) fn push_choice(text: &mut String, choice: Choice) -> Result<(), AllocError>
    ensures { OnOk result (string_bytes text.new ≡ string_bytes text.old ++ choice_line choice) }
{
    let Choice { number, explained } = choice;
    writeln!(text, "{number} {explained}")
}

/// Appends how many numbers are listed, how many failing patterns they explain, and how many fail.
#[tactic(auto, unfolding(crate::specs::Texts::cover_end))]
pub(crate) fn push_cover_end(
    text: &mut String,
    listed: usize,
    explained: u128,
    failing: usize,
) -> Result<(), AllocError>
    ensures { OnOk result (string_bytes text.new ≡ string_bytes text.old ++ cover_end listed explained failing) }
{
    writeln!(
        text,
        "listed {listed} explained {explained} failing {failing}"
    )
}

/// Returns the word for this kind of bridge.
pub(crate) fn bridge_word(kind: BridgeKind) -> &'static str
    ensures { result.now ≡ bridge_word kind }
{
    match kind {
        BridgeKind::And => "and",
        BridgeKind::Or => "or",
        BridgeKind::Dominant => "dominant",
    }
}

/// Returns the end of a bridge's line: how many failing patterns the bridge explains, and how many others it doesn't.
/// The names of its lines come before it.
pub(crate) fn bridge_counts(
    alloc: Global,
    explained: u32,
    false_patterns: u32,
) -> Result<String, AllocError>
    ensures { IfOk result (λ text. string_bytes text ≡ codes " " ++ (decimal explained ++ (codes " " ++ (decimal false_patterns ++ codes "\n")))) }
{
    format!(in alloc; " {explained} {false_patterns}\n")
}

/// Returns the line with how many bridges are listed, how many were found, how many are exact, and how many patterns
/// are failing and logged.
#[tactic(auto, unfolding(bridging_faults::specs::Texts::bridges_end))]
pub(crate) fn bridges_end(
    alloc: Global,
    listed: usize,
    found: u64,
    exact: u64,
    failing: usize,
    logged: usize,
) -> Result<String, AllocError>
    ensures { IfOk result (λ text. string_bytes text ≡ bridges_end listed found exact failing logged) }
{
    format!(in alloc;
        "listed {listed} of {found} exact {exact} failing {failing} logged {logged}\n"
    )
}
