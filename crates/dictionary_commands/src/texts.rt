//! The lines of the console about dictionaries, numbers, ranks and plans.

ghost use Rattle.std.specs.Prelude.{◌≡◌, ◌++◌, IfOk, OnOk, string_bytes};
ghost use Rattle.dictionary_commands.specs.Texts.{apart_text, groups_text, number_line, listed_text, rank_line, least_text, plan_counts_text, outcome_text};

use adaptive_tree::Outcome;
use std::alloc::{AllocError, Global};

/// Returns the line with what a dictionary has, and how many pairs of classes it keeps apart.
#[tactic(auto, unfolding(crate::specs::Texts::apart_text))]
pub(crate) fn apart_text(
    alloc: Global,
    numbers: u32,
    patterns: u32,
    classes: u32,
    apart: u64,
) -> Result<String, AllocError>
    ensures { IfOk result (λ text. string_bytes text ≡ apart_text numbers patterns classes apart) }
{
    format!(in alloc; "numbers {numbers} patterns {patterns} classes {classes} apart {apart}\n")
}

/// Returns the line with what a dictionary has.
#[tactic(auto, unfolding(crate::specs::Texts::groups_text))]
pub(crate) fn groups_text(
    alloc: Global,
    numbers: u32,
    patterns: u32,
    groups: u32,
) -> Result<String, AllocError>
    ensures { IfOk result (λ text. string_bytes text ≡ groups_text numbers patterns groups) }
{
    format!(in alloc; "numbers {numbers} patterns {patterns} groups {groups}\n")
}

/// Returns the line of a number.
#[tactic(auto, unfolding(crate::specs::Texts::number_line))]
pub(crate) fn number_line(alloc: Global, number: u32) -> Result<String, AllocError>
    ensures { IfOk result (λ text. string_bytes text ≡ number_line number) }
{
    format!(in alloc; "{number}\n")
}

/// Returns the line with how many numbers were listed.
#[tactic(auto, unfolding(crate::specs::Texts::listed_text))]
pub(crate) fn listed_text(alloc: Global, count: usize) -> Result<String, AllocError>
    ensures { IfOk result (λ text. string_bytes text ≡ listed_text count) }
{
    format!(in alloc; "listed {count}\n")
}

/// Appends a number, and its count.
#[tactic(auto, unfolding(crate::specs::Texts::rank_line))]
pub(crate) fn push_rank(text: &mut String, count: u64, number: u32) -> Result<(), AllocError>
    ensures { OnOk result (string_bytes text.new ≡ string_bytes text.old ++ rank_line (count, number)) }
{
    writeln!(text, "{number} {count}")
}

/// Appends how many numbers are ranked, and the least count.
#[tactic(auto, unfolding(crate::specs::Texts::least_text))]
pub(crate) fn push_least(text: &mut String, listed: usize, least: u64) -> Result<(), AllocError>
    ensures { OnOk result (string_bytes text.new ≡ string_bytes text.old ++ least_text listed least) }
{
    writeln!(text, "listed {listed} least {least}")
}

/// Returns the line with the classes, asks and depth of a plan.
#[tactic(auto, unfolding(crate::specs::Texts::plan_counts_text))]
pub(crate) fn plan_counts_text(
    alloc: Global,
    classes: u32,
    asks: u32,
    depth: u32,
) -> Result<String, AllocError>
    ensures { IfOk result (λ text. string_bytes text ≡ plan_counts_text classes asks depth) }
{
    format!(in alloc; "classes {classes} asks {asks} depth {depth}\n")
}

/// Returns the line that says where a log leads.
#[tactic(auto, unfolding(crate::specs::Texts::outcome_text))]
pub(crate) fn outcome_text(alloc: Global, outcome: Outcome) -> Result<String, AllocError>
    ensures { IfOk result (λ text. string_bytes text ≡ outcome_text outcome) }
{
    match outcome {
        Outcome::Class(class) => format!(in alloc; "class {class}\n"),
        Outcome::Ask(pattern) => format!(in alloc; "ask {pattern}\n"),
        Outcome::Unknown => String::from_str(alloc, "none\n"),
    }
}
