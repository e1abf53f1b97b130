//! The command `diagnose`: the numbers that a dictionary and a log point to.

ghost use Rattle.std.specs.Prelude.{◌≡◌, ◌++◌, IfOk, OnOk, flat_map, []};
ghost use Rattle.dict_rows.specs.Rows.{AreRows};
ghost use Rattle.dict_file.specs.Spelling.{HasDictSpelling};
ghost use Rattle.dictionary_commands.specs.Dictionaries.{IsDiagnosis};
ghost use Rattle.dictionary_commands.specs.Plans.{diagnose_plan};
ghost use Rattle.run_steps.specs.Ran.{Follows, dictionary_log_endings};
ghost use Rattle.dictionary_commands.specs.Texts.{number_line};

use crate::texts::{listed_text, number_line};
use diag_shelf::Shelf;
use diagnose::matches;
use net_model::AnswerRows;
use run_steps::{RunFault, read_dictionary, read_observed, say};
use std::alloc::{AllocError, Global};
use table_dicts::Dict;

/// Reads and judges the dictionary `dict` and then the log `log`, and prints the numbers that they point to: those
/// whose entry is that of the log's answers. Returns errors as `make_dictionary` does.
pub fn diagnose_log<S: Shelf>(
    alloc: Global,
    shelf: &mut S,
    dict: &str,
    log: &str,
) -> Result<(), RunFault>
    ensures { Follows (diagnose_plan dict.now log.now) dictionary_log_endings [] result (S.state shelf.old) (S.state shelf.new) }
{
    let dict = read_dictionary(alloc, shelf, dict)?;
    let observed = read_observed(alloc, shelf, &dict, log)?;
    let text = diagnosis(alloc, &dict, &observed)?;
    say(shelf, &text)
}

// Returns a line for each number whose entry is that of the observed answers, and the line with how many they are.
#[tactic(auto, unfolding(crate::specs::Texts::numbers_text))]
fn diagnosis(alloc: Global, dict: &Dict, observed: &AnswerRows) -> Result<Vec<u8>, AllocError>
    requires dictionary { HasDictSpelling dict.now }
    requires observed { AreRows dict.now.patterns dict.now.positions observed.now }
    ensures { IfOk result (λ text. IsDiagnosis dict.now observed.now text.items) }
{
    let numbers = matches(alloc, dict, observed)?;
    let mut text = Vec::new(alloc);
    push_numbers(&mut text, &numbers)?;
    let count = listed_text(alloc, numbers.len())?;
    text.extend_from_slice(count.as_bytes())?;
    Ok(text)
}

// Appends a line for each number.
fn push_numbers(text: &mut Vec<u8>, numbers: &[u32]) -> Result<(), AllocError>
    ensures { OnOk result (text.new.items ≡ text.old.items ++ flat_map number_line numbers.now) }
{
    for number in numbers {
        let line = number_line(*text.allocator(), *number)?;
        text.extend_from_slice(line.as_bytes())?;
    }
    Ok(())
}
