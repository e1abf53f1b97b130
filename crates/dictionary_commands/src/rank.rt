//! The command `rank`: the numbers whose entries are nearest to what a partial log says.

ghost use Rattle.std.specs.Prelude.{◌≡◌, ◌++◌, IfOk, OnOk, flat_map, string_bytes, []};
ghost use Rattle.dict_file.specs.Spelling.{HasDictSpelling};
ghost use Rattle.ranked_diag.specs.PartialLog.{ArePartial};
ghost use Rattle.dictionary_commands.specs.Plans.{rank_plan};
ghost use Rattle.run_steps.specs.Ran.{Follows, dictionary_log_endings};
ghost use Rattle.dictionary_commands.specs.Rankings.{IsRankText};
ghost use Rattle.dictionary_commands.specs.Texts.{rank_line, ranks_text};

use crate::texts::{push_least, push_rank};
use diag_shelf::Shelf;
use ranked_diag::{Partial, Ranking, mismatches, ranking};
use run_steps::{RunFault, read_dictionary, read_partial_log, say};
use std::alloc::{AllocError, Global};
use table_dicts::Dict;

/// Reads and judges the dictionary `dict` and then the partial log `log`, and prints the numbers whose mismatches are
/// at most `within` above the least. Returns errors as `make_dictionary` does.
pub fn rank_log<S: Shelf>(
    alloc: Global,
    shelf: &mut S,
    dict: &str,
    log: &str,
    within: u32,
) -> Result<(), RunFault>
    ensures { Follows (rank_plan dict.now log.now within) dictionary_log_endings [] result (S.state shelf.old) (S.state shelf.new) }
{
    let dict = read_dictionary(alloc, shelf, dict)?;
    let partial = read_partial_log(alloc, shelf, dict.patterns, dict.positions, log)?;
    let text = ranked_text(alloc, &dict, &partial, within)?;
    say(shelf, text.as_bytes())
}

// Returns the text of what a dictionary ranks by a partial log.
fn ranked_text(
    alloc: Global,
    dict: &Dict,
    partial: &Partial,
    within: u32,
) -> Result<String, AllocError>
    requires dictionary { HasDictSpelling dict.now }
    requires partial { ArePartial dict.now.patterns dict.now.positions partial.now }
    ensures { IfOk result (λ text. IsRankText dict.now partial.now within (string_bytes text)) }
{
    let counts = mismatches(alloc, dict, partial)?;
    let ranks = ranking(alloc, &counts, within)?;
    let (least, _) = ranks.get(0);
    ranks_text(alloc, &ranks, least)
}

// Returns a line for each rank, and the line with how many they are and the least count.
#[tactic(auto, unfolding(crate::specs::Texts::ranks_text))]
fn ranks_text(alloc: Global, ranks: &Ranking, least: u64) -> Result<String, AllocError>
    ensures { IfOk result (λ text. string_bytes text ≡ ranks_text ranks.now least) }
{
    let mut text = String::new(alloc);
    push_ranks(&mut text, ranks)?;
    push_least(&mut text, ranks.len(), least)?;
    Ok(text)
}

// Appends a line for each rank.
fn push_ranks(text: &mut String, ranks: &Ranking) -> Result<(), AllocError>
    ensures { OnOk result (string_bytes text.new ≡ string_bytes text.old ++ flat_map rank_line ranks.now) }
{
    for at in 0..ranks.len() {
        let (count, number) = ranks.get(at);
        push_rank(text, count, number)?;
    }
    Ok(())
}
