//! The classes whose faults hit a failing bit of a log: the scores of their representatives, one block of lines after
//! another. Those with a hit are sorted, and the first of them are listed.

ghost use Rattle.std.specs.Prelude.{◌≡◌, ◌<◌, List, length, map, filter, IsPermutation, IsSorted, All, IfOk};
ghost use Rattle.net_model.specs.FaultList.{fault_count};
ghost use Rattle.dict_rows.specs.AnswerTable.{Answers};
ghost use Rattle.table_dicts.specs.Setting.{IsScored, AreAnswersAt};
ghost use Rattle.ranked_diag.specs.PartialLog.{Line};
ghost use Rattle.suspect_scores.specs.Listed.{AreSuspects, suspect_of, suspect_cmp, unlike_bits};
ghost use Rattle.suspect_scores.specs.Marks.{IsLogged, IsMarked};
ghost use Rattle.suspect_scores.specs.Scored.{has_hit, suspect_begun};
ghost use Rattle.suspect_scores.specs.Columns.{AreColumnRows, CanAddBlock};
ghost use Rattle.table_dicts.specs.Blocks.{HasRunPatterns};
ghost use Rattle.suspect_scores.specs.NotedRows.{IsAdded, AreAdded};

use crate::block_scores::add_block;
use crate::columns::LogColumns;
use crate::logged::Logged;
use crate::suspect::{Suspect, Suspects};
use std::alloc::{AllocError, Global};
use std::cmp::Ordering;
use table_dicts::{PatternSim, Setting, representatives};

/// Returns the classes whose faults hit a failing bit of a partial log, by their lowest numbers, at most `most` of
/// them, best first: most explained patterns, then fewest missed plus false bits, then the lowest number.
pub fn suspects(
    alloc: Global,
    setting: &Setting,
    logged: &Logged,
    most: u32,
) -> Result<Suspects, AllocError>
    requires setting { IsScored setting.now }
    requires answered { IsMarked setting.now logged.now }
    ensures { IfOk result (λ listed. (lines : List Line) (table : Answers) → IsLogged setting.now lines logged.now → AreAnswersAt setting.now table → AreSuspects setting.now.classes.now table lines most listed) }
{
    let lowest = representatives(alloc, setting.classes)?;
    let mut listed = scores(alloc, setting, logged, lowest.as_slice())?;
    leave_hitting(&mut listed);
    put_in_order(&mut listed);
    listed.truncate(most as usize);
    Ok(Suspects::of(listed))
}

// Returns the numbers with their scores, by one block of lines after another.
fn scores(
    alloc: Global,
    setting: &Setting,
    logged: &Logged,
    numbers: &[u32],
) -> Result<Vec<Suspect>, AllocError>
    requires answered { IsMarked setting.now logged.now }
    requires numbers { All (λ number. number < fault_count setting.now.subject.now) numbers.now }
    ensures { IfOk result (λ scores. (lines : List Line) (table : Answers) → IsLogged setting.now lines logged.now → AreAnswersAt setting.now table → scores.items ≡ map (suspect_of table lines) numbers.now) }
{
    let patterns = logged.patterns.as_slice();
    let mut pattern_sim = PatternSim::new(alloc, setting.subject)?;
    let mut scores = begun(alloc, numbers)?;
    let mut first = 0;
    while first < patterns.len() {
        let end = pattern_sim.run(patterns, first);
        add_lines(&mut scores, &mut pattern_sim, &logged.columns, first as u32);
        first = end;
    }
    Ok(scores)
}

// Returns the numbers with the scores of no line.
fn begun(alloc: Global, numbers: &[u32]) -> Result<Vec<Suspect>, AllocError>
    ensures { IfOk result (λ scores. scores.items ≡ map suspect_begun numbers.now) }
{
    let mut scores = Vec::with_capacity(alloc, numbers.len())?;
    for number in numbers {
        scores.push(Suspect {
            number: *number,
            explained: 0,
            hit_bits: 0,
            missed_bits: 0,
            false_bits: 0,
        })?;
    }
    Ok(scores)
}

// Adds the lines of the block that was run to the scores of all numbers. Line `first` is the first one of the block.
fn add_lines(
    scores: &mut Vec<Suspect>,
    pattern_sim: &mut PatternSim,
    columns: &LogColumns,
    first: u32,
)
    requires run { HasRunPatterns pattern_sim.old }
    requires columns { AreColumnRows (length pattern_sim.old.good.circuit.positions) columns.now }
    requires numbers { All (λ suspect. suspect.number < fault_count pattern_sim.old.good.circuit) scores.old.items }
    requires room { All (CanAddBlock (length pattern_sim.old.block.vectors) (length pattern_sim.old.good.circuit.positions)) scores.old.items }
    ensures pattern_sim { pattern_sim.new ≡ record pattern_sim.old { sim = pattern_sim.new.sim } }
    ensures run { HasRunPatterns pattern_sim.new }
    ensures added { AreAdded pattern_sim.old.good.circuit pattern_sim.old.block.vectors columns.now first scores.old.items scores.new.items }
{
    for place in 0..scores.len() {
        let mut suspect = scores[place];
        add_number(&mut suspect, pattern_sim, columns, first);
        scores[place] = suspect;
    }
}

// Adds the lines of the block that was run to the score of a number.
fn add_number(suspect: &mut Suspect, pattern_sim: &mut PatternSim, columns: &LogColumns, first: u32)
    requires run { HasRunPatterns pattern_sim.old }
    requires columns { AreColumnRows (length pattern_sim.old.good.circuit.positions) columns.now }
    requires number { suspect.old.number < fault_count pattern_sim.old.good.circuit }
    requires room { CanAddBlock (length pattern_sim.old.block.vectors) (length pattern_sim.old.good.circuit.positions) suspect.old }
    ensures pattern_sim { pattern_sim.new ≡ record pattern_sim.old { sim = pattern_sim.new.sim } }
    ensures run { HasRunPatterns pattern_sim.new }
    ensures added { IsAdded pattern_sim.old.good.circuit pattern_sim.old.block.vectors columns.now first suspect.old suspect.new }
{
    pattern_sim.inject(suspect.number);
    add_block(
        suspect,
        columns,
        &pattern_sim.sim,
        first,
        pattern_sim.block.live(),
    );
}

// Keeps the suspects that have a hit.
fn leave_hitting(scores: &mut Vec<Suspect>)
    ensures { scores.new.items ≡ filter has_hit scores.old.items }
{
    scores.retain(|suspect| suspect.hit_bits > 0);
}

// Sorts the suspects, the best first.
fn put_in_order(listed: &mut Vec<Suspect>)
    ensures permutation { IsPermutation listed.old.items listed.new.items }
    ensures sorted { IsSorted suspect_cmp listed.new.items }
{
    listed.sort_unstable_by(|a, b| order(a, b));
}

// Returns which of two suspects comes first.
fn order(a: &Suspect, b: &Suspect) -> Ordering
    ensures { result ≡ suspect_cmp a.now b.now }
{
    let explained = b.explained.cmp(&a.explained);
    let unlike = unlike(a).cmp(&unlike(b));
    let number = a.number.cmp(&b.number);
    explained.then(unlike.then(number))
}

// Returns how many bits a suspect misses or has false.
fn unlike(suspect: &Suspect) -> u128
    ensures { result ≡ unlike_bits suspect.now }
{
    u128::from(suspect.missed_bits) + u128::from(suspect.false_bits)
}
