//! The command `bridges`: the shorts of two lines that may explain what a log says of failing patterns, best first.

ghost use Rattle.std.specs.Prelude.{◌≡◌, ◌<◌, ◌++◌, ℕ, List, All, IfOk, OnOk, flat_map, length, []};
ghost use Rattle.net_model.specs.Circuit.{line_count};
ghost use Rattle.net_model.specs.PatternRows.{IsTableOf};
ghost use Rattle.result_records.specs.declared.record.Record.{Record};
ghost use Rattle.result_records.specs.Spelling.{text_of};
ghost use Rattle.result_file.specs.Accepted.{IsAccepted};
ghost use Rattle.ranked_diag.specs.PartialLog.{Line, ArePartial};
ghost use Rattle.table_dicts.specs.Setting.{IsScored};
ghost use Rattle.bridging_faults.specs.declared.scored.ScoredBridge.{ScoredBridge};
ghost use Rattle.bridging_faults.specs.Printed.{AreBridgesOf};
ghost use Rattle.bridging_faults.specs.Texts.{bridge_line, bridges_text};
ghost use Rattle.run_steps.specs.Plans.{says, with_log_at, with_result};
ghost use Rattle.run_steps.specs.Ran.{Follows, result_log_endings};
ghost use Rattle.listing_commands.specs.Bridges.{IsBridgesText};
ghost use Rattle.listing_commands.specs.Plans.{bridges_plan};

use crate::texts::{bridge_counts, bridge_word, bridges_end};
use bridging_faults::{Bridge, Bridges, ScoredBridge, bridges};
use diag_shelf::Shelf;
use fault_collapse::Subject;
use net_model::Names;
use ranked_diag::Partial;
use result_file::Checked;
use run_steps::{RunFault, read_design, read_log_at, read_result, say, setting_of};
use std::alloc::{AllocError, Global};
use suspect_scores::{Logged, count_failing};
use table_dicts::Setting;

/// Reads and judges the netlist `bench`, the result `results` and the partial log `log`, in this order, and prints the
/// bridges without a loop that explain some failing pattern of the log, and all except at most `within`, best first, at
/// most `most` of them. Returns errors as `list_faults` does.
pub fn list_bridges<S: Shelf>(
    alloc: Global,
    shelf: &mut S,
    bench: &str,
    results: &str,
    log: &str,
    most: u32,
    within: u32,
) -> Result<(), RunFault>
    ensures { Follows (bridges_plan bench.now results.now log.now most within) result_log_endings [] result (S.state shelf.old) (S.state shelf.new) }
{
    let design = read_design(alloc, shelf, bench)?;
    let subject = Subject::new(alloc, &design.circuit)?;
    bridges_for(
        alloc,
        shelf,
        &subject,
        &design.names,
        results,
        log,
        most,
        within,
    )
}

// Reads and judges the result for a circuit whose lines have these names and then the log, and prints the bridges.
fn bridges_for<S: Shelf>(
    alloc: Global,
    shelf: &mut S,
    subject: &Subject,
    names: &Names,
    results: &str,
    log: &str,
    most: u32,
    within: u32,
) -> Result<(), RunFault>
    requires { length names.now ≡ line_count subject.now }
    ensures { Follows (with_result results.now subject.now (λ (file : List ℕ). with_log_at log.now subject.now file (λ (lines : List Line). says (IsBridgesText subject.now names.now file lines within most)))) result_log_endings [] result (S.state shelf.old) (S.state shelf.new) }
{
    let checked = read_result(alloc, shelf, subject, results)?;
    bridges_at(alloc, shelf, subject, names, &checked, log, most, within)
}

// Reads and judges the log for a result that was checked, and prints the bridges.
fn bridges_at<S: Shelf>(
    alloc: Global,
    shelf: &mut S,
    subject: &Subject,
    names: &Names,
    checked: &Checked,
    log: &str,
    most: u32,
    within: u32,
) -> Result<(), RunFault>
    requires named { length names.now ≡ line_count subject.now }
    requires widths { All (λ v. length v ≡ subject.now.sources) checked.now.patterns }
    requires table { IsTableOf subject.now checked.now.patterns checked.now.classes }
    ensures { (records : List Record) → IsAccepted subject.now records checked.now → Follows (with_log_at log.now subject.now (text_of records) (λ (lines : List Line). says (IsBridgesText subject.now names.now (text_of records) lines within most))) result_log_endings [] result (S.state shelf.old) (S.state shelf.new) }
{
    let partial = read_log_at(alloc, shelf, subject, checked, log)?;
    let setting = setting_of(subject, checked);
    let text = text_at(alloc, &setting, names, &partial, most, within)?;
    say(shelf, &text)
}

/// Returns the text of the bridges of a log at `setting`.
pub(crate) fn text_at(
    alloc: Global,
    setting: &Setting,
    names: &Names,
    partial: &Partial,
    most: u32,
    within: u32,
) -> Result<Vec<u8>, AllocError>
    requires named { length names.now ≡ line_count setting.now.subject.now }
    requires scored { IsScored setting.now }
    requires partial { ArePartial (length setting.now.patterns.now) (length setting.now.subject.now.positions) partial.now }
    ensures { IfOk result (λ text. AreBridgesOf setting.now.subject.now names.now setting.now.patterns.now partial.now within most text.items) }
{
    // The proof learns from this call that the circuit answers to each pattern.
    setting.subject.circuit().stands();
    let logged = Logged::new(alloc, setting, partial)?;
    let listed = bridges(alloc, setting, &logged, most, within)?;
    let failing = count_failing(&logged);
    let text = bridges_text(alloc, names, &listed, failing, partial.len())?;
    Ok(text)
}

// Returns a line for each bridge, and the line with how many bridges are listed, how many were found, how many are
// exact, and how many patterns are failing and logged.
#[tactic(auto, unfolding(bridging_faults::specs::Texts::bridges_text))]
fn bridges_text(
    alloc: Global,
    names: &Names,
    listed: &Bridges,
    failing: usize,
    logged: usize,
) -> Result<Vec<u8>, AllocError>
    requires first { All (λ (s : ScoredBridge). s.bridge.first < length names.now) listed.now.listed }
    requires second { All (λ (s : ScoredBridge). s.bridge.second < length names.now) listed.now.listed }
    ensures { IfOk result (λ text. text.items ≡ bridges_text names.now listed.now failing logged) }
{
    let mut text = Vec::new(alloc);
    push_bridges(&mut text, names, listed)?;
    let (found, exact) = (listed.found(), listed.exact());
    let end = bridges_end(alloc, listed.len(), found, exact, failing, logged)?;
    text.extend_from_slice(end.as_bytes())?;
    Ok(text)
}

// Appends a line for each bridge.
fn push_bridges(text: &mut Vec<u8>, names: &Names, listed: &Bridges) -> Result<(), AllocError>
    requires first { All (λ (s : ScoredBridge). s.bridge.first < length names.now) listed.now.listed }
    requires second { All (λ (s : ScoredBridge). s.bridge.second < length names.now) listed.now.listed }
    ensures { OnOk result (text.new.items ≡ text.old.items ++ flat_map (bridge_line names.now) listed.now.listed) }
{
    for at in 0..listed.len() {
        push_bridge(text, names, listed.get(at))?;
    }
    Ok(())
}

// Appends a bridge by the names of its lines, and what it explains.
#[tactic(auto, unfolding(bridging_faults::specs::Texts::bridge_line))]
fn push_bridge(text: &mut Vec<u8>, names: &Names, scored: ScoredBridge) -> Result<(), AllocError>
    requires first { scored.bridge.first < length names.now }
    requires second { scored.bridge.second < length names.now }
    ensures { OnOk result (text.new.items ≡ text.old.items ++ bridge_line names.now scored) }
{
    let Bridge {
        kind,
        first,
        second,
    } = scored.bridge;
    let counts = bridge_counts(*text.allocator(), scored.explained, scored.false_patterns)?;
    text.extend_from_slice(bridge_word(kind).as_bytes())?;
    text.push(b' ')?;
    text.extend_from_slice(names.text(first))?;
    text.push(b' ')?;
    text.extend_from_slice(names.text(second))?;
    text.extend_from_slice(counts.as_bytes())
}
