//! The command `suspects`: the classes that may explain what a log says of failing patterns, best first.

ghost use Rattle.std.specs.Prelude.{◌≡◌, ◌++◌, ℕ, List, All, IfOk, OnOk, flat_map, length, string_bytes, []};
ghost use Rattle.net_model.specs.PatternRows.{IsTableOf};
ghost use Rattle.result_records.specs.declared.record.Record.{Record};
ghost use Rattle.result_records.specs.Spelling.{text_of};
ghost use Rattle.result_file.specs.Accepted.{IsAccepted};
ghost use Rattle.ranked_diag.specs.PartialLog.{Line, ArePartial};
ghost use Rattle.table_dicts.specs.Setting.{IsScored};
ghost use Rattle.listing_commands.specs.Applied.{AreSuspectsAt};
ghost use Rattle.listing_commands.specs.Plans.{suspects_plan};
ghost use Rattle.run_steps.specs.Plans.{says, with_log_at, with_result};
ghost use Rattle.run_steps.specs.Ran.{Follows, result_log_endings};
ghost use Rattle.listing_commands.specs.Suspects.{ClassesAnswerAlike, IsSuspectsText};
ghost use Rattle.listing_commands.specs.Texts.{suspect_line, suspects_text};

use crate::texts::{push_suspect, push_suspects_end};
use diag_shelf::Shelf;
use fault_collapse::Subject;
use ranked_diag::Partial;
use result_file::Checked;
use run_steps::{RunFault, read_design, read_log_at, read_result, say, setting_of};
use std::alloc::{AllocError, Global};
use suspect_scores::{
    Logged, Suspects, count_failing, members_score_alike, one_list_of_suspects, suspects,
};
use table_dicts::Setting;

/// Reads and judges the netlist `bench`, the result `results` and the partial log `log`, in this order, and prints the
/// classes whose faults hit a failing bit of the log, best first, at most `most` of them. Returns errors as
/// `list_faults` does.
pub fn list_suspects<S: Shelf>(
    alloc: Global,
    shelf: &mut S,
    bench: &str,
    results: &str,
    log: &str,
    most: u32,
) -> Result<(), RunFault>
    ensures { Follows (suspects_plan bench.now results.now log.now most) result_log_endings [] result (S.state shelf.old) (S.state shelf.new) }
{
    let design = read_design(alloc, shelf, bench)?;
    let subject = Subject::new(alloc, &design.circuit)?;
    suspects_for(alloc, shelf, &subject, results, log, most)
}

// Reads and judges the result for a circuit and then the log, and prints the suspects.
fn suspects_for<S: Shelf>(
    alloc: Global,
    shelf: &mut S,
    subject: &Subject,
    results: &str,
    log: &str,
    most: u32,
) -> Result<(), RunFault>
    ensures { Follows (with_result results.now subject.now (λ (file : List ℕ). with_log_at log.now subject.now file (λ (lines : List Line). says (IsSuspectsText subject.now file lines most)))) result_log_endings [] result (S.state shelf.old) (S.state shelf.new) }
{
    let checked = read_result(alloc, shelf, subject, results)?;
    suspects_at(alloc, shelf, subject, &checked, log, most)
}

// Reads and judges the log for a result that was checked, and prints the suspects.
fn suspects_at<S: Shelf>(
    alloc: Global,
    shelf: &mut S,
    subject: &Subject,
    checked: &Checked,
    log: &str,
    most: u32,
) -> Result<(), RunFault>
    requires widths { All (λ v. length v ≡ subject.now.sources) checked.now.patterns }
    requires table { IsTableOf subject.now checked.now.patterns checked.now.classes }
    ensures { (records : List Record) → IsAccepted subject.now records checked.now → Follows (with_log_at log.now subject.now (text_of records) (λ (lines : List Line). says (IsSuspectsText subject.now (text_of records) lines most))) result_log_endings [] result (S.state shelf.old) (S.state shelf.new) }
{
    // The proof learns from this call that the members of a class answer alike.
    subject.circuit().stands();
    let partial = read_log_at(alloc, shelf, subject, checked, log)?;
    let setting = setting_of(subject, checked);
    let text = text_at(alloc, &setting, &partial, most)?;
    say(shelf, text.as_bytes())
}

/// Returns the text of the suspects of a log at `setting`.
pub(crate) fn text_at(
    alloc: Global,
    setting: &Setting,
    partial: &Partial,
    most: u32,
) -> Result<String, AllocError>
    requires scored { IsScored setting.now }
    requires alike { ClassesAnswerAlike setting.now.subject.now setting.now.patterns.now setting.now.classes.now }
    requires partial { ArePartial (length setting.now.patterns.now) (length setting.now.subject.now.positions) partial.now }
    ensures { IfOk result (λ text. AreSuspectsAt setting.now.subject.now setting.now.patterns.now setting.now.classes.now partial.now most (string_bytes text)) }
{
    // The proof learns from these calls what holds of all members of a class and of the log of one fault.
    members_score_alike();
    one_list_of_suspects();
    let logged = Logged::new(alloc, setting, partial)?;
    let listed = suspects(alloc, setting, &logged, most)?;
    let failing = count_failing(&logged);
    let text = suspects_text(alloc, &listed, failing, partial.len())?;
    Ok(text)
}

// Returns a line for each suspect, and the line with how many suspects there are, and how many patterns are failing and
// logged.
#[tactic(auto, unfolding(crate::specs::Texts::suspects_text))]
fn suspects_text(
    alloc: Global,
    listed: &Suspects,
    failing: usize,
    logged: usize,
) -> Result<String, AllocError>
    ensures { IfOk result (λ text. string_bytes text ≡ suspects_text listed.now failing logged) }
{
    let mut text = String::new(alloc);
    push_suspects(&mut text, listed)?;
    push_suspects_end(&mut text, listed.len(), failing, logged)?;
    Ok(text)
}

// Appends a line for each suspect.
fn push_suspects(text: &mut String, listed: &Suspects) -> Result<(), AllocError>
    ensures { OnOk result (string_bytes text.new ≡ string_bytes text.old ++ flat_map suspect_line listed.now) }
{
    for at in 0..listed.len() {
        push_suspect(text, listed.get(at))?;
    }
    Ok(())
}
