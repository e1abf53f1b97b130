//! The command `cover`: classes that together explain what a log says of failing patterns, one after another.

ghost use Rattle.std.specs.Prelude.{◌≡◌, ◌++◌, ℕ, List, All, IfOk, OnOk, flat_map, length, string_bytes, sum_by, []};
ghost use Rattle.net_model.specs.PatternRows.{IsTableOf};
ghost use Rattle.result_records.specs.declared.record.Record.{Record};
ghost use Rattle.result_records.specs.Spelling.{text_of};
ghost use Rattle.result_file.specs.Accepted.{IsAccepted};
ghost use Rattle.ranked_diag.specs.PartialLog.{Line, ArePartial};
ghost use Rattle.table_dicts.specs.Setting.{IsScored};
ghost use Rattle.listing_commands.specs.Plans.{cover_plan};
ghost use Rattle.run_steps.specs.Plans.{says, with_log_at, with_result};
ghost use Rattle.run_steps.specs.Ran.{Follows, result_log_endings};
ghost use Rattle.listing_commands.specs.Suspects.{ClassesAnswerAlike, IsCoverOf, IsCoverText};
ghost use Rattle.listing_commands.specs.Texts.{choice_line, cover_text};

use crate::texts::{push_choice, push_cover_end};
use diag_shelf::Shelf;
use fault_collapse::Subject;
use ranked_diag::Partial;
use result_file::Checked;
use run_steps::{RunFault, read_design, read_log_at, read_result, say, setting_of};
use std::alloc::{AllocError, Global};
use suspect_scores::{Cover, Logged, count_failing, cover, one_cover_explains};
use table_dicts::Setting;

/// Reads and judges the netlist `bench`, the result `results` and the partial log `log`, in this order, and prints
/// classes that together explain the failing patterns of the log, as far as any class explains them. Returns errors as
/// `list_faults` does.
pub fn list_cover<S: Shelf>(
    alloc: Global,
    shelf: &mut S,
    bench: &str,
    results: &str,
    log: &str,
) -> Result<(), RunFault>
    ensures { Follows (cover_plan bench.now results.now log.now) result_log_endings [] result (S.state shelf.old) (S.state shelf.new) }
{
    let design = read_design(alloc, shelf, bench)?;
    let subject = Subject::new(alloc, &design.circuit)?;
    cover_for(alloc, shelf, &subject, results, log)
}

// Reads and judges the result for a circuit and then the log, and prints the cover.
fn cover_for<S: Shelf>(
    alloc: Global,
    shelf: &mut S,
    subject: &Subject,
    results: &str,
    log: &str,
) -> Result<(), RunFault>
    ensures { Follows (with_result results.now subject.now (λ (file : List ℕ). with_log_at log.now subject.now file (λ (lines : List Line). says (IsCoverText subject.now file lines)))) result_log_endings [] result (S.state shelf.old) (S.state shelf.new) }
{
    let checked = read_result(alloc, shelf, subject, results)?;
    cover_at(alloc, shelf, subject, &checked, log)
}

// Reads and judges the log for a result that was checked, and prints the cover.
fn cover_at<S: Shelf>(
    alloc: Global,
    shelf: &mut S,
    subject: &Subject,
    checked: &Checked,
    log: &str,
) -> Result<(), RunFault>
    requires widths { All (λ v. length v ≡ subject.now.sources) checked.now.patterns }
    requires table { IsTableOf subject.now checked.now.patterns checked.now.classes }
    ensures { (records : List Record) → IsAccepted subject.now records checked.now → Follows (with_log_at log.now subject.now (text_of records) (λ (lines : List Line). says (IsCoverText subject.now (text_of records) lines))) result_log_endings [] result (S.state shelf.old) (S.state shelf.new) }
{
    // The proof learns from this call that the members of a class answer alike.
    subject.circuit().stands();
    let partial = read_log_at(alloc, shelf, subject, checked, log)?;
    let setting = setting_of(subject, checked);
    let text = text_at(alloc, &setting, &partial)?;
    say(shelf, text.as_bytes())
}

/// Returns the text of the cover of a log at `setting`.
pub(crate) fn text_at(
    alloc: Global,
    setting: &Setting,
    partial: &Partial,
) -> Result<String, AllocError>
    requires scored { IsScored setting.now }
    requires alike { ClassesAnswerAlike setting.now.subject.now setting.now.patterns.now setting.now.classes.now }
    requires partial { ArePartial (length setting.now.patterns.now) (length setting.now.subject.now.positions) partial.now }
    ensures { IfOk result (λ text. IsCoverOf setting.now.subject.now setting.now.patterns.now setting.now.classes.now partial.now (string_bytes text)) }
{
    // The proof learns from this call what a cover explains.
    one_cover_explains();
    let logged = Logged::new(alloc, setting, partial)?;
    let choices = cover(alloc, setting, &logged)?;
    let failing = count_failing(&logged);
    let text = cover_text(alloc, &choices, failing)?;
    Ok(text)
}

// Returns a line for each choice, and the line with how many choices there are, how many failing patterns they explain,
// and how many fail.
#[tactic(auto, unfolding(crate::specs::Texts::cover_text))]
fn cover_text(alloc: Global, choices: &Cover, failing: usize) -> Result<String, AllocError>
    ensures { IfOk result (λ text. string_bytes text ≡ cover_text choices.now failing) }
{
    let mut text = String::new(alloc);
    push_choices(&mut text, choices)?;
    push_cover_end(&mut text, choices.len(), explained(choices), failing)?;
    Ok(text)
}

// Appends a line for each choice.
fn push_choices(text: &mut String, choices: &Cover) -> Result<(), AllocError>
    ensures { OnOk result (string_bytes text.new ≡ string_bytes text.old ++ flat_map choice_line choices.now) }
{
    for at in 0..choices.len() {
        push_choice(text, choices.get(at))?;
    }
    Ok(())
}

// Returns how many failing patterns the choices explain together.
fn explained(choices: &Cover) -> u128
    ensures { result ≡ sum_by (λ choice. choice.explained) choices.now }
{
    let mut sum = 0;
    for at in 0..choices.len() {
        sum += u128::from(choices.get(at).explained);
    }
    sum
}
