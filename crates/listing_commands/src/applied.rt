//! The commands `suspects`, `cover`, `bridges` and `expect` with vectors that were applied: a log has the numbers of a
//! list of vectors, and suspects and covers go by the classes that the result's patterns and the list make together.

ghost use Rattle.std.specs.Prelude.{◌≡◌, ℕ, Bool, List, IfOk, length, [], ◌∷◌};
ghost use Rattle.net_model.specs.Circuit.{line_count};
ghost use Rattle.net_model.specs.FaultList.{fault_count};
ghost use Rattle.net_model.specs.PatternRows.{IsTableOf};
ghost use Rattle.net_model.specs.Rows.{AreWide};
ghost use Rattle.result_records.specs.declared.record.Record.{Record};
ghost use Rattle.result_records.specs.Spelling.{text_of};
ghost use Rattle.result_file.specs.Accepted.{IsAccepted};
ghost use Rattle.dict_rows.specs.AnswerTable.{AreAnswerable};
ghost use Rattle.ranked_diag.specs.PartialLog.{Line};
ghost use Rattle.run_steps.specs.Plans.{makes_file, says, with_list, with_log_of, with_result};
ghost use Rattle.run_steps.specs.Ran.{Follows, result_log_endings};
ghost use Rattle.listing_commands.specs.Applied.{AreClassesWith, IsBridgesAt, IsCoverAt, IsExpectedAt, IsSuspectsAt};
ghost use Rattle.listing_commands.specs.Plans.{bridges_at_plan, cover_at_plan, expect_at_plan, suspects_at_plan};
ghost use Rattle.listing_commands.specs.Suspects.{ClassesAnswerAlike};

use crate::expect::expected_of;
use crate::{bridges, cover, suspects};
use class_refine::Classes;
use diag_shelf::Shelf;
use fault_collapse::Subject;
use kept_vectors::classes_of;
use net_model::{Names, Vectors};
use result_file::Checked;
use run_steps::{RunFault, read_design, read_log_of, read_result, read_vector_list, save, say};
use std::alloc::{AllocError, Global};
use table_dicts::Setting;

// ---- classes

// Returns the classes that a result's patterns and a list make together.
fn joined_classes(
    alloc: Global,
    subject: &Subject,
    checked: &Checked,
    list: &Vectors,
) -> Result<Classes, AllocError>
    requires patterns { AreWide subject.now.sources checked.now.patterns }
    requires list { AreWide subject.now.sources list.now }
    ensures numbers { IfOk result (λ t. length t.class_of ≡ fault_count subject.now) }
    ensures alike { IfOk result (ClassesAnswerAlike subject.now list.now) }
    ensures are { IfOk result (λ t. (records : List Record) → IsAccepted subject.now records checked.now → AreClassesWith subject.now (text_of records) list.now t) }
{
    // The proof learns from this call that the circuit answers to each vector.
    subject.circuit().stands();
    let classes = classes_of(alloc, subject, checked.patterns.as_slice(), list.as_slice())?;
    Ok(classes)
}

// ---- suspects

/// Reads and judges the netlist `bench`, the result `results`, the list of `vectors` and the partial log `log` of this
/// list, in this order, and prints the classes whose faults hit a failing bit of the log, best first, at most `most` of
/// them. The classes are those that the result's patterns and the list make together. Returns errors as `list_faults`
/// does.
pub fn list_suspects_at<S: Shelf>(
    alloc: Global,
    shelf: &mut S,
    bench: &str,
    results: &str,
    log: &str,
    most: u32,
    vectors: &str,
) -> Result<(), RunFault>
    ensures { Follows (suspects_at_plan bench.now results.now log.now most vectors.now) result_log_endings [] result (S.state shelf.old) (S.state shelf.new) }
{
    let design = read_design(alloc, shelf, bench)?;
    let subject = Subject::new(alloc, &design.circuit)?;
    suspects_for(alloc, shelf, &subject, results, vectors, log, most)
}

// Reads and judges the result for a circuit, then the list and then its log, and prints the suspects.
fn suspects_for<S: Shelf>(
    alloc: Global,
    shelf: &mut S,
    subject: &Subject,
    results: &str,
    vectors: &str,
    log: &str,
    most: u32,
) -> Result<(), RunFault>
    ensures { Follows (with_result results.now subject.now (λ (file : List ℕ). with_list vectors.now subject.now (λ (list : List (List Bool)). with_log_of log.now subject.now list (λ (lines : List Line). says (IsSuspectsAt subject.now file list lines most))))) result_log_endings [] result (S.state shelf.old) (S.state shelf.new) }
{
    let checked = read_result(alloc, shelf, subject, results)?;
    let list = read_vector_list(alloc, shelf, subject.circuit(), vectors)?;
    suspects_of(alloc, shelf, subject, &checked, &list, log, most)
}

// Reads and judges the log of a list for a result that was checked, and prints the suspects.
fn suspects_of<S: Shelf>(
    alloc: Global,
    shelf: &mut S,
    subject: &Subject,
    checked: &Checked,
    list: &Vectors,
    log: &str,
    most: u32,
) -> Result<(), RunFault>
    requires patterns { AreWide subject.now.sources checked.now.patterns }
    requires list { AreAnswerable subject.now list.now }
    ensures { (records : List Record) → IsAccepted subject.now records checked.now → Follows (with_log_of log.now subject.now list.now (λ (lines : List Line). says (IsSuspectsAt subject.now (text_of records) list.now lines most))) result_log_endings [] result (S.state shelf.old) (S.state shelf.new) }
{
    let partial = read_log_of(alloc, shelf, subject.circuit(), list.as_slice(), log)?;
    let classes = joined_classes(alloc, subject, checked, list)?;
    let setting = Setting {
        subject,
        patterns: list,
        classes: &classes,
    };
    let text = suspects::text_at(alloc, &setting, &partial, most)?;
    say(shelf, text.as_bytes())
}

// ---- covers

/// Reads and judges the netlist `bench`, the result `results`, the list of `vectors` and the partial log `log` of this
/// list, in this order, and prints classes that together explain the failing patterns of the log, as far as any class
/// explains them. The classes are those that the result's patterns and the list make together. Returns errors as
/// `list_faults` does.
pub fn list_cover_at<S: Shelf>(
    alloc: Global,
    shelf: &mut S,
    bench: &str,
    results: &str,
    log: &str,
    vectors: &str,
) -> Result<(), RunFault>
    ensures { Follows (cover_at_plan bench.now results.now log.now vectors.now) result_log_endings [] result (S.state shelf.old) (S.state shelf.new) }
{
    let design = read_design(alloc, shelf, bench)?;
    let subject = Subject::new(alloc, &design.circuit)?;
    cover_for(alloc, shelf, &subject, results, vectors, log)
}

// Reads and judges the result for a circuit, then the list and then its log, and prints the cover.
fn cover_for<S: Shelf>(
    alloc: Global,
    shelf: &mut S,
    subject: &Subject,
    results: &str,
    vectors: &str,
    log: &str,
) -> Result<(), RunFault>
    ensures { Follows (with_result results.now subject.now (λ (file : List ℕ). with_list vectors.now subject.now (λ (list : List (List Bool)). with_log_of log.now subject.now list (λ (lines : List Line). says (IsCoverAt subject.now file list lines))))) result_log_endings [] result (S.state shelf.old) (S.state shelf.new) }
{
    let checked = read_result(alloc, shelf, subject, results)?;
    let list = read_vector_list(alloc, shelf, subject.circuit(), vectors)?;
    cover_of(alloc, shelf, subject, &checked, &list, log)
}

// Reads and judges the log of a list for a result that was checked, and prints the cover.
fn cover_of<S: Shelf>(
    alloc: Global,
    shelf: &mut S,
    subject: &Subject,
    checked: &Checked,
    list: &Vectors,
    log: &str,
) -> Result<(), RunFault>
    requires patterns { AreWide subject.now.sources checked.now.patterns }
    requires list { AreAnswerable subject.now list.now }
    ensures { (records : List Record) → IsAccepted subject.now records checked.now → Follows (with_log_of log.now subject.now list.now (λ (lines : List Line). says (IsCoverAt subject.now (text_of records) list.now lines))) result_log_endings [] result (S.state shelf.old) (S.state shelf.new) }
{
    let partial = read_log_of(alloc, shelf, subject.circuit(), list.as_slice(), log)?;
    let classes = joined_classes(alloc, subject, checked, list)?;
    let setting = Setting {
        subject,
        patterns: list,
        classes: &classes,
    };
    let text = cover::text_at(alloc, &setting, &partial)?;
    say(shelf, text.as_bytes())
}

// ---- bridges

/// Reads and judges the netlist `bench`, the result `results`, the list of `vectors` and the partial log `log` of this
/// list, in this order, and prints the bridges without a loop that explain some failing pattern of the log, and all
/// except at most `within`, best first, at most `most` of them. The bridges go by the list alone. Returns errors as
/// `list_faults` does.
pub fn list_bridges_at<S: Shelf>(
    alloc: Global,
    shelf: &mut S,
    bench: &str,
    results: &str,
    log: &str,
    most: u32,
    within: u32,
    vectors: &str,
) -> Result<(), RunFault>
    ensures { Follows (bridges_at_plan bench.now results.now log.now most within vectors.now) result_log_endings [] result (S.state shelf.old) (S.state shelf.new) }
{
    let design = read_design(alloc, shelf, bench)?;
    let subject = Subject::new(alloc, &design.circuit)?;
    bridges_for(
        alloc,
        shelf,
        &subject,
        &design.names,
        results,
        vectors,
        log,
        most,
        within,
    )
}

// Reads and judges the result for a circuit whose lines have these names, then the list and then its log, and prints
// the bridges.
fn bridges_for<S: Shelf>(
    alloc: Global,
    shelf: &mut S,
    subject: &Subject,
    names: &Names,
    results: &str,
    vectors: &str,
    log: &str,
    most: u32,
    within: u32,
) -> Result<(), RunFault>
    requires { length names.now ≡ line_count subject.now }
    ensures { Follows (with_result results.now subject.now (λ (file : List ℕ). with_list vectors.now subject.now (λ (list : List (List Bool)). with_log_of log.now subject.now list (λ (lines : List Line). says (IsBridgesAt subject.now names.now file list lines within most))))) result_log_endings [] result (S.state shelf.old) (S.state shelf.new) }
{
    let checked = read_result(alloc, shelf, subject, results)?;
    let list = read_vector_list(alloc, shelf, subject.circuit(), vectors)?;
    bridges_of(
        alloc, shelf, subject, names, &checked, &list, log, most, within,
    )
}

// Reads and judges the log of a list for a result that was checked, and prints the bridges.
fn bridges_of<S: Shelf>(
    alloc: Global,
    shelf: &mut S,
    subject: &Subject,
    names: &Names,
    checked: &Checked,
    list: &Vectors,
    log: &str,
    most: u32,
    within: u32,
) -> Result<(), RunFault>
    requires named { length names.now ≡ line_count subject.now }
    requires table { IsTableOf subject.now checked.now.patterns checked.now.classes }
    requires list { AreAnswerable subject.now list.now }
    ensures { (records : List Record) → IsAccepted subject.now records checked.now → Follows (with_log_of log.now subject.now list.now (λ (lines : List Line). says (IsBridgesAt subject.now names.now (text_of records) list.now lines within most))) result_log_endings [] result (S.state shelf.old) (S.state shelf.new) }
{
    let partial = read_log_of(alloc, shelf, subject.circuit(), list.as_slice(), log)?;
    // Classes don't matter for bridges, so the result's will do.
    let setting = Setting {
        subject,
        patterns: list,
        classes: &checked.classes,
    };
    let text = bridges::text_at(alloc, &setting, names, &partial, most, within)?;
    say(shelf, &text)
}

// ---- the log that a chip without a fault gives

/// Reads and judges the netlist `bench`, the result `results` and the list of `vectors`, in this order, and writes the
/// log that a chip without a fault gives to the list to the file `output`, which may be one of the files that were
/// read. Returns errors as `list_faults` does.
pub fn expect_log_at<S: Shelf>(
    alloc: Global,
    shelf: &mut S,
    bench: &str,
    results: &str,
    output: &str,
    vectors: &str,
) -> Result<(), RunFault>
    ensures { Follows (expect_at_plan bench.now results.now output.now vectors.now) result_log_endings (output.now ∷ []) result (S.state shelf.old) (S.state shelf.new) }
{
    let design = read_design(alloc, shelf, bench)?;
    let subject = Subject::new(alloc, &design.circuit)?;
    expect_for(alloc, shelf, &subject, results, vectors, output)
}

// Reads and judges the result for a circuit and then the list, and writes the log.
fn expect_for<S: Shelf>(
    alloc: Global,
    shelf: &mut S,
    subject: &Subject,
    results: &str,
    vectors: &str,
    output: &str,
) -> Result<(), RunFault>
    ensures { Follows (with_result results.now subject.now (λ (file : List ℕ). with_list vectors.now subject.now (λ (list : List (List Bool)). makes_file output.now (IsExpectedAt subject.now list)))) result_log_endings (output.now ∷ []) result (S.state shelf.old) (S.state shelf.new) }
{
    let checked = read_result(alloc, shelf, subject, results)?;
    let list = read_vector_list(alloc, shelf, subject.circuit(), vectors)?;
    // Classes don't matter for answers, so the result's will do.
    let setting = Setting {
        subject,
        patterns: &list,
        classes: &checked.classes,
    };
    let made = expected_of(alloc, &setting)?;
    save(shelf, output, &made.file, made.text.as_bytes())
}
