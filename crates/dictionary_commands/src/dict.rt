//! The command `dict`: from the bytes of a netlist and a result to a dictionary.

ghost use Rattle.std.specs.Prelude.{◌≡◌, IfOk, length, string_bytes, [], ◌∷◌};
ghost use Rattle.net_model.specs.Circuit.{IsCircuit};
ghost use Rattle.class_refine.specs.Fields.{IsWhole};
ghost use Rattle.dict_rows.specs.Dictionary.{IsGroupedDict, IsShaped};
ghost use Rattle.table_dicts.specs.Setting.{IsSetting};
ghost use Rattle.dict_file.specs.declared.fault.DictVersion.TheVariants.{Two};
ghost use Rattle.dict_file.specs.Spelling.{dict_spelling};
ghost use Rattle.dictionary_commands.specs.Dictionaries.{IsOfPatterns, KeepsMostApart, IsMadeOf, dictionary_counts};
ghost use Rattle.dictionary_commands.specs.Plans.{dict_plan};
ghost use Rattle.run_steps.specs.Ran.{Follows, result_endings};

use crate::texts::apart_text;
use class_refine::Classes;
use diag_shelf::Shelf;
use dict_file::{DictVersion, encode};
use fault_collapse::Subject;
use request_words::EntryKind;
use run_steps::{RunFault, read_design, read_result, save, setting_of};
use samediff_dict::{keeps_as_many, no_row_is_better, same_diff_at};
use std::alloc::{AllocError, Global};
use table_dicts::{Dict, Setting, apart, full_at, pass_fail_at};

/// Reads and judges the netlist `bench` and then the result `results`, makes the dictionary of this `kind` under the
/// name `output`, and prints its counts.
///
/// Returns `Refused` with the kind of a file exactly if this file is the first of those that it reads to be refused,
/// unless it returns another error; then no file was created or changed, and the console gained the text of the
/// refusal. Returns `ReadFailed` only if the count of read faults rose; then no file was created or changed, and
/// nothing was printed. Returns `WriteFailed` only if the count of write faults rose, and `NoMemory` if memory is
/// missing; then it did nothing, or a part of what words and files call for: a beginning of the file, if the command
/// makes one, and a beginning of the text, none before the file is whole; if a read failed it did nothing. Files other
/// than its output are as before in any case. If the count of read faults is greater it returns `ReadFailed` or
/// `NoMemory`; if that of write faults is, `WriteFailed` or `NoMemory`. Unless it returns one of these three errors,
/// the file that it read last is read to its end, or to one byte past the limit of its kind. On a sure shelf that holds
/// each file that it reads, up to the first that is refused, no count rises. What is said of files and of the console
/// holds on a shelf that tells them.
pub fn make_dictionary<S: Shelf>(
    alloc: Global,
    shelf: &mut S,
    kind: EntryKind,
    bench: &str,
    results: &str,
    output: &str,
) -> Result<(), RunFault>
    ensures { Follows (dict_plan kind bench.now results.now output.now) result_endings (output.now ∷ []) result (S.state shelf.old) (S.state shelf.new) }
{
    let design = read_design(alloc, shelf, bench)?;
    let subject = Subject::new(alloc, &design.circuit)?;
    let checked = read_result(alloc, shelf, &subject, results)?;
    let setting = setting_of(&subject, &checked);
    let made = made_of(alloc, kind, &setting)?;
    save(shelf, output, &made.file, made.text.as_bytes())
}

// A dictionary's file, and what is printed of it.
#[derive(Drop)]
struct Made {
    file: Vec<u8>,
    text: String,
}

// Returns the dictionary at `setting` as a file, and what is printed of it.
fn made_of(alloc: Global, kind: EntryKind, setting: &Setting) -> Result<Made, AllocError>
    requires { IsSetting setting.now }
    ensures { IfOk result (λ made. IsMadeOf setting.now.subject.now kind setting.now.patterns.now setting.now.classes.now made.file.items (string_bytes made.text)) }
{
    let dict = dictionary_of(alloc, kind, setting)?;
    let made = spelled(alloc, &dict, setting.classes)?;
    Ok(made)
}

// Returns the dictionary of this `kind`.
fn dictionary_of(alloc: Global, kind: EntryKind, setting: &Setting) -> Result<Dict, AllocError>
    requires { IsSetting setting.now }
    ensures circuit { IsCircuit setting.now.subject.now }
    ensures dictionary { IfOk result (IsOfPatterns setting.now.subject.now kind setting.now.patterns.now setting.now.classes.now) }
    ensures most { IfOk result (λ dict. kind ≡ EntryKind.SameDiff → KeepsMostApart setting.now.subject.now setting.now.patterns.now setting.now.classes.now dict) }
{
    // The proof learns from this call that `IsCircuit` holds of the circuit.
    setting.subject.circuit().stands();
    match kind {
        EntryKind::PassFail => pass_fail_at(alloc, setting),
        EntryKind::Full => full_at(alloc, setting),
        EntryKind::SameDiff => chosen_of(alloc, setting),
    }
}

// Returns the same/different dictionary with the baselines that are chosen.
fn chosen_of(alloc: Global, setting: &Setting) -> Result<Dict, AllocError>
    requires { IsSetting setting.now }
    ensures dictionary { IfOk result (IsOfPatterns setting.now.subject.now EntryKind.SameDiff setting.now.patterns.now setting.now.classes.now) }
    ensures most { IfOk result (KeepsMostApart setting.now.subject.now setting.now.patterns.now setting.now.classes.now) }
{
    keeps_as_many();
    no_row_is_better();
    let _count = setting.classes.count();
    same_diff_at(alloc, setting)
}

// Returns a dictionary's file in version 2, and what is printed of the dictionary and the classes.
fn spelled(alloc: Global, dict: &Dict, classes: &Classes) -> Result<Made, AllocError>
    requires grouped { IsGroupedDict dict.now }
    requires shaped { IsShaped dict.now }
    requires numbers { length classes.now.class_of ≡ dict.now.numbers }
    ensures whole { IsWhole classes.now }
    ensures file { IfOk result (λ made. made.file.items ≡ dict_spelling Two dict.now) }
    ensures text { IfOk result (λ made. string_bytes made.text ≡ dictionary_counts dict.now classes.now) }
{
    let count = classes.count();
    let apart = apart(alloc, dict, classes)?;
    Ok(Made {
        file: encode(alloc, dict, DictVersion::Two)?,
        text: apart_text(alloc, dict.numbers, dict.patterns, count, apart)?,
    })
}
