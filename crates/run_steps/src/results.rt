//! Reads and judges a result, with or without keeping its bytes, and gives the setting that it states.

ghost use Rattle.std.specs.Prelude.{◌≡◌, List, All, IfErr, IfOk, Some, length};
ghost use Rattle.net_model.specs.PatternRows.{IsTableOf};
ghost use Rattle.result_records.specs.declared.record.Record.{Record};
ghost use Rattle.result_records.specs.Spelling.{text_of};
ghost use Rattle.result_file.specs.Accepted.{IsAccepted, IsAcceptedText};
ghost use Rattle.table_dicts.specs.Setting.{IsSetting};
ghost use Rattle.run_steps.specs.declared.ending.FileKind.TheVariants as kind;
ghost use Rattle.run_steps.specs.Results.{IsResult, IsRefusedResult};
ghost use Rattle.run_steps.specs.Steps.{WasAccepted, IsOver};
ghost use Rattle.run_steps.specs.Texts.{result_text};

use crate::ending::{FileKind, RunFault};
use crate::ends::{read_fault, read_file};
use crate::reads::{BytesFault, say_fault};
use crate::texts::result_text;
use dia_check::{FileFault, check_subject, check_subject_text};
use diag_shelf::Shelf;
use fault_collapse::Subject;
use result_file::{Checked, ResultFault};
use std::alloc::{AllocError, Global};
use table_dicts::Setting;

/// Reads and judges the result `name` for the circuit of `subject`, and returns what it states. Returns errors as
/// `read_design` does, with `Refused(Result)` for a result that is refused.
pub fn read_result<S: Shelf>(
    alloc: Global,
    shelf: &mut S,
    subject: &Subject,
    name: &str,
) -> Result<Checked, RunFault>
    ensures ok { IfOk result (λ checked. (records : List Record) × IsAccepted subject.now records checked × WasAccepted name.now kind.Result (IsResult subject.now) (text_of records) (S.state shelf.old) (S.state shelf.new)) }
    ensures err { IfErr result (λ why. IsOver name.now kind.Result (IsRefusedResult subject.now) why (S.state shelf.old) (S.state shelf.new)) }
{
    shelf.open_file(name).map_err(read_fault)?;
    match check_subject(alloc, subject, shelf) {
        Ok(checked) => Ok(checked),
        Err(FileFault::Result(fault)) => Err(say_fault(alloc, shelf, FileKind::Result, fault)),
        Err(FileFault::Failed) => Err(RunFault::ReadFailed),
        Err(FileFault::NoMemory) => Err(RunFault::NoMemory),
    }
}

/// A valid result: all of its bytes, and what they state.
#[derive(Debug, Drop)]
pub struct WholeResult {
    pub bytes: Vec<u8>,
    pub checked: Checked,
}

/// Reads and judges the result `name` for the circuit of `subject`, and returns all of its bytes and what they state.
/// Returns errors as `read_design` does, with `Refused(Result)` for a result that is refused.
pub fn read_whole_result<S: Shelf>(
    alloc: Global,
    shelf: &mut S,
    subject: &Subject,
    name: &str,
) -> Result<WholeResult, RunFault>
    ensures accepted { IfOk result (λ whole. IsAcceptedText subject.now whole.bytes.items whole.checked) }
    ensures ok { IfOk result (λ whole. WasAccepted name.now kind.Result (IsResult subject.now) whole.bytes.items (S.state shelf.old) (S.state shelf.new)) }
    ensures err { IfErr result (λ why. IsOver name.now kind.Result (IsRefusedResult subject.now) why (S.state shelf.old) (S.state shelf.new)) }
{
    let bytes = read_file(alloc, shelf, name, FileKind::Result)?;
    match check_subject_text(alloc, subject, &bytes) {
        Ok(checked) => Ok(WholeResult { bytes, checked }),
        Err(FileFault::Result(fault)) => Err(say_fault(alloc, shelf, FileKind::Result, fault)),
        Err(FileFault::Failed) => unreachable!(),
        Err(FileFault::NoMemory) => Err(RunFault::NoMemory),
    }
}

impl BytesFault for ResultFault {
    ghost said = { λ fault. Some (result_text fault) };

    fn text(self, alloc: Global) -> Result<Vec<u8>, AllocError> {
        Ok(result_text(alloc, self)?.into_bytes())
    }
}

/// Returns the setting of a result that was checked: the circuit of `subject`, and the patterns of `checked` with their
/// classes.
pub fn setting_of<'a>(subject: &'a Subject<'a>, checked: &'a Checked) -> Setting<'a>
    requires widths { All (λ v. length v ≡ subject.now.sources) checked.now.patterns }
    requires table { IsTableOf subject.now checked.now.patterns checked.now.classes }
    ensures setting { IsSetting result }
    ensures circuit { result.subject.now ≡ subject.now }
    ensures patterns { result.patterns.now ≡ checked.now.patterns }
    ensures classes { result.classes.now ≡ checked.now.classes }
{
    // The proof learns from this call that there are few patterns.
    let _patterns = checked.classes.patterns();
    Setting {
        subject,
        patterns: &checked.patterns,
        classes: &checked.classes,
    }
}
