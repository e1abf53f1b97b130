//! Reads and judges a partial log for a result, or for vectors that were applied.

ghost use Rattle.std.specs.Prelude.{◌<◌, ◌^◌, List, IfErr, IfOk, length};
ghost use Rattle.net_model.specs.PatternRows.{IsTableOf};
ghost use Rattle.result_records.specs.declared.record.Record.{Record};
ghost use Rattle.result_records.specs.Spelling.{text_of};
ghost use Rattle.result_file.specs.Accepted.{IsAccepted};
ghost use Rattle.ranked_diag.specs.PartialLog.{ArePartial, IsPartialLog};
ghost use Rattle.run_steps.specs.declared.ending.FileKind.TheVariants as file;
ghost use Rattle.run_steps.specs.Logs.{IsRefusedPartialOf};
ghost use Rattle.run_steps.specs.Steps.{WasAccepted, IsOver};
ghost use Rattle.run_steps.specs.ResultLogs.{IsLogAt, IsRefusedAt};

use crate::ending::RunFault;
use crate::logs::read_partial_log;
use diag_shelf::Shelf;
use fault_collapse::Subject;
use net_model::{Circuit, Vector};
use ranked_diag::Partial;
use result_file::Checked;
use std::alloc::Global;

/// Reads and judges the partial log `name`, for the patterns of `checked` and the positions of `subject`. It is
/// accepted or refused for the bytes that the accepted records of the result spell. Returns errors as `read_design`
/// does, with `Refused(Log)` for a log that is refused.
pub fn read_log_at<S: Shelf>(
    alloc: Global,
    shelf: &mut S,
    subject: &Subject,
    checked: &Checked,
    name: &str,
) -> Result<Partial, RunFault>
    requires { IsTableOf subject.now checked.now.patterns checked.now.classes }
    ensures lines { IfOk result (ArePartial (length checked.now.patterns) (length subject.now.positions)) }
    ensures ok { IfOk result (λ partial. (records : List Record) → IsAccepted subject.now records checked.now → WasAccepted name.now file.Log (IsLogAt subject.now (text_of records)) partial (S.state shelf.old) (S.state shelf.new)) }
    ensures err { IfErr result (λ why. (records : List Record) → IsAccepted subject.now records checked.now → IsOver name.now file.Log (IsRefusedAt subject.now (text_of records)) why (S.state shelf.old) (S.state shelf.new)) }
{
    let patterns = checked.classes.patterns();
    let positions = subject.circuit().positions().len() as u32;
    read_partial_log(alloc, shelf, patterns, positions, name)
}

/// Reads and judges the partial log `name`, whose lines have the numbers of `vectors`. There must be fewer than 2^32 of
/// these. Returns errors as `read_design` does, with `Refused(Log)` for a log that is refused.
pub fn read_log_of<S: Shelf>(
    alloc: Global,
    shelf: &mut S,
    circuit: &Circuit,
    vectors: &[Vector],
    name: &str,
) -> Result<Partial, RunFault>
    requires { length vectors.now < 2 ^ 32 }
    ensures lines { IfOk result (ArePartial (length vectors.now) (length circuit.now.positions)) }
    ensures ok { IfOk result (λ partial. WasAccepted name.now file.Log (IsPartialLog (length vectors.now) (length circuit.now.positions)) partial (S.state shelf.old) (S.state shelf.new)) }
    ensures err { IfErr result (λ why. IsOver name.now file.Log (IsRefusedPartialOf (length vectors.now) (length circuit.now.positions)) why (S.state shelf.old) (S.state shelf.new)) }
{
    let patterns = vectors.len() as u32;
    let positions = circuit.positions().len() as u32;
    read_partial_log(alloc, shelf, patterns, positions, name)
}
