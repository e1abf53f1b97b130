//! Reads and judges logs, whole, partial or of answers to a plan, and lists of vectors.

ghost use Rattle.std.specs.Prelude.{◌<◌, ◌^◌, length, IfErr, IfOk};
ghost use Rattle.dict_rows.specs.Rows.{AreRows};
ghost use Rattle.net_model.specs.Rows.{AreWide};
ghost use Rattle.diagnose.specs.Lines.{TellsLogFault};
ghost use Rattle.diagnose.specs.VectorText.{IsVectorList, VectorsRefused};
ghost use Rattle.ranked_diag.specs.PartialLog.{ArePartial, IsPartialLog};
ghost use Rattle.adaptive_tree.specs.WellFormed.{IsWellFormed};
ghost use Rattle.run_steps.specs.Logs.{IsLogFor, IsRefusedLog, IsRefusedPartialOf, IsLogTo, IsRefusedWalk, IsListFor, IsRefusedList, IsRefusedVectors};
ghost use Rattle.run_steps.specs.declared.ending.FileKind.TheVariants as file;
ghost use Rattle.run_steps.specs.Steps.{log_fault_text, vectors_fault_text, WasAccepted, IsOver};

use crate::ending::{FileKind, RunFault};
use crate::reads::{BytesFault, read_judged};
use crate::texts::{log_text, vectors_text};
use adaptive_tree::{Outcome, Plan, follow};
use diag_shelf::Shelf;
use diagnose::{LogFault, read_log, read_vectors};
use net_model::{AnswerRows, Circuit, Vectors};
use ranked_diag::{Partial, read_partial_of};
use std::alloc::{AllocError, Global};
use table_dicts::Dict;

/// Reads and judges the log `name` for `dict`, and returns the observed answers, one for each pattern. Returns errors
/// as `read_design` does, with `Refused(Log)` for a log that is refused.
pub fn read_observed<S: Shelf>(
    alloc: Global,
    shelf: &mut S,
    dict: &Dict,
    name: &str,
) -> Result<AnswerRows, RunFault>
    ensures rows { IfOk result (AreRows dict.now.patterns dict.now.positions) }
    ensures ok { IfOk result (λ observed. WasAccepted name.now file.Log (IsLogFor dict.now) observed (S.state shelf.old) (S.state shelf.new)) }
    ensures err { IfErr result (λ why. IsOver name.now file.Log (IsRefusedLog dict.now) why (S.state shelf.old) (S.state shelf.new)) }
{
    read_judged(alloc, shelf, name, FileKind::Log, |bytes| {
        read_log(alloc, dict, bytes)
    })
}

/// Reads and judges the partial log `name` of `patterns` patterns and `positions` positions. Returns errors as
/// `read_design` does, with `Refused(Log)` for a log that is refused.
pub fn read_partial_log<S: Shelf>(
    alloc: Global,
    shelf: &mut S,
    patterns: u32,
    positions: u32,
    name: &str,
) -> Result<Partial, RunFault>
    ensures lines { IfOk result (ArePartial patterns positions) }
    ensures ok { IfOk result (λ partial. WasAccepted name.now file.Log (IsPartialLog patterns positions) partial (S.state shelf.old) (S.state shelf.new)) }
    ensures err { IfErr result (λ why. IsOver name.now file.Log (IsRefusedPartialOf patterns positions) why (S.state shelf.old) (S.state shelf.new)) }
{
    read_judged(alloc, shelf, name, FileKind::Log, |bytes| {
        read_partial_of(alloc, patterns, positions, bytes)
    })
}

/// Reads and judges the log `name` of answers to `plan`, and returns where they lead. Returns errors as `read_design`
/// does, with `Refused(Log)` for a log that is refused.
pub fn read_walk<S: Shelf>(
    alloc: Global,
    shelf: &mut S,
    plan: &Plan,
    name: &str,
) -> Result<Outcome, RunFault>
    requires { IsWellFormed plan.now }
    ensures ok { IfOk result (λ outcome. WasAccepted name.now file.Log (IsLogTo plan.now) outcome (S.state shelf.old) (S.state shelf.new)) }
    ensures err { IfErr result (λ why. IsOver name.now file.Log (IsRefusedWalk plan.now) why (S.state shelf.old) (S.state shelf.new)) }
{
    read_judged(alloc, shelf, name, FileKind::Log, |bytes| {
        follow(alloc, plan, bytes)
    })
}

/// Reads and judges the list of vectors `name` for `circuit`. Returns errors as `read_design` does, with `Refused(Log)`
/// for a list that is refused, and a text that begins with `log:`.
pub fn read_list<S: Shelf>(
    alloc: Global,
    shelf: &mut S,
    circuit: &Circuit,
    name: &str,
) -> Result<Vectors, RunFault>
    ensures wide { IfOk result (AreWide circuit.now.sources) }
    ensures ok { IfOk result (λ vectors. WasAccepted name.now file.Log (IsListFor circuit.now) vectors (S.state shelf.old) (S.state shelf.new)) }
    ensures err { IfErr result (λ why. IsOver name.now file.Log (IsRefusedList circuit.now) why (S.state shelf.old) (S.state shelf.new)) }
{
    let sources = circuit.sources();
    read_judged(alloc, shelf, name, FileKind::Log, |bytes| {
        read_vectors(alloc, sources, bytes)
    })
}

/// A fault of a list of vectors, whose text begins with `vectors:`.
#[derive(Debug, Drop)]
pub(crate) struct ListFault {
    pub(crate) fault: LogFault,
}

/// Reads and judges the list of vectors `name` for `circuit`, in a command that may read a log too. Returns fewer than
/// 2^32 vectors. Returns errors as `read_design` does, with `Refused(Log)` for a list that is refused, and a text that
/// begins with `vectors:`.
pub fn read_vector_list<S: Shelf>(
    alloc: Global,
    shelf: &mut S,
    circuit: &Circuit,
    name: &str,
) -> Result<Vectors, RunFault>
    ensures wide { IfOk result (AreWide circuit.now.sources) }
    ensures few { IfOk result (λ vectors. length vectors < 2 ^ 32) }
    ensures ok { IfOk result (λ vectors. WasAccepted name.now file.Log (IsListFor circuit.now) vectors (S.state shelf.old) (S.state shelf.new)) }
    ensures err { IfErr result (λ why. IsOver name.now file.Log (IsRefusedVectors circuit.now) why (S.state shelf.old) (S.state shelf.new)) }
{
    let sources = circuit.sources();
    read_judged(
        alloc,
        shelf,
        name,
        FileKind::Log,
        |bytes| judge_list(alloc, sources, bytes),
    )
}

// Returns the list of vectors that `bytes` spell.
fn judge_list(alloc: Global, sources: u32, bytes: &[u8]) -> Result<Vectors, ListFault>
    ensures ok { IfOk result (λ vectors. IsVectorList sources bytes.now vectors) }
    ensures refused { IfErr result (λ fault. TellsLogFault (VectorsRefused sources bytes.now) fault.fault) }
{
    match read_vectors(alloc, sources, bytes) {
        Ok(vectors) => Ok(vectors),
        Err(fault) => Err(ListFault { fault }),
    }
}

impl BytesFault for ListFault {
    ghost said = { vectors_fault_text };

    fn text(self, alloc: Global) -> Result<Vec<u8>, AllocError> {
        match self.fault {
            LogFault::At(kind, line) => Ok(vectors_text(alloc, kind, line)?.into_bytes()),
            LogFault::NoMemory => Err(AllocError),
        }
    }
}

impl BytesFault for LogFault {
    ghost said = { log_fault_text };

    fn text(self, alloc: Global) -> Result<Vec<u8>, AllocError> {
        match self {
            LogFault::At(kind, line) => Ok(log_text(alloc, kind, line)?.into_bytes()),
            LogFault::NoMemory => Err(AllocError),
        }
    }
}
