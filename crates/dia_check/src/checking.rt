//! `check`, and `check_subject` for a subject that is lent: the rest of the opened file, to its end or to one byte
//! beyond the limit.

ghost use Rattle.std.specs.Prelude.{◌≡◌, ℕ, ◌≤◌, ◌<◌, ◌+◌, [], List, IfOk, OnOk, OnErr, IsErrOf, IsTrue, IsSome};
ghost use Rattle.diag_shelf.specs.Calls.{IsReadCall, Told, OnlyReads, ReadsUpTo};
ghost use Rattle.result_records.specs.declared.record.Record.{Record};
ghost use Rattle.result_file.specs.declared.fault.ResultFault.{ResultFault};
ghost use Rattle.result_records.specs.Spelling.{text_of};
ghost use Rattle.result_file.specs.Refusal.{FileRefused};
ghost use Rattle.dia_check.specs.Faults.{as_shelf};
ghost use Rattle.result_file.specs.Accepted.{IsAccepted};
ghost use Rattle.dia_check.specs.Left.{ReadsRest, rest_of};
ghost use Rattle.dia_check.specs.Reader.{IsReading};
ghost use Rattle.dia_check.specs.Rest.{HasRead};

use crate::answer::FileFault;
use crate::reader::Reader;
use diag_shelf::Shelf;
use fault_collapse::Subject;
use net_model::Circuit;
use result_file::Checked;
use result_records::RESULT_LIMIT;
use std::alloc::Global;

/// Checks the opened file against a circuit. Unless a read fails or memory is missing, accepts it exactly if its rest
/// is a valid result of at most [`RESULT_LIMIT`] bytes, and otherwise returns `Result` with the kind and the line of
/// the first line that breaks a rule or goes beyond the limit.
///
/// The rest is read to its end or to one byte beyond the limit, whatever is found in it, so that a failed read comes
/// before a refusal. Returns `Failed` only if the count of read faults rose; on a sure shelf never. If it returns
/// `NoMemory` on a sure shelf, no count rose. After either, at most one byte more than the limit was read. Nothing
/// changes but the rest of the opened file and, after either, the count of read faults. What this says of files holds
/// if the shelf tells its files.
pub fn check<S: Shelf>(
    alloc: Global,
    circuit: &Circuit,
    shelf: &mut S,
) -> Result<Checked, FileFault>
    // A shelf that tells its files has an opened file.
    requires opened { IsTrue (S.state shelf.old).tells → IsSome (S.state shelf.old).world.rest }

    // The call is one that reads: if it returns `Failed`, the count of read faults rose; the count of write faults
    // doesn't change.
    ensures call { IsReadCall (as_shelf result) (S.state shelf.old) (S.state shelf.new) }

    // Only the rest of the opened file changes. It is read to its end or to one byte beyond the limit. If a read failed
    // or memory was missing, at most that was read.
    ensures others { Told (S.state shelf.old) (S.state shelf.new) OnlyReads }
    ensures read { OnOk (as_shelf result) (Told (S.state shelf.old) (S.state shelf.new) ReadsRest) }
    ensures err { OnErr (as_shelf result) (Told (S.state shelf.old) (S.state shelf.new) (ReadsUpTo (RESULT_LIMIT + 1))) }

    // If a result is returned, some records are accepted with it. If the shelf tells its files, their text is the rest
    // of the file.
    ensures valid { IfOk result (λ checked. (records : List Record) × IsAccepted circuit.now records checked × Told (S.state shelf.old) (S.state shelf.new) (λ old new. rest_of old ≡ text_of records)) }

    // Some text is refused for the fault that is returned. If the shelf tells its files, the text is the rest of the
    // file.
    ensures refused { (fault : ResultFault) → IsErrOf result (FileFault.Result fault) → (text : List ℕ) × FileRefused circuit.now text fault × Told (S.state shelf.old) (S.state shelf.new) (λ old new. rest_of old ≡ text) }

    // A sure shelf never fails.
    ensures never { IsTrue (S.state shelf.old).sure → ¬ IsErrOf result FileFault.Failed }
{
    let subject = Subject::new(alloc, circuit)?;
    check_subject(alloc, &subject, shelf)
}

/// Checks the opened file against the circuit of `subject`, as `check` does against a circuit whose faults aren't
/// listed yet. Errors and their effects are those of `check`.
pub fn check_subject<S: Shelf>(
    alloc: Global,
    subject: &Subject,
    shelf: &mut S,
) -> Result<Checked, FileFault>
    // A shelf that tells its files has an opened file.
    requires opened { IsTrue (S.state shelf.old).tells → IsSome (S.state shelf.old).world.rest }

    // The call is one that reads: if it returns `Failed`, the count of read faults rose; the count of write faults
    // doesn't change.
    ensures call { IsReadCall (as_shelf result) (S.state shelf.old) (S.state shelf.new) }

    // Only the rest of the opened file changes. It is read to its end or to one byte beyond the limit. If a read failed
    // or memory was missing, at most that was read.
    ensures others { Told (S.state shelf.old) (S.state shelf.new) OnlyReads }
    ensures read { OnOk (as_shelf result) (Told (S.state shelf.old) (S.state shelf.new) ReadsRest) }
    ensures err { OnErr (as_shelf result) (Told (S.state shelf.old) (S.state shelf.new) (ReadsUpTo (RESULT_LIMIT + 1))) }

    // If a result is returned, some records are accepted with it. If the shelf tells its files, their text is the rest
    // of the file.
    ensures valid { IfOk result (λ checked. (records : List Record) × IsAccepted subject.now records checked × Told (S.state shelf.old) (S.state shelf.new) (λ old new. rest_of old ≡ text_of records)) }

    // Some text is refused for the fault that is returned. If the shelf tells its files, the text is the rest of the
    // file.
    ensures refused { (fault : ResultFault) → IsErrOf result (FileFault.Result fault) → (text : List ℕ) × FileRefused subject.now text fault × Told (S.state shelf.old) (S.state shelf.new) (λ old new. rest_of old ≡ text) }

    // A sure shelf never fails.
    ensures never { IsTrue (S.state shelf.old).sure → ¬ IsErrOf result FileFault.Failed }
{
    let mut reader = Reader::start(alloc, subject)?;
    read_rest(alloc, subject, &mut reader, shelf)?;
    reader.finish(alloc, subject)
}

/// The most bytes that are looked at in one step.
pub(crate) const PIECE: usize = 4096;

// Reads the rest of the opened file, to its end or to one byte beyond the limit.
fn read_rest<S: Shelf>(
    alloc: Global,
    subject: &Subject,
    reader: &mut Reader,
    shelf: &mut S,
) -> Result<(), FileFault>
    requires opened { IsTrue (S.state shelf.old).tells → IsSome (S.state shelf.old).world.rest }
    requires reading { IsReading subject.now [] reader.old }
    ensures call { IsReadCall (as_shelf result) (S.state shelf.old) (S.state shelf.new) }
    ensures others { Told (S.state shelf.old) (S.state shelf.new) OnlyReads }
    ensures read { OnOk result (HasRead subject.now reader.new (S.state shelf.old) (S.state shelf.new)) }
    ensures err { OnErr result (Told (S.state shelf.old) (S.state shelf.new) (ReadsUpTo (RESULT_LIMIT + 1))) }
    ensures never { IsTrue (S.state shelf.old).sure → ¬ IsErrOf result FileFault.Failed }
    ensures result { (fault : ResultFault) → ¬ IsErrOf result (FileFault.Result fault) }
{
    let mut piece = [0u8; PIECE];
    let mut taken = 0;
    while taken <= RESULT_LIMIT {
        let count = shelf.read(&mut piece[..wanted(taken)])?;
        if count == 0 {
            return Ok(());
        }
        taken += count as u64;
        reader.feed(alloc, subject, &piece[..count])?;
    }
    Ok(())
}

// Returns how many bytes to ask for after `taken` bytes.
fn wanted(taken: u64) -> usize
    requires { taken ≤ RESULT_LIMIT }
    ensures some { 0 < result }
    ensures piece { result ≤ 4096 }
    ensures within { taken + result ≤ RESULT_LIMIT + 1 }
{
    let room = RESULT_LIMIT - taken;
    if room < PIECE as u64 {
        room as usize + 1
    } else {
        PIECE
    }
}
