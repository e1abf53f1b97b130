//! `generate` and `top_up`: a result from the stream or from a list of vectors, written piece by piece.

ghost use Rattle.std.specs.Prelude.{◌≡◌, ◌≤◌, ◌^◌, ℕ, List, IfOk, IfErr, OnErr, IsTrue, IsSome, IsErrOf, All, length};
ghost use Rattle.diag_shelf.specs.World.{State};
ghost use Rattle.diag_shelf.specs.Calls.{IsWriteCall, Told, Writes};
ghost use Rattle.result_records.specs.Limits.{AreWithinLimits};
ghost use Rattle.member_marks.specs.Given.{AreAllMarked};
ghost use Rattle.dia_gen.specs.Draft.{IsBegun, IsDraft};
ghost use Rattle.dia_gen.specs.Made.{IsMade, IsMadeFrom, IsToppedUp, IsCutFile};
ghost use Rattle.dia_gen.specs.Writing.{HasWritten, BrokeOff};

use crate::counts::count_marks;
use crate::draft::Draft;
use crate::setting::{FirstVectors, GenerationSetting};
use crate::writing::{write_classes, write_members};
use class_refine::named_separates_faults;
use diag_shelf::{Shelf, ShelfFault};
use distinguish_search::Levels;
use fault_collapse::{Subject, same_root_equal};
use net_model::{Circuit, Vector};
use pair_sets::{covering_is_equal, full_tree_is_covered, leaves_are_closed};
use result_file::{Budgets, Record, Summary};
use std::alloc::Global;

/// Generates a result from the first blocks of the stream and appends it to the created file. It writes pieces of whole
/// lines, and before each search all lines made so far, but no clause says so.
///
/// Returns `Failed` only if the count of write faults rose; on a sure shelf never. If it returns `NoMemory` on a sure
/// shelf, no count rose. After any error the count of read faults is as before; if the shelf tells its files, a
/// beginning of right lines was appended, the last perhaps cut, and all else is as before.
pub fn generate<S: Shelf>(
    alloc: Global,
    circuit: &Circuit,
    budgets: Budgets,
    shelf: &mut S,
) -> Result<Summary, ShelfFault>
    requires limits { AreWithinLimits budgets }

    // A shelf that tells its files has a written file.
    requires created { IsTrue (S.state shelf.old).tells → IsSome (S.state shelf.old).world.written }

    // The call is one that writes: if it returns `Failed`, the count of write faults rose; the count of read faults
    // doesn't change.
    ensures call { IsWriteCall result (S.state shelf.old) (S.state shelf.new) }

    // There is a file that the generator may make and that amounts to the summary. If the shelf tells its files, it is
    // what was appended.
    ensures written { IfOk result (λ summary. (file : List ℕ) × IsMade circuit.now budgets summary file × Told (S.state shelf.old) (S.state shelf.new) (Writes file)) }

    // If the budget has at least as many cubes as there are vectors, no member is left open.
    ensures complete { IfOk result (λ summary. 2 ^ circuit.now.sources ≤ budgets.cubes → summary.spent ≡ 0) }

    // After an error there is a beginning of right lines, the last perhaps cut. If the shelf tells its files, it is
    // what was appended.
    ensures err { OnErr result ((part : List ℕ) × IsCutFile circuit.now part × Told (S.state shelf.old) (S.state shelf.new) (Writes part)) }

    // A sure shelf never fails.
    ensures never { IsTrue (S.state shelf.old).sure → ¬ (IsErrOf result ShelfFault.Failed) }
{
    let subject = Subject::new(alloc, circuit)?;
    let levels = Levels::new(alloc, circuit)?;
    let setting = GenerationSetting::new(&subject, &levels, budgets, FirstVectors::OfStream);
    match write_result(alloc, &setting, shelf) {
        Ok(topped) => Ok(topped.summary),
        Err(fault) => Err(fault),
    }
}

/// The summary of a result that was made from a list of vectors, and the number of vectors of the list that were kept.
#[derive(Clone, Copy, Debug, PartialEq, Eq)]
pub struct ToppedUp {
    pub summary: Summary,
    pub kept: u32,
}

/// Generates a result from a list of vectors, and appends it as `generate` does. Keeps each vector of the list that
/// splits a class of those kept before it. Then it settles members as `generate` does after the stream; without budgets
/// of cubes and conflicts it searches none.
///
/// Returns `Failed` only if the count of write faults rose; on a sure shelf never. If it returns `NoMemory` on a sure
/// shelf, no count rose. After any error the count of read faults is as before; if the shelf tells its files, a
/// beginning of right lines was appended, the last perhaps cut, and all else is as before.
pub fn top_up<S: Shelf>(
    alloc: Global,
    circuit: &Circuit,
    vectors: &[Vector],
    budgets: Budgets,
    shelf: &mut S,
) -> Result<ToppedUp, ShelfFault>
    requires limits { AreWithinLimits budgets }

    // Each vector has a bit for each source.
    requires widths { All (λ v. length v ≡ circuit.now.sources) vectors.now }

    // A shelf that tells its files has a written file.
    requires created { IsTrue (S.state shelf.old).tells → IsSome (S.state shelf.old).world.written }

    // The call is one that writes: if it returns `Failed`, the count of write faults rose; the count of read faults
    // doesn't change.
    ensures call { IsWriteCall result (S.state shelf.old) (S.state shelf.new) }

    // There is a file that may be made from the list, amounts to the summary and has the given number of kept vectors.
    // If the shelf tells its files, it is what was appended.
    ensures written { IfOk result (λ topped. (file : List ℕ) × IsToppedUp circuit.now vectors.now budgets topped file × Told (S.state shelf.old) (S.state shelf.new) (Writes file)) }

    // If the budget has at least as many cubes as there are vectors, no member is left open.
    ensures complete { IfOk result (λ topped. 2 ^ circuit.now.sources ≤ budgets.cubes → topped.summary.spent ≡ 0) }

    // After an error there is a beginning of right lines, the last perhaps cut. If the shelf tells its files, it is
    // what was appended.
    ensures err { OnErr result ((part : List ℕ) × IsCutFile circuit.now part × Told (S.state shelf.old) (S.state shelf.new) (Writes part)) }

    // A sure shelf never fails.
    ensures never { IsTrue (S.state shelf.old).sure → ¬ (IsErrOf result ShelfFault.Failed) }
{
    let subject = Subject::new(alloc, circuit)?;
    let levels = Levels::new(alloc, circuit)?;
    let setting = GenerationSetting::new(&subject, &levels, budgets, FirstVectors::OfList(vectors));
    write_result(alloc, &setting, shelf)
}

// Writes all lines of a result.
fn write_result<S: Shelf>(
    alloc: Global,
    setting: &GenerationSetting,
    shelf: &mut S,
) -> Result<ToppedUp, ShelfFault>
    ghost start: { State }
    requires start { start ≡ S.state shelf.old }
    ensures ok { IfOk result (λ topped. (file : List ℕ) × IsToppedUp setting.now.circuit setting.now.vectors setting.now.budgets topped file × HasWritten file start (S.state shelf.new)) }
    ensures complete { IfOk result (λ topped. 2 ^ setting.now.circuit.sources ≤ setting.now.budgets.cubes → topped.summary.spent ≡ 0) }
    ensures err { IfErr result (λ fault. BrokeOff setting.now.circuit fault start (S.state shelf.new)) }
{
    match Draft::begin(alloc, setting) {
        Ok(mut draft) => write_lines(alloc, setting, shelf, &mut draft),
        Err(_) => Err(ShelfFault::NoMemory),
    }
}

// Writes all lines of a result for which `draft` has been begun.
fn write_lines<S: Shelf>(
    alloc: Global,
    setting: &GenerationSetting,
    shelf: &mut S,
    draft: &mut Draft,
) -> Result<ToppedUp, ShelfFault>
    ghost start: { State }
    requires start { start ≡ S.state shelf.old }
    requires begun { IsBegun setting.now draft.old }
    ensures ok { IfOk result (λ topped. (file : List ℕ) × IsToppedUp setting.now.circuit setting.now.vectors setting.now.budgets topped file × HasWritten file start (S.state shelf.new)) }
    ensures complete { IfOk result (λ topped. 2 ^ setting.now.circuit.sources ≤ setting.now.budgets.cubes → topped.summary.spent ≡ 0) }
    ensures err { IfErr result (λ fault. BrokeOff setting.now.circuit fault start (S.state shelf.new)) }
{
    let kept = draft.keeper.classes().patterns();
    draft.start(setting, shelf)?;
    draft.mark_all(alloc, setting, shelf)?;
    let summary = write_end(setting, shelf, draft)?;
    Ok(ToppedUp { summary, kept })
}

// Writes the lines of the classes and of the numbers, and the end.
fn write_end<S: Shelf>(
    setting: &GenerationSetting,
    shelf: &mut S,
    draft: &mut Draft,
) -> Result<Summary, ShelfFault>
    ghost start: { State }
    requires draft { IsDraft setting.now draft.old start (S.state shelf.old) }
    requires marked { AreAllMarked draft.old.keeper.kept.table draft.old.marks }
    ensures ok { IfOk result (λ summary. (file : List ℕ) × IsMadeFrom setting.now.circuit setting.now.vectors setting.now.budgets summary file × HasWritten file start (S.state shelf.new)) }
    ensures complete { IfOk result (λ summary. 2 ^ setting.now.circuit.sources ≤ setting.now.budgets.cubes → summary.spent ≡ 0) }
    ensures err { IfErr result (λ fault. BrokeOff setting.now.circuit fault start (S.state shelf.new)) }
{
    named_separates_faults();
    same_root_equal();
    covering_is_equal();
    leaves_are_closed();
    full_tree_is_covered();
    let numbers = setting.numbers();
    let classes = draft.keeper.classes();
    write_classes(&mut draft.gathered, shelf, classes)?;
    write_members(&mut draft.gathered, shelf, classes, &draft.marks, numbers)?;
    draft.gathered.add_line(shelf, Record::End)?;
    draft.gathered.write_out(shelf)?;
    let marked = count_marks(classes, &draft.marks, numbers);
    Ok(Summary {
        numbers,
        patterns: classes.patterns(),
        classes: classes.count(),
        equal: marked.equal,
        spent: marked.spent,
    })
}
