//! `answers_at`: the table of a circuit's answers, simulated for one number of each root; `number_answers_at`: that of
//! some numbers.

ghost use Rattle.std.specs.Prelude.{◌≡◌, ◌<◌, ◌^◌, ℕ, length, slice_index, All, IfOk};
ghost use Rattle.net_model.specs.FaultList.{faults, fault_count};
ghost use Rattle.dict_rows.specs.AnswerTable.{Answers, AreAnswerable, AreAnswers, ArePicked, HasSizes, IsTable, answer_to};
ghost use Rattle.table_dicts.specs.Blocks.{IsListedBit, AreRightBits};

use crate::by_root::root_groups;
use crate::simulating::{Kept, tabulate};
use dict_rows::{AnswerTable, Sorted};
use fault_collapse::Subject;
use fault_list::FaultList;
use net_model::{Circuit, Vector, Vectors};
use std::alloc::{AllocError, Global};

/// Returns the answers of all fault numbers of a circuit to patterns. `_faults` is the list of its faults. Of the
/// faults that collapse into one (fault collapsing), only the lowest is simulated.
pub fn answers_at(
    alloc: Global,
    circuit: &Circuit,
    _faults: &FaultList,
    patterns: &Vectors,
) -> Result<AnswerTable, AllocError>
    requires list { _faults.now ≡ faults circuit.now }
    requires answerable { AreAnswerable circuit.now patterns.now }
    ensures { IfOk result (AreAnswers circuit.now patterns.now) }
{
    let subject = Subject::new(alloc, circuit)?;
    subject_answers(alloc, &subject, patterns)
}

// Returns the answers of all fault numbers of the circuit of `subject` to patterns.
fn subject_answers(
    alloc: Global,
    subject: &Subject,
    patterns: &Vectors,
) -> Result<AnswerTable, AllocError>
    requires { AreAnswerable subject.now patterns.now }
    ensures { IfOk result (AreAnswers subject.now patterns.now) }
{
    let sorted = root_groups(alloc, subject.forest().roots())?;
    spread(alloc, subject, patterns.as_slice(), &sorted)
}

// Returns the answers of all numbers in groups: those of the first number of each number's group.
fn spread(
    alloc: Global,
    subject: &Subject,
    patterns: &[Vector],
    sorted: &Sorted,
) -> Result<AnswerTable, AllocError>
    requires answerable { AreAnswerable subject.now patterns.now }
    requires firsts { All (λ number. number < fault_count subject.now) sorted.now.firsts.items }
    requires few { length sorted.now.firsts.items < 2 ^ 32 }
    requires groups { All (λ group. group < length sorted.now.firsts.items) sorted.now.groups }
    requires many { length sorted.now.groups < 2 ^ 32 }
    ensures { IfOk result (λ table. (listed : Answers) × IsTable table × AreRightBits (IsListedBit Kept.Bits subject.now patterns.now sorted.now.firsts.items) (length patterns.now) (length sorted.now.firsts.items) (length subject.now.positions) (length patterns.now) listed × ArePicked listed sorted.now.groups table) }
{
    let lowest = sorted.firsts.as_slice();
    let listed = tabulate(alloc, subject, patterns, Kept::Bits, lowest)?;
    let table = listed.pick(alloc, sorted.groups.as_slice())?;
    table.stands();
    Ok(table)
}

/// Returns the answers of the given numbers to patterns, in the order of the numbers.
pub fn number_answers_at(
    alloc: Global,
    subject: &Subject,
    patterns: &[Vector],
    numbers: &[u32],
) -> Result<AnswerTable, AllocError>
    requires numbers { All (λ number. number < fault_count subject.now) numbers.now }
    requires count { length numbers.now < 2 ^ 32 }
    requires answerable { AreAnswerable subject.now patterns.now }
    ensures sizes { IfOk result (λ table. HasSizes table (length patterns.now) (length numbers.now) (length subject.now.positions)) }
    ensures answers { IfOk result (λ table. (t : Answers) → AreAnswers subject.now patterns.now t → (pattern place : ℕ) → pattern < length patterns.now → place < length numbers.now → answer_to table pattern place ≡ answer_to t pattern (slice_index numbers.now place)) }
{
    let table = tabulate(alloc, subject, patterns, Kept::Bits, numbers)?;
    table.stands();
    Ok(table)
}
