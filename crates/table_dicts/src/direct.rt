//! Dictionaries of a circuit made by the simulators, without a table of all answers.

ghost use Rattle.std.specs.Prelude.{◌≡◌, length, IfOk};
ghost use Rattle.dict_rows.specs.AnswerTable.{Answers};
ghost use Rattle.dict_rows.specs.Dictionary.{IsFull, IsPassFail};
ghost use Rattle.dict_rows.specs.Entries.{free_baselines};
ghost use Rattle.dict_rows.specs.Rows.{AreRows};
ghost use Rattle.table_dicts.specs.Setting.{IsSetting, AreAnswersAt};

use crate::by_class::{class_groups, dict_of_classes, representatives};
use crate::setting::Setting;
use crate::simulating::{Kept, tabulate};
use dict_rows::{Dict, DictKind, answers_of};
use net_model::AnswerRows;
use std::alloc::{AllocError, Global};

/// Returns the full-response dictionary of a circuit at patterns. Only the lowest number of each class is simulated, so
/// memory holds the dictionary's entries and groups, not a table of all answers.
pub fn full_at(alloc: Global, setting: &Setting) -> Result<Dict, AllocError>
    requires { IsSetting setting.now }
    ensures { IfOk result (λ dict. (t : Answers) → AreAnswersAt setting.now t → IsFull t dict) }
{
    let subject = setting.subject;
    subject.circuit().stands();
    let numbers = subject.numbers();
    let patterns = setting.patterns.as_slice();
    let sorted = class_groups(alloc, setting.classes, numbers)?;
    let lowest = sorted.firsts.as_slice();
    let table = tabulate(alloc, subject, patterns, Kept::Bits, lowest)?;
    Ok(Dict {
        kind: DictKind::Full,
        numbers,
        patterns: table.patterns(),
        positions: table.positions(),
        baselines: AnswerRows::zeros(alloc, 0, 0)?,
        groups: sorted.groups,
        entries: table.into_cells(),
    })
}

/// Returns the pass/fail dictionary of a circuit at patterns. Only the lowest number of each class is simulated, so
/// memory holds a bit for each class and pattern, a group for each number, and the fault-free answers.
pub fn pass_fail_at(alloc: Global, setting: &Setting) -> Result<Dict, AllocError>
    requires { IsSetting setting.now }
    ensures { IfOk result (λ dict. (t : Answers) → AreAnswersAt setting.now t → IsPassFail t dict) }
{
    let subject = setting.subject;
    let patterns = setting.patterns.as_slice();
    let lowest = representatives(alloc, setting.classes)?;
    let lowest = lowest.as_slice();
    let fails = tabulate(alloc, subject, patterns, Kept::Fails, lowest)?;
    let baselines = free_answers(alloc, setting)?;
    dict_of_classes(
        alloc,
        DictKind::PassFail,
        setting.classes,
        subject.numbers(),
        subject.circuit().positions().len() as u32,
        baselines,
        fails.cells(),
    )
}

// Returns the answers of the circuit without a fault, which are those of number 0.
fn free_answers(alloc: Global, setting: &Setting) -> Result<AnswerRows, AllocError>
    requires { IsSetting setting.now }
    ensures shape { IfOk result (AreRows (length setting.now.patterns.now) (length setting.now.subject.now.positions)) }
    ensures free { IfOk result (λ rows. (t : Answers) → AreAnswersAt setting.now t → rows ≡ free_baselines t.rows) }
{
    let patterns = setting.patterns.as_slice();
    let free = tabulate(alloc, setting.subject, patterns, Kept::Bits, &[0])?;
    free.stands();
    answers_of(alloc, &free, 0)
}
