//! The same/different dictionary of a circuit at patterns, with the chosen baselines.

ghost use Rattle.std.specs.Prelude.{IfOk};
ghost use Rattle.table_dicts.specs.Setting.{IsSetting, AreAnswersAt};
ghost use Rattle.dict_rows.specs.AnswerTable.{Answers};
ghost use Rattle.dict_rows.specs.Dictionary.{IsSameDiff};
ghost use Rattle.samediff_dict.specs.Chosen.{chosen_baselines};
ghost use Rattle.samediff_dict.specs.Numbered.{HaveCandidates, HasBaselines};

use crate::choosing::choose_numbers;
use crate::differing::class_entries;
use crate::numbering::Candidates;
use crate::setting::{baselines, candidates};
use std::alloc::{AllocError, Global};
use table_dicts::{Dict, DictKind, Setting, dict_of_classes};

/// Returns the same/different dictionary of the circuit at the patterns, with the chosen baselines. In memory are the
/// number of each class's answer to each pattern if it isn't 0, the entry of each class, the gain of each candidate,
/// and the answers themselves to one block of patterns at a time.
pub fn same_diff_at(alloc: Global, setting: &Setting) -> Result<Dict, AllocError>
    requires { IsSetting setting.now }
    ensures { IfOk result (λ dict. (t : Answers) → AreAnswersAt setting.now t → IsSameDiff t (chosen_baselines setting.now.classes.now t.rows) dict) }
{
    setting.subject.circuit().stands();
    let found = candidates(alloc, setting)?;
    dict_among(alloc, setting, found.as_slice())
}

// Returns the dictionary with the baselines that are chosen among the candidates.
fn dict_among(alloc: Global, setting: &Setting, patterns: &[Candidates]) -> Result<Dict, AllocError>
    ghost t: { Answers }
    requires setting { IsSetting setting.now }
    requires answers { AreAnswersAt setting.now t }
    requires numbered { HaveCandidates setting.now.classes.now t.rows patterns.now }
    ensures { IfOk result (IsSameDiff t (chosen_baselines setting.now.classes.now t.rows)) }
{
    let chosen = choose_numbers(alloc, setting.classes, patterns)?;
    dict_with(alloc, setting, patterns, chosen.as_slice())
}

// Returns the dictionary with the baselines that have the numbers `chosen` among the candidates.
fn dict_with(
    alloc: Global,
    setting: &Setting,
    patterns: &[Candidates],
    chosen: &[u32],
) -> Result<Dict, AllocError>
    ghost t: { Answers }
    requires setting { IsSetting setting.now }
    requires answers { AreAnswersAt setting.now t }
    requires numbered { HaveCandidates setting.now.classes.now t.rows patterns.now }
    requires chosen { HasBaselines setting.now.classes.now t.rows chosen.now (chosen_baselines setting.now.classes.now t.rows) }
    ensures { IfOk result (IsSameDiff t (chosen_baselines setting.now.classes.now t.rows)) }
{
    let classes = setting.classes;
    let baselines = baselines(alloc, setting, patterns, chosen)?;
    let entries = class_entries(alloc, patterns, chosen, classes.count())?;
    let numbers = setting.subject.numbers();
    let positions = setting.subject.circuit().positions().len() as u32;
    let kind = DictKind::SameDiff;
    dict_of_classes(
        alloc, kind, classes, numbers, positions, baselines, &entries,
    )
}
