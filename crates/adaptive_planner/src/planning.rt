//! `plan` and `plan_at`: the plan for the classes of a table of answers, and for those of a circuit's patterns.

ghost use Rattle.std.specs.Prelude.{IfOk};
ghost use Rattle.dict_rows.specs.AnswerTable.{Answers};
ghost use Rattle.table_dicts.specs.Setting.{IsSetting, AreAnswersAt};
ghost use Rattle.adaptive_planner.specs.Planned.{IsPlan, IsToldApart};
ghost use Rattle.adaptive_planner.specs.Promises.{IsGoodPlan};
ghost use Rattle.adaptive_tree.specs.WellFormed.{IsWellFormed};

use crate::circuit_numbers::numbers_of_leads;
use crate::planner::steps_of;
use crate::table_numbers::numbers_of_table;
use adaptive_tree::Plan;
use class_refine::Classes;
use std::alloc::{AllocError, Global};
use table_dicts::{AnswerTable, Setting, representatives};

/// Returns the plan for the classes of a table of answers. It is a greedy decision tree: each ask is of the pattern
/// that splits most pairs of the classes that are left. Returns an error also if 32 bits can't number the different
/// answers.
pub fn plan(alloc: Global, table: &AnswerTable, classes: &Classes) -> Result<Plan, AllocError>
    requires { IsToldApart classes.now table.now }
    ensures planned { IfOk result (λ plan. IsPlan classes.now table.now plan) }
    ensures well_formed { IfOk result (λ plan. IsWellFormed plan) }
{
    let numbers = numbers_of_table(alloc, table, classes)?;
    Ok(Plan {
        positions: table.positions(),
        patterns: table.patterns(),
        classes: classes.count(),
        steps: steps_of(alloc, &numbers)?,
    })
}

/// Returns the plan for the classes of a circuit's patterns as `plan` does, but without a table of all answers. Returns
/// an error in the same cases.
pub fn plan_at(alloc: Global, setting: &Setting) -> Result<Plan, AllocError>
    requires { IsSetting setting.now }
    ensures planned { IfOk result (λ plan. (t : Answers) → AreAnswersAt setting.now t → IsPlan setting.now.classes.now t plan) }
    ensures good { IfOk result (λ plan. (t : Answers) → AreAnswersAt setting.now t → IsGoodPlan setting.now.classes.now t plan) }
    ensures well_formed { IfOk result (λ plan. IsWellFormed plan) }
{
    let positions = setting.subject.circuit().positions().len() as u32;
    let patterns = setting.patterns.as_slice().len() as u32;
    let leads = representatives(alloc, setting.classes)?;
    let numbers = numbers_of_leads(alloc, setting, leads.as_slice())?;
    Ok(Plan {
        positions,
        patterns,
        classes: setting.classes.count(),
        steps: steps_of(alloc, &numbers)?,
    })
}
