//! The command `adapt`: from the bytes of a netlist and a result to an adaptive plan.

ghost use Rattle.std.specs.Prelude.{◌≡◌, ◌<◌, IfOk, string_bytes, [], ◌∷◌};
ghost use Rattle.adaptive_tree.specs.PlanNode.{HasNode, ask_count, depth_of};
ghost use Rattle.adaptive_tree.specs.PlanText.{plan_text};
ghost use Rattle.adaptive_tree.specs.WellFormed.{IsWellFormed};
ghost use Rattle.table_dicts.specs.Setting.{IsSetting};
ghost use Rattle.dictionary_commands.specs.AdaptivePlans.{IsPlanOf, IsPlanFileOf};
ghost use Rattle.dictionary_commands.specs.Plans.{adapt_plan};
ghost use Rattle.run_steps.specs.Ran.{Follows, result_endings};
ghost use Rattle.dictionary_commands.specs.Texts.{plan_counts_text};

use crate::texts::plan_counts_text;
use adaptive_planner::{plan_at, plan_of_a_table_is_good};
use adaptive_tree::{Plan, write_plan};
use diag_shelf::Shelf;
use fault_collapse::Subject;
use run_steps::{RunFault, read_design, read_result, save, setting_of};
use std::alloc::{AllocError, Global};
use table_dicts::Setting;

/// Reads and judges the netlist `bench` and then the result `results`, writes the plan for the classes of the result's
/// patterns to the file `output`, which may be that of the result, and prints its counts. Returns errors as
/// `make_dictionary` does.
pub fn make_plan<S: Shelf>(
    alloc: Global,
    shelf: &mut S,
    bench: &str,
    results: &str,
    output: &str,
) -> Result<(), RunFault>
    ensures { Follows (adapt_plan bench.now results.now output.now) result_endings (output.now ∷ []) result (S.state shelf.old) (S.state shelf.new) }
{
    let design = read_design(alloc, shelf, bench)?;
    let subject = Subject::new(alloc, &design.circuit)?;
    let checked = read_result(alloc, shelf, &subject, results)?;
    let setting = setting_of(&subject, &checked);
    let made = made_of(alloc, &setting)?;
    save(shelf, output, &made.file, made.text.as_bytes())
}

// A plan's file, and what is printed of it.
#[derive(Drop)]
struct Made {
    file: Vec<u8>,
    text: String,
}

// Returns the plan at `setting` as a file, and what is printed of it.
fn made_of(alloc: Global, setting: &Setting) -> Result<Made, AllocError>
    requires { IsSetting setting.now }
    ensures { IfOk result (λ made. IsPlanFileOf setting.now.subject.now setting.now.patterns.now setting.now.classes.now made.file.items (string_bytes made.text)) }
{
    let plan = plan_for(alloc, setting)?;
    let made = spelled(alloc, &plan)?;
    Ok(made)
}

// Returns the plan for the classes of the patterns.
fn plan_for(alloc: Global, setting: &Setting) -> Result<Plan, AllocError>
    requires { IsSetting setting.now }
    ensures { IfOk result (IsPlanOf setting.now.subject.now setting.now.patterns.now setting.now.classes.now) }
{
    // The proof learns from this call that the plan leads the answers of each fault to its class.
    plan_of_a_table_is_good();
    let plan = plan_at(alloc, setting)?;
    Ok(plan)
}

// Returns a plan's file, and what is printed of it.
fn spelled(alloc: Global, plan: &Plan) -> Result<Made, AllocError>
    requires formed { IsWellFormed plan.now }
    requires few { ask_count plan.now.steps < plan.now.classes }
    ensures file { IfOk result (λ made. made.file.items ≡ plan_text plan.now) }
    ensures text { IfOk result (λ made. (root : HasNode plan.now) → string_bytes made.text ≡ plan_counts_text plan.now.classes (ask_count plan.now.steps) (depth_of root.node)) }
{
    let text = plan_counts_text(alloc, plan.classes, plan.asks(), plan.depth())?;
    Ok(Made {
        file: write_plan(alloc, plan)?,
        text,
    })
}
