//! `write_plan`: writes a plan as text.

ghost use Rattle.std.specs.Prelude.{◌≡◌, ◌++◌, ◌∷◌, [], flat_map, IfOk, OnOk};
ghost use Rattle.std.specs.String.{string_bytes};
ghost use Rattle.net_model.specs.Ascii.{line_feed};
ghost use Rattle.adaptive_tree.specs.declared.steps.Step.TheVariants.{On};
ghost use Rattle.adaptive_tree.specs.PlanText.{head, step, end, plan_line, plan_lines_text, plan_text};
ghost use Rattle.adaptive_tree.specs.WellFormed.{IsWellFormed};

use crate::steps::{Plan, Step};
use packed_bits::PackedBits;
use std::alloc::{AllocError, Global};
use text_fields::push_bits;

/// Returns the text of a plan. It may have more bytes than `read_plan` accepts.
pub fn write_plan(alloc: Global, plan: &Plan) -> Result<Vec<u8>, AllocError>
    requires { IsWellFormed plan.now }
    ensures { IfOk result (λ text. text.items ≡ plan_text plan.now) }
{
    let mut text = String::new(alloc);
    push_head(&mut text, plan.positions, plan.patterns, plan.classes)?;
    push_steps(&mut text, plan.steps.as_slice())?;
    push_end(&mut text)?;
    Ok(text.into_bytes())
}

#[tactic(auto, unfolding(crate::specs::PlanText::plan_line))]
fn push_head(
    text: &mut String,
    positions: u32,
    patterns: u32,
    classes: u32,
) -> Result<(), AllocError>
    ensures { OnOk result (string_bytes text.new ≡ string_bytes text.old ++ plan_lines_text (head positions patterns classes ∷ [])) }
{
    writeln!(text, "adapt 1 {positions} {patterns} {classes}")
}

fn push_steps(text: &mut String, steps: &[Step]) -> Result<(), AllocError>
    ensures { OnOk result (string_bytes text.new ≡ string_bytes text.old ++ flat_map (λ s. plan_line (step s) ++ line_feed ∷ []) steps.now) }
{
    for s in steps {
        push_step(text, s)?;
    }
    Ok(())
}

#[tactic(auto, unfolding(crate::specs::PlanText::plan_line))]
fn push_step(text: &mut String, s: &Step) -> Result<(), AllocError>
    ensures { OnOk result (string_bytes text.new ≡ string_bytes text.old ++ plan_line (step s.now) ++ line_feed ∷ []) }
{
    match s {
        Step::Ask(pattern, branches) => writeln!(text, "ask {pattern} {branches}"),
        Step::On(answer) => push_branch(text, answer),
        Step::Class(class) => writeln!(text, "class {class}"),
    }
}

#[tactic(auto, unfolding(crate::specs::PlanText::plan_line))]
fn push_branch(text: &mut String, answer: &PackedBits) -> Result<(), AllocError>
    ensures { OnOk result (string_bytes text.new ≡ string_bytes text.old ++ plan_line (step (On answer.now)) ++ line_feed ∷ []) }
{
    text.push_str("on ")?;
    push_bits(text, answer.len(), |at| answer.get(at))?;
    text.push('\n')?;
    Ok(())
}

#[tactic(auto, unfolding(crate::specs::PlanText::plan_line))]
fn push_end(text: &mut String) -> Result<(), AllocError>
    ensures { OnOk result (string_bytes text.new ≡ string_bytes text.old ++ plan_lines_text (end ∷ [])) }
{
    text.push_str("end\n")?;
    Ok(())
}
