//! `read_plan`: reads a plan from its text.

ghost use Rattle.std.specs.Prelude.{◌≡◌, ◌≤◌, ◌∷◌, ◌++◌, [], length, IfOk, IfErr, MatchResult};
ghost use Rattle.diagnose.specs.Lines.{text_limit};
ghost use Rattle.adaptive_tree.specs.declared.steps.Plan as spec;
ghost use Rattle.adaptive_tree.specs.PlanNode.{HasNode};
ghost use Rattle.adaptive_tree.specs.PlanText.{head, end};
ghost use Rattle.adaptive_tree.specs.WellFormed.{IsTextOf};
ghost use Rattle.adaptive_tree.specs.Refusal.{PlanRefused, PlanRestRefused, BeginsWithPlanLine, TellsPlanFault};
ghost use Rattle.adaptive_tree.specs.Reading.{lines_so_far};

use crate::fault::{PlanFault, PlanKind};
use crate::line::{Form, first_form};
use crate::reader::Reader;
use crate::steps::{Plan, Steps};
use diagnose::{LogFault, check_size};
use std::alloc::Global;

// The sizes in the first line, and the text after it.
#[derive(Clone, Copy)]
struct HeadLine<'a> {
    positions: u32,
    patterns: u32,
    classes: u32,
    rest: &'a [u8],
}

/// Returns the plan of a text. Memory aside, returns `At` with a kind and a line exactly if the text isn't that of a
/// plan: it has more than `diagnose::TEXT_LIMIT` bytes (`TooLong`), or this is its first line that breaks a rule
/// (`Syntax`, `Order` or `Value`).
pub fn read_plan(alloc: Global, bytes: &[u8]) -> Result<Plan, PlanFault>
    ensures read { IfOk result (λ plan. IsTextOf plan bytes.now) }
    ensures refused { IfErr result (TellsPlanFault (PlanRefused bytes.now)) }
{
    match check_size(bytes) {
        Ok(()) => read_lines(alloc, bytes),
        Err(LogFault::At(_, line)) => Err(PlanFault::At(PlanKind::TooLong, line)),
        Err(LogFault::NoMemory) => Err(PlanFault::NoMemory),
    }
}

fn read_lines(alloc: Global, bytes: &[u8]) -> Result<Plan, PlanFault>
    requires { length bytes.now ≤ text_limit }
    ensures read { IfOk result (λ plan. IsTextOf plan bytes.now) }
    ensures refused { IfErr result (TellsPlanFault (PlanRefused bytes.now)) }
{
    let head = match head_line(bytes) {
        Ok(head) => head,
        Err(kind) => return Err(PlanFault::At(kind, 1)),
    };
    let mut reader = Reader::new(alloc, empty_plan(alloc, head));
    let mut rest = head.rest;
    let mut number: u64 = 2;
    while reader.goes_on() {
        let line = match reader.right_line(rest) {
            Ok(line) => line,
            Err(kind) => return Err(PlanFault::At(kind, number)),
        };
        reader.add(alloc, line.form)?;
        rest = line.rest;
        number += 1;
    }
    let behind = match end_line(rest) {
        Ok(behind) => behind,
        Err(kind) => return Err(PlanFault::At(kind, number)),
    };
    match check_nothing(behind) {
        Ok(()) => Ok(reader.into_plan()),
        Err(kind) => Err(PlanFault::At(kind, number + 1)),
    }
}

// Returns a plan with these sizes and no steps.
fn empty_plan(alloc: Global, head: HeadLine<'_>) -> Plan
    ensures positions { result.positions ≡ head.entry.positions }
    ensures patterns { result.patterns ≡ head.entry.patterns }
    ensures classes { result.classes ≡ head.entry.classes }
    ensures steps { result.steps ≡ [] }
{
    Plan {
        positions: head.positions,
        patterns: head.patterns,
        classes: head.classes,
        steps: Steps::new(alloc),
    }
}

// Returns the line of sizes if the text begins with it, else the kind of rule that is broken.
fn head_line(text: &[u8]) -> Result<HeadLine<'_>, PlanKind>
    ensures { MatchResult result (λ line. BeginsWithPlanLine text.now (head line.positions line.patterns line.classes) line.rest.now) (PlanRestRefused [] text.now) }
{
    if text.is_empty() {
        return Err(PlanKind::Order);
    }
    let Some(line) = first_form(text) else {
        return Err(PlanKind::Syntax);
    };
    match line.form {
        Form::Head(positions, patterns, classes) => Ok(HeadLine {
            positions,
            patterns,
            classes,
            rest: line.rest,
        }),
        Form::Ask(_, _) | Form::On(_) | Form::Class(_) | Form::End => Err(PlanKind::Order),
    }
}

// Returns the text after the line `end` if `rest` begins with it, as it must after a whole node.
fn end_line(rest: &[u8]) -> Result<&[u8], PlanKind>
    ensures { MatchResult result (λ behind. BeginsWithPlanLine rest.now end behind.now) (λ kind. (plan : spec.Plan) → HasNode plan → PlanRestRefused (lines_so_far plan) rest.now kind) }
{
    if rest.is_empty() {
        return Err(PlanKind::Order);
    }
    let Some(line) = first_form(rest) else {
        return Err(PlanKind::Syntax);
    };
    match line.form {
        Form::End => Ok(line.rest),
        Form::Head(_, _, _) | Form::Ask(_, _) | Form::On(_) | Form::Class(_) => {
            Err(PlanKind::Order)
        }
    }
}

// Refuses any text after the line `end`.
fn check_nothing(rest: &[u8]) -> Result<(), PlanKind>
    ensures { MatchResult result (λ _. rest.now ≡ []) (λ kind. (plan : spec.Plan) → PlanRestRefused (lines_so_far plan ++ end ∷ []) rest.now kind) }
{
    if rest.is_empty() {
        return Ok(());
    }
    match first_form(rest) {
        None => Err(PlanKind::Syntax),
        Some(_) => Err(PlanKind::Order),
    }
}
