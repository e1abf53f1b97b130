//! `follow`: walks down a plan by the answers of a log, one after another.

ghost use Rattle.std.specs.Prelude.{◌≡◌, ◌≢◌, ◌≤◌, ◌↔◌, List, [], length, IsTrue, IfOk, IfErr, MatchResult};
ghost use Rattle.diagnose.specs.Lines.{text_limit, TellsLogFault};
ghost use Rattle.adaptive_tree.specs.declared.outcome.Outcome.TheVariants as outcome;
ghost use Rattle.adaptive_tree.specs.PlanNode.{PlanNode};
ghost use Rattle.adaptive_tree.specs.WellFormed.{IsWellFormed};
ghost use Rattle.adaptive_tree.specs.AnswerLog.{Answer, LeadsTo, WalkRefused, AnswerRefused, outcome_after};
ghost use Rattle.adaptive_tree.specs.Places.{IsAnswerLine};

use crate::answer_line::{AnswerLine, first_answer};
use crate::outcome::Outcome;
use crate::places::{next_place, outcome_at};
use crate::steps::Plan;
use diagnose::{LogFault, LogKind, check_size};
use std::alloc::Global;

/// Returns where a log of answers leads in a plan. Returns `Unknown` exactly if the answers lead to an ask that has no
/// branch for the last of them.
///
/// Memory aside, returns `At` with a kind and a line exactly if the text isn't a log of answers to this plan: it has
/// more than `diagnose::TEXT_LIMIT` bytes (`TooLong`), or this is its first line that breaks a rule (`Syntax`, `Order`
/// or `Width`). The code takes no memory, but no clause says so.
pub fn follow(_alloc: Global, plan: &Plan, log: &[u8]) -> Result<Outcome, LogFault>
    requires { IsWellFormed plan.now }
    ensures led { IfOk result (λ outcome. LeadsTo plan.now log.now outcome) }
    ensures refused { IfErr result (TellsLogFault (WalkRefused plan.now log.now)) }
{
    check_size(log)?;
    follow_lines(plan, log)
}

fn follow_lines(plan: &Plan, log: &[u8]) -> Result<Outcome, LogFault>
    requires formed { IsWellFormed plan.now }
    requires short { length log.now ≤ text_limit }
    ensures led { IfOk result (λ outcome. LeadsTo plan.now log.now outcome) }
    ensures refused { IfErr result (TellsLogFault (WalkRefused plan.now log.now)) }
{
    let steps = plan.steps.as_slice();
    let mut place = Some(0);
    let mut rest = log;
    let mut number: u64 = 1;
    while !rest.is_empty() {
        let end = outcome_at(steps, place);
        let line = match right_answer(plan.positions, end, rest) {
            Ok(line) => line,
            Err(kind) => return Err(LogFault::At(kind, number)),
        };
        place = next_place(steps, place, line.digits);
        rest = line.rest;
        number += 1;
    }
    Ok(outcome_at(steps, place))
}

// Returns the line that `rest` begins with if it answers the pattern that is asked, else the kind of rule that is
// broken.
fn right_answer(positions: u32, end: Outcome, rest: &[u8]) -> Result<AnswerLine<'_>, LogKind>
    requires { rest.now ≢ [] }
    ensures { MatchResult result (λ line. IsAnswerLine positions end rest.now line.pattern line.digits.now line.rest.now) (λ kind. (node : PlanNode) (before : List Answer) → end ≡ outcome_after node before → AnswerRefused positions node before rest.now kind) }
{
    let Some(line) = first_answer(rest) else {
        return Err(LogKind::Syntax);
    };
    if !is_asked(end, line.pattern) {
        return Err(LogKind::Order);
    }
    if line.digits.len() != positions as usize {
        return Err(LogKind::Width);
    }
    Ok(line)
}

fn is_asked(end: Outcome, pattern: u32) -> bool
    ensures { IsTrue result ↔ (end ≡ outcome.Ask pattern) }
{
    match end {
        Outcome::Ask(asked) => asked == pattern,
        Outcome::Class(_) | Outcome::Unknown => false,
    }
}
