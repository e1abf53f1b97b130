//! The lines of the console that say why a file is refused.

ghost use Rattle.std.specs.Prelude.{◌≡◌, IfOk, string_bytes};
ghost use Rattle.run_steps.specs.Texts.{kind_name, refusal_text, loop_start, evidence_rule, evidence_text, result_rule, result_text, dictionary_text, log_rule, log_text, vectors_text, plan_rule, plan_fault_text};

use adaptive_tree::PlanKind;
use bench_reader::{NetKind, Place};
use diagnose::LogKind;
use evidence_rules::{Refusal, RefusalKind};
use result_file::{ResultFault, ResultKind};
use std::alloc::{AllocError, Global};

fn kind_name(kind: NetKind) -> &'static str
    ensures { result.now ≡ kind_name kind }
{
    match kind {
        NetKind::BadByte => "BadByte",
        NetKind::Expected => "Expected",
        NetKind::UnknownGate => "UnknownGate",
        NetKind::WrongPins => "WrongPins",
        NetKind::DrivenTwice => "DrivenTwice",
        NetKind::Undriven => "Undriven",
        NetKind::TooLong => "TooLong",
    }
}

/// Returns the line that says why a netlist's text is refused.
#[tactic(auto, unfolding(crate::specs::Texts::refusal_text))]
pub(crate) fn refusal_text(alloc: Global, kind: NetKind, place: Place) -> Result<String, AllocError>
    ensures { IfOk result (λ text. string_bytes text ≡ refusal_text kind place) }
{
    let name = kind_name(kind);
    let Place { byte, line } = place;
    format!(in alloc; "netlist: {name} at byte {byte}, line {line}\n")
}

/// Returns the beginning of the line that refuses a loop: where the walk along it begins. The names along the loop
/// follow.
#[tactic(auto, unfolding(crate::specs::Texts::loop_start))]
pub(crate) fn loop_start(alloc: Global, place: Place) -> Result<String, AllocError>
    ensures { IfOk result (λ text. string_bytes text ≡ loop_start place) }
{
    let Place { byte, line } = place;
    format!(in alloc; "netlist: Loop at byte {byte}, line {line}:")
}

/// Returns the line that says why a result is refused.
#[tactic(auto, unfolding(crate::specs::Texts::result_text))]
pub(crate) fn result_text(alloc: Global, fault: ResultFault) -> Result<String, AllocError>
    ensures { IfOk result (λ text. string_bytes text ≡ result_text fault) }
{
    let rule = rule_text(alloc, fault.kind)?;
    let line = fault.line;
    format!(in alloc; "result: {rule}line {line}\n")
}

fn rule_text(alloc: Global, kind: ResultKind) -> Result<String, AllocError>
    ensures { IfOk result (λ text. string_bytes text ≡ result_rule kind) }
{
    match kind {
        ResultKind::Syntax => String::from_str(alloc, "Syntax at "),
        ResultKind::Head => String::from_str(alloc, "Head at "),
        ResultKind::Order => String::from_str(alloc, "Order at "),
        ResultKind::Pattern => String::from_str(alloc, "Pattern at "),
        ResultKind::Member => String::from_str(alloc, "Member at "),
        ResultKind::Roots => String::from_str(alloc, "Roots at "),
        ResultKind::Evidence(refusal) => evidence_text(alloc, refusal),
        ResultKind::Table => String::from_str(alloc, "Table at "),
        ResultKind::TooLong => String::from_str(alloc, "TooLong at "),
    }
}

// Returns the rule that evidence breaks, and at which token or chain.
#[tactic(auto, unfolding(crate::specs::Texts::evidence_text))]
fn evidence_text(alloc: Global, refusal: Refusal) -> Result<String, AllocError>
    ensures { IfOk result (λ text. string_bytes text ≡ evidence_text refusal) }
{
    let rule = evidence_rule(refusal);
    let step = refusal.step;
    format!(in alloc; "Evidence {rule} at step {step}, ")
}

fn evidence_rule(refusal: Refusal) -> &'static str
    ensures { result.now ≡ evidence_rule refusal.kind }
{
    match refusal.kind {
        RefusalKind::NoSuchClause => "NoSuchClause",
        RefusalKind::NoPivot => "NoPivot",
        RefusalKind::NotEmpty => "NotEmpty",
        RefusalKind::EmptyEarly => "EmptyEarly",
        RefusalKind::NotFresh => "NotFresh",
        RefusalKind::LeafOpen => "LeafOpen",
        RefusalKind::BadTree => "BadTree",
        RefusalKind::WrongCount => "WrongCount",
    }
}

/// Returns the line that says why a dictionary is refused: the rule that it breaks, and at which byte.
#[tactic(auto, unfolding(crate::specs::Texts::dictionary_text))]
pub(crate) fn dictionary_text(alloc: Global, rule: &str, byte: u64) -> Result<String, AllocError>
    ensures { IfOk result (λ text. string_bytes text ≡ dictionary_text rule.now byte) }
{
    format!(in alloc; "dictionary: {rule} at byte {byte}\n")
}

/// Returns the line that says why a log or a list of vectors is refused.
#[tactic(auto, unfolding(crate::specs::Texts::log_text))]
pub(crate) fn log_text(alloc: Global, kind: LogKind, line: u64) -> Result<String, AllocError>
    ensures { IfOk result (λ text. string_bytes text ≡ log_text kind line) }
{
    let rule = log_rule(&kind);
    format!(in alloc; "log: {rule} at line {line}\n")
}

/// Returns the line that says why a list of vectors is refused, in a command that may read a log too.
#[tactic(auto, unfolding(crate::specs::Texts::vectors_text))]
pub(crate) fn vectors_text(alloc: Global, kind: LogKind, line: u64) -> Result<String, AllocError>
    ensures { IfOk result (λ text. string_bytes text ≡ vectors_text kind line) }
{
    format!(in alloc; "vectors: {} at line {line}\n", log_rule(&kind))
}

fn log_rule(kind: &LogKind) -> &'static str
    ensures { result.now ≡ log_rule kind.now }
{
    match kind {
        LogKind::Syntax => "Syntax",
        LogKind::Order => "Order",
        LogKind::Width => "Width",
        LogKind::Missing => "Missing",
        LogKind::TooLong => "TooLong",
    }
}

/// Returns the line that says why an adaptive plan is refused.
#[tactic(auto, unfolding(crate::specs::Texts::plan_fault_text))]
pub(crate) fn plan_fault_text(
    alloc: Global,
    kind: PlanKind,
    line: u64,
) -> Result<String, AllocError>
    ensures { IfOk result (λ text. string_bytes text ≡ plan_fault_text kind line) }
{
    let rule = plan_rule(kind);
    format!(in alloc; "plan: {rule} at line {line}\n")
}

fn plan_rule(kind: PlanKind) -> &'static str
    ensures { result.now ≡ plan_rule kind }
{
    match kind {
        PlanKind::Syntax => "Syntax",
        PlanKind::Order => "Order",
        PlanKind::Value => "Value",
        PlanKind::TooLong => "TooLong",
    }
}
