//! Adaptive plans: read, written and counted, refused, and followed by logs.

ghost use Rattle.std.specs.Prelude.{IfOk};
ghost use Rattle.adaptive_tree.specs.WellFormed.{IsWellFormed};

use adaptive_tree::{Outcome, Plan, PlanFault, PlanKind, follow, read_plan, write_plan};
use diagnose::{LogFault, LogKind};
use std::alloc::Global;
use std::test::Fail;

// A plan of 5 classes of an AND of two sources. Its 4 patterns are 00, 10, 01 and 11.
const AND: &str =
    "adapt 1 1 4 5\nask 1 2\non 0\nask 2 2\non 0\nask 3 2\non 1\nclass 0\non 0\nclass 4\non 1\nclass 3\non 1\nask 0 2\non 1\nclass 1\non 0\nclass 2\nend\n";

// A plan with two of four answers of two positions.
const TWO_OF_FOUR: &str = "adapt 1 2 1 2\nask 0 2\non 00\nclass 0\non 11\nclass 1\nend\n";

// The plan of one class.
const ONE: &str = "adapt 1 0 0 1\nclass 0\nend\n";

// A plan, how many asks it has, and the most that are on one way.
const READ: &[(&str, u32, u32)] = &[(AND, 4, 3), (TWO_OF_FOUR, 1, 1), (ONE, 0, 0)];

// A plan that is refused, by which rule, and at which line.
const REFUSED: &[(&str, PlanKind, u64)] = &[
    ("", PlanKind::Order, 1),
    ("class 0\n", PlanKind::Order, 1),
    ("adapt 2 0 0 1\n", PlanKind::Syntax, 1),
    ("adapt 1 0 0 01\n", PlanKind::Syntax, 1),
    ("adapt 1 0 0 1\nadapt 1 0 0 1\n", PlanKind::Order, 2),
    ("adapt 1 0 0 1\nclass 1\nend\n", PlanKind::Value, 2),
    ("adapt 1 0 0 1\nclass 0\nclass 0\n", PlanKind::Order, 3),
    ("adapt 1 0 0 1\nclass 0\nend\nend\n", PlanKind::Order, 4),
    ("adapt 1 0 0 1\nclass 0\nend\nend", PlanKind::Syntax, 4),
    ("adapt 1 0 0 1\nend\n", PlanKind::Order, 2),
    ("adapt 1 1 4 2\nask 4 2\n", PlanKind::Value, 2),
    ("adapt 1 1 4 2\nask 0 1\n", PlanKind::Value, 2),
    ("adapt 1 1 4 2\nask 0 0\n", PlanKind::Value, 2),
    ("adapt 1 1 4 2\nask 0 2\nclass 0\n", PlanKind::Order, 3),
    ("adapt 1 1 4 2\nask 0 2\non 00\n", PlanKind::Value, 3),
    ("adapt 1 1 4 2\nask 0 2\non 2\n", PlanKind::Syntax, 3),
    (
        "adapt 1 1 4 2\nask 0 2\non 0\nask 0 2\n",
        PlanKind::Value,
        4,
    ),
    (
        "adapt 1 1 4 2\nask 0 2\non 0\nclass 0\non 0\n",
        PlanKind::Value,
        5,
    ),
    (
        "adapt 1 1 4 2\nask 0 2\non 0\nclass 0\nclass 1\n",
        PlanKind::Order,
        5,
    ),
    (
        "adapt 1 0 4 2\nask 0 2\non -\nclass 0\non -\n",
        PlanKind::Value,
        5,
    ),
    (
        "adapt 1 1 4 3\nask 0 2\non 0\nask 1 2\non 0\nclass 0\non 1\nclass 1\non 0\n",
        PlanKind::Value,
        9,
    ),
    (
        "adapt 1 1 4 2\nask 1 4294967295\non 0\nclass 0\non 1\nclass 1\nend\n",
        PlanKind::Order,
        7,
    ),
    ("adapt 1 1 4 2\nask 1 4294967296\n", PlanKind::Syntax, 2),
];

// A plan, a log, and where it leads.
const FOLLOWED: &[(&str, &str, Outcome)] = &[
    (AND, "", Outcome::Ask(1)),
    (AND, "1 1\n", Outcome::Ask(0)),
    (AND, "1 0\n2 1\n", Outcome::Class(3)),
    (AND, "1 0\n2 0\n3 0\n", Outcome::Class(4)),
    (TWO_OF_FOUR, "0 11\n", Outcome::Class(1)),
    (TWO_OF_FOUR, "0 01\n", Outcome::Unknown),
    (ONE, "", Outcome::Class(0)),
];

// A plan, a log that is refused, by which rule, and at which line.
const NOT_FOLLOWED: &[(&str, &str, LogKind, u64)] = &[
    (AND, "0 0\n", LogKind::Order, 1),
    (AND, "1 0\n1 0\n", LogKind::Order, 2),
    (AND, "1 00\n", LogKind::Width, 1),
    (AND, "1 0\n2 1", LogKind::Syntax, 2),
    (AND, "1 0\n2 1\n2 1\n", LogKind::Order, 3),
    (TWO_OF_FOUR, "0 01\n0 01\n", LogKind::Order, 2),
    (ONE, "0 -\n", LogKind::Order, 1),
];

// Returns the well-formed plan of a text.
fn plan_of(alloc: Global, text: &[u8]) -> Result<Plan, Fail>
    ensures { IfOk result IsWellFormed }
{
    match read_plan(alloc, text) {
        Ok(plan) => Ok(plan),
        Err(PlanFault::At(_, _)) => Err(Fail::new("the plan is refused")),
        Err(PlanFault::NoMemory) => Err(Fail::new("out of memory")),
    }
}

// Returns whether a plan is refused by this rule at this line.
fn is_refused(alloc: Global, text: &[u8], kind: PlanKind, line: u64) -> Result<bool, Fail> {
    match read_plan(alloc, text) {
        Ok(_) => Ok(false),
        Err(PlanFault::At(told, at)) => Ok(told == kind && at == line),
        Err(PlanFault::NoMemory) => Err(Fail::new("out of memory")),
    }
}

// Returns whether a log leads from a plan to this outcome.
fn leads_to(alloc: Global, plan: &[u8], log: &[u8], end: Outcome) -> Result<bool, Fail> {
    let plan = plan_of(alloc, plan)?;
    match follow(alloc, &plan, log) {
        Ok(outcome) => Ok(outcome == end),
        Err(LogFault::At(_, _)) => Ok(false),
        Err(LogFault::NoMemory) => Err(Fail::new("out of memory")),
    }
}

// Returns whether a log to a plan is refused by this rule at this line.
fn is_log_refused(
    alloc: Global,
    plan: &[u8],
    log: &[u8],
    kind: LogKind,
    line: u64,
) -> Result<bool, Fail> {
    let plan = plan_of(alloc, plan)?;
    match follow(alloc, &plan, log) {
        Ok(_) => Ok(false),
        Err(LogFault::At(told, at)) => Ok(told == kind && at == line),
        Err(LogFault::NoMemory) => Err(Fail::new("out of memory")),
    }
}

// Returns a plan that asks `asks` patterns one after another, each if the one before it was answered 0.
fn chain(alloc: Global, asks: u32) -> Result<String, Fail> {
    let mut text = String::new(alloc);
    writeln!(text, "adapt 1 1 {asks} {asks}")?;
    for pattern in 0..asks {
        writeln!(text, "ask {pattern} 2")?;
        text.push_str("on 0\n")?;
    }
    text.push_str("class 0\n")?;
    for class in 0..asks {
        text.push_str("on 1\n")?;
        writeln!(text, "class {class}")?;
    }
    text.push_str("end\n")?;
    Ok(text)
}

// Returns the log of `asks` answers 0.
fn all_zero(alloc: Global, asks: u32) -> Result<String, Fail> {
    let mut text = String::new(alloc);
    for pattern in 0..asks {
        writeln!(text, "{pattern} 0")?;
    }
    Ok(text)
}

#[test]
fn plans_are_read_and_written(rt: HostRuntime) -> Result<(), Fail> {
    for (text, asks, depth) in READ {
        let plan = plan_of(rt.alloc(), text.as_bytes())?;
        assert_eq!(rt; plan.depth(), *depth);
        assert!(rt; has_asks(&plan, *asks));
        let written = write_plan(rt.alloc(), &plan)?;
        assert!(rt; written.as_slice() == text.as_bytes());
    }
    Ok(())
}

// Returns whether the plan has `asks` asks.
fn has_asks(plan: &Plan, asks: u32) -> bool
    requires { IsWellFormed plan.now }
{
    if plan.steps.len() >= 1 << 32 {
        return false;
    }
    plan.asks() == asks
}

#[test]
fn plans_are_refused(rt: HostRuntime) -> Result<(), Fail> {
    for (text, kind, line) in REFUSED {
        let refused = is_refused(rt.alloc(), text.as_bytes(), *kind, *line)?;
        assert!(rt; refused, "{text}");
    }
    Ok(())
}

#[test]
fn plans_are_refused_at_each_cut(rt: HostRuntime) -> Result<(), Fail> {
    let text = AND.as_bytes();
    for cut in 0..text.len() {
        let part = &text[..cut];
        let lines = part.iter().filter(|byte| **byte == b'\n').count() as u64;
        let kind = match part.last() {
            None | Some(b'\n') => PlanKind::Order,
            Some(_) => PlanKind::Syntax,
        };
        let refused = is_refused(rt.alloc(), part, kind, lines + 1)?;
        assert!(rt; refused, "at {cut}");
    }
    Ok(())
}

#[test]
fn logs_are_followed(rt: HostRuntime) -> Result<(), Fail> {
    for (plan, log, end) in FOLLOWED {
        let led = leads_to(rt.alloc(), plan.as_bytes(), log.as_bytes(), *end)?;
        assert!(rt; led, "{log}");
    }
    for (plan, log, kind, line) in NOT_FOLLOWED {
        let refused = is_log_refused(rt.alloc(), plan.as_bytes(), log.as_bytes(), *kind, *line)?;
        assert!(rt; refused, "{log}");
    }
    Ok(())
}

#[test]
fn long_chains_are_followed(rt: HostRuntime) -> Result<(), Fail> {
    let text = chain(rt.alloc(), 100_000)?;
    let log = all_zero(rt.alloc(), 100_000)?;
    let plan = plan_of(rt.alloc(), text.as_bytes())?;
    assert_eq!(rt; plan.depth(), 100_000);
    let led = leads_to(
        rt.alloc(),
        text.as_bytes(),
        log.as_bytes(),
        Outcome::Class(0),
    )?;
    assert!(rt; led);
    Ok(())
}
