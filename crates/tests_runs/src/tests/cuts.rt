//! Runs over files that are cut to each shorter length.

use crate::tests::dictionaries::{is_diagnosed, is_refused};
use crate::tests::runs::FileText::{Absent, Is};
use crate::tests::runs::plain;
use crate::tests::texts::{
    AND, AND_PLAN, AND_TWICE_CHOSEN, FULL_ONE, FULL_TWO, LOG, ONE, SAME_DIFF, TRUTH, TRUTH_FULL,
    TRUTH_RESULT, TWO,
};
use std::alloc::{AllocError, Global};
use std::process::Abort;
use std::test::Fail;

// Whether a text ends where a line does.
fn is_of_lines(text: &[u8]) -> bool {
    text.is_empty() || text.ends_with(b"\n")
}

// Returns what is said of a text whose last line is cut, or that lacks a further line: then `wanting` names the rule.
fn said(alloc: Global, file: &str, text: &[u8], wanting: &str) -> Result<String, AllocError> {
    let kind = if is_of_lines(text) { wanting } else { "Syntax" };
    let lines = text.iter().filter(|byte| **byte == b'\n').count();
    format!(in alloc; "{file}: {kind} at line {}\n", lines.saturating_add(1))
}

// Whether `check`, `compact` and `adapt` refuse the result, with what is said of it.
fn refuses_result(alloc: Global, bytes: &[u8]) -> Result<bool, AllocError> {
    let console = said(alloc, "result", bytes, "Order")?;
    let files = [("n", TRUTH), ("r", bytes)];
    let checked = plain(alloc, &files, &["check", "n", "r"])?;
    let compacted = plain(alloc, &files, &["compact", "n", "r", "m"])?;
    let adapted = plain(alloc, &files, &["adapt", "n", "r", "m"])?;
    Ok(
        checked.ended(4, Is(console.as_bytes()))
            && compacted.ended(4, Is(console.as_bytes()))
            && compacted.holds("m", Absent)
            && adapted.ended(4, Is(console.as_bytes()))
            && adapted.holds("m", Absent),
    )
}

// Whether the plan is refused, with what is said of it.
fn refuses_plan(alloc: Global, bytes: &[u8]) -> Result<bool, AllocError> {
    let console = said(alloc, "plan", bytes, "Order")?;
    let left = plain(alloc, &[("p", bytes), ("l", b"")], &["follow", "p", "l"])?;
    Ok(left.ended(10, Is(console.as_bytes())))
}

// Whether the cut list is refused, unless it is cut between lines.
fn refuses_list(alloc: Global, list: &[u8]) -> Result<bool, AllocError> {
    let console = said(alloc, "vectors", list, "")?;
    let left = plain(alloc, &[("n", AND), ("v", list)], &["grade", "n", "v", "r"])?;
    Ok(is_of_lines(list) || left.ended(6, Is(console.as_bytes())) && left.holds("r", Absent))
}

#[test]
fn lists_cut_to_each_length(rt: HostRuntime) -> Result<(), Fail> {
    let list = b"01\n10\n11\n";
    for length in 0..list.len() {
        assert!(rt;
            refuses_list(rt.alloc(), &list[..length])?,
            "length {length}"
        );
    }
    Ok(())
}

// Whether the log is refused with each dictionary of the AND.
fn refuses_log(alloc: Global, log: &[u8]) -> Result<bool, AllocError> {
    let console = said(alloc, "log", log, "Missing")?;
    is_diagnosed(alloc, log, 6, console.as_bytes())
}

// Whether the dictionary is refused as one that is too short.
fn refuses_dictionary(alloc: Global, dict: &[u8]) -> Result<bool, AllocError> {
    let said = format!(in alloc; "Short at byte {}", dict.len())?;
    is_refused(alloc, dict, said.as_str())
}

#[test]
fn results_cut_to_each_length(rt: HostRuntime) -> Result<(), Fail> {
    for length in 0..TRUTH_RESULT.len() {
        assert!(rt;
            refuses_result(rt.alloc(), &TRUTH_RESULT[..length])?,
            "length {length}"
        );
    }
    Ok(())
}

#[test]
fn plans_cut_to_each_length(rt: HostRuntime) -> Result<(), Fail> {
    for length in 0..AND_PLAN.len() {
        assert!(rt;
            refuses_plan(rt.alloc(), &AND_PLAN[..length])?,
            "length {length}"
        );
    }
    Ok(())
}

#[test]
fn logs_cut_to_each_length(rt: HostRuntime) -> Result<(), Fail> {
    for length in 0..LOG.len() {
        assert!(rt; refuses_log(rt.alloc(), &LOG[..length])?, "length {length}");
    }
    Ok(())
}

static DICTIONARIES: [&[u8]; 7] = [
    ONE,
    TWO,
    FULL_ONE,
    FULL_TWO,
    SAME_DIFF,
    AND_TWICE_CHOSEN,
    TRUTH_FULL,
];

fn each_is_refused(rt: &impl Abort, alloc: Global, dict: &[u8]) -> Result<(), Fail> {
    for length in 0..dict.len() {
        assert!(rt;
            refuses_dictionary(alloc, &dict[..length])?,
            "length {length}"
        );
    }
    Ok(())
}

#[test]
fn dictionaries_cut_to_each_length(rt: HostRuntime) -> Result<(), Fail> {
    for dict in DICTIONARIES {
        each_is_refused(&rt, rt.alloc(), dict)?;
    }
    Ok(())
}
