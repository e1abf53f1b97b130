//! Runs over a shelf, each call of which fails in turn.

use crate::tests::runs::FileText::{Absent, Any, Is};
use crate::tests::runs::{File, Left, left_by};
use crate::tests::texts::{
    AND, AND_PLAN, AND_RESULT, LOG, ONE, PARTIAL_LOG, TRUTH, TRUTH_FULL, TRUTH_RESULT,
};
use std::alloc::{AllocError, Global};
use std::test::Fail;

// How many bytes a call moves at most.
const CHUNK: usize = 16;

// More calls than any of these runs makes.
const LIMIT: u64 = 10_000;

// The files that a run reads, its words, and the name of a file that it makes, or of no file.
type Calling = (&'static [File], &'static [&'static str], &'static str);

static CALLS: [Calling; 17] = [
    (&[("n", TRUTH)], &["gen", "n", "r"], "r"),
    (
        &[("n", AND), ("v", b"11\n")],
        &["topup", "n", "v", "r"],
        "r",
    ),
    (
        &[("n", TRUTH), ("r", TRUTH_RESULT)],
        &["check", "n", "r"],
        "e",
    ),
    (
        &[("n", TRUTH), ("r", TRUTH_RESULT)],
        &["dict", "full", "n", "r", "d"],
        "d",
    ),
    (
        &[("d", TRUTH_FULL), ("l", b"0 1\n1 0\n")],
        &["diagnose", "d", "l"],
        "e",
    ),
    (
        &[("n", AND), ("r", AND_RESULT)],
        &["dict", "passfail", "n", "r", "d"],
        "d",
    ),
    (
        &[("n", AND), ("r", AND_RESULT)],
        &["dict", "samediff", "n", "r", "d"],
        "d",
    ),
    (
        &[("n", AND), ("r", AND_RESULT)],
        &["compact", "n", "r", "m"],
        "m",
    ),
    (&[("d", ONE), ("l", LOG)], &["diagnose", "d", "l"], "e"),
    (&[("d", ONE), ("l", PARTIAL_LOG)], &["rank", "d", "l"], "e"),
    (
        &[("n", AND), ("r", AND_RESULT)],
        &["adapt", "n", "r", "p"],
        "p",
    ),
    (
        &[("p", AND_PLAN), ("l", b"1 0\n2 1\n")],
        &["follow", "p", "l"],
        "e",
    ),
    (&[("o", ONE)], &["convert", "o", "d"], "d"),
    (&[("n", AND)], &["faults", "n"], "e"),
    (&[("n", AND), ("v", b"11\n01\n")], &["sim", "n", "v"], "e"),
    (&[], &["synth", "2", "n", "r"], "n"),
    (&[], &["synth", "2", "n", "r"], "r"),
];

// Returns how many calls open each file and read it until nothing is left.
fn calls_to_read(files: &[File]) -> u64 {
    let mut calls = 0_u64;
    for (_, bytes) in files {
        calls = calls
            .saturating_add(2)
            .saturating_add(bytes.len().div_ceil(CHUNK) as u64);
    }
    calls
}

// Whether a run shows that a call failed: a failed read leaves nothing, and a failed write leaves a part of what
// `whole` left, the run without a failed call; it prints last.
fn shows(left: &Left, whole: &Left, name: &str, call: u64, reads: u64) -> bool {
    if call < reads {
        return left.ended(7, Is(b"")) && left.holds(name, Absent);
    }
    let created = call > reads || left.holds(name, Absent);
    let printed = left.console().is_empty() || left.holds_same(whole, name);
    left.ended(8, Any)
        && whole.console().starts_with(left.console())
        && left.holds_part(whole, name)
        && created
        && printed
}

// Whether each failing call of a run shows and leaves the files that were read as before, until none fails. The last
// calls print, so that the file is whole.
fn each_shows(alloc: Global, case: &Calling) -> Result<bool, AllocError> {
    let (files, words, name) = *case;
    let whole = left_by(alloc, CHUNK, &[], files, words)?;
    let reads = calls_to_read(files);
    let prints = whole.console().len().div_ceil(CHUNK);
    let mut kept = 0_usize;
    for call in 0..LIMIT {
        let left = left_by(alloc, CHUNK, &[call], files, words)?;
        let is_whole = left.holds_same(&whole, name);
        if left.ended(0, Is(whole.console())) {
            return Ok(is_whole && call > reads && kept >= prints);
        }
        if !left.keeps(files) || !shows(&left, &whole, name, call, reads) {
            return Ok(false);
        }
        kept = if is_whole { kept.saturating_add(1) } else { 0 };
    }
    Ok(false)
}

#[test]
fn each_failing_call_shows(rt: HostRuntime) -> Result<(), Fail> {
    for (at, case) in CALLS.iter().enumerate() {
        assert!(rt; each_shows(rt.alloc(), case)?, "case {at}");
    }
    Ok(())
}
