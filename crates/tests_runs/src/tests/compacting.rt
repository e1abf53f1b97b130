//! Runs of `compact`.

use crate::tests::runs::FileText::{self, Absent, Any, Begins, Ends, Is};
use crate::tests::runs::{Case, File, Left, all_leave, left_by};
use crate::tests::texts::{AND, AND_COMPACTED, AND_RESULT, C17, S27, TRUTH, TRUTH_RESULT};
use std::alloc::{AllocError, Global};
use std::test::Fail;

const OF_AND: &[File] = &[("n", AND), ("r", AND_RESULT)];

const OF_COMPACTED: &[File] = &[("n", AND), ("r", AND_COMPACTED)];

const OF_TRUTH: &[File] = &[("n", TRUTH), ("r", TRUTH_RESULT)];

const TO_ANOTHER: &[&str] = &["compact", "n", "r", "m"];

const TO_ITSELF: &[&str] = &["compact", "n", "r", "r"];

const OVER_THE_NETLIST: &[&str] = &["compact", "n", "r", "n"];

const ONE_DROPPED: FileText = Is(b"numbers 7 patterns 3 classes 5 equal 2 open 0 dropped 1\n");

const NONE_DROPPED: FileText = Is(b"numbers 7 patterns 3 classes 5 equal 2 open 0 dropped 0\n");

const TRUTH_KEPT: FileText = Is(b"numbers 11 patterns 2 classes 4 equal 7 open 0 dropped 0\n");

// The new file may have a name of its own, or that of the result or the netlist. Every pattern that is left of a result
// is needed.
static COMPACTED: [Case; 6] = [
    (OF_AND, TO_ANOTHER, 0, ONE_DROPPED, ("m", Is(AND_COMPACTED))),
    (OF_AND, TO_ANOTHER, 0, Any, ("r", Is(AND_RESULT))),
    (OF_AND, TO_ITSELF, 0, ONE_DROPPED, ("r", Is(AND_COMPACTED))),
    (
        OF_AND,
        OVER_THE_NETLIST,
        0,
        ONE_DROPPED,
        ("n", Is(AND_COMPACTED)),
    ),
    (
        OF_COMPACTED,
        TO_ANOTHER,
        0,
        NONE_DROPPED,
        ("m", Is(AND_COMPACTED)),
    ),
    (OF_TRUTH, TO_ANOTHER, 0, TRUTH_KEPT, ("m", Is(TRUTH_RESULT))),
];

#[test]
fn results_that_are_compacted(rt: HostRuntime) -> Result<(), Fail> {
    all_leave(&rt, rt.alloc(), 7, &COMPACTED)
}

const UNDRIVEN: FileText = Is(b"netlist: Undriven at byte 6, line 1\n");

static NOT_COMPACTED: [Case; 6] = [
    (
        &[("n", b"z=NOT(Z)\n"), ("r", b"")],
        TO_ANOTHER,
        3,
        UNDRIVEN,
        ("m", Absent),
    ),
    (
        &[("n", AND), ("r", b"x\n")],
        TO_ANOTHER,
        4,
        Is(b"result: Syntax at line 1\n"),
        ("m", Absent),
    ),
    (
        &[("n", TRUTH), ("r", AND_RESULT)],
        TO_ITSELF,
        4,
        Is(b"result: Head at line 1\n"),
        ("r", Is(AND_RESULT)),
    ),
    (
        &[("n", AND), ("r", b"")],
        TO_ITSELF,
        4,
        Is(b"result: Order at line 1\n"),
        ("r", Is(b"")),
    ),
    (&[("n", AND)], TO_ANOTHER, 7, Is(b""), ("m", Absent)),
    (&[("r", AND_RESULT)], TO_ANOTHER, 7, Is(b""), ("m", Absent)),
];

// A refused netlist, results that aren't valid, and missing files: no file is created, and none is changed.
#[test]
fn results_that_are_not_compacted(rt: HostRuntime) -> Result<(), Fail> {
    all_leave(&rt, rt.alloc(), 7, &NOT_COMPACTED)
}

// Returns what a run of these words leaves over a netlist and a result.
fn left_of(
    alloc: Global,
    words: &[&str],
    netlist: &[u8],
    output: &[u8],
) -> Result<Left, AllocError> {
    let files = [("n", netlist), ("r", output)];
    left_by(alloc, 4096, &[], &files, words)
}

// Whether a generated result is compacted, with `said` printed of it, to one that `check` accepts and that needs all of
// its patterns.
fn stays_compacted(alloc: Global, netlist: &[u8], said: FileText) -> Result<bool, Fail> {
    let made = left_by(alloc, 4096, &[], &[("n", netlist)], &["gen", "n", "r"])?;
    let whole = made.copy_of(alloc, "r")?;
    let once = left_of(alloc, TO_ITSELF, netlist, &whole)?;
    let left = once.copy_of(alloc, "r")?;
    let checked = left_of(alloc, &["check", "n", "r"], netlist, &left)?;
    let twice = left_of(alloc, TO_ITSELF, netlist, &left)?;
    Ok(
        once.ended(0, said)
            && checked.ended(0, Begins(b"valid "))
            && twice.ended(0, Ends(b" dropped 0\n"))
            && twice.holds("r", Is(&left)),
    )
}

const OF_C17: FileText = Is(b"numbers 35 patterns 7 classes 23 equal 12 open 0 dropped 4\n");

const OF_S27: FileText = Is(b"numbers 53 patterns 8 classes 31 equal 22 open 0 dropped 6\n");

static GENERATED: [(&[u8], FileText); 2] = [(C17, OF_C17), (S27, OF_S27)];

#[test]
fn compacted_results_are_valid_and_stay(rt: HostRuntime) -> Result<(), Fail> {
    for (netlist, said) in GENERATED {
        assert!(rt; stays_compacted(rt.alloc(), netlist, said)?);
    }
    Ok(())
}
