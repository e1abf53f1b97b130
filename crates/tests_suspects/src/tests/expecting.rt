//! Runs of `expect`.

use crate::tests::runs::{Case, File, all_leave, left_by};
use crate::tests::texts::{
    AND, AND_EXPECTED, AND_RESULT, C17, C17_EXPECTED, C17_RESULT, TRUTH, UNSEEN,
};
use std::test::Fail;

const OF_AND: &[File] = &[("n", AND), ("r", AND_RESULT)];

const OF_C17: &[File] = &[("n", C17), ("r", C17_RESULT)];

const EXPECT: &[&str] = &["expect", "n", "r", "l"];

const FOUR: &[u8] = b"patterns 4 positions 1\n";

const ELEVEN: &[u8] = b"patterns 11 positions 2\n";

// The log may have a name of its own, or that of the result or the netlist, and replaces the file of that name.
static WRITTEN: [Case; 6] = [
    (OF_C17, EXPECT, 0, ELEVEN, ("l", Some(C17_EXPECTED))),
    (OF_AND, EXPECT, 0, FOUR, ("l", Some(AND_EXPECTED))),
    (OF_AND, EXPECT, 0, FOUR, ("r", Some(AND_RESULT))),
    (
        OF_AND,
        &["expect", "n", "r", "r"],
        0,
        FOUR,
        ("r", Some(AND_EXPECTED)),
    ),
    (
        OF_AND,
        &["expect", "n", "r", "n"],
        0,
        FOUR,
        ("n", Some(AND_EXPECTED)),
    ),
    (
        &[("n", AND), ("r", AND_RESULT), ("l", C17_EXPECTED)],
        EXPECT,
        0,
        FOUR,
        ("l", Some(AND_EXPECTED)),
    ),
];

#[test]
fn logs_that_are_written(rt: HostRuntime) -> Result<(), Fail> {
    all_leave(&rt, rt.alloc(), &WRITTEN)
}

static NOT_WRITTEN: [Case; 5] = [
    (
        &[("n", b"z=NOT(Z)\n"), ("r", AND_RESULT)],
        EXPECT,
        3,
        b"netlist: Undriven at byte 6, line 1\n",
        ("l", None),
    ),
    (
        &[("n", AND), ("r", b"x\n")],
        EXPECT,
        4,
        b"result: Syntax at line 1\n",
        ("l", None),
    ),
    (
        &[("n", TRUTH), ("r", AND_RESULT)],
        &["expect", "n", "r", "r"],
        4,
        b"result: Head at line 1\n",
        ("r", Some(AND_RESULT)),
    ),
    (&[("n", AND)], EXPECT, 7, b"", ("l", None)),
    (&[("r", AND_RESULT)], EXPECT, 7, b"", ("l", None)),
];

// A refused netlist, results that aren't valid, and missing files: no file is created, and none is changed.
#[test]
fn logs_that_are_not_written(rt: HostRuntime) -> Result<(), Fail> {
    all_leave(&rt, rt.alloc(), &NOT_WRITTEN)
}

// If no position shows anything there is no pattern, and the log is empty.
#[test]
fn log_without_patterns(rt: HostRuntime) -> Result<(), Fail> {
    let alloc = rt.alloc();
    let made = left_by(alloc, 64, &[], &[("n", UNSEEN)], &["gen", "n", "r"])?;
    let result = made.copy_of(alloc, "r")?;
    let files = [("n", UNSEEN), ("r", result.as_slice())];
    let left = left_by(alloc, 64, &[], &files, EXPECT)?;
    let empty = left.ended(0, b"patterns 0 positions 0\n") && left.holds("l", Some(b""));
    assert!(rt; empty);
    Ok(())
}
