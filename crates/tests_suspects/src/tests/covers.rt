//! Runs of `cover`.

use crate::tests::runs::{Case, all_leave, left_by};
use crate::tests::texts::{
    AND, AND_EXPECTED, AND_RESULT, C17, C17_BRIDGED, C17_EXPECTED, C17_RESULT, C17_STUCK,
};
use std::alloc::Global;
use std::process::Abort;
use std::test::Fail;

// A log, the status, and what is printed.
type Covering = (&'static [u8], u8, &'static [u8]);

const COVER: &[&str] = &["cover", "n", "r", "l"];

const NONE: &[u8] = b"listed 0 explained 0 failing 0\n";

static OF_C17: [Covering; 4] = [
    (C17_EXPECTED, 0, NONE),
    (C17_STUCK, 0, b"3 3\nlisted 1 explained 3 failing 3\n"),
    (C17_BRIDGED, 0, b"4 2\nlisted 1 explained 2 failing 2\n"),
    (
        b"0 01\n1 11\n4 11\n",
        0,
        b"4 2\n14 1\nlisted 2 explained 3 failing 3\n",
    ),
];

static OF_AND: [Covering; 6] = [
    (
        b"0 1\n3 0\n",
        0,
        b"1 1\n6 1\nlisted 2 explained 2 failing 2\n",
    ),
    (b"", 0, NONE),
    (b"0 x\n3 x\n", 0, NONE),
    (AND_EXPECTED, 0, NONE),
    (b"2 0\n0 0\n", 6, b"log: Order at line 2\n"),
    (b"4 0\n", 6, b"log: Order at line 1\n"),
];

// Checks that each log is covered or refused so, for a netlist with its result.
fn are_covered(
    rt: &impl Abort,
    alloc: Global,
    netlist: &[u8],
    output: &[u8],
    cases: &[Covering],
) -> Result<(), Fail> {
    for (at, (log, status, console)) in cases.iter().enumerate() {
        let files = [("n", netlist), ("r", output), ("l", *log)];
        let left = left_by(alloc, 64, &[], &files, COVER)?;
        let covered = left.ended(*status, *console) && left.holds("l", Some(*log));
        assert!(rt; covered, "case {at}");
    }
    Ok(())
}

#[test]
fn logs_that_are_covered(rt: HostRuntime) -> Result<(), Fail> {
    are_covered(&rt, rt.alloc(), C17, C17_RESULT, &OF_C17)?;
    are_covered(&rt, rt.alloc(), AND, AND_RESULT, &OF_AND)
}

// The netlist is judged before the result, and the result before the log.
static OTHERS: [Case; 5] = [
    (
        &[("n", b"z=NOT(Z)\n"), ("r", b"x\n"), ("l", b"x\n")],
        COVER,
        3,
        b"netlist: Undriven at byte 6, line 1\n",
        ("l", Some(b"x\n")),
    ),
    (
        &[("n", AND), ("r", b"x\n"), ("l", b"x\n")],
        COVER,
        4,
        b"result: Syntax at line 1\n",
        ("l", Some(b"x\n")),
    ),
    (
        &[("n", AND), ("r", AND_RESULT)],
        &["cover", "n", "r", "r"],
        6,
        b"log: Syntax at line 1\n",
        ("r", Some(AND_RESULT)),
    ),
    (&[("n", AND), ("r", AND_RESULT)], COVER, 7, b"", ("l", None)),
    (&[("n", AND)], COVER, 7, b"", ("r", None)),
];

#[test]
fn other_files(rt: HostRuntime) -> Result<(), Fail> {
    all_leave(&rt, rt.alloc(), &OTHERS)
}
