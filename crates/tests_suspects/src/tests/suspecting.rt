//! Runs of `suspects`.

use crate::tests::runs::{Case, File, LogCase, all_leave, are_listed, left_by};
use crate::tests::texts::{
    AND, AND_EXPECTED, AND_RESULT, C17, C17_BRIDGED, C17_EXPECTED, C17_RESULT, C17_STUCK, TRUTH,
    UNSEEN,
};
use std::test::Fail;

const SUSPECTS: &[&str] = &["suspects", "n", "r", "l"];

pub(crate) const STUCK: &[u8] =
    b"3 3 6 0 0\n17 3 6 0 1\n10 1 2 4 0\n12 1 2 4 0\n6 1 2 4 1\n26 0 3 3 0\n28 0 3 3 0\n31 0 3 3 1\n33 0 3 3 1\nlisted 9 failing 3 logged 11\n";

pub(crate) const BRIDGED: &[u8] =
    b"4 2 2 0 6\n23 2 2 0 12\n14 1 1 1 3\n15 1 1 1 6\n27 1 1 1 6\nlisted 5 failing 2 logged 11\n";

const OF_TWO: &[u8] = b"1 1 1 1 0\n6 1 1 1 0\nlisted 2 failing 2 logged 2\n";

const FIRST_OF_TWO: &[u8] = b"1 1 1 1 0\nlisted 1 failing 2 logged 2\n";

const HALF: &[u8] = b"4 1 1 1 0\n23 1 2 0 1\n27 1 1 1 0\n15 1 1 1 1\nlisted 4 failing 2 logged 2\n";

const TWO: &[u8] = b"0 1\n3 0\n";

// Whole logs, logs of some patterns, of none and of `x` alone; as many suspects as there are, fewer and more.
static OF_C17: [LogCase; 7] = [
    (C17_EXPECTED, SUSPECTS, 0, b"listed 0 failing 0 logged 11\n"),
    (C17_STUCK, SUSPECTS, 0, STUCK),
    (C17_BRIDGED, SUSPECTS, 0, BRIDGED),
    (b"0 1x\n7 01\n", SUSPECTS, 0, HALF),
    (
        C17_STUCK,
        &["suspects", "--most", "1", "n", "r", "l"],
        0,
        b"3 3 6 0 0\nlisted 1 failing 3 logged 11\n",
    ),
    (
        C17_STUCK,
        &["suspects", "n", "r", "l", "--most=9"],
        0,
        STUCK,
    ),
    (
        C17_STUCK,
        &["suspects", "n", "r", "l", "--most", "1000000"],
        0,
        STUCK,
    ),
];

static OF_AND: [LogCase; 7] = [
    (TWO, SUSPECTS, 0, OF_TWO),
    (
        TWO,
        &["suspects", "n", "r", "l", "--most", "1"],
        0,
        FIRST_OF_TWO,
    ),
    (
        b"1 1\n3 x\n",
        SUSPECTS,
        0,
        b"4 1 1 0 0\n6 1 1 0 0\nlisted 2 failing 1 logged 2\n",
    ),
    (
        b"0 x\n1 1\n",
        SUSPECTS,
        0,
        b"4 1 1 0 0\n6 1 1 0 0\nlisted 2 failing 1 logged 2\n",
    ),
    (b"", SUSPECTS, 0, b"listed 0 failing 0 logged 0\n"),
    (
        b"0 x\n1 x\n2 x\n3 x\n",
        SUSPECTS,
        0,
        b"listed 0 failing 0 logged 4\n",
    ),
    (AND_EXPECTED, SUSPECTS, 0, b"listed 0 failing 0 logged 4\n"),
];

// Lines that aren't those of a log for the AND's result: patterns out of order, twice and one too many; of another
// width.
static REFUSED: [LogCase; 7] = [
    (b"1 0\n0 0\n", SUSPECTS, 6, b"log: Order at line 2\n"),
    (b"1 0\n1 0\n", SUSPECTS, 6, b"log: Order at line 2\n"),
    (b"3 0\n4 0\n", SUSPECTS, 6, b"log: Order at line 2\n"),
    (b"0 00\n", SUSPECTS, 6, b"log: Width at line 1\n"),
    (b"0 -\n", SUSPECTS, 6, b"log: Width at line 1\n"),
    (b"0 0", SUSPECTS, 6, b"log: Syntax at line 1\n"),
    (
        b"0 0\n",
        &["suspects", "n", "r", "r"],
        6,
        b"log: Syntax at line 1\n",
    ),
];

#[test]
fn suspects_that_are_listed(rt: HostRuntime) -> Result<(), Fail> {
    are_listed(&rt, rt.alloc(), C17, C17_RESULT, &OF_C17)?;
    are_listed(&rt, rt.alloc(), AND, AND_RESULT, &OF_AND)
}

#[test]
fn logs_that_are_refused(rt: HostRuntime) -> Result<(), Fail> {
    are_listed(&rt, rt.alloc(), AND, AND_RESULT, &REFUSED)
}

const NO_LOG: &[File] = &[("n", AND), ("r", AND_RESULT)];

// The netlist is judged before the result, and the result before the log.
static OTHERS: [Case; 6] = [
    (
        &[("n", b"z=NOT(Z)\n"), ("r", b"x\n"), ("l", b"x\n")],
        SUSPECTS,
        3,
        b"netlist: Undriven at byte 6, line 1\n",
        ("l", Some(b"x\n")),
    ),
    (
        &[("n", AND), ("r", b"x\n"), ("l", b"x\n")],
        SUSPECTS,
        4,
        b"result: Syntax at line 1\n",
        ("l", Some(b"x\n")),
    ),
    (
        &[("n", AND), ("r", AND_EXPECTED)],
        &["suspects", "n", "r", "r"],
        4,
        b"result: Syntax at line 1\n",
        ("r", Some(AND_EXPECTED)),
    ),
    (NO_LOG, SUSPECTS, 7, b"", ("l", None)),
    (&[("n", AND)], SUSPECTS, 7, b"", ("r", None)),
    (&[("r", AND_RESULT)], SUSPECTS, 7, b"", ("n", None)),
];

#[test]
fn other_files(rt: HostRuntime) -> Result<(), Fail> {
    all_leave(&rt, rt.alloc(), &OTHERS)
}

// Members of a result that are left open have the score of their class.
#[test]
fn open_members(rt: HostRuntime) -> Result<(), Fail> {
    let alloc = rt.alloc();
    let words = ["gen", "n", "r", "--cubes", "0", "--conflicts", "0"];
    let made = left_by(alloc, 64, &[], &[("n", TRUTH)], &words)?;
    let result = made.copy_of(alloc, "r")?;
    let files = [("n", TRUTH), ("r", result.as_slice()), ("l", b"0 0\n1 1\n")];
    let left = left_by(alloc, 64, &[], &files, SUSPECTS)?;
    let listed = left.ended(0, b"4 1 1 0 0\n9 1 1 0 1\nlisted 2 failing 1 logged 2\n");
    assert!(rt; listed);
    Ok(())
}

// Without positions there is no pattern, and so no line.
#[test]
fn no_positions(rt: HostRuntime) -> Result<(), Fail> {
    let alloc = rt.alloc();
    let made = left_by(alloc, 64, &[], &[("n", UNSEEN)], &["gen", "n", "r"])?;
    let result = made.copy_of(alloc, "r")?;
    let empty = [("n", UNSEEN), ("r", result.as_slice()), ("l", b"")];
    let left = left_by(alloc, 64, &[], &empty, SUSPECTS)?;
    assert!(rt; left.ended(0, b"listed 0 failing 0 logged 0\n"));
    let one = [("n", UNSEEN), ("r", result.as_slice()), ("l", b"0 -\n")];
    let left = left_by(alloc, 64, &[], &one, SUSPECTS)?;
    assert!(rt; left.ended(6, b"log: Order at line 1\n"));
    Ok(())
}
