//! Runs of `adapt`.

use crate::tests::runs::FileText::{self, Absent, Any, Is};
use crate::tests::runs::{Case, File, all_leave};
use crate::tests::texts::{AND, AND_PLAN, AND_RESULT, THRICE, THRICE_PLAN, THRICE_RESULT, TRUTH};
use std::test::Fail;

const OF_AND: &[File] = &[("n", AND), ("r", AND_RESULT)];

const TO_ANOTHER: &[&str] = &["adapt", "n", "r", "p"];

const OVER_THE_RESULT: &[&str] = &["adapt", "n", "r", "r"];

const OVER_THE_NETLIST: &[&str] = &["adapt", "n", "r", "n"];

const AND_COUNTS: FileText = Is(b"classes 5 asks 4 depth 3\n");

const THRICE_COUNTS: FileText = Is(b"classes 9 asks 2 depth 2\n");

const EMPTY_RESULT: &[u8] =
    b"diatest 1 0 0 1\nbudget 4 64 2000\nclass 0 - -\nmember 0 0 rep\nend\n";

// An AND, a netlist of no lines and so of one class, and three positions. The plan may have a name of its own, or that
// of the result or the netlist.
static ADAPTED: [Case; 6] = [
    (OF_AND, TO_ANOTHER, 0, AND_COUNTS, ("p", Is(AND_PLAN))),
    (OF_AND, TO_ANOTHER, 0, Any, ("r", Is(AND_RESULT))),
    (OF_AND, OVER_THE_RESULT, 0, AND_COUNTS, ("r", Is(AND_PLAN))),
    (OF_AND, OVER_THE_NETLIST, 0, AND_COUNTS, ("n", Is(AND_PLAN))),
    (
        &[("n", b""), ("r", EMPTY_RESULT)],
        TO_ANOTHER,
        0,
        Is(b"classes 1 asks 0 depth 0\n"),
        ("p", Is(b"adapt 1 0 0 1\nclass 0\nend\n")),
    ),
    (
        &[("n", THRICE), ("r", THRICE_RESULT)],
        TO_ANOTHER,
        0,
        THRICE_COUNTS,
        ("p", Is(THRICE_PLAN)),
    ),
];

#[test]
fn results_that_are_adapted(rt: HostRuntime) -> Result<(), Fail> {
    all_leave(&rt, rt.alloc(), 7, &ADAPTED)
}

const UNDRIVEN: FileText = Is(b"netlist: Undriven at byte 6, line 1\n");

static NOT_ADAPTED: [Case; 6] = [
    (
        &[("n", b"z=NOT(Z)\n"), ("r", b"")],
        TO_ANOTHER,
        3,
        UNDRIVEN,
        ("p", Absent),
    ),
    (
        &[("n", AND), ("r", b"x\n")],
        TO_ANOTHER,
        4,
        Is(b"result: Syntax at line 1\n"),
        ("p", Absent),
    ),
    (
        &[("n", TRUTH), ("r", AND_RESULT)],
        OVER_THE_RESULT,
        4,
        Is(b"result: Head at line 1\n"),
        ("r", Is(AND_RESULT)),
    ),
    (
        &[("n", AND), ("r", AND_PLAN)],
        OVER_THE_RESULT,
        4,
        Is(b"result: Syntax at line 1\n"),
        ("r", Is(AND_PLAN)),
    ),
    (&[("n", AND)], TO_ANOTHER, 7, Is(b""), ("p", Absent)),
    (&[("r", AND_RESULT)], TO_ANOTHER, 7, Is(b""), ("p", Absent)),
];

// A refused netlist, results that aren't valid, one of them a plan, and missing files: no file is created, and none is
// changed.
#[test]
fn results_that_are_not_adapted(rt: HostRuntime) -> Result<(), Fail> {
    all_leave(&rt, rt.alloc(), 7, &NOT_ADAPTED)
}
