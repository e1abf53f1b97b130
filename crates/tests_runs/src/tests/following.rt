//! Runs of `follow`.

use crate::tests::runs::FileText::{Absent, Is};
use crate::tests::runs::{Case, all_leave, plain};
use crate::tests::texts::{AND_PLAN, AND_RESULT, THRICE_PLAN};
use std::alloc::{AllocError, Global};
use std::test::Fail;

const FOLLOW: &[&str] = &["follow", "p", "l"];

// A plan, a log, the status, and what is printed.
type Following = (&'static [u8], &'static [u8], u8, &'static [u8]);

// Where logs lead, and logs that are refused.
static FOLLOWED: [Following; 18] = [
    (AND_PLAN, b"", 0, b"ask 1\n"),
    (AND_PLAN, b"1 1\n", 0, b"ask 0\n"),
    (AND_PLAN, b"1 0\n", 0, b"ask 2\n"),
    (AND_PLAN, b"1 0\n2 1\n", 0, b"class 3\n"),
    (AND_PLAN, b"1 1\n0 0\n", 0, b"class 2\n"),
    (AND_PLAN, b"1 0\n2 0\n3 1\n", 0, b"class 0\n"),
    (THRICE_PLAN, b"0 110\n", 0, b"none\n"),
    (THRICE_PLAN, b"0 001\n", 0, b"class 4\n"),
    (THRICE_PLAN, b"0 000\n1 110\n", 0, b"class 8\n"),
    (b"adapt 1 0 0 1\nclass 0\nend\n", b"", 0, b"class 0\n"),
    (AND_PLAN, b"0 0\n", 6, b"log: Order at line 1\n"),
    (AND_PLAN, b"1 0\n3 0\n", 6, b"log: Order at line 2\n"),
    (AND_PLAN, b"1 0\n2 1\n3 0\n", 6, b"log: Order at line 3\n"),
    (THRICE_PLAN, b"0 110\n1 000\n", 6, b"log: Order at line 2\n"),
    (AND_PLAN, b"1 00\n", 6, b"log: Width at line 1\n"),
    (AND_PLAN, b"1 0\n2 -\n", 6, b"log: Width at line 2\n"),
    (AND_PLAN, b"1 x\n", 6, b"log: Syntax at line 1\n"),
    (AND_PLAN, b"1 0\n2 1", 6, b"log: Syntax at line 2\n"),
];

// A plan that asks a pattern that doesn't exist.
const BEYOND: &[u8] =
    b"adapt 1 1 4 5\nask 4 2\non 0\nask 2 2\non 0\nask 3 2\non 1\nclass 0\non 0\nclass 4\non 1\nclass 3\non 1\nask 0 2\non 1\nclass 1\non 0\nclass 2\nend\n";

// Plans that are refused: an answer or a pattern comes twice, and other rules that a line breaks.
static REFUSED: [Following; 11] = [
    (b"", b"", 10, b"plan: Order at line 1\n"),
    (AND_RESULT, b"", 10, b"plan: Syntax at line 1\n"),
    (BEYOND, b"", 10, b"plan: Value at line 2\n"),
    (
        b"adapt 1 1 1 2\nask 0 2\non 0\nclass 0\non 0\nclass 1\nend\n",
        b"",
        10,
        b"plan: Value at line 5\n",
    ),
    (
        b"adapt 1 1 1 2\nask 0 2\non 0\nask 0 2\n",
        b"",
        10,
        b"plan: Value at line 4\n",
    ),
    (
        b"adapt 1 1 1 2\nask 0 1\non 0\nclass 0\nend\n",
        b"",
        10,
        b"plan: Value at line 2\n",
    ),
    (
        b"adapt 1 1 1 2\nask 0 2\non 01\n",
        b"",
        10,
        b"plan: Value at line 3\n",
    ),
    (
        b"adapt 1 0 0 1\nclass 1\nend\n",
        b"",
        10,
        b"plan: Value at line 2\n",
    ),
    (
        b"adapt 1 0 0 1\non -\nend\n",
        b"",
        10,
        b"plan: Order at line 2\n",
    ),
    (
        b"adapt 1 0 0 1\nclass 00\nend\n",
        b"",
        10,
        b"plan: Syntax at line 2\n",
    ),
    (
        b"adapt 1 0 0 1\nclass 0\nend\nend\n",
        b"9 9\n",
        10,
        b"plan: Order at line 4\n",
    ),
];

// Whether a run follows the log in the plan so, and changes neither.
fn is_followed(alloc: Global, case: &Following) -> Result<bool, AllocError> {
    let (adaptive, log, status, console) = *case;
    let left = plain(alloc, &[("p", adaptive), ("l", log)], FOLLOW)?;
    Ok(left.ended(status, Is(console)) && left.holds("p", Is(adaptive)) && left.holds("l", Is(log)))
}

#[test]
fn logs_that_are_followed(rt: HostRuntime) -> Result<(), Fail> {
    for (at, case) in FOLLOWED.iter().enumerate() {
        assert!(rt; is_followed(rt.alloc(), case)?, "case {at}");
    }
    Ok(())
}

#[test]
fn plans_that_are_refused(rt: HostRuntime) -> Result<(), Fail> {
    for (at, case) in REFUSED.iter().enumerate() {
        assert!(rt; is_followed(rt.alloc(), case)?, "case {at}");
    }
    Ok(())
}

// The plan is judged before the log is read; a plan in place of a log; and missing files.
static OTHERS: [Case; 4] = [
    (
        &[("p", b"end\n")],
        FOLLOW,
        10,
        Is(b"plan: Order at line 1\n"),
        ("l", Absent),
    ),
    (
        &[("p", AND_PLAN)],
        &["follow", "p", "p"],
        6,
        Is(b"log: Syntax at line 1\n"),
        ("p", Is(AND_PLAN)),
    ),
    (&[("p", AND_PLAN)], FOLLOW, 7, Is(b""), ("l", Absent)),
    (&[("l", b"")], FOLLOW, 7, Is(b""), ("p", Absent)),
];

#[test]
fn other_runs_of_follow(rt: HostRuntime) -> Result<(), Fail> {
    all_leave(&rt, rt.alloc(), 7, &OTHERS)
}
