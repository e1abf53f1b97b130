//! Runs over a shelf, one call of which fails.

use crate::tests::runs::{File, left_by};
use crate::tests::texts::{AND, AND_EXPECTED, AND_RESULT};
use std::alloc::Global;
use std::process::Abort;
use std::test::Fail;

// A call fails: its number, the status, and what the file under the log's name holds.
type Failing = (u64, u8, Option<&'static [u8]>);

// Checks that each of these calls fails in a run, which prints last.
fn each_fails(
    rt: &impl Abort,
    alloc: Global,
    files: &[File],
    words: &[&str],
    cases: &[Failing],
) -> Result<(), Fail> {
    for (call, status, log) in cases {
        let left = left_by(alloc, 4096, &[*call], files, words)?;
        let failed = left.ended(*status, b"") && left.holds("l", *log);
        assert!(rt; failed, "call {call}");
    }
    Ok(())
}

// The netlist is opened and read by calls 0 to 2, the result by calls 3 to 5; call 6 creates the log, call 7 writes it,
// and call 8 prints.
static OF_EXPECT: [Failing; 7] = [
    (0, 7, None),
    (2, 7, None),
    (3, 7, None),
    (5, 7, None),
    (6, 8, None),
    (7, 8, Some(b"")),
    (8, 8, Some(AND_EXPECTED)),
];

#[test]
fn each_failing_call_of_expect_shows(rt: HostRuntime) -> Result<(), Fail> {
    let files = [("n", AND), ("r", AND_RESULT)];
    let words = ["expect", "n", "r", "l"];
    each_fails(&rt, rt.alloc(), &files, &words, &OF_EXPECT)
}

// If there is a list, calls 6 to 8 read it before the log is created.
static OF_EXPECT_AT: [Failing; 6] = [
    (5, 7, None),
    (6, 7, None),
    (8, 7, None),
    (9, 8, None),
    (10, 8, Some(b"")),
    (11, 8, Some(b"0 1\n1 0\n")),
];

#[test]
fn each_failing_call_of_expect_with_a_list_shows(rt: HostRuntime) -> Result<(), Fail> {
    let files = [("n", AND), ("r", AND_RESULT), ("v", VECTORS)];
    let words = ["expect", "n", "r", "l", "--applied", "v"];
    each_fails(&rt, rt.alloc(), &files, &words, &OF_EXPECT_AT)
}

// Two vectors that were applied to an AND, and a log of both that fails.
const VECTORS: &[u8] = b"11\n01\n";

const OF_VECTORS: &[u8] = b"0 0\n1 0\n";

const TWO: &[u8] = b"0 1\n3 0\n";

// The netlist is opened and read by calls 0 to 2, the result by calls 3 to 5, the log by calls 6 to 8, and call 9
// prints.
static OF_SUSPECTS: [Failing; 7] = [
    (1, 7, Some(TWO)),
    (3, 7, Some(TWO)),
    (4, 7, Some(TWO)),
    (6, 7, Some(TWO)),
    (7, 7, Some(TWO)),
    (8, 7, Some(TWO)),
    (9, 8, Some(TWO)),
];

#[test]
fn each_failing_call_of_suspects_cover_and_bridges_shows(rt: HostRuntime) -> Result<(), Fail> {
    let files = [("n", AND), ("r", AND_RESULT), ("l", TWO)];
    let suspects = ["suspects", "n", "r", "l"];
    each_fails(&rt, rt.alloc(), &files, &suspects, &OF_SUSPECTS)?;
    let cover = ["cover", "n", "r", "l"];
    each_fails(&rt, rt.alloc(), &files, &cover, &OF_SUSPECTS)?;
    let bridges = ["bridges", "n", "r", "l"];
    each_fails(&rt, rt.alloc(), &files, &bridges, &OF_SUSPECTS)
}

// The list is read by calls 6 to 8, the log by calls 9 to 11, and call 12 prints.
static OF_SUSPECTS_AT: [Failing; 6] = [
    (3, 7, Some(OF_VECTORS)),
    (6, 7, Some(OF_VECTORS)),
    (8, 7, Some(OF_VECTORS)),
    (9, 7, Some(OF_VECTORS)),
    (11, 7, Some(OF_VECTORS)),
    (12, 8, Some(OF_VECTORS)),
];

#[test]
fn each_failing_call_of_a_log_of_a_list_shows(rt: HostRuntime) -> Result<(), Fail> {
    let files = [
        ("n", AND),
        ("r", AND_RESULT),
        ("v", VECTORS),
        ("l", OF_VECTORS),
    ];
    let suspects = ["suspects", "n", "r", "l", "--applied", "v"];
    each_fails(&rt, rt.alloc(), &files, &suspects, &OF_SUSPECTS_AT)?;
    let cover = ["cover", "n", "r", "l", "--applied", "v"];
    each_fails(&rt, rt.alloc(), &files, &cover, &OF_SUSPECTS_AT)?;
    let bridges = ["bridges", "n", "r", "l", "--applied", "v"];
    each_fails(&rt, rt.alloc(), &files, &bridges, &OF_SUSPECTS_AT)
}
