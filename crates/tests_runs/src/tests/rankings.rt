//! Runs of `rank`.

use crate::tests::runs::FileText::{Absent, Is};
use crate::tests::runs::{Case, all_leave, plain};
use crate::tests::texts::{FULL_ONE, FULL_TWO, LOG, ONE, PARTIAL_LOG, SAME_DIFF, TWO};
use std::alloc::{AllocError, Global};
use std::test::Fail;

// A log, the words, the status, and what is printed.
type RankingCase = (&'static [u8], &'static [&'static str], u8, &'static [u8]);

const RANK: &[&str] = &["rank", "d", "l"];

const ALL: &[u8] = b"0 0\n1 0\n2 0\n3 0\n4 0\n5 0\n6 0\nlisted 7 least 0\n";

// No number of the AND answers so: four numbers differ at one pattern.
const NEAR: &[u8] = b"0 0\n1 1\n2 0\n3 0\n";

const NEAREST: &[u8] = b"1 1\n3 1\n4 1\n5 1\nlisted 4 least 1\n";

const SECOND: &[u8] = b"1 1\n3 1\n4 1\n5 1\n0 2\nlisted 5 least 1\n";

const EACH: &[u8] = b"1 1\n3 1\n4 1\n5 1\n0 2\n2 3\n6 3\nlisted 7 least 1\n";

// Logs that are ranked, a whole one and two without an observed bit among them, and logs that are refused.
static RANKED: [RankingCase; 12] = [
    (PARTIAL_LOG, RANK, 0, b"4 0\n6 0\nlisted 2 least 0\n"),
    (NEAR, RANK, 0, NEAREST),
    (NEAR, &["rank", "d", "l", "--within=0"], 0, NEAREST),
    (NEAR, &["rank", "--within", "1", "d", "l"], 0, SECOND),
    (NEAR, &["rank", "d", "l", "--within", "1000000"], 0, EACH),
    (LOG, RANK, 0, b"1 0\n3 0\n5 0\nlisted 3 least 0\n"),
    (b"", RANK, 0, ALL),
    (b"0 x\n2 x\n", RANK, 0, ALL),
    (b"1 0\n1 0\n", RANK, 6, b"log: Order at line 2\n"),
    (b"9 0\n", RANK, 6, b"log: Order at line 1\n"),
    (b"0 xx\n", RANK, 6, b"log: Width at line 1\n"),
    (b"0 2\n", RANK, 6, b"log: Syntax at line 1\n"),
];

// Whether each dictionary of the AND ranks a log so.
fn is_ranked(alloc: Global, case: &RankingCase) -> Result<bool, AllocError> {
    let (log, words, status, console) = *case;
    for dict in [ONE, TWO, FULL_ONE, FULL_TWO, SAME_DIFF] {
        let left = plain(alloc, &[("d", dict), ("l", log)], words)?;
        if !left.ended(status, Is(console)) {
            return Ok(false);
        }
    }
    Ok(true)
}

#[test]
fn logs_that_are_ranked(rt: HostRuntime) -> Result<(), Fail> {
    for (at, case) in RANKED.iter().enumerate() {
        assert!(rt; is_ranked(rt.alloc(), case)?, "case {at}");
    }
    Ok(())
}

// The pass/fail dictionary of a wire that no output shows, at two patterns.
const UNSEEN: &[u8] =
    b"DIAT\x00\x01\x01\x00\x00\x00\x00\x00\x00\x00\x02\x00\x00\x00\x03\x00\x00\x00";

const ALL_UNSEEN: &[u8] = b"0 0\n1 0\n2 0\nlisted 3 least 0\n";

// No positions, a dictionary in place of a log, and missing files.
static OTHERS: [Case; 6] = [
    (
        &[("d", UNSEEN), ("l", b"0 -\n1 -\n")],
        RANK,
        0,
        Is(ALL_UNSEEN),
        ("e", Absent),
    ),
    (
        &[("d", UNSEEN), ("l", b"1 -\n")],
        RANK,
        0,
        Is(ALL_UNSEEN),
        ("e", Absent),
    ),
    (
        &[("d", UNSEEN), ("l", b"1 x\n")],
        RANK,
        6,
        Is(b"log: Width at line 1\n"),
        ("e", Absent),
    ),
    (
        &[("d", TWO)],
        &["rank", "d", "d"],
        6,
        Is(b"log: Syntax at line 1\n"),
        ("e", Absent),
    ),
    (&[("d", TWO)], RANK, 7, Is(b""), ("e", Absent)),
    (&[("l", LOG)], RANK, 7, Is(b""), ("e", Absent)),
];

#[test]
fn other_dictionaries_and_logs(rt: HostRuntime) -> Result<(), Fail> {
    all_leave(&rt, rt.alloc(), 7, &OTHERS)
}
