//! Words that are taken, and words that aren't.

use crate::tests::runs::left_by;
use crate::tests::texts::{AND, AND_RESULT};
use std::alloc::{AllocError, Global};
use std::test::Fail;

static WRONG: [&[&str]; 29] = [
    &["expect", "n", "r"],
    &["expect", "n", "r", "l", "s"],
    &["expect", "n", "r", "l", "--most", "1"],
    &["suspects", "n", "r"],
    &["suspects", "n", "r", "l", "s"],
    &["suspects", "n", "r", "l", "--most", "0"],
    &["suspects", "n", "r", "l", "--most", "1000001"],
    &["suspects", "n", "r", "l", "--most=-1"],
    &["suspects", "n", "r", "l", "--most", "1", "--most", "1"],
    &["cover", "n", "r"],
    &["cover", "n", "r", "l", "s"],
    &["cover", "n", "r", "l", "--most", "1"],
    &["bridges", "n", "r"],
    &["bridges", "n", "r", "l", "s"],
    &["bridges", "n", "r", "l", "--most", "0"],
    &["bridges", "n", "r", "l", "--most", "1000001"],
    &["bridges", "n", "r", "l", "--within", "1000001"],
    &["bridges", "n", "r", "l", "--within=-1"],
    &["bridges", "n", "r", "l", "--most", "1", "--most", "1"],
    &["bridges", "n", "r", "l", "--within", "1", "--within", "1"],
    &["bridges", "n", "r", "l", "--cubes", "1"],
    &["expect", "n", "r", "l", "--applied"],
    &["expect", "n", "r", "l", "--applied", "v", "--applied", "v"],
    &["suspects", "n", "r", "l", "--applied", "-v"],
    &["suspects", "n", "r", "l", "--applied=v", "--applied=w"],
    &["cover", "n", "r", "--applied", "l"],
    &["bridges", "n", "r", "l", "v", "--applied"],
    &["check", "n", "r", "--applied", "v"],
    &["adapt", "n", "r", "p", "--applied", "v"],
];

// Whether a run says that the words aren't understood, and makes no file.
fn is_not_understood(alloc: Global, words: &[&str]) -> Result<bool, AllocError> {
    let left = left_by(alloc, 64, &[], &[], words)?;
    Ok(left.ended(2, b"words: not understood\n") && left.holds("l", None))
}

#[test]
fn words_that_are_not_understood(rt: HostRuntime) -> Result<(), Fail> {
    for (at, words) in WRONG.iter().enumerate() {
        assert!(rt; is_not_understood(rt.alloc(), *words)?, "case {at}");
    }
    Ok(())
}

// Each asks for at least the three bridges of a log with one failing pattern.
static TAKEN: [&[&str]; 8] = [
    &["bridges", "n", "r", "l"],
    &[
        "bridges", "n", "r", "l", "--most", "1000000", "--within", "1000000",
    ],
    &[
        "bridges", "--within", "1000000", "n", "--most", "1000000", "r", "l",
    ],
    &[
        "bridges", "n", "--most", "1000000", "r", "--within", "1000000", "l",
    ],
    &["bridges", "--within=0", "--most=3", "n", "r", "l"],
    &["bridges", "n", "r", "--within", "+1", "l", "--most", "+20"],
    &["bridges", "n", "r", "--within=-0", "l"],
    &["bridges", "--most", "3", "--", "n", "r", "l"],
];

// Whether a run over the files of an AND lists these three.
fn lists_three(alloc: Global, words: &[&str]) -> Result<bool, AllocError> {
    let files = [("n", AND), ("r", AND_RESULT), ("l", b"1 1\n3 x\n")];
    let left = left_by(alloc, 64, &[], &files, words)?;
    Ok(left.ended(
        0,
        b"or a b 1 0\ndominant a b 1 0\ndominant a z 1 0\nlisted 3 of 3 exact 3 failing 1 logged 2\n",
    ))
}

#[test]
fn words_that_are_taken(rt: HostRuntime) -> Result<(), Fail> {
    for (at, words) in TAKEN.iter().enumerate() {
        assert!(rt; lists_three(rt.alloc(), *words)?, "case {at}");
    }
    Ok(())
}
