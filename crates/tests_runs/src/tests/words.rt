//! Words that are taken, and words that aren't.

use crate::tests::runs::FileText::{Absent, Any, Has, Is};
use crate::tests::runs::plain;
use std::alloc::{AllocError, Global};
use std::test::Fail;

static WRONG: [&[&str]; 49] = [
    &[],
    &["generate", "n", "r"],
    &["gen", "n"],
    &["gen", "n", "r", "s"],
    &["faults"],
    &["faults", "n", "r"],
    &["faults", "n", "--cubes", "1"],
    &["gen", "n", "r", "--blocks", "65537"],
    &["gen", "n", "r", "--cubes", "1048577"],
    &["gen", "n", "r", "--cubes", "-0"],
    &["gen", "n", "r", "--conflicts", "100001"],
    &["synth", "1", "n", "r", "--conflicts", "1"],
    &["gen", "n", "r", "--blocks="],
    &["gen", "n", "r", "--cubes", "5", "--cubes", "5"],
    &["gen", "n", "--r"],
    &["gen", "--help"],
    &["synth", "0", "n", "r"],
    &["check", "n"],
    &["check", "n", "r", "--cubes", "1"],
    &["synth", "2001", "n", "r"],
    &["dict", "passfail", "n", "r"],
    &["dict", "same", "n", "r", "d"],
    &["dict", "Full", "n", "r", "d"],
    &["dict", "n", "full", "r", "d"],
    &["convert", "d"],
    &["convert", "d", "e", "f"],
    &["diagnose", "d"],
    &["diagnose", "d", "l", "m"],
    &["rank", "d"],
    &["rank", "d", "l", "m"],
    &["rank", "d", "l", "--within", "1000001"],
    &["rank", "d", "l", "--within=-1"],
    &["sim", "n"],
    &["sim", "n", "v", "--cubes", "1"],
    &["compact", "n", "r"],
    &["compact", "n", "r", "m", "s"],
    &["compact", "n", "r", "m", "--cubes", "1"],
    &["adapt", "n", "r"],
    &["adapt", "n", "r", "p", "s"],
    &["adapt", "n", "r", "p", "--cubes", "1"],
    &["follow", "p"],
    &["follow", "p", "l", "m"],
    &["follow", "p", "l", "--within", "1"],
    &["grade", "n", "v"],
    &["grade", "n", "v", "r", "--cubes", "4"],
    &["grade", "n", "v", "r", "--blocks", "0"],
    &["topup", "n", "v", "r", "--blocks", "0"],
    &["topup", "n", "v", "r", "--cubes", "1048577"],
    &["topup", "n", "v", "r", "s"],
];

// Whether a run says that the words aren't understood, and makes no file.
fn is_not_understood(alloc: Global, words: &[&str]) -> Result<bool, AllocError> {
    let left = plain(alloc, &[], words)?;
    Ok(
        left.ended(2, Is(b"words: not understood\n"))
            && left.holds("n", Absent)
            && left.holds("r", Absent),
    )
}

#[test]
fn words_that_are_not_understood(rt: HostRuntime) -> Result<(), Fail> {
    for (at, words) in WRONG.iter().enumerate() {
        assert!(rt; is_not_understood(rt.alloc(), *words)?, "case {at}");
    }
    Ok(())
}

// Options come before, between and after the names, and numbers may begin with zeros or a sign.
static TAKEN: [(&[&str], &[u8]); 9] = [
    (&["gen", "--cubes", "8", "n", "r"], b"budget 4 8 2000\n"),
    (&["gen", "n", "r", "--cubes", "8"], b"budget 4 8 2000\n"),
    (
        &["gen", "--cubes=007", "n", "--blocks", "65536", "r"],
        b"budget 65536 7 2000\n",
    ),
    (&["gen", "n", "--cubes", "+7", "r"], b"budget 4 7 2000\n"),
    (&["gen", "n", "r", "--cubes=-0"], b"budget 4 0 2000\n"),
    (
        &["gen", "--blocks", "0", "--", "n", "r"],
        b"budget 0 64 2000\n",
    ),
    (
        &["gen", "n", "--cubes", "1048576", "r"],
        b"budget 4 1048576 2000\n",
    ),
    (&["gen", "n", "r", "--conflicts=0"], b"budget 4 64 0\n"),
    (
        &["gen", "--conflicts", "100000", "n", "r"],
        b"budget 4 64 100000\n",
    ),
];

#[test]
fn words_that_are_understood(rt: HostRuntime) -> Result<(), Fail> {
    for (at, (words, line)) in TAKEN.iter().enumerate() {
        let left = plain(rt.alloc(), &[("n", b"")], *words)?;
        let taken = left.ended(0, Any) && left.holds("r", Has(*line));
        assert!(rt; taken, "case {at}");
    }
    Ok(())
}
