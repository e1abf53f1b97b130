//! Runs of `check`.

use crate::tests::runs::FileText::{Absent, Is};
use crate::tests::runs::{Case, all_leave, joined, left_by};
use crate::tests::texts::TRUTH;
use std::alloc::{AllocError, Global};
use std::test::Fail;

// A result in pieces. The third has room for one more pattern.
static PIECES: [&[u8]; 10] = [
    b"diatest 1 1 1 11\nbudget 4 64 2000\n",
    b"pattern 0\npattern 1\n",
    b"",
    b"same 1 0 T 0 . .\n",
    b"same 2 0 T 0 . .\nsame 3 0 T 0 . .\nsame 6 0 T 0 . .\n",
    b"same 7 4 C\n",
    b"same 8 0 T 0 . .\nsame 10 0 T 0 . .\n",
    b"class 0 - -\nclass 1 0 0\nclass 2 0 1\nclass 3 1 1\nmember 0 0 rep\nmember 1 0 equal\nmember 2 0 equal\nmember 3 0 equal\nmember 4 1 rep\nmember 5 2 rep\nmember 6 0 equal\nmember 7 1 equal\nmember 8 0 equal\nmember 9 3 rep\n",
    b"member 10 0 equal\n",
    b"end\n",
];

// Returns the result with `piece` in place of the piece `at`.
fn result_with(alloc: Global, at: usize, piece: &[u8]) -> Result<Vec<u8>, AllocError> {
    let mut text = Vec::new(alloc);
    for (place, own) in PIECES.iter().enumerate() {
        text.extend_from_slice(if place == at { piece } else { *own })?;
    }
    Ok(text)
}

// The place of a piece, what is put in its place, the status, and what is printed.
type Checking = (usize, &'static [u8], u8, &'static [u8]);

// The result as it was made; with a tree of one closed leaf, and with a tree that has an open leaf; without a line of
// evidence, and with evidence of another kind; with a pattern twice; with another mark, and without the end.
static CHECKED: [Checking; 8] = [
    (
        2,
        b"",
        0,
        b"valid numbers 11 patterns 2 classes 4 equal 7 open 0\n",
    ),
    (
        3,
        b"same 1 0 T .\n",
        4,
        b"result: Evidence LeafOpen at step 0, line 5\n",
    ),
    (
        3,
        b"same 1 0 T 0 . ?\n",
        4,
        b"result: Evidence WrongCount at step 3, line 5\n",
    ),
    (5, b"", 4, b"result: Member at line 9\n"),
    (5, b"same 7 4 T 0 . .\n", 4, b"result: Roots at line 9\n"),
    (2, b"pattern 1\n", 4, b"result: Pattern at line 5\n"),
    (8, b"member 10 0 open\n", 4, b"result: Table at line 26\n"),
    (9, b"", 4, b"result: Order at line 27\n"),
];

// Whether a check ends with this status, prints this, and leaves the result as it is.
fn is_checked(
    alloc: Global,
    chunk: usize,
    netlist: &[u8],
    output: &[u8],
    status: u8,
    console: &[u8],
) -> Result<bool, AllocError> {
    let files = [("n", netlist), ("r", output)];
    let left = left_by(alloc, chunk, &[], &files, &["check", "n", "r"])?;
    Ok(left.ended(status, Is(console)) && left.holds("r", Is(output)))
}

// Whether the result is judged so if its bytes come one by one, and if they come all at once.
fn is_judged(alloc: Global, case: &Checking) -> Result<bool, AllocError> {
    let (at, piece, status, console) = *case;
    let result = result_with(alloc, at, piece)?;
    Ok(
        is_checked(alloc, 1, TRUTH, &result, status, console)?
            && is_checked(alloc, 4096, TRUTH, &result, status, console)?,
    )
}

#[test]
fn results_that_are_checked(rt: HostRuntime) -> Result<(), Fail> {
    for (at, case) in CHECKED.iter().enumerate() {
        assert!(rt; is_judged(rt.alloc(), case)?, "case {at}");
    }
    Ok(())
}

const START: &[u8] = b"diatest 1 1 0 3\nbudget 4 0 2000\n";

const END: &[u8] =
    b"same 2 0 R ? ; 1\nclass 0 - -\nmember 0 0 rep\nmember 1 0 equal\nmember 2 0 equal\nend\n";

// The line of evidence, the status, and what is printed.
type Refuting = (&'static [u8], u8, &'static [u8]);

// A refutation of one empty clause, and one that names a clause that isn't there.
static REFUTED: [Refuting; 2] = [
    (
        b"same 1 0 R ? ; 1\n",
        0,
        b"valid numbers 3 patterns 0 classes 1 equal 2 open 0\n",
    ),
    (
        b"same 1 0 R ? ; 2\n",
        4,
        b"result: Evidence NoSuchClause at step 0, line 3\n",
    ),
];

fn is_refuted(alloc: Global, case: &Refuting) -> Result<bool, AllocError> {
    let (line, status, console) = *case;
    let result = joined(alloc, &[START, line, END])?;
    is_checked(alloc, 7, b"INPUT(a)\n", &result, status, console)
}

#[test]
fn refutations_that_are_checked(rt: HostRuntime) -> Result<(), Fail> {
    for (at, case) in REFUTED.iter().enumerate() {
        assert!(rt; is_refuted(rt.alloc(), case)?, "case {at}");
    }
    Ok(())
}

// A refused netlist, and a missing result.
static NOT_READ: [Case; 2] = [
    (
        &[("n", b"z=NOT(Z)\n")],
        &["check", "n", "r"],
        3,
        Is(b"netlist: Undriven at byte 6, line 1\n"),
        ("r", Absent),
    ),
    (
        &[("n", b"")],
        &["check", "n", "r"],
        7,
        Is(b""),
        ("r", Absent),
    ),
];

#[test]
fn results_that_are_not_read(rt: HostRuntime) -> Result<(), Fail> {
    all_leave(&rt, rt.alloc(), 7, &NOT_READ)
}
