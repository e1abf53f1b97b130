//! Runs of `grade` and `topup`.

use crate::tests::runs::FileText::{self, Absent, Any, Begins, Is};
use crate::tests::runs::{Case, Left, all_leave, plain};
use crate::tests::texts::{AND, C17};
use std::alloc::{AllocError, Global};
use std::process::Abort;
use std::test::Fail;

const LIST: &[u8] = b"01111\n10010\n10001\n00100\n01011\n10010\n10011\n11111\n";

// The list in reverse.
const REVERSED: &[u8] = b"11111\n10011\n10010\n01011\n00100\n10001\n10010\n01111\n";

// What `grade` makes of the list. Vector 5 is vector 1 again, and vectors 3 and 6 split no class.
const GRADED: &[u8] =
    b"diatest 1 5 2 35\nbudget 0 0 0\npattern 01111\npattern 10010\npattern 10001\npattern 01011\npattern 11111\nsame 7 1 C\nsame 9 5 O ?\nsame 11 5 O ?\nsame 12 0 O ?\nsame 16 1 C\nsame 18 5 O ?\nsame 19 3 C\nsame 20 5 O ?\nsame 21 13 C\nsame 24 3 C\nsame 25 15 C\nsame 26 3 O ?\nsame 28 0 O ?\nsame 29 27 C\nsame 30 13 C\nsame 32 15 C\nsame 34 27 C\nclass 0 - -\nclass 1 0 0\nclass 2 0 0\nclass 3 0 0\nclass 4 0 1\nclass 5 0 1\nclass 6 0 1\nclass 7 1 1\nclass 8 2 1\nclass 9 3 1\nclass 10 0 2\nclass 11 0 3\nclass 12 0 3\nclass 13 5 3\nclass 14 10 3\nclass 15 10 3\nclass 16 0 4\nclass 17 11 4\nmember 0 0 rep\nmember 1 16 rep\nmember 2 1 rep\nmember 3 11 rep\nmember 4 4 rep\nmember 5 2 rep\nmember 6 5 rep\nmember 7 16 equal\nmember 8 13 rep\nmember 9 2 open\nmember 10 12 rep\nmember 11 2 open\nmember 12 0 open\nmember 13 10 rep\nmember 14 6 rep\nmember 15 7 rep\nmember 16 16 equal\nmember 17 14 rep\nmember 18 2 open\nmember 19 11 equal\nmember 20 2 open\nmember 21 10 equal\nmember 22 3 rep\nmember 23 8 rep\nmember 24 11 equal\nmember 25 7 equal\nmember 26 11 open\nmember 27 9 rep\nmember 28 0 open\nmember 29 9 equal\nmember 30 10 equal\nmember 31 17 rep\nmember 32 7 equal\nmember 33 15 rep\nmember 34 9 equal\nend\n";

// What `topup` makes of the vector 11 for the AND: 01 alone distinguishes 2 from 0, and 10 alone 4 from 0.
const TOPPED: &[u8] =
    b"diatest 1 2 1 7\nbudget 0 64 2000\npattern 11\npattern 01\nsame 3 1 C\npattern 10\nsame 5 1 C\nclass 0 - -\nclass 1 0 0\nclass 2 0 1\nclass 3 0 2\nclass 4 2 2\nmember 0 0 rep\nmember 1 1 rep\nmember 2 2 rep\nmember 3 1 equal\nmember 4 3 rep\nmember 5 1 equal\nmember 6 4 rep\nend\n";

const GRADE: &[&str] = &["grade", "n", "v", "r"];

const TOPUP: &[&str] = &["topup", "n", "v", "r"];

const ALONE: &[&str] = &["topup", "n", "v", "r", "--cubes", "0", "--conflicts", "0"];

const EIGHTEEN: FileText = Is(b"numbers 35 patterns 5 classes 18 equal 10 open 7 kept 5 of 8\n");

const CONSTANT: &[u8] = b"OUTPUT(z)\nz=CONST1()\n";

const NO_POSITION: &[u8] = b"INPUT(a)\n";

static MADE: [Case; 10] = [
    (
        &[("n", C17), ("v", LIST)],
        GRADE,
        0,
        EIGHTEEN,
        ("r", Is(GRADED)),
    ),
    (
        &[("n", C17), ("v", LIST)],
        ALONE,
        0,
        EIGHTEEN,
        ("r", Is(GRADED)),
    ),
    (
        &[("n", C17), ("r", LIST)],
        &["grade", "n", "r", "r"],
        0,
        EIGHTEEN,
        ("r", Is(GRADED)),
    ),
    (
        &[("n", C17), ("v", REVERSED)],
        GRADE,
        0,
        Is(b"numbers 35 patterns 7 classes 18 equal 10 open 7 kept 7 of 8\n"),
        (
            "r",
            Begins(
                b"diatest 1 5 2 35\nbudget 0 0 0\npattern 11111\npattern 10011\npattern 10010\npattern 01011\npattern 00100\npattern 10001\npattern 01111\nsame ",
            ),
        ),
    ),
    (
        &[("n", AND), ("v", b"11\n")],
        TOPUP,
        0,
        Is(b"numbers 7 patterns 3 classes 5 equal 2 open 0 kept 1 of 1\n"),
        ("r", Is(TOPPED)),
    ),
    (
        &[("n", C17), ("v", b"")],
        GRADE,
        0,
        Is(b"numbers 35 patterns 0 classes 1 equal 0 open 34 kept 0 of 0\n"),
        (
            "r",
            Begins(b"diatest 1 5 2 35\nbudget 0 0 0\nsame 1 0 O ?\n"),
        ),
    ),
    (
        &[("n", CONSTANT), ("v", b"-\n-\n")],
        GRADE,
        0,
        Is(b"numbers 3 patterns 1 classes 2 equal 0 open 1 kept 1 of 2\n"),
        (
            "r",
            Begins(b"diatest 1 0 1 3\nbudget 0 0 0\npattern -\nsame 2 0 O ?\n"),
        ),
    ),
    (
        &[("n", CONSTANT), ("v", b"-\n-\n")],
        TOPUP,
        0,
        Is(b"numbers 3 patterns 1 classes 2 equal 1 open 0 kept 1 of 2\n"),
        (
            "r",
            Begins(b"diatest 1 0 1 3\nbudget 0 64 2000\npattern -\nsame 2 0 T .\n"),
        ),
    ),
    (
        &[("n", NO_POSITION), ("v", b"0\n1\n")],
        GRADE,
        0,
        Is(b"numbers 3 patterns 0 classes 1 equal 0 open 2 kept 0 of 2\n"),
        (
            "r",
            Begins(b"diatest 1 1 0 3\nbudget 0 0 0\nsame 1 0 O ?\nsame 2 0 O ?\n"),
        ),
    ),
    (
        &[("n", b""), ("v", b"")],
        TOPUP,
        0,
        Is(b"numbers 1 patterns 0 classes 1 equal 0 open 0 kept 0 of 0\n"),
        (
            "r",
            Is(b"diatest 1 0 0 1\nbudget 0 64 2000\nclass 0 - -\nmember 0 0 rep\nend\n"),
        ),
    ),
];

#[test]
fn results_from_lists(rt: HostRuntime) -> Result<(), Fail> {
    all_leave(&rt, rt.alloc(), 7, &MADE)
}

const WIDTH: FileText = Is(b"vectors: Width at line 2\n");

const SYNTAX: FileText = Is(b"vectors: Syntax at line 1\n");

const SECOND: FileText = Is(b"vectors: Syntax at line 2\n");

static NOT_MADE: [Case; 10] = [
    (
        &[("n", C17), ("v", b"00000\n1111\n")],
        GRADE,
        6,
        WIDTH,
        ("r", Absent),
    ),
    (
        &[("n", C17), ("v", b"01111\n011110\n")],
        TOPUP,
        6,
        WIDTH,
        ("r", Absent),
    ),
    (
        &[("n", C17), ("v", b"00000\n1111")],
        GRADE,
        6,
        SECOND,
        ("r", Absent),
    ),
    (
        &[("n", C17), ("v", b"01x11\n")],
        GRADE,
        6,
        SYNTAX,
        ("r", Absent),
    ),
    (
        &[("n", C17), ("v", b"01111\r\n")],
        TOPUP,
        6,
        SYNTAX,
        ("r", Absent),
    ),
    (
        &[("n", C17), ("v", b"01111\n\n")],
        GRADE,
        6,
        SECOND,
        ("r", Absent),
    ),
    (
        &[("n", b"z=NOT(z)\n")],
        GRADE,
        3,
        Is(b"netlist: Loop at byte 0, line 1: z\n"),
        ("r", Absent),
    ),
    (&[("n", C17)], GRADE, 7, Is(b""), ("r", Absent)),
    (&[("v", LIST)], TOPUP, 7, Is(b""), ("r", Absent)),
    (
        &[("n", C17), ("v", b"1\n"), ("r", b"old")],
        TOPUP,
        6,
        Any,
        ("r", Is(b"old")),
    ),
];

// Refused lists and netlists, and missing files: no result is made.
#[test]
fn results_that_are_not_made(rt: HostRuntime) -> Result<(), Fail> {
    all_leave(&rt, rt.alloc(), 7, &NOT_MADE)
}

// Checks that a result from this list for c17 is accepted and begins with these kept patterns, and that its run printed
// this.
fn tops_up(
    rt: &impl Abort,
    alloc: Global,
    list: &[u8],
    console: FileText,
    patterns: FileText,
) -> Result<(), Fail> {
    let left: Left = plain(alloc, &[("n", C17), ("v", list)], TOPUP)?;
    assert!(rt; left.ended(0, console));
    assert!(rt; left.holds("r", patterns));
    assert!(rt; is_accepted_as_topped(alloc, &left)?);
    Ok(())
}

// Whether `check` accepts the result, as one of 35 numbers.
fn is_accepted_as_topped(alloc: Global, left: &Left) -> Result<bool, Fail> {
    let file = left.copy_of(alloc, "r")?;
    let files = [("n", C17), ("r", file.as_slice())];
    let again = plain(alloc, &files, &["check", "n", "r"])?;
    Ok(again.ended(0, Begins(b"valid numbers 35 patterns ")))
}

const KEPT: FileText = Begins(
    b"diatest 1 5 2 35\nbudget 0 64 2000\npattern 01111\npattern 10010\npattern 10001\npattern 01011\npattern 11111\n",
);

#[test]
fn topped_up_results_are_whole(rt: HostRuntime) -> Result<(), Fail> {
    let five = FileText::Ends(b" classes 23 equal 12 open 0 kept 5 of 8\n");
    tops_up(&rt, rt.alloc(), LIST, five, KEPT)?;
    let none = FileText::Ends(b" classes 23 equal 12 open 0 kept 0 of 0\n");
    tops_up(&rt, rt.alloc(), b"", none, Any)
}

// Returns a list of the first vector `count` times, and then the four others that are kept.
fn long_list(alloc: Global, count: usize) -> Result<Vec<u8>, AllocError> {
    let mut list = Vec::new(alloc);
    for _number in 0..count {
        list.extend_from_slice(b"01111\n")?;
    }
    list.extend_from_slice(b"10010\n10001\n01011\n11111\n")?;
    Ok(list)
}

static COUNTS: [usize; 5] = [1, 254, 255, 256, 257];

// The same vectors are kept wherever blocks of vectors end.
#[test]
fn lists_longer_than_a_block(rt: HostRuntime) -> Result<(), Fail> {
    for count in COUNTS {
        let list = long_list(rt.alloc(), count)?;
        let left = plain(rt.alloc(), &[("n", C17), ("v", list.as_slice())], GRADE)?;
        assert!(rt; left.holds("r", Is(GRADED)), "{count} times");
    }
    Ok(())
}

// What is kept of an empty list is what `gen` keeps of no block.
#[test]
fn nothing_to_grade_is_no_block(rt: HostRuntime) -> Result<(), Fail> {
    let graded = plain(rt.alloc(), &[("n", C17), ("v", b"")], GRADE)?;
    let words = [
        "gen",
        "n",
        "r",
        "--blocks",
        "0",
        "--cubes",
        "0",
        "--conflicts",
        "0",
    ];
    let made = plain(rt.alloc(), &[("n", C17)], &words)?;
    assert!(rt; graded.holds_same(&made, "r"));
    Ok(())
}
