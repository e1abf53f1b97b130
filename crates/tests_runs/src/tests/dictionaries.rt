//! Runs of `dict`, `convert` and `diagnose`.

use crate::tests::runs::FileText::{self, Absent, Any, Is};
use crate::tests::runs::{Case, File, all_leave, plain};
use crate::tests::texts::{
    AND, AND_RESULT, AND_TWICE, AND_TWICE_CHOSEN, AND_TWICE_RESULT, FULL_ONE, FULL_TWO, LOG, ONE,
    SAME_DIFF, TWICE, TWICE_RESULT, TWO,
};
use std::alloc::{AllocError, Global};
use std::test::Fail;

const OF_AND: &[File] = &[("n", AND), ("r", AND_RESULT)];

const OF_TWICE: &[File] = &[("n", TWICE), ("r", TWICE_RESULT)];

const OF_AND_TWICE: &[File] = &[("n", AND_TWICE), ("r", AND_TWICE_RESULT)];

const TEN_PAIRS: FileText = Is(b"numbers 7 patterns 4 classes 5 apart 10\n");

const FIFTEEN: FileText = Is(b"numbers 7 patterns 2 classes 7 apart 15\n");

const TWENTY_ONE: FileText = Is(b"numbers 7 patterns 2 classes 7 apart 21\n");

const THIRTY: FileText = Is(b"numbers 11 patterns 4 classes 9 apart 30\n");

const THIRTY_TWO: FileText = Is(b"numbers 11 patterns 4 classes 9 apart 32\n");

const PASS_FAIL: &[&str] = &["dict", "passfail", "n", "r", "d"];

const FULL: &[&str] = &["dict", "full", "n", "r", "d"];

const SAME_DIFFERENT: &[&str] = &["dict", "samediff", "n", "r", "d"];

static MADE: [Case; 8] = [
    (OF_AND, PASS_FAIL, 0, TEN_PAIRS, ("d", Is(TWO))),
    (OF_AND, FULL, 0, TEN_PAIRS, ("d", Is(FULL_TWO))),
    (OF_AND, SAME_DIFFERENT, 0, TEN_PAIRS, ("d", Is(SAME_DIFF))),
    (OF_TWICE, PASS_FAIL, 0, FIFTEEN, ("d", Any)),
    (OF_TWICE, FULL, 0, TWENTY_ONE, ("d", Any)),
    (OF_TWICE, SAME_DIFFERENT, 0, FIFTEEN, ("d", Any)),
    (OF_AND_TWICE, PASS_FAIL, 0, THIRTY, ("d", Any)),
    (
        OF_AND_TWICE,
        SAME_DIFFERENT,
        0,
        THIRTY_TWO,
        ("d", Is(AND_TWICE_CHOSEN)),
    ),
];

#[test]
fn dictionaries_that_are_made(rt: HostRuntime) -> Result<(), Fail> {
    all_leave(&rt, rt.alloc(), 7, &MADE)
}

const UNDRIVEN: FileText = Is(b"netlist: Undriven at byte 6, line 1\n");

const SYNTAX: FileText = Is(b"result: Syntax at line 1\n");

static NOT_MADE: [Case; 4] = [
    (
        &[("n", b"z=NOT(Z)\n"), ("r", b"")],
        FULL,
        3,
        UNDRIVEN,
        ("d", Absent),
    ),
    (&[("n", AND), ("r", b"x\n")], FULL, 4, SYNTAX, ("d", Absent)),
    (&[("n", AND)], FULL, 7, Is(b""), ("d", Absent)),
    (&[("r", AND_RESULT)], FULL, 7, Is(b""), ("d", Absent)),
];

// A refused netlist, a refused result, and missing files: no dictionary is made.
#[test]
fn dictionaries_that_are_not_made(rt: HostRuntime) -> Result<(), Fail> {
    all_leave(&rt, rt.alloc(), 7, &NOT_MADE)
}

const COUNTS: FileText = Is(b"numbers 7 patterns 4 groups 5\n");

const TO_ANOTHER: &[&str] = &["convert", "o", "d"];

const TO_ITSELF: &[&str] = &["convert", "o", "o"];

static CONVERTED: [Case; 10] = [
    (&[("o", ONE)], TO_ANOTHER, 0, COUNTS, ("d", Is(TWO))),
    (&[("o", ONE)], TO_ITSELF, 0, COUNTS, ("o", Is(TWO))),
    (&[("o", TWO)], TO_ANOTHER, 0, COUNTS, ("d", Is(TWO))),
    (&[("o", TWO)], TO_ITSELF, 0, COUNTS, ("o", Is(TWO))),
    (
        &[("o", FULL_ONE)],
        TO_ANOTHER,
        0,
        COUNTS,
        ("d", Is(FULL_TWO)),
    ),
    (
        &[("o", FULL_ONE)],
        TO_ITSELF,
        0,
        COUNTS,
        ("o", Is(FULL_TWO)),
    ),
    (
        &[("o", FULL_TWO)],
        TO_ANOTHER,
        0,
        COUNTS,
        ("d", Is(FULL_TWO)),
    ),
    (
        &[("o", FULL_TWO)],
        TO_ITSELF,
        0,
        COUNTS,
        ("o", Is(FULL_TWO)),
    ),
    (
        &[("o", SAME_DIFF)],
        TO_ANOTHER,
        0,
        COUNTS,
        ("d", Is(SAME_DIFF)),
    ),
    (
        &[("o", SAME_DIFF)],
        TO_ITSELF,
        0,
        COUNTS,
        ("o", Is(SAME_DIFF)),
    ),
];

// Both versions become version 2, under another name and under their own.
#[test]
fn dictionaries_that_are_converted(rt: HostRuntime) -> Result<(), Fail> {
    all_leave(&rt, rt.alloc(), 7, &CONVERTED)
}

// Returns the first `length` bytes of a dictionary, with one of them changed, and the bytes `more` after them.
fn changed(
    alloc: Global,
    dict: &[u8],
    length: usize,
    change: Option<(usize, u8)>,
    more: &[u8],
) -> Result<Vec<u8>, AllocError> {
    let mut bytes = dict[..length.min(dict.len())].to_vec(alloc)?;
    if let Some((at, byte)) = change {
        if at < bytes.len() {
            bytes[at] = byte;
        }
    }
    bytes.extend_from_slice(more)?;
    Ok(bytes)
}

// A dictionary, how many of its bytes are taken, a byte that is changed, what comes after them, and what is said of it.
type Changing = (
    &'static [u8],
    usize,
    Option<(usize, u8)>,
    &'static [u8],
    &'static str,
);

static CHANGED: [Changing; 11] = [
    (ONE, 10, None, b"", "Short at byte 10"),
    (ONE, 30, None, b"x", "Trailing at byte 30"),
    (ONE, 30, Some((29, 0xe1)), b"", "Value at byte 29"),
    (ONE, 30, Some((0, b'd')), b"", "Magic at byte 0"),
    (ONE, 30, Some((5, 3)), b"", "Version at byte 4"),
    (ONE, 30, Some((6, 4)), b"", "Kind at byte 6"),
    (ONE, 0, None, b"", "Short at byte 0"),
    (TWO, 60, Some((59, 0x40)), b"", "Value at byte 59"),
    (TWO, 60, Some((34, 2)), b"", "Value at byte 31"),
    (TWO, 57, None, b"", "Short at byte 57"),
    (TWO, 60, None, b"x", "Trailing at byte 60"),
];

fn refuses(alloc: Global, command: &str, dict: &[u8], console: &[u8]) -> Result<bool, AllocError> {
    let left = plain(alloc, &[("o", dict)], &[command, "o", "d"])?;
    Ok(left.ended(5, Is(console)) && left.holds("d", Absent))
}

/// Whether `convert`, `diagnose` and `rank` refuse a dictionary, with this said of it.
pub(crate) fn is_refused(alloc: Global, dict: &[u8], said: &str) -> Result<bool, AllocError> {
    let console = format!(in alloc; "dictionary: {said}\n")?;
    let console = console.as_bytes();
    Ok(
        refuses(alloc, "convert", dict, console)?
            && refuses(alloc, "diagnose", dict, console)?
            && refuses(alloc, "rank", dict, console)?,
    )
}

// A dictionary that is cut, changed at a byte, or followed by more is refused by `convert`, `diagnose` and `rank`,
// whatever the log.
#[test]
fn dictionaries_that_are_refused(rt: HostRuntime) -> Result<(), Fail> {
    for (at, (dict, length, change, more, said)) in CHANGED.iter().enumerate() {
        let dict = changed(rt.alloc(), *dict, *length, *change, *more)?;
        assert!(rt; is_refused(rt.alloc(), &dict, *said)?, "case {at}");
    }
    Ok(())
}

// A log, the status, and what is printed.
type Diagnosing = (&'static [u8], u8, &'static [u8]);

// Logs that are diagnosed, and logs that are refused.
static DIAGNOSED: [Diagnosing; 10] = [
    (LOG, 0, b"1\n3\n5\nlisted 3\n"),
    (b"0 1\n1 1\n2 1\n3 1\n", 0, b"6\nlisted 1\n"),
    (b"0 1\n1 0\n2 0\n3 0\n", 0, b"listed 0\n"),
    (b"1 0\n1 0\n2 0\n3 0\n", 6, b"log: Order at line 1\n"),
    (b"0 00\n1 0\n2 0\n3 0\n", 6, b"log: Width at line 1\n"),
    (b"0 0\n1 0\n2 0\n", 6, b"log: Missing at line 4\n"),
    (b"0 2\n1 0\n2 0\n3 0\n", 6, b"log: Syntax at line 1\n"),
    (b"0 0\n1 0\n2 0\n3 0", 6, b"log: Syntax at line 4\n"),
    (b"0 0\n1 0\n2 0\n3 0\n4 0\n", 6, b"log: Order at line 5\n"),
    (b"", 6, b"log: Missing at line 1\n"),
];

/// Whether each dictionary of the AND diagnoses a log so.
pub(crate) fn is_diagnosed(
    alloc: Global,
    log: &[u8],
    status: u8,
    console: &[u8],
) -> Result<bool, AllocError> {
    for dict in [ONE, TWO, FULL_ONE, FULL_TWO, SAME_DIFF] {
        let left = plain(alloc, &[("d", dict), ("l", log)], &["diagnose", "d", "l"])?;
        if !left.ended(status, Is(console)) {
            return Ok(false);
        }
    }
    Ok(true)
}

#[test]
fn logs_that_are_diagnosed(rt: HostRuntime) -> Result<(), Fail> {
    for (at, (log, status, console)) in DIAGNOSED.iter().enumerate() {
        assert!(rt;
            is_diagnosed(rt.alloc(), *log, *status, *console)?,
            "case {at}"
        );
    }
    Ok(())
}

// A dictionary isn't a log.
static NO_LOG: [Case; 1] = [(
    &[("d", ONE)],
    &["diagnose", "d", "d"],
    6,
    Is(b"log: Syntax at line 1\n"),
    ("d", Any),
)];

#[test]
fn one_name_for_a_dictionary_and_a_log(rt: HostRuntime) -> Result<(), Fail> {
    all_leave(&rt, rt.alloc(), 7, &NO_LOG)
}

// A dictionary may replace the result or the netlist from which it is made.
const OVER_THE_NETLIST: &[&str] = &["dict", "passfail", "n", "r", "n"];

const OVER_THE_RESULT: &[&str] = &["dict", "passfail", "n", "r", "r"];

static REPLACED: [Case; 2] = [
    (OF_AND, OVER_THE_NETLIST, 0, Any, ("n", Is(TWO))),
    (OF_AND, OVER_THE_RESULT, 0, Any, ("r", Is(TWO))),
];

#[test]
fn one_name_for_an_input_and_the_output(rt: HostRuntime) -> Result<(), Fail> {
    all_leave(&rt, rt.alloc(), 7, &REPLACED)
}

// A dictionary without a log: a read fails, and nothing is printed.
static NOT_READ: [Case; 3] = [
    (
        &[("d", TWO)],
        &["diagnose", "d", "l"],
        7,
        Is(b""),
        ("e", Absent),
    ),
    (
        &[("d", TWO)],
        &["diagnose", "l", "d"],
        7,
        Is(b""),
        ("e", Absent),
    ),
    (
        &[("d", TWO)],
        &["convert", "l", "e"],
        7,
        Is(b""),
        ("e", Absent),
    ),
];

#[test]
fn absent_dictionaries_and_logs(rt: HostRuntime) -> Result<(), Fail> {
    all_leave(&rt, rt.alloc(), 7, &NOT_READ)
}
