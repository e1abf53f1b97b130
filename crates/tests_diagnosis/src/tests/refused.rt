//! Logs that are refused, and the shortest that are read.

use diagnose::{LogFault, LogKind, read_log};
use std::alloc::Global;
use std::test::Fail;
use table_dicts::{AnswerTable, Dict, full};

// A log, and the rule that it breaks and the line, or none if it is read.
type Case = (&'static str, Option<(LogKind, u64)>);

// Returns whether the log is read, or breaks the rule in the line.
fn is_answered(alloc: Global, dict: &Dict, case: &Case) -> bool {
    match read_log(alloc, dict, case.0.as_bytes()) {
        Ok(_observed) => case.1 == None,
        Err(LogFault::At(kind, line)) => case.1 == Some((kind, line)),
        Err(LogFault::NoMemory) => false,
    }
}

// Returns the first log for which this isn't so.
fn first_wrong(alloc: Global, dict: &Dict, cases: &[Case]) -> Option<usize> {
    for (at, case) in cases.iter().enumerate() {
        if !is_answered(alloc, dict, case) {
            return Some(at);
        }
    }
    None
}

// Returns the full dictionary of one number, which answers 0 at all patterns and positions.
fn dict_of(alloc: Global, patterns: u32, positions: u32) -> Result<Dict, Fail> {
    let table = AnswerTable::zeros(alloc, patterns, 1, positions)?;
    Ok(full(alloc, &table)?)
}

fn wrong_of(
    alloc: Global,
    patterns: u32,
    positions: u32,
    cases: &[Case],
) -> Result<Option<usize>, Fail> {
    let dict = dict_of(alloc, patterns, positions)?;
    Ok(first_wrong(alloc, &dict, cases))
}

const LOGS: &[Case] = &[
    ("", Some((LogKind::Missing, 1))),
    ("0 0\n1 0\n2 0\n", Some((LogKind::Missing, 4))),
    ("1 0\n", Some((LogKind::Order, 1))),
    ("1 00\n", Some((LogKind::Order, 1))),
    ("0 0\n0 0\n", Some((LogKind::Order, 2))),
    ("4294967295 0\n", Some((LogKind::Order, 1))),
    ("0 0\n1 0\n2 0\n3 0\n4 0\n", Some((LogKind::Order, 5))),
    ("0 0\n1 0\n2 0\n3 0\n0 -\n", Some((LogKind::Order, 5))),
    ("0 0\n1 0\n2 0\n3 0\n4 2\n", Some((LogKind::Syntax, 5))),
    ("0 0\n1 0\n2 0\n3 0\n\n", Some((LogKind::Syntax, 5))),
    ("0 0\n1 0\n2 0\n3 0", Some((LogKind::Syntax, 4))),
    ("0 00\n1 0\n2 0\n3 0\n", Some((LogKind::Width, 1))),
    ("0 -\n1 0\n2 0\n3 0\n", Some((LogKind::Width, 1))),
    ("0 0\n1 01\n2 x\n", Some((LogKind::Width, 2))),
    ("0 2\n", Some((LogKind::Syntax, 1))),
    ("0 --\n", Some((LogKind::Syntax, 1))),
    ("0 0-\n", Some((LogKind::Syntax, 1))),
    ("+0 0\n", Some((LogKind::Syntax, 1))),
    ("-0 0\n", Some((LogKind::Syntax, 1))),
    ("00 0\n", Some((LogKind::Syntax, 1))),
    ("0 0\n01 0\n", Some((LogKind::Syntax, 2))),
    ("4294967296 0\n", Some((LogKind::Syntax, 1))),
    ("x 0\n", Some((LogKind::Syntax, 1))),
    (" 0 0\n", Some((LogKind::Syntax, 1))),
    ("0  0\n", Some((LogKind::Syntax, 1))),
    ("0 0 \n", Some((LogKind::Syntax, 1))),
    ("0\t0\n", Some((LogKind::Syntax, 1))),
    ("0 0\r\n", Some((LogKind::Syntax, 1))),
    ("0\n", Some((LogKind::Syntax, 1))),
    ("0 \n", Some((LogKind::Syntax, 1))),
    ("\n", Some((LogKind::Syntax, 1))),
    ("0 0\n1 0\n2 0\n3 0\n", None),
];

#[test]
fn logs_of_four_patterns(rt: HostRuntime) -> Result<(), Fail> {
    assert_eq!(rt; wrong_of(rt.alloc(), 4, 1, LOGS)?, None);
    Ok(())
}

const NO_POSITIONS: &[Case] = &[
    ("0 -\n1 -\n", None),
    ("0 \n1 -\n", Some((LogKind::Syntax, 1))),
    ("0 -\n1 0\n", Some((LogKind::Width, 2))),
    ("0 -\n1 -", Some((LogKind::Syntax, 2))),
];

const NO_PATTERNS: &[Case] = &[
    ("", None),
    ("0 0\n", Some((LogKind::Order, 1))),
    ("\n", Some((LogKind::Syntax, 1))),
];

#[test]
fn logs_without_bits(rt: HostRuntime) -> Result<(), Fail> {
    assert_eq!(rt; wrong_of(rt.alloc(), 2, 0, NO_POSITIONS)?, None);
    assert_eq!(rt; wrong_of(rt.alloc(), 0, 1, NO_PATTERNS)?, None);
    Ok(())
}
