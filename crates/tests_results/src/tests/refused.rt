//! Results that are refused, by which rule and at which line.

use crate::tests::outcome::is_answered;
use crate::tests::texts::{
    AND_CLASSES, AND_EVIDENCE, AND_HEAD, AND_MEMBERS, LONE, LONE_END, LONE_HEAD, NOT_CLASSES,
    NOT_EVIDENCE, NOT_HEAD, NOT_MEMBERS, OPEN_EVIDENCE, OPEN_HEAD, OPEN_MEMBERS,
};
use dia_check::{FileFault, check};
use diag_shelf::{MemoryShelf, Shelf};
use evidence_rules::{Refusal, RefusalKind};
use net_model::Circuit;
use result_file::{ResultFault, ResultKind};
use sample_circuits::{AND_OF_TWO, CircuitParts, NOT_AND_OR, circuit};
use std::alloc::Global;
use std::test::Fail;

const HEAD: &str = "diatest 1 2 1 7\nbudget 0 0 0\n";

const BEFORE: &str = "same 1 0 T 0 . .\nsame 2 0 T 0 . .\nsame 3 0 T 0 . .\nsame 6 0 T 0 . .\n";

const REST: &str = "same 2 0 T 0 . .\nsame 3 0 T 0 . .\nsame 6 0 T 0 . .\nsame 7 4 C\n";

// A text in parts, the rule that it breaks, and the line.
type Case = (&'static [&'static str], ResultKind, u64);

fn is_refused(alloc: Global, circuit: &Circuit, case: &Case) -> Result<bool, Fail> {
    let (parts, kind, line) = *case;
    let fault = FileFault::Result(ResultFault { kind, line });
    is_answered(alloc, circuit, parts, Err(fault))
}

// Returns the first text for the circuit that isn't refused as its case says.
fn first_wrong(alloc: Global, circuit: &Circuit, cases: &[Case]) -> Result<Option<usize>, Fail> {
    for (at, case) in cases.iter().enumerate() {
        if !is_refused(alloc, circuit, case)? {
            return Ok(Some(at));
        }
    }
    Ok(None)
}

fn wrong_in(alloc: Global, parts: CircuitParts, cases: &[Case]) -> Result<Option<usize>, Fail> {
    let circuit = circuit(alloc, parts)?;
    first_wrong(alloc, &circuit, cases)
}

const FORGED_LINES: &[Case] = &[
    (
        &[NOT_HEAD, "same 1 0 T .\n", REST],
        ResultKind::Evidence(Refusal {
            kind: RefusalKind::LeafOpen,
            step: 0,
        }),
        5,
    ),
    (
        &[NOT_HEAD, "same 1 0 T 0 . ?\n", REST],
        ResultKind::Evidence(Refusal {
            kind: RefusalKind::WrongCount,
            step: 3,
        }),
        5,
    ),
    (
        &[NOT_HEAD, BEFORE, "same 8 0 T 0 . .\n"],
        ResultKind::Member,
        9,
    ),
    (
        &[NOT_HEAD, BEFORE, "same 7 4 T 0 . .\n"],
        ResultKind::Roots,
        9,
    ),
    (
        &[
            NOT_HEAD,
            "pattern 1\n",
            NOT_EVIDENCE,
            NOT_CLASSES,
            NOT_MEMBERS,
        ],
        ResultKind::Pattern,
        5,
    ),
    (
        &[
            NOT_HEAD,
            NOT_EVIDENCE,
            NOT_CLASSES,
            "member 0 0 rep\nmember 1 0 open\n",
        ],
        ResultKind::Table,
        17,
    ),
    (
        &[OPEN_HEAD, OPEN_EVIDENCE, NOT_CLASSES, NOT_MEMBERS],
        ResultKind::Table,
        17,
    ),
    (
        &[NOT_HEAD, NOT_EVIDENCE, NOT_CLASSES],
        ResultKind::Order,
        16,
    ),
    (
        &[OPEN_HEAD, "same 1 0 O ? ; 1 1\n"],
        ResultKind::Evidence(Refusal {
            kind: RefusalKind::WrongCount,
            step: 1,
        }),
        5,
    ),
];

#[test]
fn forged_lines(rt: HostRuntime) -> Result<(), Fail> {
    assert_eq!(rt; wrong_in(rt.alloc(), NOT_AND_OR, FORGED_LINES)?, None);
    Ok(())
}

const FORGED_LOGS: &[Case] = &[
    (
        &[LONE_HEAD, "same 1 0 R ? ; 1 1 1\n"],
        ResultKind::Evidence(Refusal {
            kind: RefusalKind::NoPivot,
            step: 0,
        }),
        3,
    ),
    (
        &[LONE_HEAD, "same 1 0 R ? ; 1 ; 1\n"],
        ResultKind::Evidence(Refusal {
            kind: RefusalKind::EmptyEarly,
            step: 0,
        }),
        3,
    ),
    (
        &[LONE_HEAD, "same 1 0 R . ; 1\n"],
        ResultKind::Evidence(Refusal {
            kind: RefusalKind::WrongCount,
            step: 1,
        }),
        3,
    ),
    (
        &[LONE_HEAD, "same 1 0 R ? ; 2\n", LONE_END],
        ResultKind::Evidence(Refusal {
            kind: RefusalKind::NoSuchClause,
            step: 0,
        }),
        3,
    ),
];

#[test]
fn forged_logs(rt: HostRuntime) -> Result<(), Fail> {
    assert_eq!(rt; wrong_in(rt.alloc(), LONE, FORGED_LOGS)?, None);
    Ok(())
}

const MISPLACED_LINES: &[Case] = &[
    (&[], ResultKind::Order, 1),
    (&["diatest 1 2 1 7"], ResultKind::Syntax, 1),
    (&["diatest 1 2 1 7\n"], ResultKind::Order, 2),
    (&["diatest 1 2 1 8\nbudget 0 0 0\n"], ResultKind::Head, 1),
    (
        &["diatest 1 2 1 7\nbudget 0 1048577 0\n"],
        ResultKind::Head,
        2,
    ),
    (&["budget 0 0 0\n"], ResultKind::Order, 1),
    (&[HEAD, "budget 0 0 0\n"], ResultKind::Order, 3),
    (&[HEAD, "pattern 011\n"], ResultKind::Pattern, 3),
    (&[HEAD, "pattern 01\r\n"], ResultKind::Syntax, 3),
    (
        &[HEAD, "pattern 11\npattern 11\nx\n"],
        ResultKind::Pattern,
        4,
    ),
    (
        &[HEAD, "pattern 11\nx\npattern 11\n"],
        ResultKind::Syntax,
        4,
    ),
    (&[HEAD, "pattern 11\npattern 1\n"], ResultKind::Pattern, 4),
    (
        &[HEAD, "pattern 11\npattern 01\npattern 10\npattern 00\n"],
        ResultKind::Pattern,
        6,
    ),
    (
        &[HEAD, "same 1 0 O ?\npattern 11\nsame 1 0 O ?\n"],
        ResultKind::Member,
        5,
    ),
    (&[HEAD, "class 0 - -\n"], ResultKind::Table, 3),
    (&[HEAD, "member 0 0 rep\n"], ResultKind::Order, 3),
    (
        &[AND_HEAD, AND_EVIDENCE, AND_CLASSES, "pattern 00\n"],
        ResultKind::Order,
        14,
    ),
    (
        &[AND_HEAD, AND_EVIDENCE, AND_CLASSES, AND_MEMBERS, "end\n"],
        ResultKind::Order,
        22,
    ),
];

#[test]
fn misplaced_lines(rt: HostRuntime) -> Result<(), Fail> {
    assert_eq!(rt; wrong_in(rt.alloc(), AND_OF_TWO, MISPLACED_LINES)?, None);
    Ok(())
}

const REPEATED_LINES: &[Case] = &[
    (
        &[AND_HEAD, AND_EVIDENCE, "class 0 - -\nclass 0 - -\n"],
        ResultKind::Table,
        10,
    ),
    (
        &[AND_HEAD, AND_EVIDENCE, "class 1 0 0\n"],
        ResultKind::Table,
        9,
    ),
    (
        &[AND_HEAD, AND_EVIDENCE, AND_CLASSES, "class 5 0 0\n"],
        ResultKind::Table,
        14,
    ),
    (
        &[
            AND_HEAD,
            AND_EVIDENCE,
            AND_CLASSES,
            "member 0 0 rep\n",
            "member 0 0 rep\n",
        ],
        ResultKind::Table,
        15,
    ),
    (
        &[AND_HEAD, AND_EVIDENCE, AND_CLASSES, "member 00 0 rep\n"],
        ResultKind::Syntax,
        14,
    ),
    (
        &[AND_HEAD, "same 3 1 C\nclass 0 - -\n"],
        ResultKind::Table,
        8,
    ),
];

#[test]
fn repeated_lines(rt: HostRuntime) -> Result<(), Fail> {
    assert_eq!(rt; wrong_in(rt.alloc(), AND_OF_TWO, REPEATED_LINES)?, None);
    Ok(())
}

// Returns whether the check fails at the third read, each of four bytes, though the first line is no record.
fn fails(alloc: Global, circuit: &Circuit, shelf: &mut MemoryShelf) -> Result<bool, Fail> {
    shelf.put_file("r", b"x\ndiatest 1 2 1 7\n")?;
    shelf.open_file("r")?;
    Ok(matches!(check(alloc, circuit, shelf), Err(FileFault::Failed)))
}

fn fails_at_third(alloc: Global, circuit: &Circuit) -> Result<bool, Fail> {
    let failing = [3].to_vec(alloc)?;
    let mut shelf = MemoryShelf::new(alloc, 4, failing);
    fails(alloc, circuit, &mut shelf)
}

fn a_read_fails(alloc: Global) -> Result<bool, Fail> {
    let circuit = circuit(alloc, AND_OF_TWO)?;
    fails_at_third(alloc, &circuit)
}

#[test]
fn a_failed_read_comes_before_a_refusal(rt: HostRuntime) -> Result<(), Fail> {
    assert!(rt; a_read_fails(rt.alloc())?);
    Ok(())
}
