//! Results that are valid.

use crate::tests::outcome::is_answered;
use crate::tests::texts::{
    AND_CLASSES, AND_EVIDENCE, AND_HEAD, AND_MEMBERS, LONE, LONE_END, LONE_EVIDENCE, LONE_HEAD,
    NOT_CLASSES, NOT_EVIDENCE, NOT_HEAD, NOT_MEMBERS, OPEN_EVIDENCE, OPEN_HEAD, OPEN_MEMBERS,
};
use net_model::Circuit;
use result_file::Summary;
use sample_circuits::{AND_OF_TWO, CircuitParts, NOT_AND_OR, circuit};
use std::alloc::Global;
use std::test::Fail;

// A text in parts, and how many patterns, classes, and members marked equal and open it has.
type Case = (&'static [&'static str], [u32; 4]);

fn is_accepted(alloc: Global, circuit: &Circuit, numbers: u32, case: &Case) -> Result<bool, Fail> {
    let (parts, [patterns, classes, equal, spent]) = *case;
    let summary = Summary {
        numbers,
        patterns,
        classes,
        equal,
        spent,
    };
    is_answered(alloc, circuit, parts, Ok(summary))
}

// Returns the first text for a circuit with `numbers` numbers that isn't accepted as its case says.
fn first_wrong(
    alloc: Global,
    circuit: &Circuit,
    numbers: u32,
    cases: &[Case],
) -> Result<Option<usize>, Fail> {
    for (at, case) in cases.iter().enumerate() {
        if !is_accepted(alloc, circuit, numbers, case)? {
            return Ok(Some(at));
        }
    }
    Ok(None)
}

fn wrong_in(
    alloc: Global,
    parts: CircuitParts,
    numbers: u32,
    cases: &[Case],
) -> Result<Option<usize>, Fail> {
    let circuit = circuit(alloc, parts)?;
    first_wrong(alloc, &circuit, numbers, cases)
}

const A_GATE: &[Case] = &[
    (
        &[AND_HEAD, AND_EVIDENCE, AND_CLASSES, AND_MEMBERS],
        [4, 5, 2, 0],
    ),
    // at a cut the mark of a new representative falls, and no other
    (
        &[
            "diatest 1 2 1 7\nbudget 0 0 0\nsame 1 0 O ?\nsame 2 0 O ?\npattern 11\n",
            "same 3 1 C\nsame 4 0 O ?\nsame 5 1 C\nsame 6 0 O ?\nclass 0 - -\nclass 1 0 0\n",
            "member 0 0 rep\nmember 1 1 rep\nmember 2 0 open\nmember 3 1 equal\n",
            "member 4 0 open\nmember 5 1 equal\nmember 6 0 open\nend\n",
        ],
        [1, 2, 2, 3],
    ),
    // patterns that aren't those of the stream
    (
        &[
            "diatest 1 2 1 7\nbudget 65536 1048576 100000\npattern 11\npattern 01\npattern 10\n",
            AND_EVIDENCE,
            "class 0 - -\nclass 1 0 0\nclass 2 0 1\nclass 3 0 2\nclass 4 2 2\n",
            "member 0 0 rep\nmember 1 1 rep\nmember 2 2 rep\nmember 3 1 equal\nmember 4 3 rep\nmember 5 1 equal\nmember 6 4 rep\nend\n",
        ],
        [3, 5, 2, 0],
    ),
    (
        &[
            "diatest 1 2 1 7\nbudget 0 0 0\nsame 1 0 O ?\nsame 2 0 O ?\nsame 3 0 O ?\nsame 4 0 O ?\nsame 5 0 O ?\nsame 6 0 O ?\nclass 0 - -\n",
            "member 0 0 rep\nmember 1 0 open\nmember 2 0 open\nmember 3 0 open\n",
            "member 4 0 open\nmember 5 0 open\nmember 6 0 open\nend\n",
        ],
        [0, 1, 0, 6],
    ),
];

#[test]
fn results_of_a_gate(rt: HostRuntime) -> Result<(), Fail> {
    assert_eq!(rt; wrong_in(rt.alloc(), AND_OF_TWO, 7, A_GATE)?, None);
    Ok(())
}

const TWO_GATES: &[Case] = &[
    (
        &[NOT_HEAD, NOT_EVIDENCE, NOT_CLASSES, NOT_MEMBERS],
        [2, 4, 7, 0],
    ),
    (
        &[OPEN_HEAD, OPEN_EVIDENCE, NOT_CLASSES, OPEN_MEMBERS],
        [2, 4, 1, 6],
    ),
];

#[test]
fn results_of_two_gates(rt: HostRuntime) -> Result<(), Fail> {
    assert_eq!(rt; wrong_in(rt.alloc(), NOT_AND_OR, 11, TWO_GATES)?, None);
    Ok(())
}

const A_LONE_SOURCE: &[Case] = &[
    (&[LONE_HEAD, LONE_EVIDENCE, LONE_END], [0, 1, 2, 0]),
    (
        &["diatest 1 1 0 3\nbudget 4 0 0\n", LONE_EVIDENCE, LONE_END],
        [0, 1, 2, 0],
    ),
];

#[test]
fn results_of_a_lone_source(rt: HostRuntime) -> Result<(), Fail> {
    assert_eq!(rt; wrong_in(rt.alloc(), LONE, 3, A_LONE_SOURCE)?, None);
    Ok(())
}
