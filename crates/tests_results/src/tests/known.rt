//! A valid result of a known circuit, c17.

use crate::tests::outcome::is_answered;
use net_model::Kind;
use result_file::Summary;
use sample_circuits::{CircuitParts, circuit};
use std::alloc::Global;
use std::test::Fail;

// The ISCAS-85 circuit c17: the sources 1, 2, 3, 6, 7, the gates 10, 11, 16, 19, 22, 23, and the outputs 22, 23.
const C17: CircuitParts<'static> = CircuitParts {
    sources: 5,
    gates: &[
        (Kind::Nand, &[0, 2]),
        (Kind::Nand, &[2, 3]),
        (Kind::Nand, &[1, 6]),
        (Kind::Nand, &[6, 4]),
        (Kind::Nand, &[5, 7]),
        (Kind::Nand, &[7, 8]),
    ],
    positions: &[9, 10],
};

// A result for it, as the generator writes it.
const RESULT: &[&str] = &[
    "diatest 1 5 2 35\nbudget 4 64 2000\npattern 00000\npattern 10000\npattern 01000\npattern 00100\npattern 10100\n",
    "pattern 01100\npattern 01010\npattern 00110\npattern 01110\npattern 00001\npattern 00111\n",
    "same 7 1 C\nsame 11 9 C\nsame 16 1 C\nsame 18 9 C\nsame 19 3 C\nsame 21 13 C\n",
    "same 24 3 C\nsame 25 15 C\nsame 29 27 C\nsame 30 13 C\nsame 32 15 C\nsame 34 27 C\n",
    "class 0 - -\nclass 1 0 0\nclass 2 0 0\nclass 3 0 0\nclass 4 0 1\nclass 5 0 2\n",
    "class 6 0 2\nclass 7 0 2\nclass 8 0 3\nclass 9 0 4\nclass 10 6 4\nclass 11 0 5\n",
    "class 12 0 6\nclass 13 4 6\nclass 14 1 7\nclass 15 2 7\nclass 16 0 8\nclass 17 9 8\n",
    "class 18 0 9\nclass 19 5 9\nclass 20 7 9\nclass 21 0 10\nclass 22 16 10\n",
    "member 0 0 rep\nmember 1 9 rep\nmember 2 8 rep\nmember 3 5 rep\nmember 4 1 rep\n",
    "member 5 17 rep\nmember 6 4 rep\nmember 7 9 equal\nmember 8 13 rep\nmember 9 16 rep\n",
    "member 10 12 rep\nmember 11 16 equal\nmember 12 11 rep\nmember 13 18 rep\nmember 14 2 rep\n",
    "member 15 3 rep\nmember 16 9 equal\nmember 17 19 rep\nmember 18 16 equal\nmember 19 5 equal\n",
    "member 20 22 rep\nmember 21 18 equal\nmember 22 21 rep\nmember 23 14 rep\nmember 24 5 equal\n",
    "member 25 3 equal\nmember 26 6 rep\nmember 27 15 rep\nmember 28 7 rep\nmember 29 15 equal\n",
    "member 30 18 equal\nmember 31 10 rep\nmember 32 3 equal\nmember 33 20 rep\nmember 34 15 equal\n",
    "end\n",
];

// It has 35 numbers in 23 classes, and 12 of the numbers are equal to others.
const SUMMARY: Summary = Summary {
    numbers: 35,
    patterns: 11,
    classes: 23,
    equal: 12,
    spent: 0,
};

fn is_accepted(alloc: Global) -> Result<bool, Fail> {
    let known = circuit(alloc, C17)?;
    is_answered(alloc, &known, RESULT, Ok(SUMMARY))
}

#[test]
fn the_result_of_c17(rt: HostRuntime) -> Result<(), Fail> {
    assert!(rt; is_accepted(rt.alloc())?);
    Ok(())
}
