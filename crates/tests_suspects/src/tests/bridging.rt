//! Runs of `bridges`.

use crate::tests::runs::{Case, LogCase, all_leave, are_listed};
use crate::tests::texts::{
    AND, AND_EXPECTED, AND_RESULT, C17, C17_BRIDGED, C17_EXPECTED, C17_RESULT, C17_STUCK, UNSEEN,
};
use std::test::Fail;

const BRIDGES: &[&str] = &["bridges", "n", "r", "l"];

const NO_FAILING: &[u8] = b"listed 0 of 0 exact 0 failing 0 logged 11\n";

pub(crate) const OF_STUCK: &[u8] =
    b"and 7 11 3 0\nand 1 2 3 1\nand 1 11 3 1\nand 2 7 3 1\nor 10 16 3 1\nor 16 19 3 1\ndominant 1 11 3 1\ndominant 7 2 3 1\ndominant 7 11 3 1\ndominant 10 16 3 1\ndominant 19 16 3 1\ndominant 1 2 3 2\ndominant 11 16 3 3\ndominant 2 16 3 7\nlisted 14 of 14 exact 1 failing 3 logged 11\n";

pub(crate) const OF_BRIDGED: &[u8] =
    b"and 10 19 2 0\nor 22 23 2 0\nor 7 22 2 1\ndominant 11 2 2 3\nor 2 11 2 4\ndominant 6 16 2 4\ndominant 2 16 2 8\nlisted 7 of 7 exact 2 failing 2 logged 11\n";

const WITHIN_ONE: &[u8] =
    b"and 10 19 2 0\nor 22 23 2 0\nor 7 22 2 1\ndominant 11 2 2 3\nor 2 11 2 4\ndominant 6 16 2 4\ndominant 2 16 2 8\nand 10 16 1 0\nlisted 8 of 59 exact 2 failing 2 logged 11\n";

// Whole logs, logs of some patterns, of none and of `x` alone; as many bridges as there are, fewer and more; `within`
// of no failing pattern, of some and of more than there are.
static OF_C17: [LogCase; 13] = [
    (C17_EXPECTED, BRIDGES, 0, NO_FAILING),
    (
        C17_EXPECTED,
        &["bridges", "n", "r", "l", "--within", "9"],
        0,
        NO_FAILING,
    ),
    (C17_STUCK, BRIDGES, 0, OF_STUCK),
    (C17_BRIDGED, BRIDGES, 0, OF_BRIDGED),
    (
        C17_BRIDGED,
        &["bridges", "n", "r", "l", "--most", "7"],
        0,
        OF_BRIDGED,
    ),
    (
        C17_BRIDGED,
        &["bridges", "n", "r", "l", "--most", "1"],
        0,
        b"and 10 19 2 0\nlisted 1 of 7 exact 2 failing 2 logged 11\n",
    ),
    (
        C17_BRIDGED,
        &["bridges", "n", "r", "l", "--within", "1", "--most", "8"],
        0,
        WITHIN_ONE,
    ),
    (
        C17_BRIDGED,
        &["bridges", "--most=8", "n", "r", "l", "--within=1000000"],
        0,
        WITHIN_ONE,
    ),
    (
        b"0 1x\n7 01\n",
        BRIDGES,
        0,
        b"listed 0 of 0 exact 0 failing 2 logged 2\n",
    ),
    (
        b"0 1x\n7 01\n",
        &["bridges", "n", "r", "l", "--within", "3", "--most", "2"],
        0,
        b"and 1 16 1 0\nand 1 19 1 0\nlisted 2 of 42 exact 0 failing 2 logged 2\n",
    ),
    (
        b"2 0x\n4 x1\n",
        BRIDGES,
        0,
        b"dominant 1 2 2 0\ndominant 2 16 2 0\ndominant 3 2 2 0\ndominant 10 16 2 0\nlisted 4 of 4 exact 4 failing 2 logged 2\n",
    ),
    (
        b"0 01\n1 11\n4 11\n",
        &["bridges", "n", "r", "l", "--within", "1", "--most", "3"],
        0,
        b"and 2 19 2 0\nand 7 16 2 0\nor 1 2 2 0\nlisted 3 of 21 exact 0 failing 3 logged 3\n",
    ),
    (
        b"0 xx\n5 xx\n10 xx\n",
        &["bridges", "n", "r", "l", "--within", "3"],
        0,
        b"listed 0 of 0 exact 0 failing 0 logged 3\n",
    ),
];

// The last eight logs are refused: patterns out of order, twice and one too many; another width; no log.
static OF_AND: [LogCase; 13] = [
    (
        b"0 1\n3 0\n",
        &["bridges", "n", "r", "l", "--within", "2"],
        0,
        b"listed 0 of 0 exact 0 failing 2 logged 2\n",
    ),
    (
        b"1 1\n3 x\n",
        BRIDGES,
        0,
        b"or a b 1 0\ndominant a b 1 0\ndominant a z 1 0\nlisted 3 of 3 exact 3 failing 1 logged 2\n",
    ),
    (
        b"",
        BRIDGES,
        0,
        b"listed 0 of 0 exact 0 failing 0 logged 0\n",
    ),
    (
        b"0 x\n1 x\n2 x\n3 x\n",
        BRIDGES,
        0,
        b"listed 0 of 0 exact 0 failing 0 logged 4\n",
    ),
    (
        AND_EXPECTED,
        BRIDGES,
        0,
        b"listed 0 of 0 exact 0 failing 0 logged 4\n",
    ),
    (b"1 0\n0 0\n", BRIDGES, 6, b"log: Order at line 2\n"),
    (b"1 0\n1 0\n", BRIDGES, 6, b"log: Order at line 2\n"),
    (b"3 0\n4 0\n", BRIDGES, 6, b"log: Order at line 2\n"),
    (b"0 00\n", BRIDGES, 6, b"log: Width at line 1\n"),
    (b"0 -\n", BRIDGES, 6, b"log: Width at line 1\n"),
    (b"0 0", BRIDGES, 6, b"log: Syntax at line 1\n"),
    (b"0 2\n", BRIDGES, 6, b"log: Syntax at line 1\n"),
    (
        b"0 0\n",
        &["bridges", "n", "r", "r"],
        6,
        b"log: Syntax at line 1\n",
    ),
];

// A cell, a line without destinations, and an input that is an output.
const CELLS: &[u8] =
    b"INPUT(a)\nINPUT(b)\nOUTPUT(z)\nOUTPUT(a)\nq = DFF(d)\nd = NAND(a, b)\nz = NOR(q, a)\nn = NOT(b)\n";

const CELLS_RESULT: &[u8] =
    b"diatest 1 3 3 23\nbudget 4 64 2000\npattern 000\npattern 100\npattern 010\npattern 110\npattern 001\nsame 9 3 T .\nsame 11 3 C\nsame 12 10 T .\nsame 13 0 T .\nsame 14 0 T .\nsame 16 6 C\nsame 18 3 C\nsame 19 6 C\nsame 21 0 T .\nsame 22 0 T .\nclass 0 - -\nclass 1 0 0\nclass 2 0 0\nclass 3 0 0\nclass 4 0 0\nclass 5 0 1\nclass 6 0 1\nclass 7 0 1\nclass 8 0 1\nclass 9 0 2\nclass 10 0 3\nclass 11 0 4\nclass 12 6 4\nmember 0 0 rep\nmember 1 5 rep\nmember 2 1 rep\nmember 3 10 rep\nmember 4 9 rep\nmember 5 6 rep\nmember 6 2 rep\nmember 7 7 rep\nmember 8 3 rep\nmember 9 10 equal\nmember 10 8 rep\nmember 11 10 equal\nmember 12 8 equal\nmember 13 0 equal\nmember 14 0 equal\nmember 15 11 rep\nmember 16 2 equal\nmember 17 4 rep\nmember 18 10 equal\nmember 19 2 equal\nmember 20 12 rep\nmember 21 0 equal\nmember 22 0 equal\nend\n";

static OF_CELLS: [LogCase; 3] = [
    (
        b"0 100\n2 100\n3 010\n4 001\n",
        BRIDGES,
        0,
        b"and q d 2 0\ndominant q d 2 0\ndominant a d 2 2\nlisted 3 of 3 exact 2 failing 2 logged 4\n",
    ),
    (
        b"0 100\n1 xx1\n3 011\n",
        BRIDGES,
        0,
        b"dominant a d 2 0\ndominant b d 2 1\nlisted 2 of 2 exact 1 failing 2 logged 3\n",
    ),
    (
        b"0 011\n2 101\n",
        BRIDGES,
        0,
        b"or a n 1 0\ndominant n a 1 0\nlisted 2 of 2 exact 2 failing 1 logged 2\n",
    ),
];

// An AND with a constant 1, and an OR with a constant 0.
const CONSTANTS: &[u8] =
    b"INPUT(a)\nINPUT(b)\nOUTPUT(z)\nOUTPUT(y)\nl = CONST1()\ng = CONST0()\nz = AND(a, l)\ny = OR(b, g)\n";

const CONSTANTS_RESULT: &[u8] =
    b"diatest 1 2 2 13\nbudget 4 64 2000\npattern 00\npattern 10\npattern 01\nsame 5 1 C\nsame 6 0 T .\nsame 7 0 T .\nsame 8 4 C\nsame 9 1 C\nsame 10 2 T .\nsame 11 3 T .\nsame 12 4 C\nclass 0 - -\nclass 1 0 0\nclass 2 0 0\nclass 3 0 1\nclass 4 0 2\nmember 0 0 rep\nmember 1 3 rep\nmember 2 1 rep\nmember 3 4 rep\nmember 4 2 rep\nmember 5 3 equal\nmember 6 0 equal\nmember 7 0 equal\nmember 8 2 equal\nmember 9 3 equal\nmember 10 1 equal\nmember 11 4 equal\nmember 12 2 equal\nend\n";

static OF_CONSTANTS: [LogCase; 2] = [
    (
        b"0 01\n1 11\n2 01\n",
        BRIDGES,
        0,
        b"or b l 2 0\nor l g 2 0\nor l y 2 0\ndominant l b 2 0\ndominant l g 2 0\ndominant l y 2 0\nlisted 6 of 6 exact 6 failing 2 logged 3\n",
    ),
    (
        b"0 00\n1 0x\n2 00\n",
        BRIDGES,
        0,
        b"and a b 2 0\nand a y 2 0\nand b z 2 0\nand z y 2 0\nlisted 4 of 4 exact 4 failing 2 logged 3\n",
    ),
];

// A cell whose data pin reads the cell, so that there is no second line.
const LONE: &[u8] = b"OUTPUT(q)\nq = DFF(q)\n";

const LONE_RESULT: &[u8] =
    b"diatest 1 1 2 7\nbudget 4 64 2000\npattern 0\npattern 1\nclass 0 - -\nclass 1 0 0\nclass 2 0 0\nclass 3 0 0\nclass 4 0 1\nclass 5 0 1\nclass 6 0 1\nmember 0 0 rep\nmember 1 4 rep\nmember 2 1 rep\nmember 3 5 rep\nmember 4 2 rep\nmember 5 6 rep\nmember 6 3 rep\nend\n";

static OF_LONE: [LogCase; 1] = [(
    b"0 01\n",
    &["bridges", "n", "r", "l", "--within", "1"],
    0,
    b"listed 0 of 0 exact 0 failing 1 logged 1\n",
)];

const UNSEEN_RESULT: &[u8] =
    b"diatest 1 1 0 3\nbudget 4 64 2000\nsame 1 0 T .\nsame 2 0 T .\nclass 0 - -\nmember 0 0 rep\nmember 1 0 equal\nmember 2 0 equal\nend\n";

// Without positions there is no pattern, and so no line.
static OF_UNSEEN: [LogCase; 2] = [
    (
        b"",
        BRIDGES,
        0,
        b"listed 0 of 0 exact 0 failing 0 logged 0\n",
    ),
    (b"0 -\n", BRIDGES, 6, b"log: Order at line 1\n"),
];

#[test]
fn bridges_of_gates(rt: HostRuntime) -> Result<(), Fail> {
    are_listed(&rt, rt.alloc(), C17, C17_RESULT, &OF_C17)?;
    are_listed(&rt, rt.alloc(), AND, AND_RESULT, &OF_AND)
}

#[test]
fn bridges_of_cells_constants_and_no_gates(rt: HostRuntime) -> Result<(), Fail> {
    are_listed(&rt, rt.alloc(), CELLS, CELLS_RESULT, &OF_CELLS)?;
    are_listed(&rt, rt.alloc(), CONSTANTS, CONSTANTS_RESULT, &OF_CONSTANTS)?;
    are_listed(&rt, rt.alloc(), LONE, LONE_RESULT, &OF_LONE)?;
    are_listed(&rt, rt.alloc(), UNSEEN, UNSEEN_RESULT, &OF_UNSEEN)
}

// The netlist is judged before the result, and the result before the log.
static OTHERS: [Case; 6] = [
    (
        &[("n", b"z=NOT(Z)\n"), ("r", b"x\n"), ("l", b"x\n")],
        BRIDGES,
        3,
        b"netlist: Undriven at byte 6, line 1\n",
        ("l", Some(b"x\n")),
    ),
    (
        &[("n", AND), ("r", b"x\n"), ("l", b"x\n")],
        BRIDGES,
        4,
        b"result: Syntax at line 1\n",
        ("l", Some(b"x\n")),
    ),
    (
        &[("n", AND), ("r", AND_EXPECTED)],
        &["bridges", "n", "r", "r"],
        4,
        b"result: Syntax at line 1\n",
        ("r", Some(AND_EXPECTED)),
    ),
    (
        &[("n", AND), ("r", AND_RESULT)],
        BRIDGES,
        7,
        b"",
        ("l", None),
    ),
    (&[("n", AND), ("l", b"")], BRIDGES, 7, b"", ("r", None)),
    (
        &[("r", AND_RESULT), ("l", b"")],
        BRIDGES,
        7,
        b"",
        ("n", None),
    ),
];

#[test]
fn files_that_are_refused_or_absent(rt: HostRuntime) -> Result<(), Fail> {
    all_leave(&rt, rt.alloc(), &OTHERS)
}
