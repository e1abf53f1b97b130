//! Which bridges a log leaves, best first.

ghost use Rattle.table_dicts.specs.Setting.{IsScored};

use crate::tests::kept::kept_of;
use bridging_faults::{Bridge, BridgeKind, Bridges, ScoredBridge, bridges};
use fault_collapse::Subject;
use net_model::Kind;
use ranked_diag::read_partial_of;
use sample_circuits::{AND_OF_TWO, CircuitParts, circuit};
use std::alloc::Global;
use std::test::Fail;
use suspect_scores::Logged;
use table_dicts::Setting;

// The ISCAS-85 circuit c17: the sources 1, 2, 3, 6, 7, the gates 10, 11, 16, 19, 22, 23, and the outputs 22, 23.
const C17: CircuitParts<'static> = CircuitParts {
    sources: 5,
    gates: &[
        (Kind::Nand, &[0, 2]),
        (Kind::Nand, &[2, 3]),
        (Kind::Nand, &[1, 6]),
        (Kind::Nand, &[6, 4]),
        (Kind::Nand, &[5, 7]),
        (Kind::Nand, &[7, 8]),
    ],
    positions: &[9, 10],
};

// The inputs a and b, a cell q, the gates d, z and n, and the outputs z and a. The gate n has no destinations, and the
// cell reads d.
const CELLS: CircuitParts<'static> = CircuitParts {
    sources: 3,
    gates: &[
        (Kind::Nand, &[0, 1]),
        (Kind::Nor, &[2, 0]),
        (Kind::Not, &[1]),
    ],
    positions: &[4, 0, 3],
};

const NOTHING: CircuitParts<'static> = CircuitParts {
    sources: 0,
    gates: &[],
    positions: &[],
};

const TWO_LINES: CircuitParts<'static> = CircuitParts {
    sources: 2,
    gates: &[],
    positions: &[],
};

// The first letter of a kind, two lines, how many failing patterns are explained, and how many others aren't.
type Row = (char, u32, u32, u32, u32);

// A log, the most bridges that are listed, how many failing patterns may be left, the bridges, and how many are found
// and exact.
type BridgedLog = (&'static str, u32, u32, &'static [Row], (u64, u64));

// A circuit, patterns that each split a class, and logs.
type Case = (
    CircuitParts<'static>,
    &'static [&'static str],
    &'static [BridgedLog],
);

const PATTERNS: &[&str] = &[
    "00000", "10000", "01000", "00100", "10100", "01100", "01010", "00110", "01110", "00001",
    "00111",
];

const EXPECTED: &str = "0 00\n1 00\n2 11\n3 00\n4 10\n5 11\n6 11\n7 00\n8 00\n9 01\n10 00\n";

// Net 2 at 0.
const STUCK: &str = "0 00\n1 00\n2 00\n3 00\n4 10\n5 00\n6 00\n7 00\n8 00\n9 01\n10 00\n";

// Nets 10 and 19 shorted, so that a 0 wins.
const BRIDGED: &str = "0 00\n1 00\n2 11\n3 00\n4 11\n5 11\n6 11\n7 00\n8 00\n9 11\n10 00\n";

const CASES: &[Case] = &[
    (
        C17,
        PATTERNS,
        &[
            (EXPECTED, 20, 0, &[], (0, 0)),
            (EXPECTED, 20, 1000000, &[], (0, 0)),
            (
                STUCK,
                20,
                0,
                &[
                    ('a', 4, 6, 3, 0),
                    ('a', 0, 1, 3, 1),
                    ('a', 0, 6, 3, 1),
                    ('a', 1, 4, 3, 1),
                    ('o', 5, 7, 3, 1),
                    ('o', 7, 8, 3, 1),
                    ('d', 0, 6, 3, 1),
                    ('d', 4, 1, 3, 1),
                    ('d', 4, 6, 3, 1),
                    ('d', 5, 7, 3, 1),
                    ('d', 8, 7, 3, 1),
                    ('d', 0, 1, 3, 2),
                    ('d', 6, 7, 3, 3),
                    ('d', 1, 7, 3, 7),
                ],
                (14, 1),
            ),
            (
                BRIDGED,
                20,
                0,
                &[
                    ('a', 5, 8, 2, 0),
                    ('o', 9, 10, 2, 0),
                    ('o', 4, 9, 2, 1),
                    ('d', 6, 1, 2, 3),
                    ('o', 1, 6, 2, 4),
                    ('d', 3, 7, 2, 4),
                    ('d', 1, 7, 2, 8),
                ],
                (7, 2),
            ),
            (BRIDGED, 1, 0, &[('a', 5, 8, 2, 0)], (7, 2)),
            (BRIDGED, 0, 0, &[], (7, 2)),
            (
                BRIDGED,
                8,
                1,
                &[
                    ('a', 5, 8, 2, 0),
                    ('o', 9, 10, 2, 0),
                    ('o', 4, 9, 2, 1),
                    ('d', 6, 1, 2, 3),
                    ('o', 1, 6, 2, 4),
                    ('d', 3, 7, 2, 4),
                    ('d', 1, 7, 2, 8),
                    ('a', 5, 7, 1, 0),
                ],
                (59, 2),
            ),
            ("0 1x\n7 01\n", 20, 0, &[], (0, 0)),
            (
                "2 0x\n4 x1\n",
                20,
                0,
                &[
                    ('d', 0, 1, 2, 0),
                    ('d', 1, 7, 2, 0),
                    ('d', 2, 1, 2, 0),
                    ('d', 5, 7, 2, 0),
                ],
                (4, 4),
            ),
            (
                "4 1x\n9 11\n",
                4,
                0,
                &[
                    ('a', 0, 7, 1, 0),
                    ('a', 1, 5, 1, 0),
                    ('a', 3, 5, 1, 0),
                    ('a', 5, 8, 1, 0),
                ],
                (28, 22),
            ),
            (
                "0 01\n1 11\n4 11\n",
                3,
                1,
                &[('a', 1, 8, 2, 0), ('a', 4, 7, 2, 0), ('o', 0, 1, 2, 0)],
                (21, 0),
            ),
            ("0 xx\n5 xx\n10 xx\n", 20, 3, &[], (0, 0)),
            ("", 20, 0, &[], (0, 0)),
        ],
    ),
    (
        AND_OF_TWO,
        &["00", "10", "01", "11"],
        &[
            ("0 1\n3 0\n", 20, 2, &[], (0, 0)),
            (
                "1 1\n3 x\n",
                20,
                0,
                &[('o', 0, 1, 1, 0), ('d', 0, 1, 1, 0), ('d', 0, 2, 1, 0)],
                (3, 3),
            ),
            ("", 20, 0, &[], (0, 0)),
        ],
    ),
    (
        CELLS,
        &["000", "100", "010", "110", "001"],
        &[
            (
                "0 100\n2 100\n3 010\n4 001\n",
                20,
                0,
                &[('a', 2, 3, 2, 0), ('d', 2, 3, 2, 0), ('d', 0, 3, 2, 2)],
                (3, 2),
            ),
            (
                "0 100\n1 xx1\n3 011\n",
                20,
                0,
                &[('d', 0, 3, 2, 0), ('d', 1, 3, 2, 1)],
                (2, 1),
            ),
            (
                "0 011\n2 101\n",
                20,
                0,
                &[('o', 0, 5, 1, 0), ('d', 5, 0, 1, 0)],
                (2, 2),
            ),
        ],
    ),
    (NOTHING, &[], &[("", 20, 0, &[], (0, 0))]),
    (TWO_LINES, &[], &[("", 20, 0, &[], (0, 0))]),
];

fn letter_of(kind: BridgeKind) -> char {
    match kind {
        BridgeKind::And => 'a',
        BridgeKind::Or => 'o',
        BridgeKind::Dominant => 'd',
    }
}

fn row_of(scored: ScoredBridge) -> Row {
    let Bridge {
        kind,
        first,
        second,
    } = scored.bridge;
    (
        letter_of(kind),
        first,
        second,
        scored.explained,
        scored.false_patterns,
    )
}

fn are_bridges(list: &Bridges, logged: &BridgedLog) -> bool {
    if list.len() != logged.3.len() {
        return false;
    }
    for (at, row) in logged.3.iter().enumerate() {
        if row_of(list.get(at)) != *row {
            return false;
        }
    }
    (list.found(), list.exact()) == logged.4
}

// Returns whether the log leaves these bridges.
fn is_left(alloc: Global, setting: &Setting, logged: &BridgedLog) -> Result<bool, Fail>
    requires { IsScored setting.now }
{
    let patterns = setting.patterns.as_slice().len() as u32;
    let positions = setting.subject.circuit().positions().len() as u32;
    let partial = read_partial_of(alloc, patterns, positions, logged.0.as_bytes())?;
    let read = Logged::new(alloc, setting, &partial)?;
    let list = bridges(alloc, setting, &read, logged.1, logged.2)?;
    Ok(are_bridges(&list, logged))
}

// Returns whether each log leaves its bridges.
fn are_left(alloc: Global, setting: &Setting, all: &[BridgedLog]) -> Result<bool, Fail>
    requires { IsScored setting.now }
{
    for logged in all {
        if !is_left(alloc, setting, logged)? {
            return Ok(false);
        }
    }
    Ok(true)
}

fn holds(alloc: Global, case: &Case) -> Result<bool, Fail> {
    let circuit = circuit(alloc, case.0)?;
    let subject = Subject::new(alloc, &circuit)?;
    let kept = kept_of(alloc, &subject, case.1)?;
    let setting = Setting {
        subject: &subject,
        patterns: &kept.patterns,
        classes: &kept.classes,
    };
    setting.stands();
    are_left(alloc, &setting, case.2)
}

#[test]
fn bridges_of_logs(rt: HostRuntime) -> Result<(), Fail> {
    for (at, case) in CASES.iter().enumerate() {
        assert!(rt; holds(rt.alloc(), case)?, "case {at}");
    }
    Ok(())
}
