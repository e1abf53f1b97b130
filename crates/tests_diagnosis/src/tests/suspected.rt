//! Which classes a log suspects, which of them cover its failing patterns, and the log that a chip without a fault gives.

ghost use Rattle.std.specs.Prelude.{◌≡◌, ◌<◌, ◌^◌, length, All, IfOk};
ghost use Rattle.table_dicts.specs.Setting.{IsScored};

use crate::tests::kept::kept_of;
use diagnose::read_vectors;
use fault_collapse::Subject;
use kept_vectors::classes_of;
use net_model::{Circuit, Kind, Vectors};
use ranked_diag::read_partial_of;
use sample_circuits::{AND_OF_TWO, CircuitParts, circuit};
use std::alloc::Global;
use std::test::Fail;
use suspect_scores::{Choice, Cover, Logged, Suspect, Suspects, cover, expected_log, suspects};
use table_dicts::Setting;

// The ISCAS-85 circuit c17: the sources 1, 2, 3, 6, 7, the gates 10, 11, 16, 19, 22, 23, and the outputs 22, 23.
const C17: CircuitParts<'static> = CircuitParts {
    sources: 5,
    gates: &[
        (Kind::Nand, &[0, 2]),
        (Kind::Nand, &[2, 3]),
        (Kind::Nand, &[1, 6]),
        (Kind::Nand, &[6, 4]),
        (Kind::Nand, &[5, 7]),
        (Kind::Nand, &[7, 8]),
    ],
    positions: &[9, 10],
};

const NOTHING: CircuitParts<'static> = CircuitParts {
    sources: 0,
    gates: &[],
    positions: &[],
};

// A log, the most suspects that are listed, and which there are: number, explained, hit, missed and false.
type SuspectedLog = (&'static str, u32, &'static [(u32, u32, u64, u64, u64)]);

// A log, and which numbers cover its failing patterns, with how many each explains that none before it does.
type Covered = (&'static str, &'static [(u32, u32)]);

// The log without a fault, logs with their suspects, and logs with their covers.
type Told = (&'static str, &'static [SuspectedLog], &'static [Covered]);

// A circuit, patterns that each split a class, and what holds for them.
type Case = (CircuitParts<'static>, &'static [&'static str], Told);

// A circuit, two lists of vectors that make the classes together, and what holds for the second.
type FinerCase = (CircuitParts<'static>, &'static str, &'static str, Told);

const EXPECTED: &str = "0 00\n1 00\n2 11\n3 00\n4 10\n5 11\n6 11\n7 00\n8 00\n9 01\n10 00\n";

// Net 2 at 0.
const STUCK: &str = "0 00\n1 00\n2 00\n3 00\n4 10\n5 00\n6 00\n7 00\n8 00\n9 01\n10 00\n";

// A bridge.
const BRIDGED: &str = "0 00\n1 00\n2 11\n3 00\n4 11\n5 11\n6 11\n7 00\n8 00\n9 11\n10 00\n";

const CASES: &[Case] = &[
    (
        C17,
        &[
            "00000", "10000", "01000", "00100", "10100", "01100", "01010", "00110", "01110",
            "00001", "00111",
        ],
        (
            EXPECTED,
            &[
                (EXPECTED, 20, &[]),
                (
                    STUCK,
                    20,
                    &[
                        (3, 3, 6, 0, 0),
                        (17, 3, 6, 0, 1),
                        (10, 1, 2, 4, 0),
                        (12, 1, 2, 4, 0),
                        (6, 1, 2, 4, 1),
                        (26, 0, 3, 3, 0),
                        (28, 0, 3, 3, 0),
                        (31, 0, 3, 3, 1),
                        (33, 0, 3, 3, 1),
                    ],
                ),
                (STUCK, 1, &[(3, 3, 6, 0, 0)]),
                (
                    BRIDGED,
                    20,
                    &[
                        (4, 2, 2, 0, 6),
                        (23, 2, 2, 0, 12),
                        (14, 1, 1, 1, 3),
                        (15, 1, 1, 1, 6),
                        (27, 1, 1, 1, 6),
                    ],
                ),
                (
                    "0 1x\n7 01\n",
                    20,
                    &[
                        (4, 1, 1, 1, 0),
                        (23, 1, 2, 0, 1),
                        (27, 1, 1, 1, 0),
                        (15, 1, 1, 1, 1),
                    ],
                ),
                ("0 xx\n10 xx\n", 20, &[]),
            ],
            &[
                (EXPECTED, &[]),
                (STUCK, &[(3, 3)]),
                (BRIDGED, &[(4, 2)]),
                ("0 01\n1 11\n4 11\n", &[(4, 2), (14, 1)]),
            ],
        ),
    ),
    (
        AND_OF_TWO,
        &["00", "10", "01", "11"],
        (
            "0 0\n1 0\n2 0\n3 1\n",
            &[
                ("0 1\n3 0\n", 20, &[(1, 1, 1, 1, 0), (6, 1, 1, 1, 0)]),
                ("0 1\n3 0\n", 1, &[(1, 1, 1, 1, 0)]),
                ("0 1\n3 0\n", 0, &[]),
                ("1 1\n3 x\n", 20, &[(4, 1, 1, 0, 0), (6, 1, 1, 0, 0)]),
                ("0 x\n1 1\n", 20, &[(4, 1, 1, 0, 0), (6, 1, 1, 0, 0)]),
                ("", 20, &[]),
            ],
            &[("0 1\n3 0\n", &[(1, 1), (6, 1)]), ("", &[])],
        ),
    ),
    (NOTHING, &[], ("", &[("", 20, &[])], &[("", &[])])),
];

// A list of eight vectors, and what a chip without a fault answers to it. Two of the vectors split no class.
const LIST: &str = "01111\n10010\n10001\n00100\n01011\n10010\n10011\n11111\n";

const GOOD: &str = "0 00\n1 00\n2 01\n3 00\n4 11\n5 00\n6 01\n7 10\n";

// Net 2 at 0, and a bridge.
const STUCK_AT_LIST: &str = "0 00\n1 00\n2 01\n3 00\n4 01\n5 00\n6 01\n7 10\n";

const BRIDGED_AT_LIST: &str = "0 00\n1 00\n2 11\n3 00\n4 11\n5 00\n6 11\n7 11\n";

const FINER_CASES: &[FinerCase] = &[
    (
        C17,
        "",
        LIST,
        (
            GOOD,
            &[
                (GOOD, 20, &[]),
                (
                    STUCK_AT_LIST,
                    20,
                    &[
                        (3, 1, 1, 0, 0),
                        (31, 1, 1, 0, 1),
                        (10, 0, 1, 0, 2),
                        (17, 0, 1, 0, 3),
                        (6, 0, 1, 0, 6),
                    ],
                ),
                (
                    BRIDGED_AT_LIST,
                    20,
                    &[
                        (23, 3, 3, 0, 8),
                        (8, 2, 2, 1, 2),
                        (15, 2, 2, 1, 4),
                        (4, 2, 2, 1, 6),
                        (22, 1, 1, 2, 1),
                        (5, 1, 1, 2, 2),
                        (6, 1, 2, 1, 5),
                        (27, 1, 1, 2, 4),
                    ],
                ),
            ],
            &[(STUCK_AT_LIST, &[(3, 1)]), (BRIDGED_AT_LIST, &[(23, 3)])],
        ),
    ),
    // The vectors before the list distinguish 26 from 3, and the list doesn't.
    (
        C17,
        "10100\n00101\n00111\n01000\n",
        LIST,
        (
            GOOD,
            &[(
                STUCK_AT_LIST,
                20,
                &[
                    (3, 1, 1, 0, 0),
                    (26, 1, 1, 0, 0),
                    (31, 1, 1, 0, 1),
                    (10, 0, 1, 0, 2),
                    (17, 0, 1, 0, 3),
                    (6, 0, 1, 0, 6),
                ],
            )],
            &[(STUCK_AT_LIST, &[(3, 1)])],
        ),
    ),
    // To the vector before the list, 2, 4 and 6 answer as 0 does, and the list distinguishes them from it.
    (
        AND_OF_TWO,
        "11\n",
        "01\n10\n00\n",
        (
            "0 0\n1 0\n2 0\n",
            &[("0 1\n1 0\n2 0\n", 20, &[(2, 1, 1, 0, 0), (6, 1, 1, 0, 2)])],
            &[("0 1\n1 0\n2 0\n", &[(2, 1)])],
        ),
    ),
];

fn is_suspect(suspect: Suspect, wanted: (u32, u32, u64, u64, u64)) -> bool {
    let (number, explained, hit_bits, missed_bits, false_bits) = wanted;
    suspect
        == Suspect {
            number,
            explained,
            hit_bits,
            missed_bits,
            false_bits,
        }
}

fn are_suspects(listed: &Suspects, wanted: &[(u32, u32, u64, u64, u64)]) -> bool {
    if listed.len() != wanted.len() {
        return false;
    }
    for (at, one) in wanted.iter().enumerate() {
        if !is_suspect(listed.get(at), *one) {
            return false;
        }
    }
    true
}

// Returns whether the log gives these suspects.
fn is_suspected(alloc: Global, setting: &Setting, logged: &SuspectedLog) -> Result<bool, Fail>
    requires { IsScored setting.now }
{
    let patterns = setting.patterns.as_slice().len() as u32;
    let positions = setting.subject.circuit().positions().len() as u32;
    let partial = read_partial_of(alloc, patterns, positions, logged.0.as_bytes())?;
    let read = Logged::new(alloc, setting, &partial)?;
    let listed = suspects(alloc, setting, &read, logged.1)?;
    Ok(are_suspects(&listed, logged.2))
}

fn are_suspected(alloc: Global, setting: &Setting, all: &[SuspectedLog]) -> Result<bool, Fail>
    requires { IsScored setting.now }
{
    for logged in all {
        if !is_suspected(alloc, setting, logged)? {
            return Ok(false);
        }
    }
    Ok(true)
}

fn are_choices(choices: &Cover, wanted: &[(u32, u32)]) -> bool {
    if choices.len() != wanted.len() {
        return false;
    }
    for (at, (number, explained)) in wanted.iter().enumerate() {
        let choice = Choice {
            number: *number,
            explained: *explained,
        };
        if choices.get(at) != choice {
            return false;
        }
    }
    true
}

// Returns whether the log has this cover.
fn is_covered(alloc: Global, setting: &Setting, covered: &Covered) -> Result<bool, Fail>
    requires { IsScored setting.now }
{
    let patterns = setting.patterns.as_slice().len() as u32;
    let positions = setting.subject.circuit().positions().len() as u32;
    let partial = read_partial_of(alloc, patterns, positions, covered.0.as_bytes())?;
    let read = Logged::new(alloc, setting, &partial)?;
    let choices = cover(alloc, setting, &read)?;
    Ok(are_choices(&choices, covered.1))
}

fn are_covered(alloc: Global, setting: &Setting, all: &[Covered]) -> Result<bool, Fail>
    requires { IsScored setting.now }
{
    for covered in all {
        if !is_covered(alloc, setting, covered)? {
            return Ok(false);
        }
    }
    Ok(true)
}

// Returns whether a chip without a fault gives this log, and the others have their suspects and covers.
fn is_told(alloc: Global, setting: &Setting, told: &Told) -> Result<bool, Fail>
    requires { IsScored setting.now }
{
    let text = expected_log(alloc, setting)?;
    if text.as_slice() != told.0.as_bytes() {
        return Ok(false);
    }
    Ok(are_suspected(alloc, setting, told.1)? && are_covered(alloc, setting, told.2)?)
}

fn is_kept(alloc: Global, subject: &Subject, case: &Case) -> Result<bool, Fail> {
    let kept = kept_of(alloc, subject, case.1)?;
    let setting = Setting {
        subject,
        patterns: &kept.patterns,
        classes: &kept.classes,
    };
    setting.stands();
    is_told(alloc, &setting, &case.2)
}

fn holds(alloc: Global, case: &Case) -> Result<bool, Fail> {
    let circuit = circuit(alloc, case.0)?;
    let subject = Subject::new(alloc, &circuit)?;
    is_kept(alloc, &subject, case)
}

#[test]
fn suspects_of_logs(rt: HostRuntime) -> Result<(), Fail> {
    for (at, case) in CASES.iter().enumerate() {
        assert!(rt; holds(rt.alloc(), case)?, "case {at}");
    }
    Ok(())
}

// Returns the vectors of a list of at most 1,000.
fn list_of(alloc: Global, circuit: &Circuit, text: &str) -> Result<Vectors, Fail>
    ensures widths { IfOk result (λ list. All (λ v. length v ≡ circuit.now.sources) list) }
    ensures few { IfOk result (λ list. length list < 2 ^ 32) }
{
    let list = read_vectors(alloc, circuit.sources(), text.as_bytes())?;
    if list.as_slice().len() > 1000 {
        return Err(Fail::new("there are too many vectors"));
    }
    Ok(list)
}

// Returns whether this holds for the second list, by the classes that both lists make together.
fn is_finer(alloc: Global, subject: &Subject, case: &FinerCase) -> Result<bool, Fail> {
    let before = list_of(alloc, subject.circuit(), case.1)?;
    let list = list_of(alloc, subject.circuit(), case.2)?;
    let classes = classes_of(alloc, subject, before.as_slice(), list.as_slice())?;
    let setting = Setting {
        subject,
        patterns: &list,
        classes: &classes,
    };
    is_told(alloc, &setting, &case.3)
}

fn finer_holds(alloc: Global, case: &FinerCase) -> Result<bool, Fail> {
    let circuit = circuit(alloc, case.0)?;
    let subject = Subject::new(alloc, &circuit)?;
    is_finer(alloc, &subject, case)
}

#[test]
fn suspects_by_finer_classes(rt: HostRuntime) -> Result<(), Fail> {
    for (at, case) in FINER_CASES.iter().enumerate() {
        assert!(rt; finer_holds(rt.alloc(), case)?, "case {at}");
    }
    Ok(())
}
