//! Tests of the baselines that are chosen for small tables.

ghost use Rattle.std.specs.Prelude.{◌≡◌, ◌<◌, length, IfOk};
ghost use Rattle.dict_rows.specs.Rows.{AreRows};

use crate::tests::agreeing::alike;
use crate::tests::made::{GivenTable, classes_of, table_of};
use crate::tests::spelled::are_spelled;
use class_refine::Classes;
use net_model::AnswerRows;
use samediff_dict::choose;
use std::alloc::{AllocError, Global};
use std::test::Fail;
use table_dicts::{AnswerTable, apart, pass_fail, project};

// Answers, the class of each number, the chosen baselines, and how many pairs of classes these baselines and the
// fault-free answers keep apart.
type Case = (GivenTable, &'static [u32], &'static str, [u64; 2]);

// Returns the chosen baselines if members of one class have the same answers.
fn chosen(alloc: Global, table: &AnswerTable, classes: &Classes) -> Result<AnswerRows, Fail>
    requires { length classes.now.class_of ≡ table.now.numbers }
    ensures { IfOk result (AreRows (length table.now.rows) table.now.positions) }
{
    if !alike(table, classes) {
        return Err(Fail::new("members of a class have different answers"));
    }
    let rows = choose(alloc, table, classes)?;
    Ok(rows)
}

fn are_classes(classes: &Classes, numbers: u32, wanted: &[u32]) -> bool
    requires { length classes.now.class_of ≡ numbers }
{
    if numbers as usize != wanted.len() {
        return false;
    }
    for number in 0..numbers {
        if Some(&classes.class_of(number)) != wanted.get(number as usize) {
            return false;
        }
    }
    true
}

// Returns how many pairs of classes these baselines keep apart.
fn apart_by(
    alloc: Global,
    table: &AnswerTable,
    classes: &Classes,
    baselines: &AnswerRows,
) -> Result<u64, AllocError>
    requires some { 0 < table.now.numbers }
    requires numbers { length classes.now.class_of ≡ table.now.numbers }
    requires rows { AreRows (length table.now.rows) table.now.positions baselines.now }
{
    let dict = project(alloc, table, baselines)?;
    apart(alloc, &dict, classes)
}

// Returns how many pairs of classes the fault-free answers keep apart.
fn apart_by_failing(
    alloc: Global,
    table: &AnswerTable,
    classes: &Classes,
) -> Result<u64, AllocError>
    requires some { 0 < table.now.numbers }
    requires numbers { length classes.now.class_of ≡ table.now.numbers }
{
    let dict = pass_fail(alloc, table)?;
    apart(alloc, &dict, classes)
}

// Returns whether the baselines and the fault-free answers keep these numbers of pairs of classes apart.
fn keep_apart(
    alloc: Global,
    table: &AnswerTable,
    classes: &Classes,
    baselines: &AnswerRows,
    pairs: [u64; 2],
) -> Result<bool, AllocError>
    requires some { 0 < table.now.numbers }
    requires numbers { length classes.now.class_of ≡ table.now.numbers }
    requires rows { AreRows (length table.now.rows) table.now.positions baselines.now }
{
    Ok(
        apart_by(alloc, table, classes, baselines)? == pairs[0]
            && apart_by_failing(alloc, table, classes)? == pairs[1],
    )
}

// Returns whether a table has the classes, the chosen baselines and the numbers of pairs of the case.
fn agrees(alloc: Global, table: &AnswerTable, classes: &Classes, case: &Case) -> Result<bool, Fail>
    requires some { 0 < table.now.numbers }
    requires numbers { length classes.now.class_of ≡ table.now.numbers }
{
    let (_, wanted, baselines, pairs) = *case;
    let rows = chosen(alloc, table, classes)?;
    Ok(
        are_spelled(alloc, &rows, baselines)?
            && keep_apart(alloc, table, classes, &rows, pairs)?
            && are_classes(classes, table.numbers(), wanted),
    )
}

fn holds(alloc: Global, case: &Case) -> Result<bool, Fail> {
    let (numbers, positions, answers) = case.0;
    if numbers == 0 {
        return Err(Fail::new("there is no number"));
    }
    let table = table_of(alloc, numbers, positions, answers)?;
    let classes = classes_of(alloc, answers, numbers, positions)?;
    agrees(alloc, &table, &classes, case)
}

const ALL_ALIKE: &str = "00 00 00 00";

// As the case with one replacement, but with patterns in between to which all answer alike, so that the last two come
// after the first 64.
const FAR: &[&str] = &[
    "00 00 01 11",
    ALL_ALIKE,
    ALL_ALIKE,
    ALL_ALIKE,
    ALL_ALIKE,
    ALL_ALIKE,
    ALL_ALIKE,
    ALL_ALIKE,
    ALL_ALIKE,
    ALL_ALIKE,
    ALL_ALIKE,
    ALL_ALIKE,
    ALL_ALIKE,
    ALL_ALIKE,
    ALL_ALIKE,
    ALL_ALIKE,
    ALL_ALIKE,
    ALL_ALIKE,
    ALL_ALIKE,
    ALL_ALIKE,
    ALL_ALIKE,
    ALL_ALIKE,
    ALL_ALIKE,
    ALL_ALIKE,
    ALL_ALIKE,
    ALL_ALIKE,
    ALL_ALIKE,
    ALL_ALIKE,
    ALL_ALIKE,
    ALL_ALIKE,
    ALL_ALIKE,
    ALL_ALIKE,
    ALL_ALIKE,
    ALL_ALIKE,
    ALL_ALIKE,
    ALL_ALIKE,
    ALL_ALIKE,
    ALL_ALIKE,
    ALL_ALIKE,
    ALL_ALIKE,
    ALL_ALIKE,
    ALL_ALIKE,
    ALL_ALIKE,
    ALL_ALIKE,
    ALL_ALIKE,
    ALL_ALIKE,
    ALL_ALIKE,
    ALL_ALIKE,
    ALL_ALIKE,
    ALL_ALIKE,
    ALL_ALIKE,
    ALL_ALIKE,
    ALL_ALIKE,
    ALL_ALIKE,
    ALL_ALIKE,
    ALL_ALIKE,
    ALL_ALIKE,
    ALL_ALIKE,
    ALL_ALIKE,
    ALL_ALIKE,
    ALL_ALIKE,
    ALL_ALIKE,
    ALL_ALIKE,
    ALL_ALIKE,
    "10 11 00 01",
    "11 01 10 10",
];

const CASES: &[Case] = &[
    // The first step alone decides.
    (
        (4, 2, &["00 01 01 10", "00 01 10 01"]),
        &[0, 1, 3, 2],
        "01 01 ",
        [6, 3],
    ),
    // An AND gate at the patterns 00, 10, 01 and 11: without a fault, and with the first input, the second one and the
    // output at 0 and at 1.
    (
        (
            7,
            1,
            &[
                "0 0 0 0 0 0 1",
                "0 0 0 0 1 0 1",
                "0 0 1 0 0 0 1",
                "1 0 1 0 1 0 1",
            ],
        ),
        &[0, 4, 3, 4, 2, 4, 1],
        "0 0 0 1 ",
        [10, 10],
    ),
    // An input that is shown at two positions, at the patterns 0 and 1: without a fault, and with the input, the first
    // position and the second one at 0 and at 1.
    (
        (7, 2, &["00 00 11 00 10 00 01", "11 00 11 01 11 10 11"]),
        &[0, 4, 1, 5, 2, 6, 3],
        "00 11 ",
        [15, 15],
    ),
    // The first choice leaves one pair together, and the fault-free answers keep it apart too.
    (
        (4, 2, &["10 01 11 11", "10 10 00 11", "00 00 01 00"]),
        &[0, 1, 2, 3],
        "10 10 00 ",
        [6, 6],
    ),
    // The first choice leaves one pair together, and one replacement keeps it apart.
    (
        (4, 2, &["00 00 01 11", "10 11 00 01", "11 01 10 10"]),
        &[0, 3, 1, 2],
        "00 00 11 ",
        [6, 5],
    ),
    (
        (4, 2, FAR),
        &[0, 3, 1, 2],
        "00 00 00 00 00 00 00 00 00 00 00 00 00 00 00 00 00 00 00 00 00 00 00 00 00 00 00 00 00 00 00 00 00 00 00 00 00 00 00 00 00 00 00 00 00 00 00 00 00 00 00 00 00 00 00 00 00 00 00 00 00 00 00 00 00 11 ",
        [6, 5],
    ),
    // No patterns, no positions, and one number.
    ((3, 1, &[]), &[0, 0, 0], "", [0, 0]),
    ((3, 0, &["  ", "  "]), &[0, 0, 0], "  ", [0, 0]),
    ((1, 2, &["10"]), &[0], "10 ", [0, 0]),
];

#[test]
fn baselines_of_tables(rt: HostRuntime) -> Result<(), Fail> {
    for (at, case) in CASES.iter().enumerate() {
        assert!(rt; holds(rt.alloc(), case)?, "case {at}");
    }
    Ok(())
}
