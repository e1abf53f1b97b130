//! Tests of the dictionaries of tables that were made by hand: long ones, ones without patterns or positions, and
//! chosen baselines.

ghost use Rattle.std.specs.Prelude.{◌<◌, IfOk, OnOk};
ghost use Rattle.dict_rows.specs.Dictionary.{IsGroupedDict};

use crate::tests::made::classes_of;
use crate::tests::spelled::{fit, is_dict, rows_of};
use net_model::AnswerRows;
use std::alloc::{AllocError, Global};
use std::test::Fail;
use table_dicts::{AnswerTable, Dict, apart, full, pass_fail, project};

/// A table with bits that are 1, each given by its pattern, number and position.
#[derive(Clone, Copy)]
struct Made {
    patterns: u32,
    numbers: u32,
    positions: u32,
    ones: &'static [(u32, u32, u32)],
}

fn table_of(alloc: Global, made: &Made) -> Result<AnswerTable, Fail>
    ensures { IfOk result (λ table. 0 < table.numbers) }
{
    let mut table = AnswerTable::zeros(alloc, made.patterns, made.numbers, made.positions)?;
    set_bits(&mut table, made.ones)?;
    Ok(table)
}

// Sets these bits of a table of some number.
fn set_bits(table: &mut AnswerTable, ones: &[(u32, u32, u32)]) -> Result<(), Fail>
    ensures { OnOk result (0 < table.new.numbers) }
{
    for (pattern, number, position) in ones {
        set_bit(table, *pattern, *number, *position)?;
    }
    if table.numbers() == 0 {
        return Err(Fail::new("there is no number"));
    }
    Ok(())
}

fn set_bit(table: &mut AnswerTable, pattern: u32, number: u32, position: u32) -> Result<(), Fail> {
    if pattern >= table.patterns() || number >= table.numbers() || position >= table.positions() {
        return Err(Fail::new("there is no such bit"));
    }
    table.set(pattern, number, position, true);
    Ok(())
}

// Four numbers whose answers are 00, 01, 01, 10 at pattern 0 and 00, 01, 10, 01 at pattern 1.
const FOUR: Made = Made {
    patterns: 2,
    numbers: 4,
    positions: 2,
    ones: &[
        (0, 1, 1),
        (0, 2, 1),
        (0, 3, 0),
        (1, 1, 1),
        (1, 2, 0),
        (1, 3, 1),
    ],
};

// Three numbers that answer alike up to pattern 63. Number 1 answers otherwise to pattern 64, and number 2 to pattern
// 69.
const LONG: Made = Made {
    patterns: 70,
    numbers: 3,
    positions: 1,
    ones: &[(64, 1, 0), (69, 2, 0)],
};

const NO_PATTERNS: Made = Made {
    patterns: 0,
    numbers: 3,
    positions: 1,
    ones: &[],
};

const NO_POSITIONS: Made = Made {
    positions: 0,
    patterns: 2,
    numbers: 3,
    ones: &[],
};

const ONE_NUMBER: Made = Made {
    numbers: 1,
    ones: &[],
    patterns: 1,
    positions: 2,
};

// A table, its full dictionary, and its pass/fail dictionary.
const MADE: &[(Made, &str, &str)] = &[
    (
        FOUR,
        "Full 2 2 4: : 0 1 2 3 : 0000 0101 0110 1001 ",
        "PassFail 2 2 4: 00 00 : 0 1 1 1 : 00 11 11 11 ",
    ),
    (
        NO_PATTERNS,
        "Full 1 0 3: : 0 0 0 :    ",
        "PassFail 1 0 3: : 0 0 0 :    ",
    ),
    (
        NO_POSITIONS,
        "Full 0 2 3: : 0 0 0 :    ",
        "PassFail 0 2 3:   : 0 0 0 : 00 00 00 ",
    ),
    (
        ONE_NUMBER,
        "Full 2 1 1: : 0 : 00 ",
        "PassFail 2 1 1: 00 : 0 : 0 ",
    ),
];

fn is_full(alloc: Global, table: &AnswerTable, wanted: &str) -> Result<bool, Fail>
    requires { 0 < table.now.numbers }
{
    let dict = full(alloc, table)?;
    is_dict(alloc, &dict, wanted)
}

fn is_pass_fail(alloc: Global, table: &AnswerTable, wanted: &str) -> Result<bool, Fail>
    requires { 0 < table.now.numbers }
{
    let dict = pass_fail(alloc, table)?;
    is_dict(alloc, &dict, wanted)
}

fn are_of(alloc: Global, table: &AnswerTable, all: &str, fails: &str) -> Result<bool, Fail>
    requires { 0 < table.now.numbers }
{
    Ok(is_full(alloc, table, all)? && is_pass_fail(alloc, table, fails)?)
}

fn are_made(alloc: Global, made: &Made, all: &str, fails: &str) -> Result<bool, Fail> {
    let table = table_of(alloc, made)?;
    are_of(alloc, &table, all, fails)
}

#[test]
fn full_and_pass_fail(rt: HostRuntime) -> Result<(), Fail> {
    for (at, (made, all, fails)) in MADE.iter().enumerate() {
        assert!(rt; are_made(rt.alloc(), made, all, fails)?, "case {at}");
    }
    Ok(())
}

fn tells_three(dict: &Dict) -> bool {
    dict.groups.as_slice() == [0, 1, 2].as_slice()
}

fn full_tells_three(alloc: Global, table: &AnswerTable) -> Result<bool, AllocError>
    requires { 0 < table.now.numbers }
{
    let dict = full(alloc, table)?;
    Ok(tells_three(&dict))
}

fn pass_fail_tells_three(alloc: Global, table: &AnswerTable) -> Result<bool, AllocError>
    requires { 0 < table.now.numbers }
{
    let dict = pass_fail(alloc, table)?;
    Ok(tells_three(&dict))
}

// Returns whether both dictionaries keep three numbers apart.
fn tell_three(alloc: Global, table: &AnswerTable) -> Result<bool, AllocError>
    requires { 0 < table.now.numbers }
{
    Ok(full_tells_three(alloc, table)? && pass_fail_tells_three(alloc, table)?)
}

#[test]
fn long_entries(rt: HostRuntime) -> Result<(), Fail> {
    let table = table_of(rt.alloc(), &LONG)?;
    assert!(rt; tell_three(rt.alloc(), &table)?);
    Ok(())
}

fn projected(alloc: Global, table: &AnswerTable, rows: &AnswerRows) -> Result<Dict, Fail>
    requires { 0 < table.now.numbers }
    ensures { IfOk result IsGroupedDict }
{
    if !fit(rows, table.patterns(), table.positions()) {
        return Err(Fail::new("the baselines don't fit"));
    }
    Ok(project(alloc, table, rows)?)
}

// Returns the same/different dictionary of the four numbers with these baselines.
fn four_projected(alloc: Global, rows: &AnswerRows) -> Result<Dict, Fail>
    ensures { IfOk result IsGroupedDict }
{
    let table = table_of(alloc, &FOUR)?;
    projected(alloc, &table, rows)
}

// Returns whether `pairs` of the six pairs of the four numbers are kept apart.
fn parts(alloc: Global, dict: &Dict, pairs: u64) -> Result<bool, Fail>
    requires { IsGroupedDict dict.now }
{
    // Pattern 1 separates number 2 from number 1.
    let classes = classes_of(alloc, &["00 01 01 10", "00 01 10 01"], 4, 2)?;
    if dict.numbers != 4 {
        return Err(Fail::new("there aren't four numbers"));
    }
    Ok(apart(alloc, dict, &classes)? == pairs)
}

// Returns whether a dictionary of the four numbers is the wanted one, and `pairs` pairs are kept apart.
fn is_told(alloc: Global, dict: &Dict, wanted: &str, pairs: u64) -> Result<bool, Fail>
    requires { IsGroupedDict dict.now }
{
    Ok(parts(alloc, dict, pairs)? && is_dict(alloc, dict, wanted)?)
}

fn is_four_at(alloc: Global, rows: &AnswerRows, wanted: &str, pairs: u64) -> Result<bool, Fail> {
    let dict = four_projected(alloc, rows)?;
    is_told(alloc, &dict, wanted, pairs)
}

// Returns whether the four numbers have the wanted dictionary with these baselines, and `pairs` pairs are kept apart.
fn is_four(alloc: Global, baselines: &[&str], wanted: &str, pairs: u64) -> Result<bool, Fail> {
    let rows = rows_of(alloc, 2, baselines)?;
    is_four_at(alloc, &rows, wanted, pairs)
}

#[test]
fn same_different(rt: HostRuntime) -> Result<(), Fail> {
    let chosen = "SameDiff 2 2 4: 01 01 : 0 1 2 3 : 11 00 01 10 ";
    assert!(rt; is_four(rt.alloc(), &["01", "01"], chosen, 6)?);
    let free = "SameDiff 2 2 4: 00 00 : 0 1 1 1 : 00 11 11 11 ";
    assert!(rt; is_four(rt.alloc(), &["00", "00"], free, 3)?);
    Ok(())
}
