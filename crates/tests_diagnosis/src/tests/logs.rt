//! Which fault numbers of an AND of two sources a log lists.

ghost use Rattle.std.specs.Prelude.{◌<◌, IfOk, OnOk};
ghost use Rattle.dict_rows.specs.Dictionary.{IsGroupedDict, IsShaped};
ghost use Rattle.dict_rows.specs.Rows.{AreRows};

use diagnose::{matches, read_log};
use net_model::AnswerRows;
use std::alloc::{AllocError, Global};
use std::test::Fail;
use table_dicts::{AnswerTable, Dict, DictKind, full, pass_fail};

// The patterns and numbers at which the AND answers 1. The patterns are 00, 10, 01 and 11. The numbers are the
// fault-free circuit, each source at 0 and at 1, and the gate at 0 and at 1.
const ONES: &[(u32, u32)] = &[
    (3, 0),
    (2, 2),
    (3, 2),
    (1, 4),
    (3, 4),
    (0, 6),
    (1, 6),
    (2, 6),
    (3, 6),
];

fn table(alloc: Global) -> Result<AnswerTable, Fail>
    ensures { IfOk result (λ table. 0 < table.numbers) }
{
    let mut table = AnswerTable::zeros(alloc, 4, 7, 1)?;
    set_ones(&mut table)?;
    Ok(table)
}

fn set_ones(table: &mut AnswerTable) -> Result<(), Fail>
    ensures { OnOk result (0 < table.new.numbers) }
{
    for (pattern, number) in ONES {
        if *pattern >= table.patterns() || *number >= table.numbers() || table.positions() == 0 {
            return Err(Fail::new("there is no such bit"));
        }
        table.set(*pattern, *number, 0, true);
    }
    if table.numbers() == 0 {
        return Err(Fail::new("there is no number"));
    }
    Ok(())
}

fn dict_at(alloc: Global, kind: DictKind, table: &AnswerTable) -> Result<Dict, AllocError>
    requires { 0 < table.now.numbers }
    ensures grouped { IfOk result IsGroupedDict }
    ensures shaped { IfOk result IsShaped }
{
    match kind {
        DictKind::Full => full(alloc, table),
        DictKind::PassFail | DictKind::SameDiff => pass_fail(alloc, table),
    }
}

// Returns whether observed answers list these numbers.
fn list_these(
    alloc: Global,
    dict: &Dict,
    observed: &AnswerRows,
    listed: &[u32],
) -> Result<bool, AllocError>
    requires grouped { IsGroupedDict dict.now }
    requires shaped { IsShaped dict.now }
    requires observed { AreRows dict.now.patterns dict.now.positions observed.now }
{
    let found = matches(alloc, dict, observed)?;
    Ok(found.as_slice() == listed)
}

// Returns whether a log lists these numbers.
fn lists(alloc: Global, dict: &Dict, log: &str, listed: &[u32]) -> Result<bool, Fail>
    requires grouped { IsGroupedDict dict.now }
    requires shaped { IsShaped dict.now }
{
    let observed = read_log(alloc, dict, log.as_bytes())?;
    Ok(list_these(alloc, dict, &observed, listed)?)
}

// Returns whether a log lists these numbers with the dictionary of a kind.
fn lists_by(
    alloc: Global,
    kind: DictKind,
    table: &AnswerTable,
    log: &str,
    listed: &[u32],
) -> Result<bool, Fail>
    requires { 0 < table.now.numbers }
{
    let dict = dict_at(alloc, kind, table)?;
    lists(alloc, &dict, log, listed)
}

// Returns whether a log lists these numbers with both dictionaries, pass/fail and full.
fn are_listed(alloc: Global, table: &AnswerTable, log: &str, listed: &[u32]) -> Result<bool, Fail>
    requires { 0 < table.now.numbers }
{
    Ok(
        lists_by(alloc, DictKind::PassFail, table, log, listed)?
            && lists_by(alloc, DictKind::Full, table, log, listed)?,
    )
}

fn is_answered(alloc: Global, log: &str, listed: &[u32]) -> Result<bool, Fail> {
    let table = table(alloc)?;
    are_listed(alloc, &table, log, listed)
}

const LOGS: &[(&str, &[u32])] = &[
    ("0 0\n1 0\n2 0\n3 0\n", &[1, 3, 5]),
    ("0 1\n1 1\n2 1\n3 1\n", &[6]),
    ("0 1\n1 0\n2 0\n3 0\n", &[]),
    ("0 0\n1 0\n2 0\n3 1\n", &[0]),
    ("0 0\n1 0\n2 1\n3 1\n", &[2]),
    ("0 0\n1 1\n2 0\n3 1\n", &[4]),
];

#[test]
fn listed_numbers(rt: HostRuntime) -> Result<(), Fail> {
    for (log, listed) in LOGS {
        assert!(rt; is_answered(rt.alloc(), log, listed)?, "{log}");
    }
    Ok(())
}
