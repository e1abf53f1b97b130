//! How partial logs rank the fault numbers of small circuits, by each kind of dictionary, and partial logs that are refused.

ghost use Rattle.std.specs.Prelude.{◌≡◌, ◌<◌, IfOk, OnOk};
ghost use Rattle.dict_rows.specs.declared.dict.DictKind.TheVariants as dict_kind;
ghost use Rattle.dict_rows.specs.Dictionary.{IsGroupedDict, IsShaped};

use diagnose::{LogFault, LogKind};
use ranked_diag::{Ranking, mismatches, ranking, read_partial};
use std::alloc::{AllocError, Global};
use std::test::Fail;
use table_dicts::{AnswerTable, Dict, DictKind, full, pass_fail};

// How many patterns, numbers and positions there are, and the pattern, number and position of each 1 among the answers.
struct DrawnCircuit {
    patterns: u32,
    numbers: u32,
    positions: u32,
    ones: &'static [(u32, u32, u32)],
}

// A log, how far above the least its ranking goes, and the counts and numbers that are ranked.
type Case = (&'static str, u32, &'static [(u64, u32)]);

fn table_of(alloc: Global, circuit: &DrawnCircuit) -> Result<AnswerTable, Fail>
    ensures { IfOk result (λ table. 0 < table.numbers) }
{
    let mut table = AnswerTable::zeros(
        alloc,
        circuit.patterns,
        circuit.numbers,
        circuit.positions,
    )?;
    set_ones(&mut table, circuit.ones)?;
    Ok(table)
}

fn set_ones(table: &mut AnswerTable, ones: &[(u32, u32, u32)]) -> Result<(), Fail>
    ensures { OnOk result (0 < table.new.numbers) }
{
    for (pattern, number, position) in ones {
        if *pattern >= table.patterns()
            || *number >= table.numbers()
            || *position >= table.positions()
        {
            return Err(Fail::new("there is no such bit"));
        }
        table.set(*pattern, *number, *position, true);
    }
    if table.numbers() == 0 {
        return Err(Fail::new("there is no number"));
    }
    Ok(())
}

// Returns the dictionary of a kind. The baselines of a same/different one are what the fault-free circuit answers.
fn dict_at(alloc: Global, kind: DictKind, table: &AnswerTable) -> Result<Dict, AllocError>
    requires { 0 < table.now.numbers }
    ensures grouped { IfOk result IsGroupedDict }
    ensures shaped { IfOk result IsShaped }
{
    match kind {
        DictKind::Full => full(alloc, table),
        DictKind::PassFail => pass_fail(alloc, table),
        DictKind::SameDiff => {
            let mut dict = pass_fail(alloc, table)?;
            as_same_diff(&mut dict);
            Ok(dict)
        }
    }
}

fn as_same_diff(dict: &mut Dict)
    requires kind { dict.old.kind ≡ dict_kind.PassFail }
    requires grouped { IsGroupedDict dict.old }
    requires shaped { IsShaped dict.old }
    ensures grouped { IsGroupedDict dict.new }
    ensures shaped { IsShaped dict.new }
{
    dict.kind = DictKind::SameDiff;
}

fn are_ranks(ranking: &Ranking, ranks: &[(u64, u32)]) -> bool {
    if ranking.len() != ranks.len() {
        return false;
    }
    for (at, rank) in ranks.iter().enumerate() {
        if ranking.get(at) != *rank {
            return false;
        }
    }
    true
}

// Returns whether a dictionary ranks a log as its case says.
fn is_ranked(alloc: Global, dict: &Dict, case: &Case) -> Result<bool, Fail>
    requires grouped { IsGroupedDict dict.now }
    requires shaped { IsShaped dict.now }
{
    let partial = read_partial(alloc, dict, case.0.as_bytes())?;
    let counts = mismatches(alloc, dict, &partial)?;
    if counts.len() == 0 || counts.len() >= 1 << 32 {
        return Ok(false);
    }
    let ranks = ranking(alloc, &counts, case.1)?;
    Ok(are_ranks(&ranks, case.2))
}

// Returns whether the dictionary of each kind ranks a log as its case says.
fn is_ranked_by_all(alloc: Global, circuit: &DrawnCircuit, case: &Case) -> Result<bool, Fail> {
    let table = table_of(alloc, circuit)?;
    let full = dict_at(alloc, DictKind::Full, &table)?;
    let pass_fail = dict_at(alloc, DictKind::PassFail, &table)?;
    let same_diff = dict_at(alloc, DictKind::SameDiff, &table)?;
    Ok(
        is_ranked(alloc, &full, case)?
            && is_ranked(alloc, &pass_fail, case)?
            && is_ranked(alloc, &same_diff, case)?,
    )
}

// An AND of two sources with the patterns 00, 10, 01 and 11. The numbers are the fault-free circuit, each source at 0
// and at 1, and the gate at 0 and at 1.
const AND: DrawnCircuit = DrawnCircuit {
    patterns: 4,
    numbers: 7,
    positions: 1,
    ones: &[
        (3, 0, 0),
        (2, 2, 0),
        (3, 2, 0),
        (1, 4, 0),
        (3, 4, 0),
        (0, 6, 0),
        (1, 6, 0),
        (2, 6, 0),
        (3, 6, 0),
    ],
};

const AND_LOGS: &[Case] = &[
    ("1 1\n3 x\n", 0, &[(0, 4), (0, 6)]),
    (
        "0 0\n1 1\n2 0\n3 0\n",
        1,
        &[(1, 1), (1, 3), (1, 4), (1, 5), (2, 0)],
    ),
    ("0 0\n1 1\n2 0\n3 0\n", 0, &[(1, 1), (1, 3), (1, 4), (1, 5)]),
    (
        "0 0\n1 1\n2 0\n3 0\n",
        1_000_000,
        &[(1, 1), (1, 3), (1, 4), (1, 5), (2, 0), (3, 2), (3, 6)],
    ),
    ("0 0\n1 0\n2 0\n3 0\n", 0, &[(0, 1), (0, 3), (0, 5)]),
    (
        "",
        0,
        &[(0, 0), (0, 1), (0, 2), (0, 3), (0, 4), (0, 5), (0, 6)],
    ),
    (
        "0 x\n2 x\n",
        0,
        &[(0, 0), (0, 1), (0, 2), (0, 3), (0, 4), (0, 5), (0, 6)],
    ),
];

// Two positions, with a fault that is seen at the second one.
const TWO: DrawnCircuit = DrawnCircuit {
    patterns: 1,
    numbers: 2,
    positions: 2,
    ones: &[(0, 1, 1)],
};

const TWO_LOGS: &[Case] = &[
    ("0 x1\n", 0, &[(0, 1)]),
    ("0 x1\n", 1, &[(0, 1), (1, 0)]),
    ("0 0x\n", 0, &[(0, 0), (0, 1)]),
];

// More patterns than a word has bits.
const LONG: DrawnCircuit = DrawnCircuit {
    patterns: 130,
    numbers: 2,
    positions: 1,
    ones: &[(65, 1, 0), (129, 1, 0)],
};

const LONG_LOGS: &[Case] = &[
    ("1 1\n65 1\n128 0\n129 1\n", 2, &[(1, 1), (3, 0)]),
    ("63 0\n64 0\n65 0\n", 0, &[(0, 0)]),
];

// No positions.
const BLIND: DrawnCircuit = DrawnCircuit {
    patterns: 2,
    numbers: 2,
    positions: 0,
    ones: &[],
};

const BLIND_LOGS: &[Case] = &[
    ("0 -\n1 -\n", 0, &[(0, 0), (0, 1)]),
    ("1 -\n", 3, &[(0, 0), (0, 1)]),
];

#[test]
fn ranked_numbers(rt: HostRuntime) -> Result<(), Fail> {
    for (circuit, cases) in [
        (&AND, AND_LOGS),
        (&TWO, TWO_LOGS),
        (&LONG, LONG_LOGS),
        (&BLIND, BLIND_LOGS),
    ] {
        for case in cases {
            assert!(rt; is_ranked_by_all(rt.alloc(), circuit, case)?, "{}", case.0);
        }
    }
    Ok(())
}

// A log, and the rule that it breaks and the line, or none if it is read.
type RefusedLog = (&'static str, Option<(LogKind, u64)>);

const REFUSALS: &[RefusedLog] = &[
    ("1 0\n1 0\n", Some((LogKind::Order, 2))),
    ("2 0\n1 0\n", Some((LogKind::Order, 2))),
    ("9 0\n", Some((LogKind::Order, 1))),
    ("9 00\n", Some((LogKind::Order, 1))),
    ("4294967295 0\n", Some((LogKind::Order, 1))),
    ("4294967296 0\n", Some((LogKind::Syntax, 1))),
    ("0 xx\n", Some((LogKind::Width, 1))),
    ("0 -\n", Some((LogKind::Width, 1))),
    ("0 2\n", Some((LogKind::Syntax, 1))),
    ("0 X\n", Some((LogKind::Syntax, 1))),
    ("0 x-\n", Some((LogKind::Syntax, 1))),
    ("0 \n", Some((LogKind::Syntax, 1))),
    ("0 x\n3 1", Some((LogKind::Syntax, 2))),
    ("0 x\n3 1\n", None),
    ("", None),
];

// Returns whether the log is read, or breaks the rule in the line.
fn is_answered(alloc: Global, dict: &Dict, case: &RefusedLog) -> bool {
    match read_partial(alloc, dict, case.0.as_bytes()) {
        Ok(_partial) => case.1 == None,
        Err(LogFault::At(kind, line)) => case.1 == Some((kind, line)),
        Err(LogFault::NoMemory) => false,
    }
}

#[test]
fn refused_partial_logs(rt: HostRuntime) -> Result<(), Fail> {
    let table = table_of(rt.alloc(), &AND)?;
    let dict = dict_at(rt.alloc(), DictKind::Full, &table)?;
    for case in REFUSALS {
        assert!(rt; is_answered(rt.alloc(), &dict, case), "{}", case.0);
    }
    Ok(())
}
