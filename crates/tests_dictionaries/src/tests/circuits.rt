//! Tests of the dictionaries of three small circuits, made with and without a table.

ghost use Rattle.std.specs.Prelude.{◌≡◌, ◌<◌, ◌^◌, length, All, IfOk, OnOk};
ghost use Rattle.net_model.specs.FaultList.{fault_count};
ghost use Rattle.net_model.specs.PatternRows.{IsTableOf};
ghost use Rattle.dict_rows.specs.Dictionary.{IsGroupedDict};
ghost use Rattle.dict_rows.specs.Rows.{AreRows};
ghost use Rattle.table_dicts.specs.Setting.{IsSetting};

use crate::tests::spelled::is_dict;
use class_refine::Classes;
use fault_collapse::Subject;
use kept_vectors::Keeper;
use net_model::{Circuit, Vector, Vectors};
use sample_circuits::{AND_OF_TWO, CircuitParts, SHOWN_TWICE, bits, circuit};
use std::alloc::{AllocError, Global};
use std::test::Fail;
use table_dicts::{
    AnswerTable, Dict, Setting, answers_at, apart, full, full_at, pass_fail, pass_fail_at, project,
};

// Vectors that each split a class left by the vectors before, and the classes of all of them.
#[derive(Drop)]
pub(crate) struct Kept {
    pub(crate) patterns: Vectors,
    pub(crate) classes: Classes,
}

// Shows these vectors to a keeper of the circuit.
fn keep_all(
    alloc: Global,
    circuit: &Circuit,
    keeper: &mut Keeper,
    texts: &[&str],
) -> Result<(), Fail>
    requires { keeper.old.circuit ≡ circuit.now }
    ensures { OnOk result (keeper.new.circuit ≡ circuit.now) }
{
    for text in texts {
        keep_text(alloc, circuit, keeper, text)?;
    }
    Ok(())
}

fn keep_text(alloc: Global, circuit: &Circuit, keeper: &mut Keeper, text: &str) -> Result<(), Fail>
    requires { keeper.old.circuit ≡ circuit.now }
    ensures { OnOk result (keeper.new.circuit ≡ circuit.now) }
{
    let v = bits(alloc, text)?;
    keep_vector(circuit, keeper, &v)
}

fn keep_vector(circuit: &Circuit, keeper: &mut Keeper, v: &Vector) -> Result<(), Fail>
    requires { keeper.old.circuit ≡ circuit.now }
    ensures { OnOk result (keeper.new.circuit ≡ circuit.now) }
{
    if v.len() != circuit.sources() as usize {
        return Err(Fail::new("a vector has another width"));
    }
    keeper.keep(v)?;
    Ok(())
}

// Returns what is kept of these vectors.
pub(crate) fn kept_of(alloc: Global, subject: &Subject, texts: &[&str]) -> Result<Kept, Fail>
    ensures widths { IfOk result (λ kept. All (λ v. length v ≡ subject.now.sources) kept.patterns) }
    ensures few { IfOk result (λ kept. length kept.patterns < 2 ^ 32) }
    ensures numbers { IfOk result (λ kept. length kept.classes.class_of ≡ fault_count subject.now) }
    ensures table { IfOk result (λ kept. IsTableOf subject.now kept.patterns kept.classes) }
{
    let mut keeper = Keeper::new(alloc, subject)?;
    keep_all(alloc, subject.circuit(), &mut keeper, texts)?;
    kept_by(alloc, keeper)
}

// Returns what a keeper has kept.
fn kept_by(alloc: Global, keeper: Keeper) -> Result<Kept, Fail>
    ensures widths { IfOk result (λ kept. All (λ v. length v ≡ keeper.entry.circuit.sources) kept.patterns) }
    ensures few { IfOk result (λ kept. length kept.patterns < 2 ^ 32) }
    ensures numbers { IfOk result (λ kept. length kept.classes.class_of ≡ fault_count keeper.entry.circuit) }
    ensures table { IfOk result (λ kept. IsTableOf keeper.entry.circuit kept.patterns kept.classes) }
{
    let (vectors, classes) = keeper.into_kept();
    let patterns = listed(alloc, vectors)?;
    Ok(Kept { patterns, classes })
}

// Returns these vectors, which are few, as a list.
fn listed(alloc: Global, vectors: Vec<Vector>) -> Result<Vectors, Fail>
    ensures list { IfOk result (λ list. list ≡ vectors.items) }
    ensures few { IfOk result (λ list. length list < 2 ^ 32) }
{
    if vectors.len() > 1000 {
        return Err(Fail::new("there are too many vectors"));
    }
    let mut list = Vectors::new(alloc);
    for v in vectors {
        list.push(v)?;
    }
    Ok(list)
}

// A dictionary, and how many pairs of classes it keeps apart.
type Wanted = (&'static str, u64);

// Returns whether a dictionary is the wanted one and keeps the wanted number of pairs apart.
fn is_told(alloc: Global, dict: &Dict, kept: &Kept, wanted: Wanted) -> Result<bool, Fail>
    requires grouped { IsGroupedDict dict.now }
    requires numbers { length kept.now.classes.class_of ≡ dict.now.numbers }
{
    Ok(apart(alloc, dict, &kept.classes)? == wanted.1 && is_dict(alloc, dict, wanted.0)?)
}

fn is_full(alloc: Global, table: &AnswerTable, kept: &Kept, wanted: Wanted) -> Result<bool, Fail>
    requires some { 0 < table.now.numbers }
    requires numbers { length kept.now.classes.class_of ≡ table.now.numbers }
{
    let dict = full(alloc, table)?;
    is_told(alloc, &dict, kept, wanted)
}

// Returns whether the same/different dictionary with the fault-free answers as baselines has the same groups as `dict`,
// the pass/fail one, and keeps `pairs` pairs apart.
fn tells_as_much(
    alloc: Global,
    table: &AnswerTable,
    kept: &Kept,
    dict: &Dict,
    pairs: u64,
) -> Result<bool, Fail>
    requires some { 0 < table.now.numbers }
    requires numbers { length kept.now.classes.class_of ≡ table.now.numbers }
    requires baselines { AreRows (length table.now.rows) table.now.positions dict.now.baselines }
{
    let other = project(alloc, table, &dict.baselines)?;
    let same = other.groups.as_slice() == dict.groups.as_slice();
    Ok(apart(alloc, &other, &kept.classes)? == pairs && same)
}

fn is_pass_fail(
    alloc: Global,
    table: &AnswerTable,
    kept: &Kept,
    wanted: Wanted,
) -> Result<bool, Fail>
    requires some { 0 < table.now.numbers }
    requires numbers { length kept.now.classes.class_of ≡ table.now.numbers }
{
    let dict = pass_fail(alloc, table)?;
    Ok(tells_as_much(alloc, table, kept, &dict, wanted.1)? && is_told(alloc, &dict, kept, wanted)?)
}

// A circuit, patterns that each split a class, the full dictionary, and the pass/fail dictionary.
type Case = (
    CircuitParts<'static>,
    &'static [&'static str],
    Wanted,
    Wanted,
);

const NOTHING: CircuitParts<'static> = CircuitParts {
    sources: 0,
    gates: &[],
    positions: &[],
};

const CASES: &[Case] = &[
    (
        AND_OF_TWO,
        &["00", "10", "01", "11"],
        (
            "Full 1 4 7: : 0 1 2 1 3 1 4 : 0001 0000 0011 0000 0101 0000 1111 ",
            10,
        ),
        (
            "PassFail 1 4 7: 0 0 0 1 : 0 1 2 1 3 1 4 : 0000 0001 0010 0001 0100 0001 1110 ",
            10,
        ),
    ),
    (
        SHOWN_TWICE,
        &["0", "1"],
        (
            "Full 2 2 7: : 0 1 2 3 4 5 6 : 0011 0000 1111 0001 1011 0010 0111 ",
            21,
        ),
        (
            "PassFail 2 2 7: 00 11 : 0 1 2 1 2 1 2 : 00 01 10 01 10 01 10 ",
            15,
        ),
    ),
    (
        NOTHING,
        &[],
        ("Full 0 0 1: : 0 :  ", 0),
        ("PassFail 0 0 1: : 0 :  ", 0),
    ),
];

// Returns whether both are made from a table of all answers.
fn are_tabled(alloc: Global, kept: &Kept, setting: &Setting, case: &Case) -> Result<bool, Fail>
    requires setting { IsSetting setting.now }
    requires numbers { length kept.now.classes.class_of ≡ fault_count setting.now.subject.now }
{
    let table = answers_at(
        alloc,
        setting.subject.circuit(),
        setting.subject.listed(),
        setting.patterns,
    )?;
    if table.numbers() == 0 {
        return Err(Fail::new("there is no number"));
    }
    are_told(alloc, &table, kept, case.2, case.3)
}

fn are_told(
    alloc: Global,
    table: &AnswerTable,
    kept: &Kept,
    all: Wanted,
    fails: Wanted,
) -> Result<bool, Fail>
    requires some { 0 < table.now.numbers }
    requires numbers { length kept.now.classes.class_of ≡ table.now.numbers }
{
    Ok(is_full(alloc, table, kept, all)? && is_pass_fail(alloc, table, kept, fails)?)
}

fn is_full_at(alloc: Global, setting: &Setting, wanted: &str) -> Result<bool, Fail>
    requires { IsSetting setting.now }
{
    let dict = full_at(alloc, setting)?;
    is_dict(alloc, &dict, wanted)
}

fn is_pass_fail_at(alloc: Global, setting: &Setting, wanted: &str) -> Result<bool, Fail>
    requires { IsSetting setting.now }
{
    let dict = pass_fail_at(alloc, setting)?;
    is_dict(alloc, &dict, wanted)
}

// Returns whether both are made without a table, and from one.
fn are_made(alloc: Global, kept: &Kept, setting: &Setting, case: &Case) -> Result<bool, Fail>
    requires setting { IsSetting setting.now }
    requires numbers { length kept.now.classes.class_of ≡ fault_count setting.now.subject.now }
{
    Ok(
        is_full_at(alloc, setting, case.2.0)?
            && is_pass_fail_at(alloc, setting, case.3.0)?
            && are_tabled(alloc, kept, setting, case)?,
    )
}

// Returns whether both dictionaries of this circuit are those of the case.
fn is_kept(alloc: Global, subject: &Subject, case: &Case) -> Result<bool, Fail> {
    let kept = kept_of(alloc, subject, case.1)?;
    let setting = Setting {
        subject,
        patterns: &kept.patterns,
        classes: &kept.classes,
    };
    are_made(alloc, &kept, &setting, case)
}

fn holds(alloc: Global, case: &Case) -> Result<bool, Fail> {
    let circuit = circuit(alloc, case.0)?;
    let subject = Subject::new(alloc, &circuit)?;
    is_kept(alloc, &subject, case)
}

#[test]
fn dictionaries_of_circuits(rt: HostRuntime) -> Result<(), Fail> {
    for (at, case) in CASES.iter().enumerate() {
        assert!(rt; holds(rt.alloc(), case)?, "case {at}");
    }
    Ok(())
}
