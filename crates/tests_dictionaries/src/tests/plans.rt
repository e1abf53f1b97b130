//! Tests of the plans of small circuits, made without a table of answers and from one.

ghost use Rattle.table_dicts.specs.Setting.{IsSetting};

use crate::tests::circuits::kept_of;
use adaptive_planner::{plan, plan_at};
use adaptive_tree::write_plan;
use fault_collapse::Subject;
use sample_circuits::{AND_OF_TWO, CircuitParts, circuit};
use std::alloc::Global;
use std::test::Fail;
use table_dicts::{Setting, answers_at};

const SHOWN_THREE_TIMES: CircuitParts<'static> = CircuitParts {
    sources: 1,
    gates: &[],
    positions: &[0, 0, 0],
};

const NOTHING: CircuitParts<'static> = CircuitParts {
    sources: 0,
    gates: &[],
    positions: &[],
};

// A circuit, patterns that each split a class, and the plan.
type Case = (CircuitParts<'static>, &'static [&'static str], &'static str);

const CASES: &[Case] = &[
    (
        AND_OF_TWO,
        &["00", "10", "01", "11"],
        "adapt 1 1 4 5\nask 1 2\non 0\nask 2 2\non 0\nask 3 2\non 1\nclass 0\non 0\nclass 4\non 1\nclass 3\non 1\nask 0 2\non 1\nclass 1\non 0\nclass 2\nend\n",
    ),
    (
        SHOWN_THREE_TIMES,
        &["0", "1"],
        "adapt 1 3 2 9\nask 0 5\non 000\nask 1 5\non 111\nclass 0\non 000\nclass 5\non 011\nclass 6\non 101\nclass 7\non 110\nclass 8\non 111\nclass 1\non 100\nclass 2\non 010\nclass 3\non 001\nclass 4\nend\n",
    ),
    (NOTHING, &[], "adapt 1 0 0 1\nclass 0\nend\n"),
];

// Returns whether the plan of the setting is the wanted one.
fn is_planned(alloc: Global, setting: &Setting, wanted: &str) -> Result<bool, Fail>
    requires { IsSetting setting.now }
{
    let made = plan_at(alloc, setting)?;
    let text = write_plan(alloc, &made)?;
    Ok(text.as_slice() == wanted.as_bytes())
}

// Returns whether the plan from a table of the setting's answers is the wanted one.
fn is_planned_by_table(alloc: Global, setting: &Setting, wanted: &str) -> Result<bool, Fail>
    requires { IsSetting setting.now }
{
    let circuit = setting.subject.circuit();
    let table = answers_at(alloc, circuit, setting.subject.listed(), setting.patterns)?;
    let made = plan(alloc, &table, setting.classes)?;
    let text = write_plan(alloc, &made)?;
    Ok(text.as_slice() == wanted.as_bytes())
}

fn is_kept(alloc: Global, subject: &Subject, case: &Case) -> Result<bool, Fail> {
    let kept = kept_of(alloc, subject, case.1)?;
    let setting = Setting {
        subject,
        patterns: &kept.patterns,
        classes: &kept.classes,
    };
    Ok(is_planned(alloc, &setting, case.2)? && is_planned_by_table(alloc, &setting, case.2)?)
}

fn holds(alloc: Global, case: &Case) -> Result<bool, Fail> {
    let circuit = circuit(alloc, case.0)?;
    let subject = Subject::new(alloc, &circuit)?;
    is_kept(alloc, &subject, case)
}

#[test]
fn plans_of_circuits(rt: HostRuntime) -> Result<(), Fail> {
    for (at, case) in CASES.iter().enumerate() {
        assert!(rt; holds(rt.alloc(), case)?, "case {at}");
    }
    Ok(())
}
