//! Logs without the chains that the end of the last one doesn't need.

ghost use Rattle.std.specs.Prelude.{◌<◌, ◌+◌, ◌^◌, length};

use crate::tests::logs::{Linked, lit, log_of};
use learn_solver::trim;
use pair_miter::{Chain, Log};
use std::alloc::Global;
use std::test::Fail;

// How many clauses come before the chains' ends, the chains of a log, and those that are left.
type Shortened = (u8, &'static [Linked], &'static [Linked]);

const CASES: &[Shortened] = &[
    (2, &[], &[]),
    // One chain.
    (2, &[(None, 1, &[(1, 2)])], &[(None, 1, &[(1, 2)])]),
    // All are needed, and the first is used twice.
    (
        2,
        &[(None, 1, &[(1, 2)]), (None, 3, &[(2, 3), (-1, 2)])],
        &[(None, 1, &[(1, 2)]), (None, 3, &[(2, 3), (-1, 2)])],
    ),
    // The first isn't needed, and the numbers after it go down by one. Those of the clauses stay.
    (
        2,
        &[(None, 1, &[]), (None, 2, &[(1, 1)]), (None, 4, &[(2, 2)])],
        &[(None, 2, &[(1, 1)]), (None, 3, &[(2, 2)])],
    ),
    // 4 uses 3, and the last one 4. Nothing that is needed uses 5 and 6.
    (
        2,
        &[
            (None, 1, &[]),
            (None, 2, &[(1, 3)]),
            (None, 3, &[(1, 4)]),
            (None, 5, &[]),
            (None, 1, &[(3, 4)]),
        ],
        &[(None, 1, &[]), (None, 2, &[(1, 3)]), (None, 1, &[(3, 4)])],
    ),
    // A literal stays, and the last clause keeps its number.
    (
        1,
        &[(None, 1, &[]), (Some(5), 1, &[]), (None, 3, &[])],
        &[(Some(5), 1, &[]), (None, 2, &[])],
    ),
];

fn is_chain(chain: &Chain, wanted: &Linked) -> bool {
    let (at, start, steps) = *wanted;
    chain.start() == start
        && chain.at() == at.map(lit)
        && chain.steps().len() == steps.len()
        && chain
            .steps()
            .iter()
            .zip(steps)
            .all(|(step, wanted)| *step == (lit(wanted.0), wanted.1))
}

fn is_log(log: &Log, wanted: &[Linked]) -> bool {
    log.as_slice().len() == wanted.len()
        && log
            .as_slice()
            .iter()
            .zip(wanted)
            .all(|(chain, wanted)| is_chain(chain, wanted))
}

// Returns whether the trimmed log is the wanted one.
fn is_trimmed(alloc: Global, case: &Shortened) -> Result<bool, Fail> {
    let (count, chains, wanted) = *case;
    let log = log_of(alloc, chains)?;
    if log.as_slice().len() > 100 {
        return Err(Fail::new("the log is too long"));
    }
    let short = trim(alloc, &log, u32::from(count))?;
    Ok(is_log(&short, wanted))
}

#[test]
fn logs_are_trimmed(rt: HostRuntime) -> Result<(), Fail> {
    for (at, case) in CASES.iter().enumerate() {
        assert!(rt; is_trimmed(rt.alloc(), case)?, "case {at}");
    }
    Ok(())
}
