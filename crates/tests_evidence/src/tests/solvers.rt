//! What the solver returns for a circuit without a fault and with one: vectors, and logs of both kinds, which the
//! checker accepts.

ghost use Rattle.std.specs.Prelude.{◌≡◌, ◌≢◌, ◌<◌, ◌≤◌, ◌^◌, []};
ghost use Rattle.net_model.specs.Fault.{IsFaultOf};
ghost use Rattle.evidence_rules.specs.declared.refusal.EvidenceKind as EvidenceKind;

use crate::tests::logs::checked;
use clause_pool::Pool;
use learn_solver::{Solved, solve};
use net_model::Fault::{self, Free, Stuck};
use net_model::Site::{Pin, Stem};
use net_model::{Circuit, Kind};
use pair_miter::{Log, build};
use refute_check::EvidenceKind;
use sample_circuits::{CircuitParts, NOT_AND_OR, circuit, stands};
use std::alloc::{AllocError, Global};
use std::test::Fail;

#[derive(Clone, Copy, PartialEq, Eq)]
enum Ending {
    Vector,
    Refuted,
    Spent,
    Rejected,
}

// Returns what the solver returns within `most` conflicts, with the clauses in an empty pool.
fn solved_in(
    alloc: Global,
    circuit: &Circuit,
    stuck: Fault,
    pool: &mut Pool,
    most: u32,
) -> Result<Solved, AllocError>
    requires empty { pool.old.clauses ≡ [] }
    requires few { most < 2 ^ 16 }
    requires some { 1 ≤ most }
    requires fault { IsFaultOf circuit.now stuck }
{
    let miter = build(alloc, circuit, &Free, &stuck, pool)?;
    let (built, counted) = (pool.len(), miter.clause_count());
    prove!(built == counted);
    solve(alloc, &miter, pool, most)
}

// As `solved_in`, in a new pool.
fn solved(alloc: Global, circuit: &Circuit, stuck: Fault, most: u32) -> Result<Solved, AllocError>
    requires few { most < 2 ^ 16 }
    requires some { 1 ≤ most }
    requires fault { IsFaultOf circuit.now stuck }
{
    let mut pool = Pool::with_room(alloc, 0, 0)?;
    solved_in(alloc, circuit, stuck, &mut pool, most)
}

// Returns the ending of a log of kind `kind` if the checker accepts it over the clauses built anew, else `Rejected`.
fn judged(
    alloc: Global,
    circuit: &Circuit,
    stuck: Fault,
    log: &Log,
    kind: EvidenceKind,
    most: u32,
) -> Result<Ending, AllocError>
    requires kind { kind ≢ EvidenceKind.Covered }
    requires few { most < 2 ^ 16 }
    requires fault { IsFaultOf circuit.now stuck }
{
    let found = checked(alloc, circuit, stuck, log, kind, most)?;
    Ok(match (found.is_ok(), kind) {
        (false, _) => Ending::Rejected,
        (true, EvidenceKind::Spent) => Ending::Spent,
        (true, _) => Ending::Refuted,
    })
}

// Returns how the solver ends.
fn answer_of(
    alloc: Global,
    circuit: &Circuit,
    stuck: Fault,
    most: u32,
) -> Result<Ending, AllocError>
    requires few { most < 2 ^ 16 }
    requires some { 1 ≤ most }
    requires fault { IsFaultOf circuit.now stuck }
{
    match solved(alloc, circuit, stuck, most)? {
        Solved::Vector(_v) => Ok(Ending::Vector),
        Solved::Refuted(log) => judged(alloc, circuit, stuck, &log, EvidenceKind::Refuted, most),
        Solved::Spent(log) => judged(alloc, circuit, stuck, &log, EvidenceKind::Spent, most),
    }
}

// The parity of four sources, and the opposite parity by twos; line 8 is the XOR of both, which is always 1.
const PARITIES: CircuitParts<'static> = CircuitParts {
    sources: 4,
    gates: &[
        (Kind::Xor, &[0, 1, 2, 3]),
        (Kind::Xor, &[0, 2]),
        (Kind::Xor, &[1, 3]),
        (Kind::Xnor, &[5, 6]),
        (Kind::Xor, &[4, 7]),
    ],
    positions: &[8],
};

// A source that no position shows.
const LONE_SOURCE: CircuitParts<'static> = CircuitParts {
    sources: 1,
    gates: &[],
    positions: &[],
};

// Line 1 is the AND of the source with itself.
const AND_OF_ONE: CircuitParts<'static> = CircuitParts {
    sources: 1,
    gates: &[(Kind::And, &[0, 0])],
    positions: &[1],
};

// An output that is always 1, a source that no position shows, a pin beside its own source, and two parities that
// differ.
const ANSWERS: &[(CircuitParts<'static>, Fault, u16, Ending)] = &[
    (NOT_AND_OR, Stuck(Stem(2), true), 64, Ending::Refuted),
    (NOT_AND_OR, Stuck(Stem(2), true), 1, Ending::Refuted),
    (NOT_AND_OR, Stuck(Stem(2), false), 64, Ending::Vector),
    (LONE_SOURCE, Stuck(Stem(0), true), 1, Ending::Refuted),
    (AND_OF_ONE, Stuck(Pin(1, 0), true), 64, Ending::Refuted),
    (AND_OF_ONE, Stuck(Pin(1, 0), false), 64, Ending::Vector),
    (PARITIES, Stuck(Stem(8), true), 1, Ending::Spent),
    (PARITIES, Stuck(Stem(8), true), 3, Ending::Spent),
    (PARITIES, Stuck(Stem(8), true), 1000, Ending::Refuted),
    (PARITIES, Stuck(Stem(8), false), 1000, Ending::Vector),
];

// Returns how the solver ends for a circuit that has the fault.
fn answer_in(
    alloc: Global,
    circuit: &Circuit,
    stuck: Fault,
    conflicts: u16,
) -> Result<Ending, Fail> {
    if conflicts == 0 || !stands(circuit, stuck) {
        return Err(Fail::new("there is no conflict, or the fault doesn't stand"));
    }
    Ok(answer_of(alloc, circuit, stuck, conflicts as u32)?)
}

// As `answer_in`, for the circuit of these parts.
fn answer_for(
    alloc: Global,
    parts: CircuitParts,
    stuck: Fault,
    conflicts: u16,
) -> Result<Ending, Fail> {
    let circuit = circuit(alloc, parts)?;
    answer_in(alloc, &circuit, stuck, conflicts)
}

#[test]
fn answers_of_the_solver(rt: HostRuntime) -> Result<(), Fail> {
    for (at, (parts, stuck, conflicts, wanted)) in ANSWERS.iter().enumerate() {
        let found = answer_for(rt.alloc(), *parts, *stuck, *conflicts)?;
        assert!(rt; found == *wanted, "case {at}");
    }
    Ok(())
}
