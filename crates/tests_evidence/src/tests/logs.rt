//! Logs over miters of small circuits, and sets of literals.

ghost use Rattle.std.specs.Prelude.{◌≡◌, ◌≢◌, ◌<◌, ◌^◌, []};
ghost use Rattle.net_model.specs.Fault.{IsFaultOf};
ghost use Rattle.evidence_rules.specs.declared.refusal.EvidenceKind as EvidenceKind;

use clause_pool::{Lit, Pool};
use net_model::Fault::{self, Free, Stuck};
use net_model::Site::Stem;
use net_model::{Circuit, Kind};
use pair_miter::{Chain, Log, build};
use refute_check::RefusalKind::{
    self, EmptyEarly, NoPivot, NoSuchClause, NotEmpty, NotFresh, WrongCount,
};
use refute_check::{CheckFault, Clause, EvidenceKind, Refusal, check_log, run_chain};
use sample_circuits::{CircuitParts, NOT_AND_OR, circuit, stands};
use std::alloc::{AllocError, Global};
use std::test::Fail;

/// Returns a literal of one of the first hundred variables.
pub(crate) fn lit(number: i32) -> Lit {
    Lit::new(number.unsigned_abs().clamp(1, 100), number > 0)
}

/// A chain: the literal that it names, if it names one, the number of the first clause, and the literals and clauses of
/// the steps.
pub(crate) type Linked = (Option<i32>, u32, &'static [(i32, u32)]);

// How many clauses may be learned, the chains of a log, and the refusal, or none. If the first chain names a literal,
// the log is one that spends its budget, else a refutation.
type Judged = (u16, &'static [Linked], Option<(RefusalKind, u64)>);

const REFUTATION: &[(i32, u32)] = &[(1, 3), (2, 4), (3, 8), (-5, 11), (-4, 6)];

// The steps from clause 8 to the clause that variable 3 is 0.
const FALSE_LINE: &[(i32, u32)] = &[(-5, 11), (-4, 6)];

// An OR of a line and its negation, with its output stuck at 1.
const OF_OPPOSITES: &[Judged] = &[
    (1, &[(None, 1, REFUTATION)], None),
    (1, &[(None, 1, &[(-1, 3)])], Some((NoPivot, 0))),
    (1, &[(None, 1, &[(2, 3)])], Some((NoPivot, 0))),
    (1, &[(None, 12, &[])], Some((NoSuchClause, 0))),
    (1, &[(None, 1, &[(1, 12)])], Some((NoSuchClause, 0))),
    (1, &[(None, 6, &[])], Some((NotEmpty, 0))),
    (
        1,
        &[(None, 1, REFUTATION), (None, 6, &[])],
        Some((EmptyEarly, 0)),
    ),
    (1, &[], Some((WrongCount, 0))),
    (1, &[(Some(3), 1, REFUTATION)], Some((EmptyEarly, 0))),
    (1, &[(Some(5), 8, FALSE_LINE)], Some((NotFresh, 0))),
    (1, &[(Some(-3), 8, FALSE_LINE)], Some((NotFresh, 0))),
    (2, &[(Some(-3), 8, FALSE_LINE)], Some((WrongCount, 1))),
];

// Line 2 is the NOT of b, lines 3 and 4 are the ORs of a with b and with line 2, and line 5 is their AND.
const AND_OF_ORS: CircuitParts<'static> = CircuitParts {
    sources: 2,
    gates: &[
        (Kind::Not, &[1]),
        (Kind::Or, &[0, 1]),
        (Kind::Or, &[0, 2]),
        (Kind::And, &[3, 4]),
    ],
    positions: &[5],
};

// If line 5 isn't 0, both ORs are 1. Then a is 1, which unit propagation doesn't see; it sees that line 3 is 1.
const OF_ORS: &[Judged] = &[
    (1, &[(Some(1), 5, &[(2, 2), (-3, 8)])], None),
    (1, &[(Some(-4), 5, &[(2, 2), (-3, 8)])], Some((NotFresh, 0))),
    (1, &[(Some(1), 5, &[(2, 2)])], Some((NotFresh, 0))),
];

fn push_steps(chain: &mut Chain, steps: &[(i32, u32)]) -> Result<(), AllocError> {
    for (pivot, clause) in steps {
        chain.push(lit(*pivot), *clause)?;
    }
    Ok(())
}

/// Returns the log of these chains.
pub(crate) fn log_of(alloc: Global, chains: &[Linked]) -> Result<Log, AllocError> {
    let mut log = Log::new(alloc);
    for (literal, first, steps) in chains {
        let mut chain = Chain::new(alloc, *first, literal.map(lit));
        push_steps(&mut chain, *steps)?;
        log.push(chain)?;
    }
    Ok(log)
}

fn kind_of(chains: &[Linked]) -> EvidenceKind
    ensures { result ≢ EvidenceKind.Covered }
{
    match chains.first() {
        Some((Some(_), _, _)) => EvidenceKind::Spent,
        _ => EvidenceKind::Refuted,
    }
}

// Returns what the checker says of a log over the miter of a circuit without a fault and with `stuck`, whose clauses
// are built into an empty pool.
fn checked_in(
    alloc: Global,
    circuit: &Circuit,
    stuck: Fault,
    pool: &mut Pool,
    log: &Log,
    kind: EvidenceKind,
    conflicts: u32,
) -> Result<Result<(), CheckFault>, AllocError>
    requires empty { pool.old.clauses ≡ [] }
    requires fault { IsFaultOf circuit.now stuck }
    requires kind { kind ≢ EvidenceKind.Covered }
    requires few { conflicts < 2 ^ 16 }
{
    let miter = build(alloc, circuit, &Free, &stuck, pool)?;
    let (built, counted) = (pool.len(), miter.clause_count());
    prove!(built == counted);
    Ok(check_log(alloc, &miter, pool, log, kind, conflicts))
}

/// As `checked_in`, in a new pool.
pub(crate) fn checked(
    alloc: Global,
    circuit: &Circuit,
    stuck: Fault,
    log: &Log,
    kind: EvidenceKind,
    conflicts: u32,
) -> Result<Result<(), CheckFault>, AllocError>
    requires fault { IsFaultOf circuit.now stuck }
    requires kind { kind ≢ EvidenceKind.Covered }
    requires few { conflicts < 2 ^ 16 }
{
    let mut pool = Pool::with_room(alloc, 0, 0)?;
    checked_in(alloc, circuit, stuck, &mut pool, log, kind, conflicts)
}

// Returns whether the checker says of a log over a circuit what is wanted.
fn is_judged_in(
    alloc: Global,
    circuit: &Circuit,
    stuck: Fault,
    case: &Judged,
) -> Result<bool, Fail> {
    if !stands(circuit, stuck) {
        return Err(Fail::new("the fault doesn't stand"));
    }
    let (conflicts, chains, wanted) = *case;
    let log = log_of(alloc, chains)?;
    let kind = kind_of(chains);
    let found = checked(alloc, circuit, stuck, &log, kind, u32::from(conflicts))?;
    Ok(is_refusal(found, wanted))
}

// As `is_judged_in`, over the circuit of these parts.
fn is_judged(
    alloc: Global,
    parts: CircuitParts,
    stuck: Fault,
    case: &Judged,
) -> Result<bool, Fail> {
    let circuit = circuit(alloc, parts)?;
    is_judged_in(alloc, &circuit, stuck, case)
}

/// Returns whether `found` is the wanted refusal, or accepts if none is wanted.
pub(crate) fn is_refusal(
    found: Result<(), CheckFault>,
    wanted: Option<(RefusalKind, u64)>,
) -> bool {
    match (found, wanted) {
        (Ok(()), None) => true,
        (Err(CheckFault::Refused(refusal)), Some((kind, step))) => refusal
            == Refusal { kind, step },
        _ => false,
    }
}

#[test]
fn logs_are_checked(rt: HostRuntime) -> Result<(), Fail> {
    for (at, case) in OF_OPPOSITES.iter().enumerate() {
        let judged = is_judged(rt.alloc(), NOT_AND_OR, Stuck(Stem(2), true), case)?;
        assert!(rt; judged, "case {at}");
    }
    for (at, case) in OF_ORS.iter().enumerate() {
        let judged = is_judged(rt.alloc(), AND_OF_ORS, Stuck(Stem(5), false), case)?;
        assert!(rt; judged, "case {at} of ORs");
    }
    Ok(())
}

// Returns the end of a chain that resolves the first clause of a pool with the second on 2.
fn resolved(alloc: Global, pool: &Pool) -> Result<Clause, Fail> {
    let mut chain = Chain::new(alloc, 1, None);
    chain.push(lit(2), 2)?;
    Ok(run_chain(alloc, pool, &chain)?)
}

// Returns whether the clauses 1 2 and 1 -2, in an empty pool, are resolved to 1.
fn resolves(alloc: Global, pool: &mut Pool) -> Result<bool, Fail> {
    pool.push(&[lit(1), lit(2)])?;
    pool.push(&[lit(1), lit(-2)])?;
    let end = resolved(alloc, pool)?;
    Ok(end.as_slice() == [lit(1)].as_slice())
}

// As `resolves`, in a new pool.
fn resolves_alone(alloc: Global) -> Result<bool, Fail> {
    let mut pool = Pool::with_room(alloc, 2, 4)?;
    resolves(alloc, &mut pool)
}

// Returns whether the literals 3, -1 and 3 are put in order, each once, into a set with room for three.
fn loads(clause: &mut Clause) -> bool
    requires { clause.old.room ≡ 3 }
{
    clause.load(&[lit(3), lit(-1), lit(3)]);
    clause.as_slice() == [lit(-1), lit(3)].as_slice() && clause.room() == 3
}

#[test]
fn sets_of_literals(rt: HostRuntime) -> Result<(), Fail> {
    assert!(rt; resolves_alone(rt.alloc())?);
    let mut clause = Clause::with_room(rt.alloc(), 3)?;
    assert!(rt; loads(&mut clause));
    Ok(())
}
