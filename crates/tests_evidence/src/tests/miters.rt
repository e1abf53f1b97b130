//! Miters of small circuits, clause by clause, and a chain. All were worked out by hand.

ghost use Rattle.std.specs.Prelude.{◌≡◌, ◌∷◌, [], true, false, IfOk};
ghost use Rattle.net_model.specs.Circuit.{circuit_with};
ghost use Rattle.pair_miter.specs.MiterView.{miter_with};

use clause_pool::{Lit, Pool};
use net_model::Fault::{self, Free, Stuck};
use net_model::Site::{self, Stem};
use net_model::{Bits, Circuit, Kind, Vector};
use pair_miter::{Chain, Log, Miter, MiterSpace, build};
use sample_circuits::{CircuitParts, NOT_AND_OR, circuit, stands};
use std::alloc::{AllocError, Global};
use std::test::Fail;

// Two faults of a circuit, how many variables and clauses their miter has, the clauses of both copies, and those by which the
// copies differ.
#[derive(Clone, Copy)]
struct Case {
    parts: CircuitParts<'static>,
    f: Fault,
    g: Fault,
    counts: &'static str,
    copies: &'static str,
    difference: &'static str,
}

// Line 1 is the AND of the source with itself.
const AND_OF_ONE: CircuitParts<'static> = CircuitParts {
    sources: 1,
    gates: &[(Kind::And, &[0, 0])],
    positions: &[1],
};

// An OR of opposites.
const OPPOSITES: Case = Case {
    parts: NOT_AND_OR,
    f: Free,
    g: Stuck(Stem(2), true),
    counts: "5 11: ",
    copies: "2 1 0 -2 -1 0 3 -1 0 3 -2 0 -3 1 2 0 4 0 ",
    difference: "-5 3 4 0 -5 -3 -4 0 5 -3 4 0 5 3 -4 0 5 0 ",
};

// A source that no position shows; a line at two pins; a multiplexer; and constants in both copies, 1 stuck at 0
// against 0 stuck at 1.
const OTHERS: &[Case] = &[
    Case {
        parts: CircuitParts {
            sources: 1,
            gates: &[],
            positions: &[],
        },
        f: Free,
        g: Stuck(Stem(0), false),
        counts: "0 1: ",
        copies: "",
        difference: "0 ",
    },
    Case {
        parts: AND_OF_ONE,
        f: Free,
        g: Stuck(Stem(1), false),
        counts: "4 9: ",
        copies: "-2 1 0 -2 1 0 2 -1 0 -3 0 ",
        difference: "-4 2 3 0 -4 -2 -3 0 4 -2 3 0 4 2 -3 0 4 0 ",
    },
    Case {
        parts: CircuitParts {
            sources: 3,
            gates: &[(Kind::Mux, &[0, 1, 2])],
            positions: &[3],
        },
        f: Free,
        g: Stuck(Stem(1), false),
        counts: "7 14: ",
        copies: "-3 0 -5 1 2 0 5 1 -2 0 -5 -1 4 0 5 -1 -4 0 -6 1 3 0 6 1 -3 0 -6 -1 4 0 6 -1 -4 0 ",
        difference: "-7 5 6 0 -7 -5 -6 0 7 -5 6 0 7 5 -6 0 7 0 ",
    },
    Case {
        parts: CircuitParts {
            sources: 0,
            gates: &[(Kind::Const1, &[]), (Kind::Const0, &[])],
            positions: &[0, 1],
        },
        f: Stuck(Stem(0), false),
        g: Stuck(Stem(1), true),
        counts: "6 13: ",
        copies: "-1 0 2 0 -3 0 4 0 -5 1 2 0 -5 -1 -2 0 5 -1 2 0 5 1 -2 0 ",
        difference: "-6 3 4 0 -6 -3 -4 0 6 -3 4 0 6 3 -4 0 5 6 0 ",
    },
];

// Appends the literals of a clause as signed numbers, with a 0 after them.
fn push_clause(text: &mut String, clause: &[Lit]) -> Result<(), AllocError> {
    for lit in clause {
        text.push_str(if lit.positive() { "" } else { "-" })?;
        write!(text, "{} ", lit.variable())?;
    }
    text.push_str("0 ")
}

fn push_clauses(text: &mut String, pool: &Pool) -> Result<(), AllocError> {
    for number in 1..=pool.len() {
        push_clause(text, pool.get(number))?;
    }
    Ok(())
}

// Returns two counts and the clauses of a pool as text.
fn counted_text(alloc: Global, variables: u32, count: u32, pool: &Pool) -> Result<String, Fail> {
    let mut text = format!(in alloc; "{variables} {count}: ")?;
    push_clauses(&mut text, pool)?;
    Ok(text)
}

// Returns as text how many variables and clauses the miter of a circuit has, and the clauses, which are built into an
// empty pool.
fn miter_text(
    alloc: Global,
    circuit: &Circuit,
    case: &Case,
    pool: &mut Pool,
) -> Result<String, Fail>
    requires { pool.old.clauses ≡ [] }
{
    if !stands(circuit, case.f) || !stands(circuit, case.g) {
        return Err(Fail::new("a fault doesn't stand"));
    }
    let miter = build(alloc, circuit, &case.f, &case.g, pool)?;
    counted_text(alloc, miter.variables(), miter.clause_count(), pool)
}

// As `miter_text`, for the circuit of the case.
fn case_text(alloc: Global, case: &Case, pool: &mut Pool) -> Result<String, Fail>
    requires { pool.old.clauses ≡ [] }
{
    let circuit = circuit(alloc, case.parts)?;
    miter_text(alloc, &circuit, case, pool)
}

// Returns whether the miter of a case is built into an empty pool as it is wanted.
fn is_built(alloc: Global, case: &Case, pool: &mut Pool) -> Result<bool, Fail>
    requires { pool.old.clauses ≡ [] }
{
    let wanted = format!(in alloc; "{}{}{}", case.counts, case.copies, case.difference)?;
    let text = case_text(alloc, case, pool)?;
    Ok(text.as_str() == wanted.as_str())
}

// Returns whether it is built into a pool with exactly the room that it needs, which doesn't grow.
fn fits(alloc: Global, case: &Case, pool: &mut Pool) -> Result<bool, Fail>
    requires { pool.old.clauses ≡ [] }
{
    Ok(is_built(alloc, case, pool)? && pool.spare_clauses() == 0 && pool.spare_literals() == 0)
}

#[test]
fn a_miter_in_its_room(rt: HostRuntime) -> Result<(), Fail> {
    let mut pool = Pool::with_room(rt.alloc(), 11, 25)?;
    assert!(rt; fits(rt.alloc(), &OPPOSITES, &mut pool)?);
    Ok(())
}

// Returns whether it is built into a pool without room, which grows.
fn grows(alloc: Global, case: &Case) -> Result<bool, Fail> {
    let mut pool = Pool::with_room(alloc, 0, 0)?;
    is_built(alloc, case, &mut pool)
}

#[test]
fn clauses_of_miters(rt: HostRuntime) -> Result<(), Fail> {
    for (number, case) in OTHERS.iter().enumerate() {
        assert!(rt; grows(rt.alloc(), case)?, "miter {number}");
    }
    Ok(())
}

// Returns the space of the miter of a case's faults.
fn used_space<'a>(alloc: Global, circuit: &'a Circuit, case: &Case) -> Result<MiterSpace<'a>, Fail>
    ensures { IfOk result (λ space. space ≡ circuit.now) }
{
    if !stands(circuit, case.f) || !stands(circuit, case.g) {
        return Err(Fail::new("a fault doesn't stand"));
    }
    let mut pool = Pool::with_room(alloc, 0, 0)?;
    let miter = MiterSpace::new(alloc, circuit)?.build(&case.f, &case.g, &mut pool)?;
    Ok(miter.into_space())
}

// As `miter_text`, in the space of another case's miter.
fn next_text(
    alloc: Global,
    circuit: &Circuit,
    before: &Case,
    case: &Case,
    pool: &mut Pool,
) -> Result<String, Fail>
    requires { pool.old.clauses ≡ [] }
{
    let space = used_space(alloc, circuit, before)?;
    if !stands(circuit, case.f) || !stands(circuit, case.g) {
        return Err(Fail::new("a fault doesn't stand"));
    }
    let miter = space.build(&case.f, &case.g, pool)?;
    counted_text(alloc, miter.variables(), miter.clause_count(), pool)
}

// Returns whether the miter of a case, built in the space of another case's miter of the same circuit, is the one that
// is built by itself.
fn is_same_in_used_space(alloc: Global, before: &Case, case: &Case) -> Result<bool, Fail> {
    let circuit = circuit(alloc, case.parts)?;
    let mut own = Pool::with_room(alloc, 0, 0)?;
    let mut pool = Pool::with_room(alloc, 0, 0)?;
    let wanted = miter_text(alloc, &circuit, case, &mut own)?;
    let text = next_text(alloc, &circuit, before, case, &mut pool)?;
    Ok(text.as_str() == wanted.as_str())
}

// Other faults of the same circuit: all lines are split, one after the other.
const ALL_SPLIT: Case = Case {
    f: Stuck(Stem(0), false),
    g: Stuck(Stem(0), true),
    ..OPPOSITES
};

#[test]
fn a_second_miter_in_one_space(rt: HostRuntime) -> Result<(), Fail> {
    assert!(rt; is_same_in_used_space(rt.alloc(), &ALL_SPLIT, &OPPOSITES)?);
    assert!(rt; is_same_in_used_space(rt.alloc(), &OPPOSITES, &ALL_SPLIT)?);
    Ok(())
}

// Returns a model in which the source and the line are 1 without the fault, and the line is 0 with it.
fn model(alloc: Global) -> Result<Bits, AllocError>
    ensures { IfOk result (λ model. model ≡ true ∷ true ∷ false ∷ true ∷ []) }
{
    let mut model = Bits::zeros(alloc, 4)?;
    model.set(0, true);
    model.set(1, true);
    model.set(3, true);
    Ok(model)
}

fn miter_of_one<'a>(alloc: Global, circuit: &'a Circuit) -> Result<Miter<'a>, AllocError>
    requires { circuit.now ≡ circuit_with 1 (record { kind = Kind.And; pins = 0 ∷ 0 ∷ [] } ∷ []) (1 ∷ []) }
    ensures { IfOk result (λ built. built ≡ miter_with circuit.now Fault.Free (Fault.Stuck (Site.Stem 1) false)) }
{
    let mut pool = Pool::with_room(alloc, 0, 0)?;
    build(alloc, circuit, &Free, &Stuck(Stem(1), false), &mut pool)
}

// As `miter_of_one`, in the space of a miter of other faults.
fn next_miter_of_one<'a>(alloc: Global, circuit: &'a Circuit) -> Result<Miter<'a>, AllocError>
    requires { circuit.now ≡ circuit_with 1 (record { kind = Kind.And; pins = 0 ∷ 0 ∷ [] } ∷ []) (1 ∷ []) }
    ensures { IfOk result (λ built. built ≡ miter_with circuit.now Fault.Free (Fault.Stuck (Site.Stem 1) false)) }
{
    let mut before = Pool::with_room(alloc, 0, 0)?;
    let mut pool = Pool::with_room(alloc, 0, 0)?;
    let space = MiterSpace::new(alloc, circuit)?;
    let miter = space.build(&Free, &Stuck(Stem(0), true), &mut before)?;
    let space = miter.into_space();
    space.build(&Free, &Stuck(Stem(1), false), &mut pool)
}

fn vector_of_model(alloc: Global, miter: &Miter) -> Result<Vector, AllocError>
    requires { miter.now ≡ miter_with (circuit_with 1 (record { kind = Kind.And; pins = 0 ∷ 0 ∷ [] } ∷ []) (1 ∷ [])) Fault.Free (Fault.Stuck (Site.Stem 1) false) }
{
    let model = model(alloc)?;
    miter.vector_of(&model)
}

fn vector_of_one(alloc: Global) -> Result<Vector, Fail> {
    let circuit = circuit(alloc, AND_OF_ONE)?;
    let miter = miter_of_one(alloc, &circuit)?;
    Ok(vector_of_model(alloc, &miter)?)
}

fn next_vector_of_one(alloc: Global) -> Result<Vector, Fail> {
    let circuit = circuit(alloc, AND_OF_ONE)?;
    let miter = next_miter_of_one(alloc, &circuit)?;
    Ok(vector_of_model(alloc, &miter)?)
}

#[test]
fn vector_of_a_model_in_a_used_space(rt: HostRuntime) -> Result<(), Fail> {
    let v = next_vector_of_one(rt.alloc())?;
    assert!(rt; v.len() == 1 && v.get(0));
    Ok(())
}

#[test]
fn vector_of_a_model(rt: HostRuntime) -> Result<(), Fail> {
    let v = vector_of_one(rt.alloc())?;
    assert!(rt; v.len() == 1 && v.get(0));
    Ok(())
}

fn take_two_steps(chain: &mut Chain) -> Result<(), AllocError> {
    chain.push(Lit::new(5, false), 11)?;
    chain.push(Lit::new(4, false), 6)
}

fn chain_of_two_steps(alloc: Global) -> Result<Chain, AllocError> {
    let mut chain = Chain::new(alloc, 8, Some(Lit::new(3, false)));
    take_two_steps(&mut chain)?;
    chain.set_at(Some(Lit::new(2, true)));
    Ok(chain)
}

// Returns whether a chain is that of two steps.
fn has_two_steps(chain: &Chain) -> bool {
    let steps = [(Lit::new(5, false), 11), (Lit::new(4, false), 6)];
    chain.steps() == steps.as_slice() && chain.start() == 8 && chain.at() == Some(Lit::new(2, true))
}

// Returns whether an empty log takes that chain.
fn takes_chain(alloc: Global, log: &mut Log) -> Result<bool, Fail> {
    log.push(chain_of_two_steps(alloc)?)?;
    let chains = log.as_slice();
    Ok(chains.len() == 1 && has_two_steps(&chains[0]))
}

#[test]
fn a_log_of_one_chain(rt: HostRuntime) -> Result<(), Fail> {
    let mut log = Log::new(rt.alloc());
    assert!(rt; takes_chain(rt.alloc(), &mut log)?);
    Ok(())
}
