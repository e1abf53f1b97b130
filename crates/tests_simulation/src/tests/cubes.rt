//! The states of cubes, and trees of them.

ghost use Rattle.std.specs.Prelude.{◌≡◌, ◌<◌, []};

use net_model::Fault::{self, Free, Stuck};
use net_model::Site::{Pin, Position, Stem};
use net_model::{Circuit, Kind};
use pair_sets::PairState::{AllSame, Apart, Undecided};
use pair_sets::{PairSim, PairState, Token, Tree};
use sample_circuits::{
    BETWEEN_CONSTANTS, BUFFER, CircuitParts, NOT_AND_OR, SAME_DATA, SHOWN_TWICE, WITH_CONSTANT,
    XOR_OF_ONE, circuit, stands,
};
use std::alloc::Global;
use std::test::Fail;

const OPEN: PairState = Undecided;

const SAME: PairState = AllSame;

// A circuit, two faults of it, and the states of the cube of all vectors, of source 0 at 0, and of source 0 at 1.
type Cubes = (CircuitParts<'static>, Fault, Fault, [PairState; 3]);

// Two pins that read one line choose independently: those of an XOR, and the data pins of a multiplexer.
const CUBES: &[Cubes] = &[
    (NOT_AND_OR, Free, Stuck(Stem(2), true), [OPEN, SAME, SAME]),
    (XOR_OF_ONE, Free, Stuck(Stem(1), false), [OPEN, SAME, SAME]),
    (BUFFER, Free, Stuck(Stem(1), false), [OPEN, SAME, Apart(0)]),
    (
        SHOWN_TWICE,
        Stuck(Position(1), true),
        Free,
        [OPEN, Apart(1), SAME],
    ),
    (SAME_DATA, Free, Stuck(Stem(0), true), [OPEN, OPEN, SAME]),
    (
        BETWEEN_CONSTANTS,
        Free,
        Stuck(Stem(0), true),
        [OPEN, Apart(0), SAME],
    ),
    (
        WITH_CONSTANT,
        Free,
        Stuck(Stem(1), false),
        [OPEN, SAME, Apart(0)],
    ),
];

// Returns the state with source 0 at `bit`. After the call source 0 is free again.
fn state_at(sim: &mut PairSim, bit: bool) -> PairState
    requires source { 0 < sim.old.circuit.sources }
    requires free { sim.old.cube ≡ [] }
    ensures circuit { sim.new.circuit ≡ sim.old.circuit }
    ensures free { sim.new.cube ≡ [] }
{
    sim.assign(0, bit);
    let state = sim.state();
    sim.undo();
    state
}

// Returns whether a simulation shows these states, and the first one again after source 0 is free.
fn shows(sim: &mut PairSim, states: [PairState; 3]) -> bool
    requires source { 0 < sim.old.circuit.sources }
    requires free { sim.old.cube ≡ [] }
{
    let [all, at_zero, at_one] = states;
    let first = sim.state() == all;
    let second = state_at(sim, false) == at_zero;
    let third = state_at(sim, true) == at_one;
    first && second && third && sim.state() == all
}

// Returns whether two faults of a circuit have these states.
fn has_states(
    alloc: Global,
    circuit: &Circuit,
    f: Fault,
    g: Fault,
    states: [PairState; 3],
) -> Result<bool, Fail> {
    if circuit.sources() == 0 || !stands(circuit, f) || !stands(circuit, g) {
        return Err(Fail::new("there is no source, or a fault doesn't stand"));
    }
    let mut sim = PairSim::new(alloc, circuit, &f, &g)?;
    Ok(shows(&mut sim, states))
}

fn is_right(alloc: Global, case: &Cubes) -> Result<bool, Fail> {
    let (parts, f, g, states) = case;
    let circuit = circuit(alloc, *parts)?;
    has_states(alloc, &circuit, *f, *g, *states)
}

#[test]
fn states_of_cubes(rt: HostRuntime) -> Result<(), Fail> {
    for (at, case) in CUBES.iter().enumerate() {
        assert!(rt; is_right(rt.alloc(), case)?, "case {at}");
    }
    Ok(())
}

// Line 3 is the AND of sources 0 and 1, line 4 the OR of it and source 2, line 5 the NOT of that, line 6 the constant
// 1, and line 7 the AND of lines 5 and 6. Lines 3, 4 and 7 and source 0 are shown.
const CHAIN: CircuitParts<'static> = CircuitParts {
    sources: 3,
    gates: &[
        (Kind::And, &[0, 1]),
        (Kind::Or, &[3, 2]),
        (Kind::Not, &[4]),
        (Kind::Const1, &[]),
        (Kind::And, &[5, 6]),
    ],
    positions: &[3, 4, 7, 0],
};

// Two faults, how many positions they reach, and the states of the cube of all vectors and of source 0 at 1.
type Pair = (Fault, Fault, usize, [PairState; 2]);

// From a pair that changes much of the circuit to pairs that change one position alone or nothing, and back.
const PAIRS: [Pair; 8] = [
    (Free, Stuck(Stem(0), false), 4, [OPEN, Apart(3)]),
    (Stuck(Position(1), true), Free, 1, [OPEN, OPEN]),
    (
        Stuck(Stem(3), false),
        Stuck(Stem(3), true),
        3,
        [Apart(0), Apart(0)],
    ),
    (Free, Stuck(Stem(6), false), 1, [OPEN, OPEN]),
    (Free, Stuck(Pin(3, 0), true), 3, [OPEN, SAME]),
    (
        Stuck(Pin(4, 1), true),
        Stuck(Stem(4), true),
        2,
        [SAME, SAME],
    ),
    (Free, Free, 0, [SAME, SAME]),
    (Free, Stuck(Stem(0), false), 4, [OPEN, Apart(3)]),
];

// Returns whether two simulations reach the same positions, `reached` of them, and are both in `state`.
fn stand_alike(sim: &PairSim, other: &PairSim, reached: usize, state: PairState) -> bool {
    sim.reached() == other.reached()
        && sim.reached().len() == reached
        && sim.state() == state
        && other.state() == state
}

// Returns whether `stand_alike` holds for the cube of all vectors, and for source 0 at 1. Source 0 stays at 1.
fn go_alike(sim: &mut PairSim, other: &mut PairSim, reached: usize, states: [PairState; 2]) -> bool
    requires source { 0 < sim.old.circuit.sources }
    requires circuit { other.old.circuit ≡ sim.old.circuit }
    requires free { sim.old.cube ≡ [] }
    requires other { other.old.cube ≡ [] }
{
    let [all, at_one] = states;
    let first = stand_alike(sim, other, reached, all);
    sim.assign(0, true);
    other.assign(0, true);
    first && stand_alike(sim, other, reached, at_one)
}

// Returns whether a simulation that is restarted for a pair says what a new one says, and what the pair should give.
fn restarts(alloc: Global, sim: &mut PairSim, case: &Pair) -> Result<bool, Fail> {
    let (f, g, reached, states) = *case;
    let circuit = sim.circuit();
    if circuit.sources() == 0 || !stands(circuit, f) || !stands(circuit, g) {
        return Err(Fail::new("there is no source, or a fault doesn't stand"));
    }
    let mut other = PairSim::new(alloc, circuit, &f, &g)?;
    sim.restart(&f, &g);
    Ok(go_alike(sim, &mut other, reached, states))
}

// Returns the first pair, if any, of which a simulation that is restarted for one pair after another says otherwise.
fn first_wrong(alloc: Global, sim: &mut PairSim) -> Result<Option<usize>, Fail> {
    for (at, case) in PAIRS.iter().enumerate() {
        if !restarts(alloc, sim, case)? {
            return Ok(Some(at));
        }
    }
    Ok(None)
}

fn first_wrong_of_chain(alloc: Global) -> Result<Option<usize>, Fail> {
    let circuit = circuit(alloc, CHAIN)?;
    let mut sim = PairSim::new(alloc, &circuit, &Free, &Free)?;
    first_wrong(alloc, &mut sim)
}

#[test]
fn one_simulation_for_many_pairs(rt: HostRuntime) -> Result<(), Fail> {
    assert_eq!(rt; first_wrong_of_chain(rt.alloc())?, None);
    Ok(())
}

// Returns whether an empty tree has these tokens after they are pushed.
fn takes(tree: &mut Tree, tokens: &[Token]) -> Result<bool, Fail> {
    for token in tokens {
        tree.push(*token)?;
    }
    Ok(tree.as_slice() == tokens)
}

#[test]
fn tokens_of_a_tree(rt: HostRuntime) -> Result<(), Fail> {
    let mut tree = Tree::new(rt.alloc());
    assert!(rt; takes(&mut tree, &[Token::Split(0), Token::Closed, Token::Rest])?);
    Ok(())
}
