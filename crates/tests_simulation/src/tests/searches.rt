//! What searches find, and the shapes of their trees.

ghost use Rattle.std.specs.Prelude.{◌≤◌};
ghost use Rattle.net_model.specs.Fault.{IsFaultOf};

use distinguish_search::{Levels, Searched, search_with};
use net_model::{Circuit, Fault, Kind};
use pair_sets::{PairSim, Token, Tree};
use sample_circuits::{
    BETWEEN_CONSTANTS, CircuitParts, NOT_AND_OR, SAME_DATA, circuit, stands, stem,
};
use std::alloc::Global;
use std::test::Fail;

// What is found: a cube, and how many sources it fixes; or a tree, whether it is spent, and how many leaves are closed
// and how many are open.
#[derive(Clone, Copy, PartialEq, Eq)]
enum Shape {
    Apart(usize),
    Covered(usize, usize),
    Spent(usize, usize),
}

fn count(tree: &Tree, token: Token) -> usize {
    tree.as_slice()
        .iter()
        .filter(|other| **other == token)
        .count()
}

fn shape_of(found: &Searched) -> Shape {
    match found {
        Searched::Apart(cube) => Shape::Apart(cube.iter().filter(|bit| bit.is_some()).count()),
        Searched::Covered(tree) => {
            Shape::Covered(count(tree, Token::Closed), count(tree, Token::Rest))
        }
        Searched::Spent(tree) => Shape::Spent(count(tree, Token::Closed), count(tree, Token::Rest)),
    }
}

// A search: a line whose stem is stuck, the value at which it is stuck, and the number of leaves.
type Asked = (u32, bool, u32);

// Returns the shape of what is found for the circuit of a simulation without a fault and with the fault `stuck` of it.
fn found_with(
    alloc: Global,
    sim: &mut PairSim,
    levels: &Levels,
    stuck: Fault,
    leaves: u32,
) -> Result<Shape, Fail>
    requires some { 1 ≤ leaves }
    requires fault { IsFaultOf sim.old.circuit stuck }
{
    let found = search_with(alloc, sim, levels, &Fault::Free, &stuck, leaves)?;
    Ok(shape_of(&found))
}

// Returns the shape of what one search finds with a simulation and new levels.
fn found_by(alloc: Global, sim: &mut PairSim, asked: Asked) -> Result<Shape, Fail> {
    let circuit = sim.circuit();
    let (line, bit, leaves) = asked;
    let stuck = stem(line, bit);
    if leaves == 0 || !stands(circuit, stuck) {
        return Err(Fail::new("there is no leaf, or the fault doesn't stand"));
    }
    let levels = Levels::new(alloc, circuit)?;
    found_with(alloc, sim, &levels, stuck, leaves)
}

// Returns the shape of what one search finds with a new simulation.
fn found_alone(alloc: Global, circuit: &Circuit, asked: Asked) -> Result<Shape, Fail> {
    let mut sim = PairSim::new(alloc, circuit, &Fault::Free, &Fault::Free)?;
    found_by(alloc, &mut sim, asked)
}

// The parity of nine sources, and the opposite parity by threes; line 14 is the XOR of both, which is always 1, and is
// shown.
const PARITIES: CircuitParts<'static> = CircuitParts {
    sources: 9,
    gates: &[
        (Kind::Xor, &[0, 1, 2, 3, 4, 5, 6, 7, 8]),
        (Kind::Xor, &[0, 1, 2]),
        (Kind::Xor, &[3, 4, 5]),
        (Kind::Xor, &[6, 7, 8]),
        (Kind::Xnor, &[10, 11, 12]),
        (Kind::Xor, &[9, 13]),
    ],
    positions: &[14],
};

// The constant 1 alone, which is shown.
const CONSTANT: CircuitParts<'static> = CircuitParts {
    sources: 0,
    gates: &[(Kind::Const1, &[])],
    positions: &[0],
};

const SHAPES: &[(CircuitParts<'static>, Asked, Shape)] = &[
    (NOT_AND_OR, (0, false, 64), Shape::Covered(2, 0)),
    (NOT_AND_OR, (0, false, 2), Shape::Covered(2, 0)),
    (NOT_AND_OR, (0, false, 1), Shape::Spent(1, 1)),
    (NOT_AND_OR, (2, false, 1), Shape::Apart(1)),
    (PARITIES, (14, true, 4), Shape::Spent(4, 7)),
    (PARITIES, (14, true, 512), Shape::Covered(512, 0)),
    (PARITIES, (14, false, 1), Shape::Apart(9)),
    (SAME_DATA, (0, true, 64), Shape::Covered(3, 0)),
    (SAME_DATA, (0, true, 2), Shape::Spent(2, 1)),
    (BETWEEN_CONSTANTS, (0, true, 1), Shape::Apart(1)),
    (CONSTANT, (0, true, 1), Shape::Covered(1, 0)),
    (CONSTANT, (0, false, 1), Shape::Apart(0)),
];

// Returns the shape of what is found in the circuit of these parts.
fn found_in(alloc: Global, parts: CircuitParts, asked: Asked) -> Result<Shape, Fail> {
    let circuit = circuit(alloc, parts)?;
    found_alone(alloc, &circuit, asked)
}

#[test]
fn shapes_of_trees(rt: HostRuntime) -> Result<(), Fail> {
    for (at, (parts, asked, shape)) in SHAPES.iter().enumerate() {
        let found = found_in(rt.alloc(), *parts, *asked)?;
        assert!(rt; found == *shape, "case {at}");
    }
    Ok(())
}

const IN_TURN: &[Asked] = &[
    (0, true, 4),
    (14, true, 4),
    (9, false, 1),
    (14, false, 1),
    (0, false, 512),
    (14, true, 512),
    (0, true, 4),
];

// Returns the first search, if any, by which one simulation finds something else than a new one.
fn first_wrong(alloc: Global, circuit: &Circuit, sim: &mut PairSim) -> Result<Option<usize>, Fail> {
    for (at, asked) in IN_TURN.iter().enumerate() {
        if found_by(alloc, sim, *asked)? != found_alone(alloc, circuit, *asked)? {
            return Ok(Some(at));
        }
    }
    Ok(None)
}

fn first_wrong_of_parities(alloc: Global) -> Result<Option<usize>, Fail> {
    let circuit = circuit(alloc, PARITIES)?;
    let mut sim = PairSim::new(alloc, &circuit, &Fault::Free, &Fault::Free)?;
    first_wrong(alloc, &circuit, &mut sim)
}

// Searches that follow one another with one simulation, of stems near the sources and near the end in turn, find what
// each finds with a new one, whatever cube the one before it ended at.
#[test]
fn one_simulation_for_many_searches(rt: HostRuntime) -> Result<(), Fail> {
    assert_eq!(rt; first_wrong_of_parities(rt.alloc())?, None);
    Ok(())
}
