//! What a search for one pair of faults finds.

ghost use Rattle.std.specs.Prelude.{◌≤◌};
ghost use Rattle.net_model.specs.Fault.{IsFaultOf};

use distinguish_search::{Found, search};
use net_model::Fault::{self, Free, Stuck};
use net_model::Site::{Pin, Stem};
use net_model::{Circuit, Vector, plain_answer};
use pair_sets::{Token, Tree};
use sample_circuits::{
    AND_OF_TWO, BETWEEN_CONSTANTS, CircuitParts, NOT_AND_OR, SAME_DATA, circuit, stands, text_of,
};
use std::alloc::Global;
use std::test::Fail;

// What is to be found: a vector, a tree without an open leaf, or a tree with an open leaf.
#[derive(Clone, Copy)]
enum Wanted {
    Vector,
    Covered,
    Spent,
}

// Two faults of a circuit, the number of leaves, and what is to be found.
#[derive(Clone, Copy)]
struct Case {
    parts: CircuitParts<'static>,
    f: Fault,
    g: Fault,
    leaves: u32,
    wanted: Wanted,
}

// In each case these faults and this number of leaves allow only what is to be found. Faults that differ have a vector
// if there are more leaves than vectors; equal faults have a covered tree then, and a spent one if a single leaf
// doesn't decide.
const CASES: &[Case] = &[
    Case {
        parts: NOT_AND_OR,
        f: Free,
        g: Stuck(Stem(2), false),
        leaves: 3,
        wanted: Wanted::Vector,
    },
    Case {
        parts: BETWEEN_CONSTANTS,
        f: Free,
        g: Stuck(Stem(0), true),
        leaves: 3,
        wanted: Wanted::Vector,
    },
    Case {
        parts: AND_OF_TWO,
        f: Stuck(Stem(0), true),
        g: Stuck(Stem(1), true),
        leaves: 5,
        wanted: Wanted::Vector,
    },
    Case {
        parts: AND_OF_TWO,
        f: Stuck(Pin(2, 1), false),
        g: Stuck(Stem(2), false),
        leaves: 1,
        wanted: Wanted::Covered,
    },
    Case {
        parts: NOT_AND_OR,
        f: Free,
        g: Stuck(Stem(0), false),
        leaves: 2,
        wanted: Wanted::Covered,
    },
    Case {
        parts: SAME_DATA,
        f: Free,
        g: Stuck(Stem(0), true),
        leaves: 5,
        wanted: Wanted::Covered,
    },
    Case {
        parts: NOT_AND_OR,
        f: Free,
        g: Stuck(Stem(0), false),
        leaves: 1,
        wanted: Wanted::Spent,
    },
    Case {
        parts: SAME_DATA,
        f: Free,
        g: Stuck(Stem(0), true),
        leaves: 1,
        wanted: Wanted::Spent,
    },
];

// Returns how many tokens of a tree are `token`.
fn count(tree: &Tree, token: Token) -> usize {
    tree.as_slice()
        .iter()
        .filter(|other| **other == token)
        .count()
}

// Returns whether a tree has no open leaf, and at most `leaves` closed ones.
fn is_covered(tree: &Tree, leaves: u32) -> bool {
    count(tree, Token::Rest) == 0 && count(tree, Token::Closed) <= leaves as usize
}

// Returns whether a tree has an open leaf, and exactly `leaves` closed ones.
fn is_spent(tree: &Tree, leaves: u32) -> bool {
    count(tree, Token::Rest) > 0 && count(tree, Token::Closed) == leaves as usize
}

// Returns whether a vector has a bit for each source, and the two faults of the case answer differently to it.
fn is_apart(alloc: Global, circuit: &Circuit, case: &Case, v: &Vector) -> Result<bool, Fail>
    requires first { IsFaultOf circuit.now case.now.f }
    requires second { IsFaultOf circuit.now case.now.g }
{
    if v.len() != circuit.sources() as usize {
        return Ok(false);
    }
    let first = text_of(alloc, &plain_answer(alloc, circuit, &case.f, v)?)?;
    let second = text_of(alloc, &plain_answer(alloc, circuit, &case.g, v)?)?;
    Ok(first.as_str() != second.as_str())
}

// Returns whether a search finds what is to be found.
fn finds(alloc: Global, circuit: &Circuit, case: &Case) -> Result<bool, Fail>
    requires first { IsFaultOf circuit.now case.now.f }
    requires second { IsFaultOf circuit.now case.now.g }
    requires leaves { 1 ≤ case.now.leaves }
{
    let leaves = case.leaves;
    match (
        search(alloc, circuit, &case.f, &case.g, leaves)?,
        case.wanted,
    ) {
        (Found::Vector(v), Wanted::Vector) => is_apart(alloc, circuit, case, &v),
        (Found::Covered(tree), Wanted::Covered) => Ok(is_covered(&tree, leaves)),
        (Found::Spent(tree), Wanted::Spent) => Ok(is_spent(&tree, leaves)),
        _ => Ok(false),
    }
}

// Returns whether a search in the circuit of the case finds what is to be found.
fn is_found(alloc: Global, case: &Case) -> Result<bool, Fail> {
    let circuit = circuit(alloc, case.parts)?;
    if case.leaves == 0 || !stands(&circuit, case.f) || !stands(&circuit, case.g) {
        return Err(Fail::new("there is no leaf, or a fault doesn't stand"));
    }
    finds(alloc, &circuit, case)
}

#[test]
fn a_vector_or_a_tree(rt: HostRuntime) -> Result<(), Fail> {
    for (at, case) in CASES.iter().enumerate() {
        assert!(rt; is_found(rt.alloc(), case)?, "case {at}");
    }
    Ok(())
}
