//! The scopes of pairs of faults, shown one after another in one space.

use net_model::Fault::{self, Free, Stuck};
use net_model::Kind;
use net_model::Site::{Pin, Position, Stem};
use pair_scope::PairScope;
use sample_circuits::{AND_OF_TWO, CircuitParts, circuit, stands};
use std::alloc::Global;
use std::test::Fail;

// Lines 4, 5 and 3 form a chain: line 4 is the OR of sources 1 and 2, line 5 is the AND of line 4 and source 0, and
// line 3 is the NOT of line 5. Line 6 leads nowhere. Lines 3, 4 and 2 are shown.
const ROW: CircuitParts<'static> = CircuitParts {
    sources: 3,
    gates: &[
        (Kind::Not, &[5]),
        (Kind::Or, &[1, 2]),
        (Kind::And, &[0, 4]),
        (Kind::Buff, &[0]),
    ],
    positions: &[3, 4, 2],
};

// A pair of faults, its split lines in order, its reached positions and its relevant lines.
#[derive(Clone, Copy)]
struct Shown<'a> {
    f: Fault,
    g: Fault,
    split: &'a [u32],
    reached: &'a [u32],
    relevant: &'a [u32],
}

// Returns whether each line and position is marked as the lists say.
fn are_marked(scope: &PairScope, wanted: &Shown) -> bool {
    let circuit = scope.circuit();
    for line in 0..circuit.lines() {
        let split = scope.split(line) == wanted.split.contains(&line);
        let relevant = scope.relevant(line) == wanted.relevant.contains(&line);
        if !split || !relevant {
            return false;
        }
    }
    for at in 0..circuit.positions().len() as u32 {
        if scope.reached(at) != wanted.reached.contains(&at) {
            return false;
        }
    }
    true
}

// Returns whether the scope shows a pair as `wanted` says.
fn shows(scope: &mut PairScope, wanted: &Shown) -> bool {
    let circuit = scope.circuit();
    if !stands(circuit, wanted.f) || !stands(circuit, wanted.g) {
        return false;
    }
    scope.show(wanted.f, wanted.g);
    scope.split_lines() == wanted.split
        && scope.reached_positions() == wanted.reached
        && scope.relevant_lines() == wanted.relevant
}

// Returns the first of these pairs that isn't shown as it says, with one space for all.
fn first_other(alloc: Global, parts: CircuitParts, pairs: &[Shown]) -> Result<Option<usize>, Fail> {
    let circuit = circuit(alloc, parts)?;
    let mut scope = PairScope::new(alloc, &circuit)?;
    for (number, pair) in pairs.iter().enumerate() {
        if !shows(&mut scope, pair) || !are_marked(&scope, pair) {
            return Ok(Some(number));
        }
    }
    Ok(None)
}

// Pairs of `ROW`: a source and nothing; one line twice; a line that leads to no position; a position; two positions; a
// pin; the first pair again; a line that leads nowhere and a position; nothing.
const ROW_PAIRS: &[Shown] = &[
    Shown {
        f: Stuck(Stem(1), true),
        g: Free,
        split: &[1, 4, 5, 3],
        reached: &[0, 1],
        relevant: &[0, 1, 2, 3, 4, 5],
    },
    Shown {
        f: Stuck(Stem(5), false),
        g: Stuck(Stem(5), true),
        split: &[5, 3],
        reached: &[0],
        relevant: &[0, 1, 2, 3, 4, 5],
    },
    Shown {
        f: Stuck(Stem(6), true),
        g: Free,
        split: &[6],
        reached: &[],
        relevant: &[],
    },
    Shown {
        f: Free,
        g: Stuck(Position(1), false),
        split: &[],
        reached: &[1],
        relevant: &[1, 2, 4],
    },
    Shown {
        f: Stuck(Position(2), true),
        g: Stuck(Position(0), true),
        split: &[],
        reached: &[0, 2],
        relevant: &[0, 1, 2, 3, 4, 5],
    },
    Shown {
        f: Stuck(Pin(4, 1), false),
        g: Stuck(Stem(2), true),
        split: &[2, 4, 5, 3],
        reached: &[0, 1, 2],
        relevant: &[0, 1, 2, 3, 4, 5],
    },
    Shown {
        f: Stuck(Stem(1), true),
        g: Free,
        split: &[1, 4, 5, 3],
        reached: &[0, 1],
        relevant: &[0, 1, 2, 3, 4, 5],
    },
    Shown {
        f: Stuck(Stem(6), false),
        g: Stuck(Position(2), true),
        split: &[6],
        reached: &[2],
        relevant: &[2],
    },
    Shown {
        f: Free,
        g: Free,
        split: &[],
        reached: &[],
        relevant: &[],
    },
];

// Pairs of the AND: both inputs, with the whole circuit as their scope; and its output.
const AND_PAIRS: &[Shown] = &[
    Shown {
        f: Stuck(Stem(1), true),
        g: Stuck(Stem(0), true),
        split: &[0, 1, 2],
        reached: &[0],
        relevant: &[0, 1, 2],
    },
    Shown {
        f: Free,
        g: Stuck(Stem(2), false),
        split: &[2],
        reached: &[0],
        relevant: &[0, 1, 2],
    },
];

#[test]
fn pairs_in_one_space(rt: HostRuntime) -> Result<(), Fail> {
    assert!(rt; first_other(rt.alloc(), ROW, ROW_PAIRS)? == None);
    assert!(rt; first_other(rt.alloc(), AND_OF_TWO, AND_PAIRS)? == None);
    Ok(())
}
