//! Successors and roots of small circuits' faults.

ghost use Rattle.std.specs.Prelude.{◌≡◌};
ghost use Rattle.net_model.specs.FaultList.{faults as faults_of};
ghost use Rattle.fault_collapse.specs.Forest.{number_count};

use fault_collapse::{Forest, collapse};
use fault_list::{FaultList, list};
use net_model::{Circuit, Kind};
use sample_circuits::{AND_OF_TWO, CircuitParts, NOT_AND_OR, WITH_CONSTANT, circuit};
use std::alloc::Global;
use std::test::Fail;

// An AND, a NAND and an XOR of one pin each, one after another.
const SINGLE_PINS: CircuitParts<'static> = CircuitParts {
    sources: 1,
    gates: &[(Kind::And, &[0]), (Kind::Nand, &[1]), (Kind::Xor, &[2])],
    positions: &[3],
};

// A multiplexer of sources 1 and 2, chosen by the NOT of source 0.
const MULTIPLEXER: CircuitParts<'static> = CircuitParts {
    sources: 3,
    gates: &[(Kind::Not, &[0]), (Kind::Mux, &[3, 1, 2])],
    positions: &[4],
};

// A circuit, the successors and the roots of its faults by number, the number of roots without number 0, and whether
// the faults of some pairs have the same root.
#[derive(Clone, Copy)]
struct Case {
    parts: CircuitParts<'static>,
    successors: &'static [Option<u32>],
    roots: &'static [u32],
    count: u32,
    pairs: &'static [(u32, u32, bool)],
}

const NONE: Option<u32> = None;

const LOW: Option<u32> = Some(7);

const HIGH: Option<u32> = Some(8);

const AND: Option<u32> = Some(5);

const LAST: Option<u32> = Some(10);

// Two ANDs, the second of a constant; a line with two readers; gates of one pin; a multiplexer, through which no fault
// goes.
const CASES: &[Case] = &[
    Case {
        parts: AND_OF_TWO,
        successors: &[NONE, AND, NONE, AND, NONE, NONE, NONE],
        roots: &[0, 5, 2, 5, 4, 5, 6],
        count: 4,
        pairs: &[(1, 3, true), (1, 2, false), (0, 5, false)],
    },
    Case {
        parts: WITH_CONSTANT,
        successors: &[NONE, AND, NONE, AND, NONE, NONE, NONE],
        roots: &[0, 5, 2, 5, 4, 5, 6],
        count: 4,
        pairs: &[],
    },
    Case {
        parts: NOT_AND_OR,
        successors: &[
            NONE, NONE, NONE, HIGH, LOW, NONE, LAST, NONE, LAST, NONE, NONE,
        ],
        roots: &[0, 1, 2, 10, 7, 5, 10, 7, 10, 9, 10],
        count: 6,
        pairs: &[],
    },
    Case {
        parts: SINGLE_PINS,
        successors: &[
            NONE,
            Some(3),
            Some(4),
            Some(6),
            Some(5),
            LOW,
            HIGH,
            NONE,
            NONE,
        ],
        roots: &[0, 8, 7, 8, 7, 7, 8, 7, 8],
        count: 2,
        pairs: &[],
    },
    Case {
        parts: MULTIPLEXER,
        successors: &[
            NONE, HIGH, LOW, NONE, NONE, NONE, NONE, NONE, NONE, NONE, NONE,
        ],
        roots: &[0, 8, 7, 3, 4, 5, 6, 7, 8, 9, 10],
        count: 8,
        pairs: &[],
    },
];

// Returns whether a forest of `faults` faults has the successors and the roots of the case.
fn has_roots(forest: &Forest, faults: u32, case: &Case) -> bool
    requires { number_count forest.now ≡ faults }
{
    let count = faults as usize;
    if case.successors.len() != count || case.roots.len() != count {
        return false;
    }
    for number in 0..faults {
        let at = number as usize;
        if forest.successor(number) != case.successors[at]
            || forest.root(number) != case.roots[at]
        {
            return false;
        }
    }
    forest.root_count() == case.count
}

// Returns whether the faults of each pair have the same root exactly if the case says so.
fn has_pairs(forest: &Forest, faults: u32, case: &Case) -> bool
    requires { number_count forest.now ≡ faults }
{
    for (a, b, same) in case.pairs {
        if *a >= faults || *b >= faults || forest.same_root(*a, *b) != *same {
            return false;
        }
    }
    true
}

// Returns whether these faults of a circuit collapse as the case says.
fn are_collapsed(
    alloc: Global,
    circuit: &Circuit,
    faults: &FaultList,
    case: &Case,
) -> Result<bool, Fail>
    requires { faults.now ≡ faults_of circuit.now }
{
    let forest = collapse(alloc, circuit, faults)?;
    let count = faults.len();
    Ok(has_roots(&forest, count, case) && has_pairs(&forest, count, case))
}

fn is_collapsed(alloc: Global, circuit: &Circuit, case: &Case) -> Result<bool, Fail> {
    let faults = list(alloc, circuit)?;
    are_collapsed(alloc, circuit, &faults, case)
}

fn collapses_so(alloc: Global, case: &Case) -> Result<bool, Fail> {
    let circuit = circuit(alloc, case.parts)?;
    is_collapsed(alloc, &circuit, case)
}

#[test]
fn successors_and_roots(rt: HostRuntime) -> Result<(), Fail> {
    for (number, case) in CASES.iter().enumerate() {
        assert!(rt; collapses_so(rt.alloc(), case)?, "circuit {number}");
    }
    Ok(())
}
