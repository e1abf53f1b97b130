//! Small circuits with a line or a position turned in some lanes.

ghost use Rattle.std.specs.Prelude.{◌≡◌, IsSome, IsTrue, ◌↔◌};
ghost use Rattle.fault_heads.specs.Turned.{IsHeadOf};

use crate::tests::injected::{ALL, CHOICE, NONE, PARITY, counted_vectors, four_vectors, shows_all};
use fault_heads::Head::{self, Line, Position};
use fault_sim::FaultSim;
use net_model::{Circuit, Kind};
use sample_circuits::{CircuitParts, circuit};
use std::alloc::{AllocError, Global};
use std::test::Fail;
use word_sim::{Block, GoodSim, Lanes};

// The sources 0 and 1; 2 is the XOR of source 0 and itself, 3 the AND of source 0 twice and source 1, and 4 the OR of
// both. The XOR is shown first, then the AND and then the OR.
const TWICE: CircuitParts<'static> = CircuitParts {
    sources: 2,
    gates: &[
        (Kind::Xor, &[0, 0]),
        (Kind::And, &[0, 0, 1]),
        (Kind::Or, &[2, 3]),
    ],
    positions: &[2, 3, 4],
};

// The lanes in which a head is to be turned: all, none, or those in which a line has 1.
#[derive(Clone, Copy)]
enum Asked {
    Every,
    Nowhere,
    Where(u32),
}

// A head, the lanes in which it is turned, and in which of the first eight lanes that shows at each position.
type Case = (Head, Asked, [&'static [u8; 8]; 3]);

// Returns whether the circuit has the head.
fn has_head(circuit: &Circuit, head: Head) -> bool
    ensures { IsTrue result ↔ IsHeadOf circuit.now head }
{
    match head {
        Line(line) => line < circuit.lines(),
        Position(at) => (at as usize) < circuit.positions().len(),
    }
}

// Returns these lanes, or none if they are those of a line that the circuit doesn't have.
fn asked_lanes(good: &GoodSim, asked: Asked) -> Option<Lanes> {
    match asked {
        Asked::Every => Some(Lanes::all(true)),
        Asked::Nowhere => Some(Lanes::all(false)),
        Asked::Where(line) if line < good.circuit().lines() => Some(good.lanes(line)),
        Asked::Where(_) => None,
    }
}

// Returns whether the first eight lanes differ at the positions as the case says, after another head was turned.
fn differs_so(alloc: Global, good: &GoodSim, case: &Case) -> Result<bool, AllocError>
    requires { IsSome good.now.ran }
{
    let circuit = good.circuit();
    let (head, asked, expected) = case;
    let before = Line(0);
    if circuit.positions().len() != 3 || !has_head(circuit, *head) || !has_head(circuit, before) {
        return Ok(false);
    }
    let Some(lanes) = asked_lanes(good, *asked) else {
        return Ok(false);
    };
    let mut sim = FaultSim::new(alloc, circuit)?;
    sim.flip(good, before, Lanes::all(true));
    sim.flip(good, *head, lanes);
    Ok(shows_all(&sim, expected))
}

// Returns the number of the first case, if any, in which the first eight lanes differ otherwise than the case says.
fn first_wrong(alloc: Global, good: &GoodSim, cases: &[Case]) -> Result<Option<usize>, Fail>
    requires { IsSome good.now.ran }
{
    for (k, case) in cases.iter().enumerate() {
        if !differs_so(alloc, good, case)? {
            return Ok(Some(k));
        }
    }
    Ok(None)
}

// Returns what `first_wrong` does for a circuit at the vectors of a block.
fn first_wrong_at(
    alloc: Global,
    circuit: &Circuit,
    block: &Block,
    cases: &[Case],
) -> Result<Option<usize>, Fail>
    requires { block.now.sources ≡ circuit.now.sources }
{
    let mut good = GoodSim::new(alloc, circuit)?;
    good.run(block);
    first_wrong(alloc, &good, cases)
}

// Returns what `first_wrong` does for the circuit of these parts.
fn first_wrong_in(
    alloc: Global,
    parts: CircuitParts,
    block: &Block,
    cases: &[Case],
) -> Result<Option<usize>, Fail>
    requires { block.now.sources ≡ parts.sources }
{
    let circuit = circuit(alloc, parts)?;
    first_wrong_at(alloc, &circuit, block, cases)
}

// Only four lanes have a vector: the head is to be turned in the others too, and they don't differ. The differences are
// those of the AND, the OR and the XOR.
const PARITY_CASES: &[Case] = &[
    (
        Line(0),
        Asked::Every,
        [b"00110000", b"11000000", b"11110000"],
    ),
    (Line(0), Asked::Where(1), [b"00110000", NONE, b"00110000"]),
    (Line(0), Asked::Nowhere, [NONE, NONE, NONE]),
    (Line(3), Asked::Every, [b"11110000", NONE, b"11110000"]),
    (Line(3), Asked::Where(0), [b"01010000", NONE, b"01010000"]),
    (Line(2), Asked::Where(4), [NONE, NONE, b"01110000"]),
    (Position(1), Asked::Every, [NONE, b"11110000", NONE]),
    (Position(1), Asked::Where(0), [NONE, b"01010000", NONE]),
];

#[test]
fn parity_with_turned_heads(rt: HostRuntime) -> Result<(), Fail> {
    let block = four_vectors(rt.alloc())?;
    assert_eq!(rt;
        first_wrong_in(rt.alloc(), PARITY, &block, PARITY_CASES)?,
        None
    );
    Ok(())
}

// A select, a chosen pin, a constant and what is chosen. The differences are those of the select, the chosen bit and
// the XOR.
const CHOICE_CASES: &[Case] = &[
    (Line(0), Asked::Every, [ALL, b"00111100", b"00111100"]),
    (
        Line(0),
        Asked::Where(1),
        [b"00110011", b"00110000", b"00110000"],
    ),
    (Line(1), Asked::Every, [NONE, b"10101010", b"10101010"]),
    (Line(3), Asked::Every, [NONE, NONE, ALL]),
    (Line(4), Asked::Where(0), [NONE, b"01010101", b"01010101"]),
    (Position(0), Asked::Where(2), [b"00001111", NONE, NONE]),
];

#[test]
fn choice_with_turned_heads(rt: HostRuntime) -> Result<(), Fail> {
    let block = counted_vectors(rt.alloc())?;
    assert_eq!(rt;
        first_wrong_in(rt.alloc(), CHOICE, &block, CHOICE_CASES)?,
        None
    );
    Ok(())
}

// A gate that reads the head twice. The differences are those of the XOR, the AND and the OR.
const TWICE_CASES: &[Case] = &[
    (Line(0), Asked::Every, [NONE, b"00110000", b"00110000"]),
    (Line(0), Asked::Where(0), [NONE, b"00010000", b"00010000"]),
    (Line(1), Asked::Every, [NONE, b"01010000", b"01010000"]),
];

#[test]
fn a_gate_that_reads_the_head_twice(rt: HostRuntime) -> Result<(), Fail> {
    let block = four_vectors(rt.alloc())?;
    assert_eq!(rt;
        first_wrong_in(rt.alloc(), TWICE, &block, TWICE_CASES)?,
        None
    );
    Ok(())
}
