//! Small circuits under faults of each kind.

ghost use Rattle.std.specs.Prelude.{◌≡◌, ◌<◌, IfOk, IsSome, length};

use fault_sim::FaultSim;
use net_model::Fault::{self, Free, Stuck};
use net_model::Site::{Pin, Position, Stem};
use net_model::{Bits, Circuit, Kind};
use sample_circuits::{CircuitParts, circuit, stands, stem};
use std::alloc::{AllocError, Global};
use std::test::Fail;
use word_sim::{Block, GoodSim, LANES, Stream};

// The sources 0 and 1; 2 is the XOR of 3 and 4, which are the AND and the OR of the sources.
// The AND is shown first, then the OR and then the XOR.
pub(super) const PARITY: CircuitParts<'static> = CircuitParts {
    sources: 2,
    gates: &[
        (Kind::Xor, &[3, 4]),
        (Kind::And, &[0, 1]),
        (Kind::Or, &[0, 1]),
    ],
    positions: &[3, 4, 2],
};

// The sources s, a and b; 3 is the constant 1, 4 is b if s is 1 and else a, and 5 is the XOR of the constant and of
// that.
// Shown are s, the chosen bit and the XOR.
pub(super) const CHOICE: CircuitParts<'static> = CircuitParts {
    sources: 3,
    gates: &[
        (Kind::Const1, &[]),
        (Kind::Mux, &[0, 1, 2]),
        (Kind::Xor, &[3, 4]),
    ],
    positions: &[0, 4, 5],
};

// Returns a block of the vectors 00, 10, 01 and 11.
pub(super) fn four_vectors(alloc: Global) -> Result<Block, AllocError>
    ensures { IfOk result (λ block. block.sources ≡ 2) }
{
    let mut block = Block::new(alloc, 2)?;
    let mut v = Bits::zeros(alloc, 2)?;
    block.push(&v);
    v.set(0, true);
    block.push(&v);
    v.set(0, false);
    v.set(1, true);
    block.push(&v);
    v.set(0, true);
    block.push(&v);
    Ok(block)
}

// Returns a block of the vectors 000, 100, 010, 110, 001, 101, 011 and 111, and these again and again.
pub(super) fn counted_vectors(alloc: Global) -> Result<Block, AllocError>
    ensures { IfOk result (λ block. block.sources ≡ 3) }
{
    let mut block = Block::new(alloc, 3)?;
    Stream::new(3).fill(1, &mut block);
    Ok(block)
}

// A fault, and in which of the first eight lanes it shows at each position.
type Case = (Fault, [&'static [u8; 8]; 3]);

// Returns the first fault, if any, under which the first eight lanes differ otherwise than its case says.
fn first_wrong(alloc: Global, good: &GoodSim, cases: &[Case]) -> Result<Option<Fault>, Fail>
    requires { IsSome good.now.ran }
{
    for (fault, expected) in cases {
        if !differs_so(alloc, good, *fault, expected)? {
            return Ok(Some(*fault));
        }
    }
    Ok(None)
}

// Returns what `first_wrong` does for a circuit at the vectors of a block.
fn first_wrong_at(
    alloc: Global,
    circuit: &Circuit,
    block: &Block,
    cases: &[Case],
) -> Result<Option<Fault>, Fail>
    requires { block.now.sources ≡ circuit.now.sources }
{
    let mut good = GoodSim::new(alloc, circuit)?;
    good.run(block);
    first_wrong(alloc, &good, cases)
}

// Returns what `first_wrong` does for the circuit of these parts.
fn first_wrong_in(
    alloc: Global,
    parts: CircuitParts,
    block: &Block,
    cases: &[Case],
) -> Result<Option<Fault>, Fail>
    requires { block.now.sources ≡ parts.sources }
{
    let circuit = circuit(alloc, parts)?;
    first_wrong_at(alloc, &circuit, block, cases)
}

// Returns whether the first eight lanes differ at the positions as `expected` says, after another fault was injected.
fn differs_so(
    alloc: Global,
    good: &GoodSim,
    fault: Fault,
    expected: &[&[u8; 8]; 3],
) -> Result<bool, AllocError>
    requires { IsSome good.now.ran }
{
    let circuit = good.circuit();
    let before = stem(0, true);
    if circuit.positions().len() != 3 || !stands(circuit, fault) || !stands(circuit, before) {
        return Ok(false);
    }
    let mut sim = FaultSim::new(alloc, circuit)?;
    sim.inject(good, &before);
    sim.inject(good, &fault);
    Ok(shows_all(&sim, expected))
}

// Returns whether the first eight lanes differ at the positions as `expected` says.
pub(super) fn shows_all(sim: &FaultSim, expected: &[&[u8; 8]; 3]) -> bool
    requires { length sim.now.circuit.positions ≡ 3 }
{
    shows_so(sim, 0, expected[0]) && shows_so(sim, 1, expected[1]) && shows_so(sim, 2, expected[2])
}

// Returns whether the first eight lanes differ at `position` as `expected` says, and the position is listed exactly if
// one of them does.
fn shows_so(sim: &FaultSim, position: u32, expected: &[u8; 8]) -> bool
    requires { position < length sim.now.circuit.positions }
{
    let listed = sim.differing_positions().contains(&position);
    if listed != expected.contains(&b'1') {
        return false;
    }
    let lanes = sim.differs(position);
    for (lane, digit) in expected.iter().enumerate() {
        let differs = lanes.get(lane as u32);
        if differs != (*digit == b'1') || differs && !sim.any_difference().get(lane as u32) {
            return false;
        }
    }
    true
}

pub(super) const NONE: &[u8; 8] = b"00000000";

pub(super) const ALL: &[u8; 8] = b"11111111";

const FIRST: &[u8; 8] = b"10000000";

const SECOND: &[u8; 8] = b"01000000";

const LAST: &[u8; 8] = b"00010000";

const BUT_LAST: &[u8; 8] = b"11100000";

// No fault, stems, branches and positions. The differences are those of the AND, the OR and the XOR.
const PARITY_CASES: &[Case] = &[
    (Free, [NONE, NONE, NONE]),
    (Stuck(Stem(3), false), [LAST, NONE, LAST]),
    (Stuck(Stem(3), true), [BUT_LAST, NONE, BUT_LAST]),
    (Stuck(Stem(0), false), [LAST, SECOND, b"01010000"]),
    (Stuck(Pin(3, 0), false), [LAST, NONE, LAST]),
    (Stuck(Pin(4, 0), false), [NONE, SECOND, SECOND]),
    (Stuck(Pin(2, 1), true), [NONE, NONE, FIRST]),
    (Stuck(Position(1), true), [NONE, FIRST, NONE]),
    (Stuck(Position(2), false), [NONE, NONE, b"01100000"]),
];

#[test]
fn parity_under_faults(rt: HostRuntime) -> Result<(), Fail> {
    let block = four_vectors(rt.alloc())?;
    assert_eq!(rt;
        first_wrong_in(rt.alloc(), PARITY, &block, PARITY_CASES)?,
        None
    );
    Ok(())
}

const CHOSEN_HIGH: &[u8; 8] = b"00101000";

const CHOSEN_LOW: &[u8; 8] = b"00010100";

const PIN_OF_A: &[u8; 8] = b"10001000";

const PIN_OF_B: &[u8; 8] = b"00000101";

// Selects, chosen pins and constants. The differences are those of the select, the chosen bit and the XOR; a stuck
// select pin leaves the select itself as it is.
const CHOICE_CASES: &[Case] = &[
    (Stuck(Pin(4, 0), true), [NONE, CHOSEN_HIGH, CHOSEN_HIGH]),
    (Stuck(Pin(4, 0), false), [NONE, CHOSEN_LOW, CHOSEN_LOW]),
    (
        Stuck(Stem(0), true),
        [b"10101010", CHOSEN_HIGH, CHOSEN_HIGH],
    ),
    (Stuck(Pin(4, 1), true), [NONE, PIN_OF_A, PIN_OF_A]),
    (Stuck(Pin(4, 2), false), [NONE, PIN_OF_B, PIN_OF_B]),
    (Stuck(Stem(3), false), [NONE, NONE, ALL]),
    (Stuck(Stem(3), true), [NONE, NONE, NONE]),
    (Stuck(Pin(5, 0), false), [NONE, NONE, ALL]),
];

#[test]
fn choice_under_faults(rt: HostRuntime) -> Result<(), Fail> {
    let block = counted_vectors(rt.alloc())?;
    assert_eq!(rt;
        first_wrong_in(rt.alloc(), CHOICE, &block, CHOICE_CASES)?,
        None
    );
    Ok(())
}

// Returns whether all lanes of the first word differ at position 2, and no other lane differs at any position.
fn differs_in_first_word(sim: &FaultSim) -> bool
    requires { 2 < length sim.now.circuit.positions }
{
    for at in 1..LANES / 64 {
        if sim.differs(2).word(at) != 0 || sim.any_difference().word(at) != 0 {
            return false;
        }
    }
    sim.differs(2).word(0) == u64::MAX
}

// Returns what `differs_in_first_word` does for line 3, a constant 1, stuck at 0.
fn constant_differs_so(alloc: Global, good: &GoodSim) -> Result<bool, AllocError>
    requires { IsSome good.now.ran }
{
    let circuit = good.circuit();
    let fault = stem(3, false);
    if !stands(circuit, fault) || circuit.positions().len() != 3 {
        return Ok(false);
    }
    let mut sim = FaultSim::new(alloc, circuit)?;
    sim.inject(good, &fault);
    Ok(differs_in_first_word(&sim))
}

// Returns what `constant_differs_so` does at the vectors of a block.
fn constant_differs(alloc: Global, circuit: &Circuit, block: &Block) -> Result<bool, AllocError>
    requires { block.now.sources ≡ circuit.now.sources }
{
    let mut good = GoodSim::new(alloc, circuit)?;
    good.run(block);
    constant_differs_so(alloc, &good)
}

// The lanes of the first word have a vector and differ at a position; the lanes of the other words have none.
#[test]
fn lanes_without_a_vector_do_not_differ(rt: HostRuntime) -> Result<(), Fail> {
    let block = counted_vectors(rt.alloc())?;
    let circuit = circuit(rt.alloc(), CHOICE)?;
    assert!(rt; constant_differs(rt.alloc(), &circuit, &block)?);
    Ok(())
}
