//! The stream's words and vectors, blocks, and gates of each kind in lanes.

ghost use Rattle.std.specs.Prelude.{◌≡◌, ◌<◌, ◌≤◌, [], Some, IfOk, length};
ghost use Rattle.net_model.specs.Circuit.{line_count};
ghost use Rattle.word_sim.specs.GoodSim.{good_sim_with, vectors_of};

use net_model::{Bits, Circuit, Kind};
use rand_core::SeedableRng;
use rand_core::utils::NextWord;
use rand_xoshiro::SplitMix64;
use sample_circuits::{CircuitParts, circuit};
use std::alloc::{AllocError, Global};
use std::test::Fail;
use word_sim::{Block, GoodSim, LANES, Stream};

// Returns whether a lane has a vector with these bits.
fn has(block: &Block, lane: u32, bits: &[bool]) -> Result<bool, AllocError> {
    if lane >= block.live() {
        return Ok(false);
    }
    Ok(is_vector(&block.vector(lane)?, bits))
}

fn is_vector(v: &Bits, bits: &[bool]) -> bool {
    if v.len() != bits.len() {
        return false;
    }
    for (k, bit) in bits.iter().enumerate() {
        if v.get(k) != *bit {
            return false;
        }
    }
    true
}

// Returns whether these lanes have these vectors.
fn has_all(block: &Block, vectors: &[(u32, &[bool])]) -> Result<bool, AllocError> {
    for (lane, bits) in vectors {
        if !has(block, *lane, bits)? {
            return Ok(false);
        }
    }
    Ok(true)
}

#[test]
fn first_word(rt: HostRuntime) -> Result<(), Fail> {
    let mut rng = SplitMix64::seed_from_u64(0);
    assert_eq!(rt; rng.next_word(), 0xe220a8397b1dcdaf);
    Ok(())
}

// Returns whether an empty block has these vectors after it is filled with the first block of the stream.
fn begins_with(block: &mut Block, vectors: &[(u32, &[bool])]) -> Result<bool, AllocError>
    requires { block.old.vectors ≡ [] }
{
    let mut stream = Stream::new(block.sources());
    if stream.fill(1, block) != 1 || block.live() != 64 {
        return Ok(false);
    }
    has_all(block, vectors)
}

const OF_TWO: &[(u32, &[bool])] = &[
    (0, &[false, false]),
    (1, &[true, false]),
    (2, &[false, true]),
    (3, &[true, true]),
    (63, &[true, true]),
];

#[test]
fn vectors_of_two_sources(rt: HostRuntime) -> Result<(), Fail> {
    let mut block = Block::new(rt.alloc(), 2)?;
    assert!(rt; begins_with(&mut block, OF_TWO)?);
    Ok(())
}

const OF_SEVEN: &[(u32, &[bool])] = &[
    (0, &[false, false, false, false, false, false, true]),
    (4, &[false, false, true, false, false, false, false]),
];

#[test]
fn vectors_of_seven_sources(rt: HostRuntime) -> Result<(), Fail> {
    let mut block = Block::new(rt.alloc(), 7)?;
    assert!(rt; begins_with(&mut block, OF_SEVEN)?);
    Ok(())
}

fn has_bit(v: &Bits, source: usize, bit: bool) -> bool {
    source < v.len() && v.get(source) == bit
}

// Returns whether a source has the binary digits of `word` in the 64 lanes starting at `first`.
fn has_word(block: &Block, first: u32, source: usize, word: u64) -> Result<bool, AllocError> {
    if block.live() < 64 || first > block.live() - 64 {
        return Ok(false);
    }
    for at in 0..64 {
        if !has_bit(&block.vector(first + at)?, source, (word >> at) & 1 == 1) {
            return Ok(false);
        }
    }
    Ok(true)
}

// Returns whether two sources have the next two words of the generator in the 64 lanes starting at `first`.
fn has_next_words(block: &Block, first: u32, rng: &mut SplitMix64) -> Result<bool, AllocError> {
    let words = [rng.next_word(), rng.next_word()];
    Ok(has_word(block, first, 0, words[0])? && has_word(block, first, 1, words[1])?)
}

// Returns a stream of two sources after `block` was filled with its first blocks: `left`, or as many as it takes.
fn begun(left: u32, block: &mut Block) -> Stream
    requires left { 1 ≤ left }
    requires empty { block.old.vectors ≡ [] }
    requires sources { block.old.sources ≡ 2 }
    ensures stream { result.sources ≡ 2 }
    ensures block { block.new.sources ≡ 2 }
{
    let mut stream = Stream::new(2);
    stream.fill(left, block);
    stream
}

// Returns whether a block has the first four blocks of the stream of two sources.
fn has_four(block: &Block, rng: &mut SplitMix64) -> Result<bool, AllocError> {
    if block.live() != 256
        || !has_word(block, 0, 0, 0xaaaa_aaaa_aaaa_aaaa)?
        || !has_word(block, 0, 1, 0xcccc_cccc_cccc_cccc)?
    {
        return Ok(false);
    }
    for turn in 1..4 {
        if !has_next_words(block, 64 * turn, rng)? {
            return Ok(false);
        }
    }
    Ok(true)
}

// Returns whether an empty block gets five blocks of the stream in two fills: four in the first, and one in the second,
// which leaves the lanes of three words without a vector.
fn has_five(block: &mut Block) -> Result<bool, AllocError>
    requires empty { block.old.vectors ≡ [] }
    requires sources { block.old.sources ≡ 2 }
{
    let mut rng = SplitMix64::seed_from_u64(0);
    let mut stream = begun(5, block);
    if !has_four(block, &mut rng)? {
        return Ok(false);
    }
    block.clear();
    if stream.fill(1, block) != 1 || block.live() != 64 {
        return Ok(false);
    }
    has_next_words(block, 0, &mut rng)
}

#[test]
fn five_blocks_in_two_fills(rt: HostRuntime) -> Result<(), Fail> {
    let mut block = Block::new(rt.alloc(), 2)?;
    assert!(rt; has_five(&mut block)?);
    Ok(())
}

// Returns whether only the lanes of the first word are live.
fn first_word_lives(sim: &GoodSim) -> bool {
    for at in 1..LANES / 64 {
        if sim.live().word(at) != 0 {
            return false;
        }
    }
    sim.live().word(0) == u64::MAX
}

// Returns the simulation of a circuit at the vectors of a block.
fn simulated<'a>(
    alloc: Global,
    circuit: &'a Circuit,
    block: &Block,
) -> Result<GoodSim<'a>, AllocError>
    requires { block.now.sources ≡ circuit.now.sources }
    ensures { IfOk result (λ sim. sim ≡ good_sim_with circuit.now (Some block.now.vectors)) }
{
    let mut sim = GoodSim::new(alloc, circuit)?;
    sim.run(block);
    Ok(sim)
}

// Returns a block that had 256 vectors, and then has 64.
fn refilled(alloc: Global) -> Result<Block, AllocError>
    ensures { IfOk result (λ block. block.sources ≡ 2) }
{
    let mut block = Block::new(alloc, 2)?;
    let mut stream = begun(4, &mut block);
    block.clear();
    stream.fill(1, &mut block);
    Ok(block)
}

// Returns whether only the lanes of the first word are live after a block was run.
fn leaves_lanes(alloc: Global, circuit: &Circuit, block: &Block) -> Result<bool, Fail>
    requires { block.now.sources ≡ circuit.now.sources }
{
    let sim = simulated(alloc, circuit, block)?;
    Ok(first_word_lives(&sim))
}

#[test]
fn lanes_without_a_vector(rt: HostRuntime) -> Result<(), Fail> {
    let block = refilled(rt.alloc())?;
    let circuit = circuit(rt.alloc(), NOT_FIRST)?;
    assert!(rt; leaves_lanes(rt.alloc(), &circuit, &block)?);
    Ok(())
}

// Returns a block of the vectors 01 and 11.
fn two_pushed(alloc: Global) -> Result<Block, AllocError> {
    let mut v = Bits::zeros(alloc, 2)?;
    let mut block = Block::new(alloc, 2)?;
    v.set(1, true);
    block.push(&v);
    v.set(0, true);
    block.push(&v);
    Ok(block)
}

// Returns whether a block has the vectors 01 and 11, and none after it is cleared.
fn has_pushed(block: &mut Block) -> Result<bool, AllocError> {
    if block.live() != 2 || !has_all(block, &[(0, &[false, true]), (1, &[true, true])])? {
        return Ok(false);
    }
    block.clear();
    Ok(block.live() == 0)
}

#[test]
fn pushed_vectors(rt: HostRuntime) -> Result<(), Fail> {
    let mut block = two_pushed(rt.alloc())?;
    assert!(rt; has_pushed(&mut block)?);
    Ok(())
}

// Returns whether line 3 has these values in the first eight lanes.
fn shows(sim: &GoodSim, expected: &[u8; 8]) -> bool
    requires line { 3 < line_count sim.now.circuit }
    requires lanes { 8 ≤ length (vectors_of sim.now) }
{
    for (lane, digit) in expected.iter().enumerate() {
        if sim.bit(3, lane as u32) != (*digit == b'1') {
            return false;
        }
    }
    true
}

// Returns whether line 3 of a circuit has these values at the first eight vectors of a block.
fn line_shows(
    alloc: Global,
    circuit: &Circuit,
    block: &Block,
    expected: &[u8; 8],
) -> Result<bool, Fail>
    requires sources { block.now.sources ≡ circuit.now.sources }
    requires lanes { 8 ≤ length block.now.vectors }
{
    let sim = simulated(alloc, circuit, block)?;
    Ok(circuit.lines() > 3 && shows(&sim, expected))
}

// Returns whether a gate over some of three sources has these values at the first eight vectors of a block.
fn gate_shows(
    alloc: Global,
    block: &Block,
    gate: (Kind, &[u32]),
    expected: &[u8; 8],
) -> Result<bool, Fail>
    requires sources { block.now.sources ≡ 3 }
    requires lanes { 8 ≤ length block.now.vectors }
{
    let parts = CircuitParts {
        sources: 3,
        gates: &[gate],
        positions: &[],
    };
    let circuit = circuit(alloc, parts)?;
    line_shows(alloc, &circuit, block, expected)
}

// Gates over some of three sources, and their values at 000, 100, 010, 110, 001, 101, 011 and 111.
const GATES: &[(Kind, &[u32], &[u8; 8])] = &[
    (Kind::And, &[0, 1], b"00010001"),
    (Kind::Nand, &[0, 1], b"11101110"),
    (Kind::Or, &[0, 1], b"01110111"),
    (Kind::Nor, &[0, 1], b"10001000"),
    (Kind::Xor, &[0, 1, 2], b"01101001"),
    (Kind::Xnor, &[0, 1, 2], b"10010110"),
    (Kind::Buff, &[0], b"01010101"),
    (Kind::Not, &[0], b"10101010"),
    (Kind::Mux, &[0, 1, 2], b"00100111"),
    (Kind::Mux, &[0, 0, 0], b"01010101"),
    (Kind::Const0, &[], b"00000000"),
    (Kind::Const1, &[], b"11111111"),
];

// Returns the first kind of gate, if any, that has other values at the vectors of a block.
fn first_other(alloc: Global, block: &Block) -> Result<Option<Kind>, Fail>
    requires { block.now.sources ≡ 3 }
{
    if block.live() != 64 {
        return Err(Fail::new("there are not 64 vectors"));
    }
    for (kind, pins, expected) in GATES {
        if !gate_shows(alloc, block, (*kind, pins), expected)? {
            return Ok(Some(*kind));
        }
    }
    Ok(None)
}

#[test]
fn gates_of_each_kind(rt: HostRuntime) -> Result<(), Fail> {
    let mut block = Block::new(rt.alloc(), 3)?;
    Stream::new(3).fill(1, &mut block);
    assert_eq!(rt; first_other(rt.alloc(), &block)?, None);
    Ok(())
}

// A NOT of the NAND that comes after it, over two sources.
const NOT_FIRST: CircuitParts<'static> = CircuitParts {
    sources: 2,
    gates: &[(Kind::Not, &[3]), (Kind::Nand, &[0, 1])],
    positions: &[],
};

// Returns a block of the vectors 00 and 11.
fn both_or_none(alloc: Global) -> Result<Block, AllocError>
    ensures sources { IfOk result (λ block. block.sources ≡ 2) }
    ensures vectors { IfOk result (λ block. length block.vectors ≡ 2) }
{
    let mut v = Bits::zeros(alloc, 2)?;
    let mut block = Block::new(alloc, 2)?;
    block.push(&v);
    v.set(0, true);
    v.set(1, true);
    block.push(&v);
    Ok(block)
}

// Returns whether the NOT and the NAND have their values in the lanes of two vectors, and no other lane is live.
fn are_in_order(sim: &GoodSim) -> bool
    requires lines { 3 < line_count sim.now.circuit }
    requires lanes { 2 ≤ length (vectors_of sim.now) }
{
    if sim.bit(2, 0) || !sim.bit(2, 1) {
        return false;
    }
    let (nand, live) = (sim.lanes(3), sim.live());
    nand.get(0) && !nand.get(1) && live.get(1) && !live.get(2)
}

// Returns what `are_in_order` does for a circuit at the vectors of a block.
fn goes_in_order(alloc: Global, circuit: &Circuit, block: &Block) -> Result<bool, Fail>
    requires sources { block.now.sources ≡ circuit.now.sources }
    requires lines { 3 < line_count circuit.now }
    requires lanes { 2 ≤ length block.now.vectors }
{
    let sim = simulated(alloc, circuit, block)?;
    Ok(are_in_order(&sim))
}

#[test]
fn gates_in_their_order(rt: HostRuntime) -> Result<(), Fail> {
    let block = both_or_none(rt.alloc())?;
    let circuit = circuit(rt.alloc(), NOT_FIRST)?;
    assert!(rt; goes_in_order(rt.alloc(), &circuit, &block)?);
    Ok(())
}
