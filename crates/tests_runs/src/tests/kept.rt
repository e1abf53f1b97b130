//! The vectors that `gen` keeps of the stream, against a plain evaluation of each fault at each vector.

ghost use Rattle.std.specs.Prelude.{◌≡◌, []};

use crate::tests::runs::FileText::{Any, Begins};
use crate::tests::runs::{Case, all_leave, joined, plain};
use crate::tests::texts::{C17, S27};
use bench_reader::read;
use fault_list::{FaultList, list};
use net_model::{Answer, Circuit, Fault, Vector, plain_answer};
use sample_circuits::stands;
use scan_cut::cut;
use std::alloc::{AllocError, Global};
use std::test::Fail;
use word_sim::{Block, Stream};

// Returns the bits of an answer of a few positions as a number.
fn code_of(answer: &Answer) -> u64 {
    let mut code = 0_u64;
    for at in 0..answer.len() {
        code = code.wrapping_mul(2).wrapping_add(u64::from(answer.get(at)));
    }
    code
}

fn code_under(alloc: Global, circuit: &Circuit, fault: Fault, v: &Vector) -> Result<u64, Fail> {
    if v.len() != circuit.sources() as usize || !stands(circuit, fault) {
        return Err(Fail::new("the vector or the fault doesn't fit"));
    }
    Ok(code_of(&plain_answer(alloc, circuit, &fault, v)?))
}

// Returns what each fault answers to a vector.
fn codes_at(
    alloc: Global,
    circuit: &Circuit,
    faults: &FaultList,
    v: &Vector,
) -> Result<Vec<u64>, Fail> {
    let mut codes = Vec::new(alloc);
    for number in 0..faults.len() {
        codes.push(code_under(alloc, circuit, faults.get(number), v)?)?;
    }
    Ok(codes)
}

// Returns the lowest number that was alike so far and answers alike now.
fn lead_of(leads: &[usize], codes: &[u64], number: usize) -> usize {
    let alike = |other: &usize| {
        leads.get(*other) == leads.get(number) && codes.get(*other) == codes.get(number)
    };
    (0..number).find(alike).unwrap_or(number)
}

// Returns the same for each number.
fn leads_after(alloc: Global, leads: &[usize], codes: &[u64]) -> Result<Vec<usize>, AllocError> {
    let mut next = Vec::new(alloc);
    for number in 0..leads.len() {
        next.push(lead_of(leads, codes, number))?;
    }
    Ok(next)
}

fn push_line(text: &mut Vec<u8>, v: &Vector) -> Result<(), AllocError> {
    text.extend_from_slice(b"pattern ")?;
    for at in 0..v.len() {
        text.push(if v.get(at) { b'1' } else { b'0' })?;
    }
    text.push(b'\n')?;
    Ok(())
}

// The lines of the vectors that distinguish faults, and for each fault the lowest one that none of them distinguishes
// from it.
#[derive(Drop)]
struct Told {
    lines: Vec<u8>,
    leads: Vec<usize>,
}

impl Told {
    // Adds the line of a vector if it distinguishes two faults that no vector before it distinguished.
    fn add(
        &mut self,
        alloc: Global,
        circuit: &Circuit,
        faults: &FaultList,
        v: &Vector,
    ) -> Result<(), Fail> {
        let codes = codes_at(alloc, circuit, faults, v)?;
        let leads = leads_after(alloc, &self.leads, &codes)?;
        if leads.as_slice() != self.leads.as_slice() {
            push_line(&mut self.lines, v)?;
            self.leads = leads;
        }
        Ok(())
    }

    fn add_all(
        &mut self,
        alloc: Global,
        circuit: &Circuit,
        faults: &FaultList,
        block: &Block,
    ) -> Result<(), Fail> {
        for lane in 0..block.live() {
            self.add(alloc, circuit, faults, &block.vector(lane)?)?;
        }
        Ok(())
    }
}

// Returns the stream after its first blocks, which are put into the empty `block`: as many of five as there are lanes
// for.
fn begun(block: &mut Block) -> Stream
    requires { block.old.vectors ≡ [] }
    ensures stream { result.sources ≡ block.old.sources }
    ensures block { block.new.sources ≡ block.old.sources }
{
    let mut stream = Stream::new(block.sources());
    stream.fill(5, block);
    stream
}

// Returns the lines of the vectors of the first five blocks that distinguish faults.
fn told_lines(
    alloc: Global,
    circuit: &Circuit,
    faults: &FaultList,
    block: &mut Block,
) -> Result<Vec<u8>, Fail>
    requires { block.old.vectors ≡ [] }
{
    let mut told = Told {
        lines: Vec::new(alloc),
        leads: vec![in alloc; 0; faults.len() as usize]?,
    };
    let mut stream = begun(block);
    told.add_all(alloc, circuit, faults, block)?;
    block.clear();
    stream.fill(1, block);
    told.add_all(alloc, circuit, faults, block)?;
    let Told { lines, leads: _ } = told;
    Ok(lines)
}

// Returns the same for a netlist.
fn kept_lines(alloc: Global, netlist: &[u8]) -> Result<Vec<u8>, Fail> {
    let design = cut(alloc, &read(alloc, netlist)?)?;
    let circuit = &design.circuit;
    let faults = list(alloc, circuit)?;
    let mut block = Block::new(alloc, circuit.sources())?;
    told_lines(alloc, circuit, &faults, &mut block)
}

const FIVE_BLOCKS: &[&str] = &[
    "gen",
    "n",
    "r",
    "--blocks",
    "5",
    "--cubes",
    "0",
    "--conflicts",
    "0",
];

// Five blocks of the stream are two fills of the lanes, and the second has one block. The kept vectors are those of a
// plain evaluation of each fault at each vector, worked out outside.
static KEPT: [Case; 2] = [
    (
        &[("n", C17)],
        FIVE_BLOCKS,
        0,
        Any,
        (
            "r",
            Begins(
                b"diatest 1 5 2 35\nbudget 5 0 0\npattern 00000\npattern 10000\npattern 01000\npattern 00100\npattern 10100\npattern 01100\npattern 01010\npattern 00110\npattern 01110\npattern 00001\npattern 00111\nsame ",
            ),
        ),
    ),
    (
        &[("n", S27)],
        FIVE_BLOCKS,
        0,
        Any,
        (
            "r",
            Begins(
                b"diatest 1 7 4 53\nbudget 5 0 0\npattern 0000001\npattern 1000001\npattern 0100001\npattern 0010000\npattern 1010001\npattern 0001001\npattern 1001000\npattern 0000101\npattern 0101100\npattern 0000011\npattern 1000010\npattern 0101010\npattern 0000110\npattern 0010010\nsame ",
            ),
        ),
    ),
];

#[test]
fn kept_vectors_of_five_blocks(rt: HostRuntime) -> Result<(), Fail> {
    all_leave(&rt, rt.alloc(), 7, &KEPT)
}

// A netlist, and the first two lines of its result.
static NETLISTS: [(&[u8], &[u8]); 2] = [
    (C17, b"diatest 1 5 2 35\nbudget 5 0 0\n"),
    (S27, b"diatest 1 7 4 53\nbudget 5 0 0\n"),
];

// Whether the patterns of a run's result are the vectors that distinguish faults.
fn keeps_those(alloc: Global, netlist: &[u8], head: &[u8]) -> Result<bool, Fail> {
    let lines = kept_lines(alloc, netlist)?;
    let text = joined(alloc, &[head, &lines, b"same "])?;
    let left = plain(alloc, &[("n", netlist)], FIVE_BLOCKS)?;
    Ok(left.ended(0, Any) && left.holds("r", Begins(&text)))
}

#[test]
fn kept_vectors_tell_faults_apart(rt: HostRuntime) -> Result<(), Fail> {
    for (at, (netlist, head)) in NETLISTS.iter().enumerate() {
        assert!(rt; keeps_those(rt.alloc(), *netlist, *head)?, "case {at}");
    }
    Ok(())
}
