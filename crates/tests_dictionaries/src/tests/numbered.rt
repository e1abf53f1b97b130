//! Tests of the numbers of the answers to blocks of vectors, on small circuits.

ghost use Rattle.std.specs.Prelude.{◌≡◌, ◌<◌, ◌≤◌, ◌^◌, ℕ, None, Some, length, All, IfOk, IsSome, OnOk};
ghost use Rattle.net_model.specs.FaultList.{faults as faults_of, fault_count};
ghost use Rattle.answer_numbers.specs.AnswerNumbers.{numbered_vectors};
ghost use Rattle.word_sim.specs.declared.lanes.TheConstants.{LANES};

use answer_numbers::AnswerNumbers;
use fault_list::{FaultList, list};
use net_model::{Circuit, Vector};
use sample_circuits::{AND_OF_TWO, CircuitParts, SHOWN_TWICE, all_below, bits, circuit, text_of};
use std::alloc::{AllocError, Global};
use std::fmt::Write;
use std::test::Fail;
use word_sim::{Block, LANES};

// A block of vectors, and for each vector the number of each lead's answer, the number of different answers, which
// leads differ from the fault-free answer, and the answers.
type Wanted = (&'static [&'static str], &'static str);

// A circuit, the leads, and the blocks, one after another.
type Case = (CircuitParts<'static>, &'static [u32], &'static [Wanted]);

const CASES: &[Case] = &[
    // At the first vector numbers 4 and 6 show different bits at the two positions, and each differs from an earlier
    // answer only at the last position.
    (
        SHOWN_TWICE,
        &[0, 1, 2, 3, 4, 5, 6],
        &[(
            &["0", "1"],
            "0010203 4 0010101 00 00 11 00 10 00 01;0102030 4 0101010 11 00 11 01 11 10 11;",
        )],
    ),
    // The numbers follow the places of the leads, and not the answers.
    (
        SHOWN_TWICE,
        &[0, 6, 4, 2],
        &[
            (&["0"], "0123 4 0111 00 01 10 11;"),
            (&[], ""),
            (
                &["1", "0"],
                "0000 1 0000 11 11 11 11;0123 4 0111 00 01 10 11;",
            ),
        ],
    ),
    (SHOWN_TWICE, &[2, 0], &[(&["0"], "01 2 10 11 00;")]),
    (SHOWN_TWICE, &[], &[(&["0"], " 0 ;")]),
    (
        AND_OF_TWO,
        &[0, 1, 2, 3, 4, 5, 6],
        &[(
            &["00", "11", "10"],
            "0000001 2 0000001 0 0 0 0 0 0 1;0101010 2 0101010 1 0 1 0 1 0 1;0000101 2 0000101 0 0 0 0 1 0 1;",
        )],
    ),
];

// Returns a block with these vectors.
fn block_of(alloc: Global, sources: u32, texts: &[&str]) -> Result<Block, Fail>
    ensures { IfOk result (λ block. block.sources ≡ sources) }
{
    let mut block = Block::new(alloc, sources)?;
    for text in texts {
        let v = bits(alloc, text)?;
        put(&mut block, &v)?;
    }
    Ok(block)
}

fn put(block: &mut Block, v: &Vector) -> Result<(), Fail>
    ensures { OnOk result (block.new.sources ≡ block.old.sources) }
{
    if block.live() >= LANES || v.len() != block.sources() as usize {
        return Err(Fail::new("a vector doesn't fit"));
    }
    block.push(v);
    Ok(())
}

// Writes what a case says of the vector of a lane.
fn spell_lane(
    alloc: Global,
    numbers: &AnswerNumbers,
    lane: u32,
    places: usize,
    text: &mut String,
) -> Result<(), AllocError>
    requires lane { lane < length (numbered_vectors numbers.now) }
    requires few { length (numbered_vectors numbers.now) ≤ LANES }
    requires places { places ≡ length numbers.now.leads }
{
    for place in 0..places {
        write!(text, "{}", numbers.number(lane, place))?;
    }
    write!(text, " {} ", numbers.count(lane))?;
    spell_differing(numbers, lane, places, text)?;
    spell_answers(alloc, numbers, lane, places, text)?;
    text.push_str(";")
}

fn spell_differing(
    numbers: &AnswerNumbers,
    lane: u32,
    places: usize,
    text: &mut String,
) -> Result<(), AllocError>
    requires lane { lane < length (numbered_vectors numbers.now) }
    requires few { length (numbered_vectors numbers.now) ≤ LANES }
    requires places { places ≡ length numbers.now.leads }
{
    for place in 0..places {
        let differs = numbers.differing(place).get(lane);
        text.push_str(if differs { "1" } else { "0" })?;
    }
    Ok(())
}

fn spell_answers(
    alloc: Global,
    numbers: &AnswerNumbers,
    lane: u32,
    places: usize,
    text: &mut String,
) -> Result<(), AllocError>
    requires lane { lane < length (numbered_vectors numbers.now) }
    requires places { places ≡ length numbers.now.leads }
{
    for place in 0..places {
        let answer = numbers.answer(alloc, lane, place)?;
        let digits = text_of(alloc, &answer)?;
        text.push_str(" ")?;
        text.push_str(digits.as_str())?;
    }
    Ok(())
}

// Returns whether the wanted text is what is written of the vectors of a block.
fn is_said(
    alloc: Global,
    numbers: &AnswerNumbers,
    lanes: u32,
    places: usize,
    wanted: &str,
) -> Result<bool, Fail>
    requires lanes { lanes ≡ length (numbered_vectors numbers.now) }
    requires few { lanes ≤ LANES }
    requires places { places ≡ length numbers.now.leads }
{
    let mut text = String::new(alloc);
    for lane in 0..lanes {
        spell_lane(alloc, numbers, lane, places, &mut text)?;
    }
    Ok(text.as_str() == wanted)
}

fn are_said(
    alloc: Global,
    circuit: &Circuit,
    faults: &FaultList,
    leads: &[u32],
    wanted: &[Wanted],
) -> Result<bool, Fail>
    requires faults { faults.now ≡ faults_of circuit.now }
    requires leads { All (λ lead. lead < fault_count circuit.now) leads.now }
    requires few { length leads.now < 2 ^ 32 }
{
    let mut numbers = AnswerNumbers::new(alloc, circuit, faults, leads)?;
    for (texts, said) in wanted {
        let block = block_of(alloc, circuit.sources(), texts)?;
        numbers.number_block(alloc, &block)?;
        if !is_said(alloc, &numbers, block.live(), leads.len(), said)? {
            return Ok(false);
        }
    }
    Ok(true)
}

fn is_right(alloc: Global, case: &Case) -> Result<bool, Fail> {
    let (parts, leads, wanted) = case;
    let circuit = circuit(alloc, *parts)?;
    let faults = list(alloc, &circuit)?;
    if leads.len() > 1000 || !all_below(leads, faults.len() as usize) {
        return Err(Fail::new("a lead is no fault number"));
    }
    are_said(alloc, &circuit, &faults, leads, wanted)
}

#[test]
fn numbers_of_answers(rt: HostRuntime) -> Result<(), Fail> {
    for (at, case) in CASES.iter().enumerate() {
        assert!(rt; is_right(rt.alloc(), case)?, "case {at}");
    }
    Ok(())
}
