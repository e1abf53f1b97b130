//! Texts of simulations of small circuits, and of more vectors than there are lanes.

ghost use Rattle.std.specs.Prelude.{◌≡◌, ◌<◌, All, IfOk, length};
ghost use Rattle.sim_listing.specs.VectorTexts.{HaveSameVectors};

use fault_collapse::Subject;
use net_model::{Circuit, Kind, Vector, Vectors};
use sample_circuits::{AND_OF_TWO, BUFFER, CircuitParts, SHOWN_TWICE, bits, circuit};
use sim_listing::{VectorTexts, root_places};
use std::alloc::{AllocError, Global};
use std::test::Fail;
use word_sim::LANES;

// Line 0 is the constant 1, and is shown.
const CONSTANT: CircuitParts<'static> = CircuitParts {
    sources: 0,
    gates: &[(Kind::Const1, &[])],
    positions: &[0],
};

// The source is not shown.
const NOTHING_SHOWN: CircuitParts<'static> = CircuitParts {
    sources: 1,
    gates: &[],
    positions: &[],
};

// Returns the list of the vectors with these digits, one digit for each source.
fn listed(alloc: Global, circuit: &Circuit, digits: &[&str]) -> Result<Vectors, Fail>
    ensures { IfOk result (λ vectors. All (λ v. length v ≡ circuit.now.sources) vectors) }
{
    let mut vectors = Vectors::new(alloc);
    for text in digits {
        vectors.push(vector_of(alloc, circuit, *text)?)?;
    }
    Ok(vectors)
}

// Returns the vector with these digits, one for each source.
fn vector_of(alloc: Global, circuit: &Circuit, digits: &str) -> Result<Vector, Fail>
    ensures { IfOk result (λ v. length v ≡ circuit.now.sources) }
{
    let vector = bits(alloc, digits)?;
    if vector.len() != circuit.sources() as usize {
        return Err(Fail::new("a vector has another width"));
    }
    Ok(vector)
}

// Appends the text of a simulation, vector after vector.
fn push_texts(
    alloc: Global,
    circuit: &Circuit,
    vectors: &[Vector],
    text: &mut Vec<u8>,
) -> Result<(), AllocError>
    requires { All (λ v. length v ≡ circuit.now.sources) vectors.now }
{
    let subject = Subject::new(alloc, circuit)?;
    let roots = root_places(alloc, &subject)?;
    let mut texts = VectorTexts::new(alloc, &subject, &roots, vectors)?;
    for number in 0..vectors.len() {
        push_text(alloc, &mut texts, number, text)?;
    }
    Ok(())
}

fn push_text(
    alloc: Global,
    texts: &mut VectorTexts,
    number: usize,
    text: &mut Vec<u8>,
) -> Result<(), AllocError>
    requires { number < length texts.old.vectors }
    ensures { HaveSameVectors texts.old texts.new }
{
    let own = texts.text(alloc, number)?;
    text.extend_from_slice(own.as_bytes())
}

// Returns whether this is the text of a simulation of a circuit at vectors.
fn is_text(
    alloc: Global,
    circuit: &Circuit,
    vectors: &[Vector],
    wanted: &[u8],
) -> Result<bool, AllocError>
    requires { All (λ v. length v ≡ circuit.now.sources) vectors.now }
{
    let mut text = Vec::new(alloc);
    push_texts(alloc, circuit, vectors, &mut text)?;
    Ok(text.as_slice() == wanted)
}

// As `is_text`, at the vectors with these digits.
fn is_text_at(
    alloc: Global,
    circuit: &Circuit,
    digits: &[&str],
    wanted: &[u8],
) -> Result<bool, Fail> {
    let vectors = listed(alloc, circuit, digits)?;
    Ok(is_text(alloc, circuit, vectors.as_slice(), wanted)?)
}

// As `is_text_at`, of the circuit with these parts.
fn is_text_of(
    alloc: Global,
    parts: CircuitParts,
    digits: &[&str],
    wanted: &[u8],
) -> Result<bool, Fail> {
    let circuit = circuit(alloc, parts)?;
    is_text_at(alloc, &circuit, digits, wanted)
}

// An AND; a source that is shown twice; no position; no source; no vector.
const SMALL: &[(CircuitParts, &[&str], &str)] = &[
    (
        AND_OF_TWO,
        &["11"],
        "pattern 0 answer 1\nfault 1 0\nfault 3 0\nfault 5 0\n",
    ),
    (
        SHOWN_TWICE,
        &["0", "1"],
        "pattern 0 answer 00\nfault 2 11\nfault 4 10\nfault 6 01\npattern 1 answer 11\nfault 1 00\nfault 3 01\nfault 5 10\n",
    ),
    (
        NOTHING_SHOWN,
        &["1", "0"],
        "pattern 0 answer -\npattern 1 answer -\n",
    ),
    (CONSTANT, &[""], "pattern 0 answer 1\nfault 1 0\n"),
    (AND_OF_TWO, &[], ""),
];

#[test]
fn texts_of_small_circuits(rt: HostRuntime) -> Result<(), Fail> {
    for (parts, digits, wanted) in SMALL {
        let same = is_text_of(rt.alloc(), *parts, digits, wanted.as_bytes())?;
        assert!(rt; same, "{wanted}");
    }
    Ok(())
}

// Returns the text of a wire at `count` vectors 0, and then at a vector 1.
fn wire_text(alloc: Global, count: u32) -> Result<String, AllocError> {
    let mut text = String::new(alloc);
    push_lines_at_zero(&mut text, count)?;
    write!(text, "pattern {count} answer 1\nfault 1 0\nfault 3 0\n")?;
    Ok(text)
}

// Appends the lines of a wire at `count` vectors 0, numbered starting at 0.
fn push_lines_at_zero(text: &mut String, count: u32) -> Result<(), AllocError> {
    for number in 0..count {
        write!(text, "pattern {number} answer 0\nfault 2 1\nfault 4 1\n")?;
    }
    Ok(())
}

// There is one vector more than a block has lanes.
#[test]
fn texts_of_two_blocks(rt: HostRuntime) -> Result<(), Fail> {
    let mut digits = ["0"; LANES as usize + 1];
    digits[LANES as usize] = "1";
    let wanted = wire_text(rt.alloc(), LANES)?;
    assert!(rt; is_text_of(rt.alloc(), BUFFER, digits.as_slice(), wanted.as_bytes())?);
    Ok(())
}
