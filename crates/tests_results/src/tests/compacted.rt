//! What is left of results without the patterns that their classes don't need.

ghost use Rattle.std.specs.Prelude.{◌<◌};

use crate::tests::fallen::{
    COPY_ALL, COPY_LEFT, ONE_ALL, ONE_LEFT, OR_OF_ONE, OR_SHOWN_TWICE, TWICE_ALL, TWICE_LEFT,
    UNSEEN_COPY,
};
use crate::tests::outcome::push_parts;
use crate::tests::texts::{
    AND_CLASSES, AND_EVIDENCE, AND_HEAD, AND_MEMBERS, LONE, LONE_END, LONE_EVIDENCE, LONE_HEAD,
    NOT_CLASSES, NOT_EVIDENCE, NOT_HEAD, NOT_MEMBERS,
};
use compact_tests::{Thin, compact};
use dia_check::check;
use diag_shelf::{Shelf, SureShelf};
use net_model::Circuit;
use sample_circuits::{AND_OF_TWO, CircuitParts, NOT_AND_OR, circuit};
use std::alloc::{AllocError, Global};
use std::test::Fail;

// Returns what is left of a text, if it is valid.
fn thinned(alloc: Global, circuit: &Circuit, text: &str) -> Result<Option<Thin>, Fail> {
    let mut shelf = SureShelf::new(alloc, 4096);
    shelf.put_file("r", text.as_bytes())?;
    shelf.open_file("r")?;
    match check(alloc, circuit, &mut shelf) {
        Ok(checked) => Ok(Some(compact(alloc, circuit, &checked, text.as_bytes())?)),
        Err(_) => Ok(None),
    }
}

// Returns whether `left` is what is left of a text, with `dropped` patterns fewer.
fn is_left(
    alloc: Global,
    circuit: &Circuit,
    text: &str,
    left: &str,
    dropped: u32,
) -> Result<bool, Fail> {
    match thinned(alloc, circuit, text)? {
        Some(thin) => Ok(thin.text.as_slice() == left.as_bytes() && thin.dropped == dropped),
        None => Ok(false),
    }
}

// As `is_left`, and nothing is dropped from what is left.
fn leaves(
    alloc: Global,
    circuit: &Circuit,
    text: &str,
    left: &str,
    dropped: u32,
) -> Result<bool, Fail> {
    Ok(is_left(alloc, circuit, text, left, dropped)? && is_left(alloc, circuit, left, left, 0)?)
}

fn joined(alloc: Global, parts: &[&str]) -> Result<String, AllocError> {
    let mut text = String::new(alloc);
    push_parts(&mut text, parts)?;
    Ok(text)
}

// A circuit, a valid text in parts, what is left of it, and how many patterns fewer it has.
type Case = (
    CircuitParts<'static>,
    &'static [&'static str],
    &'static [&'static str],
    u32,
);

fn holds(alloc: Global, case: &Case) -> Result<bool, Fail> {
    let (parts, texts, left, dropped) = *case;
    let circuit = circuit(alloc, parts)?;
    let text = joined(alloc, texts)?;
    let left = joined(alloc, left)?;
    leaves(alloc, &circuit, text.as_str(), left.as_str(), dropped)
}

// An AND gate without the pattern 00.
const AND_LEFT: &[&str] = &[
    "diatest 1 2 1 7\nbudget 4 64 2000\npattern 10\npattern 01\npattern 11\nsame 3 1 C\nsame 5 1 C\n",
    "class 0 - -\nclass 1 0 0\nclass 2 0 1\nclass 3 1 1\nclass 4 0 2\n",
    "member 0 0 rep\nmember 1 4 rep\nmember 2 2 rep\nmember 3 4 equal\nmember 4 1 rep\nmember 5 4 equal\nmember 6 3 rep\nend\n",
];

const NOT_ALL: &[&str] = &[NOT_HEAD, NOT_EVIDENCE, NOT_CLASSES, NOT_MEMBERS];

const LONE_ALL: &[&str] = &[LONE_HEAD, LONE_EVIDENCE, LONE_END];

const CASES: &[Case] = &[
    (
        AND_OF_TWO,
        &[AND_HEAD, AND_EVIDENCE, AND_CLASSES, AND_MEMBERS],
        AND_LEFT,
        1,
    ),
    (NOT_AND_OR, NOT_ALL, NOT_ALL, 0),
    // No pattern, and one class.
    (LONE, LONE_ALL, LONE_ALL, 0),
    // Patterns after evidence, numbers that are named twice, and open marks that fell.
    (UNSEEN_COPY, COPY_ALL, COPY_LEFT, 1),
    (OR_OF_ONE, ONE_ALL, ONE_LEFT, 1),
    (OR_SHOWN_TWICE, TWICE_ALL, TWICE_LEFT, 1),
];

#[test]
fn compacted_results(rt: HostRuntime) -> Result<(), Fail> {
    for (at, case) in CASES.iter().enumerate() {
        assert!(rt; holds(rt.alloc(), case)?, "case {at}");
    }
    Ok(())
}

// How many sources there are, each of them shown: one more than a block has lanes. At the vector with a single 1, the
// stuck-at-0 fault of its source is the only one that answers all 0. At the vector of all 0, each stuck-at-1 fault
// answers otherwise than the rest.
const SHOWN: u32 = 257;

fn shown_sources(alloc: Global) -> Result<Circuit, Fail> {
    let mut positions = Vec::new(alloc);
    for source in 0..SHOWN {
        positions.push(source)?;
    }
    let parts = CircuitParts {
        sources: SHOWN,
        gates: &[],
        positions: positions.as_slice(),
    };
    Ok(circuit(alloc, parts)?)
}

// Appends the first two lines.
fn push_head(text: &mut String) -> Result<(), AllocError> {
    let numbers = 2 * SHOWN + 1;
    write!(
        text,
        "diatest 1 {SHOWN} {SHOWN} {numbers}\nbudget 4 64 2000\n"
    )?;
    Ok(())
}

// Appends the pattern with a 1 only at source `one`, or with none if there is no such source.
fn push_one(text: &mut String, one: u32) -> Result<(), AllocError> {
    text.push_str("pattern ")?;
    for source in 0..SHOWN {
        text.push_str(if source == one { "1" } else { "0" })?;
    }
    text.push_str("\n")?;
    Ok(())
}

// Appends the patterns with a 1 at one source, for each source, and the classes that the first pattern of the result
// cuts off.
fn push_ones(text: &mut String) -> Result<(), AllocError> {
    for one in 0..SHOWN {
        push_one(text, one)?;
    }
    text.push_str("class 0 - -\n")?;
    for other in 0..SHOWN {
        let class = other + 1;
        write!(text, "class {class} 0 0\n")?;
    }
    Ok(())
}

// Appends the numbers of the faults of the sources, starting at source `from`, and the end.
fn push_members(text: &mut String, from: u32) -> Result<(), AllocError>
    requires { from < 2 }
{
    for source in from..SHOWN {
        let zero = 2 * source + 1;
        let one = 2 * source + 2;
        let class = source + 1;
        let later = SHOWN + class;
        write!(
            text,
            "member {zero} {later} rep\nmember {one} {class} rep\n"
        )?;
    }
    text.push_str("end\n")?;
    Ok(())
}

// Returns a result with all 0 first: it cuts off the stuck-at-1 faults, and each pattern after it a stuck-at-0 fault.
fn text_of_all(alloc: Global) -> Result<String, AllocError> {
    let mut text = String::new(alloc);
    push_head(&mut text)?;
    push_one(&mut text, SHOWN)?;
    push_ones(&mut text)?;
    for source in 0..SHOWN {
        let pattern = source + 1;
        let class = SHOWN + pattern;
        write!(text, "class {class} 0 {pattern}\n")?;
    }
    text.push_str("member 0 0 rep\n")?;
    push_members(&mut text, 0)?;
    Ok(text)
}

// Returns a result without all 0: the pattern at source 0 cuts off its stuck-at-0 fault and the stuck-at-1 faults of
// the others, and the next one cuts off the stuck-at-1 fault of source 0.
fn text_of_ones(alloc: Global) -> Result<String, AllocError> {
    let mut text = String::new(alloc);
    push_head(&mut text)?;
    push_ones(&mut text)?;
    let next = SHOWN + 1;
    write!(text, "class {next} 0 1\n")?;
    for pattern in 1..SHOWN {
        let class = next + pattern;
        write!(text, "class {class} 0 {pattern}\n")?;
    }
    write!(
        text,
        "member 0 0 rep\nmember 1 1 rep\nmember 2 {next} rep\n"
    )?;
    push_members(&mut text, 1)?;
    Ok(text)
}

#[test]
fn a_result_of_two_blocks(rt: HostRuntime) -> Result<(), Fail> {
    let circuit = shown_sources(rt.alloc())?;
    let text = text_of_all(rt.alloc())?;
    let left = text_of_ones(rt.alloc())?;
    assert!(rt; leaves(rt.alloc(), &circuit, text.as_str(), left.as_str(), 1)?);
    Ok(())
}
