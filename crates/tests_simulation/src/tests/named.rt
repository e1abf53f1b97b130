//! The pattern that is named for two classes of a circuit's faults.

ghost use Rattle.std.specs.Prelude.{◌≡◌, IfOk, length};

use class_refine::Classes;
use net_model::Fault::{self, Free, Stuck};
use net_model::Site::{Pin, Stem};
use net_model::{AnswerRows, Circuit, plain_answer};
use sample_circuits::{NOT_AND_OR, bits, circuit, stands};
use std::alloc::Global;
use std::test::Fail;

// The faults of a source, its complement and the OR of both, by number.
const FAULTS: [Fault; 11] = [
    Free,
    Stuck(Stem(0), false),
    Stuck(Stem(0), true),
    Stuck(Pin(1, 0), false),
    Stuck(Pin(1, 0), true),
    Stuck(Pin(2, 0), false),
    Stuck(Pin(2, 0), true),
    Stuck(Stem(1), false),
    Stuck(Stem(1), true),
    Stuck(Stem(2), false),
    Stuck(Stem(2), true),
];

// Returns whether a circuit's first position shows 1 under a fault if the sources have the bits of `vector`.
fn shows_one(alloc: Global, circuit: &Circuit, fault: Fault, vector: &str) -> Result<bool, Fail> {
    let v = bits(alloc, vector)?;
    if v.len() != circuit.sources() as usize || !stands(circuit, fault) {
        return Err(Fail::new("the vector or the fault doesn't fit"));
    }
    let answer = plain_answer(alloc, circuit, &fault, &v)?;
    Ok(answer.len() > 0 && answer.get(0))
}

// Returns what the first position shows under each of the faults.
fn rows_at(alloc: Global, circuit: &Circuit, vector: &str) -> Result<AnswerRows, Fail>
    ensures { IfOk result (λ rows. length rows ≡ 11) }
{
    let mut rows = AnswerRows::zeros(alloc, 11, 1)?;
    for (number, fault) in FAULTS.iter().enumerate() {
        rows.set(number, 0, shows_one(alloc, circuit, *fault, vector)?);
    }
    Ok(rows)
}

// Returns the classes of the faults by the patterns 0 and 1.
fn classes_of(alloc: Global, circuit: &Circuit) -> Result<Classes, Fail>
    ensures { IfOk result (λ classes. length classes.class_of ≡ 11) }
{
    let mut classes = Classes::new(alloc, 11)?;
    for vector in ["0", "1"] {
        let rows = rows_at(alloc, circuit, vector)?;
        classes.refine(&rows)?;
    }
    Ok(classes)
}

// Returns whether fault 5 is all of class 2 and fault 9 all of class 3, and the first pattern is named for both.
fn are_named(classes: &Classes) -> bool {
    classes.count() == 4
        && classes.members(2) == [5].as_slice()
        && classes.members(3) == [9].as_slice()
        && classes.named(2, 3) == 0
        && classes.named(3, 2) == 0
}

fn is_told(alloc: Global) -> Result<bool, Fail> {
    let circuit = circuit(alloc, NOT_AND_OR)?;
    let classes = classes_of(alloc, &circuit)?;
    Ok(
        are_named(&classes)
            && shows_one(alloc, &circuit, FAULTS[5], "0")?
            && !shows_one(alloc, &circuit, FAULTS[9], "0")?,
    )
}

// Class 3 is no child of class 2: the pattern that separated the two is that of its parent, class 1. To it they answer
// 1 and 0.
#[test]
fn pattern_of_two_classes_by_their_parents(rt: HostRuntime) -> Result<(), Fail> {
    assert!(rt; is_told(rt.alloc())?);
    Ok(())
}
