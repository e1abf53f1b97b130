//! Gates, small circuits, their order and wiring, and rows of answers.

ghost use Rattle.std.specs.Prelude.{◌≡◌, false, length, replicate};
ghost use Rattle.net_model.specs.Fault.{IsFaultOf};

use net_model::Fault::{self, Free, Stuck};
use net_model::Site::{Pin, Position, Stem};
use net_model::{
    AnswerRows, Bits, BuildFault, Circuit, Kind, Vector, Wiring, gate_value, plain_answer,
};
use sample_circuits::{CircuitParts, PartsFault, bits, circuit, stands, takes, text_of};
use std::alloc::{AllocError, Global};
use std::test::Fail;

// Returns what a gate gives at these bits of its pins, or `-` if it doesn't take that number of pins.
fn value(kind: Kind, seen: &Bits) -> &'static str {
    if !takes(kind, seen.len()) {
        "-"
    } else if gate_value(kind, seen) {
        "1"
    } else {
        "0"
    }
}

// Returns what a gate gives at each of these lists of bits.
fn values(alloc: Global, kind: Kind, pins: &[&str]) -> Result<String, AllocError> {
    let mut text = String::new(alloc);
    for seen in pins {
        text.push_str(value(kind, &bits(alloc, seen)?))?;
    }
    Ok(text)
}

const TWO: &[&str] = &["00", "01", "10", "11"];

const THREE: &[&str] = &["000", "001", "010", "011", "100", "101", "110", "111"];

// Kinds, bits of their pins, and what a gate gives at each. A multiplexer gives its second pin if its first is 0, and
// else its third.
const GATES: &[(Kind, &[&str], &str)] = &[
    (Kind::And, TWO, "0001"),
    (Kind::Nand, TWO, "1110"),
    (Kind::Or, TWO, "0111"),
    (Kind::Nor, TWO, "1000"),
    (Kind::Xor, TWO, "0110"),
    (Kind::Xnor, TWO, "1001"),
    (Kind::Not, &["0"], "1"),
    (Kind::Buff, &["1"], "1"),
    (Kind::Const0, &[""], "0"),
    (Kind::Const1, &[""], "1"),
    (Kind::Xor, &["111"], "1"),
    (Kind::Xnor, &["111"], "0"),
    (Kind::Mux, &["01"], "-"),
    (Kind::Mux, THREE, "00110101"),
];

// Returns the first kind of gate that gives something else.
fn first_other(alloc: Global) -> Result<Option<Kind>, AllocError> {
    for (kind, pins, expected) in GATES {
        if values(alloc, *kind, pins)?.as_str() != *expected {
            return Ok(Some(*kind));
        }
    }
    Ok(None)
}

#[test]
fn gates_on_bits(rt: HostRuntime) -> Result<(), Fail> {
    assert_eq!(rt; first_other(rt.alloc())?, None);
    Ok(())
}

// Returns whether a circuit answers `answer` to a vector under a fault; both fit the circuit.
fn shows(
    alloc: Global,
    circuit: &Circuit,
    fault: &Fault,
    v: &Vector,
    answer: &str,
) -> Result<bool, Fail>
    requires fault { IsFaultOf circuit.now fault.now }
    requires width { length v.now ≡ circuit.now.sources }
{
    let found = plain_answer(alloc, circuit, fault, v)?;
    let text = text_of(alloc, &found)?;
    Ok(text.as_str() == answer)
}

// The same for a vector and a fault that may not fit the circuit; if one doesn't, it returns false.
fn answers(
    alloc: Global,
    circuit: &Circuit,
    fault: &Fault,
    vector: &str,
    answer: &str,
) -> Result<bool, Fail> {
    let v = bits(alloc, vector)?;
    if !stands(circuit, *fault) || v.len() != circuit.sources() as usize {
        return Ok(false);
    }
    shows(alloc, circuit, fault, &v, answer)
}

// The same for the circuit of some parts.
fn parts_answer(
    alloc: Global,
    parts: CircuitParts,
    fault: &Fault,
    vector: &str,
    answer: &str,
) -> Result<bool, Fail> {
    let circuit = circuit(alloc, parts)?;
    answers(alloc, &circuit, fault, vector, answer)
}

const NAND: CircuitParts<'static> = CircuitParts {
    sources: 2,
    gates: &[(Kind::Nand, &[0, 1])],
    positions: &[2],
};

// The first source chooses between the second and line 4, a constant 1.
const CHOOSER: CircuitParts<'static> = CircuitParts {
    sources: 2,
    gates: &[
        (Kind::Const0, &[]),
        (Kind::Mux, &[0, 1, 4]),
        (Kind::Const1, &[]),
    ],
    positions: &[3, 2, 3],
};

// Parts of a circuit, a fault, a vector, and what is shown at it.
const SHOWN: &[(CircuitParts, Fault, &str, &str)] = &[
    (NAND, Free, "11", "0"),
    (NAND, Stuck(Stem(0), false), "11", "1"),
    (NAND, Stuck(Stem(2), true), "11", "1"),
    (NAND, Stuck(Position(0), true), "11", "1"),
    (NAND, Free, "01", "1"),
    (NAND, Stuck(Stem(0), true), "01", "0"),
    (CHOOSER, Free, "00", "000"),
    (CHOOSER, Free, "01", "101"),
    (CHOOSER, Free, "10", "101"),
    (CHOOSER, Stuck(Stem(4), false), "10", "000"),
    (CHOOSER, Stuck(Stem(2), true), "00", "010"),
    (CHOOSER, Stuck(Pin(3, 0), true), "00", "101"),
    (CHOOSER, Stuck(Pin(3, 1), true), "00", "101"),
    (CHOOSER, Stuck(Pin(3, 2), false), "11", "000"),
];

#[test]
fn answers_under_faults(rt: HostRuntime) -> Result<(), Fail> {
    for (number, (parts, fault, vector, answer)) in SHOWN.iter().enumerate() {
        assert!(rt;
            parts_answer(rt.alloc(), *parts, fault, vector, answer)?,
            "answer {number}"
        );
    }
    Ok(())
}

// The gates that read each line of the chooser, and the positions that show it.
const USERS: &[(&[u32], &[u32])] = &[
    (&[2], &[]),
    (&[2], &[]),
    (&[], &[1]),
    (&[], &[0, 2]),
    (&[2], &[]),
];

// Returns whether the lines have the users in `USERS`.
fn has_users(wiring: &Wiring) -> bool
    requires readers { length wiring.now.readers ≡ 5 }
    requires showing { length wiring.now.showing ≡ 5 }
{
    for (line, (readers, showing)) in USERS.iter().enumerate() {
        let line = line as u32;
        if wiring.readers(line) != *readers || wiring.showing(line) != *showing {
            return false;
        }
    }
    true
}

// Returns whether a circuit is the chooser, with its order and its users. Constants are gates that are ready from the
// start.
fn is_chooser(chooser: &Circuit) -> bool {
    let wiring = chooser.wiring();
    chooser.sources() == 2
        && chooser.lines() == 5
        && chooser.order() == [2, 4, 3].as_slice()
        && wiring.order() == [2, 4, 3].as_slice()
        && has_users(wiring)
}

#[test]
fn order_and_wiring(rt: HostRuntime) -> Result<(), Fail> {
    let chooser = circuit(rt.alloc(), CHOOSER)?;
    assert!(rt; is_chooser(&chooser));
    Ok(())
}

// Returns whether gates form a loop with this walk along it, or form a circuit if `expected` is none.
fn has_walk(built: &Result<Circuit, PartsFault>, expected: Option<&[u32]>) -> bool {
    match built {
        Ok(_circuit) => expected == None,
        Err(PartsFault::Unbuilt(BuildFault::Loop(walk))) => expected == Some(walk.as_slice()),
        Err(_) => false,
    }
}

fn walks(alloc: Global, gates: &[(Kind, &[u32])], walk: Option<&[u32]>) -> bool {
    let parts = CircuitParts {
        sources: 1,
        gates,
        positions: &[],
    };
    let built = circuit(alloc, parts);
    has_walk(&built, walk)
}

// Gates over one source, and the walk along their loop, if they form one.
const WALKS: &[(&[(Kind, &[u32])], Option<&[u32]>)] = &[
    (&[(Kind::Not, &[2]), (Kind::Mux, &[0, 0, 1])], Some(&[1, 2])),
    (&[(Kind::And, &[0, 2]), (Kind::Or, &[0, 2])], Some(&[2])),
    (&[(Kind::Not, &[2]), (Kind::Not, &[0])], None),
];

#[test]
fn walks_of_loops(rt: HostRuntime) -> Result<(), Fail> {
    for (number, (gates, walk)) in WALKS.iter().enumerate() {
        assert!(rt; walks(rt.alloc(), gates, *walk), "gates {number}");
    }
    Ok(())
}

// Returns whether one bit can be set without the bit of the other row, in two rows of three bits.
fn keeps(rows: &mut AnswerRows) -> bool
    requires { rows.old ≡ replicate 2 (replicate 3 false) }
{
    rows.set(1, 2, true);
    rows.get(1, 2) && !rows.get(0, 2) && rows.width() == 3
}

#[test]
fn rows_keep_what_is_set(rt: HostRuntime) -> Result<(), Fail> {
    let mut rows = AnswerRows::zeros(rt.alloc(), 2, 3)?;
    assert!(rt; keeps(&mut rows));
    Ok(())
}
