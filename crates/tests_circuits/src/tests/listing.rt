//! The numbers and names of small circuits' faults, and the scope of a pair.

ghost use Rattle.std.specs.Prelude.{◌≡◌, ◌<◌, ◌^◌, All, IfOk, length};
ghost use Rattle.net_model.specs.Circuit.{line_count};
ghost use Rattle.net_model.specs.Fault.{IsFaultOf};

use fault_list::{FaultList, Scope, list, name_text};
use net_model::Fault::{self, Free, Stuck};
use net_model::Site::{self, Pin, Position, Stem};
use net_model::{Circuit, Design, Names};
use sample_circuits::{AND_OF_TWO, CircuitParts, NOT_AND_OR, SHOWN_TWICE, circuit};
use std::alloc::{AllocError, Global};
use std::test::Fail;

// Returns the circuit with these letters as the names of its lines.
fn lettered(alloc: Global, circuit: Circuit, letters: &[u8]) -> Result<Design, AllocError>
    requires few { length letters.now < 2 ^ 31 }
    ensures circuit { IfOk result (λ design. design.circuit ≡ circuit) }
    ensures names { IfOk result (λ design. length design.names ≡ length letters.now) }
{
    let mut names = Names::new(alloc);
    for letter in letters {
        names.push(&[*letter])?;
    }
    Ok(Design { circuit, names })
}

// Returns the circuit of these parts with these letters as the names of its lines.
fn design_of(alloc: Global, parts: CircuitParts, letters: &[u8]) -> Result<Design, Fail>
    ensures { IfOk result (λ design. length design.names ≡ line_count design.circuit) }
{
    let circuit = circuit(alloc, parts)?;
    if letters.len() != circuit.lines() as usize {
        return Err(Fail::new("there is not one letter for each line"));
    }
    let design = lettered(alloc, circuit, letters)?;
    Ok(design)
}

// Adds a fault's name, with a semicolon after it.
fn push_name(
    alloc: Global,
    design: &Design,
    fault: &Fault,
    text: &mut Vec<u8>,
) -> Result<(), AllocError>
    requires fault { IsFaultOf design.now.circuit fault.now }
    requires names { length design.now.names ≡ line_count design.now.circuit }
{
    let name = name_text(alloc, design, fault)?;
    text.extend_from_slice(name.as_slice())?;
    text.push(b';')?;
    Ok(())
}

// Adds the names of all faults by number, if each has its number.
fn push_names(
    alloc: Global,
    design: &Design,
    faults: &FaultList,
    text: &mut Vec<u8>,
) -> Result<(), Fail>
    requires faults { All (IsFaultOf design.now.circuit) faults.now }
    requires names { length design.now.names ≡ line_count design.now.circuit }
{
    for number in 0..faults.len() {
        let fault = faults.get(number);
        if faults.number_of(&fault) != Some(number) {
            return Err(Fail::new("a fault doesn't have its number"));
        }
        push_name(alloc, design, &fault, text)?;
    }
    Ok(())
}

// Returns the names of all faults of a design by number, each with a semicolon after it.
fn names_of(alloc: Global, design: &Design) -> Result<Vec<u8>, Fail>
    requires { length design.now.names ≡ line_count design.now.circuit }
{
    let faults = list(alloc, &design.circuit)?;
    let mut text = Vec::new(alloc);
    push_names(alloc, design, &faults, &mut text)?;
    Ok(text)
}

// Returns whether these are the names of all faults of a design.
fn are_names(alloc: Global, design: &Design, names: &[u8]) -> Result<bool, Fail>
    requires { length design.now.names ≡ line_count design.now.circuit }
{
    let found = names_of(alloc, design)?;
    Ok(found.as_slice() == names)
}

// Returns whether these are the names of all faults of the circuit of some parts.
fn has_names(
    alloc: Global,
    parts: CircuitParts,
    letters: &[u8],
    names: &[u8],
) -> Result<bool, Fail> {
    let design = design_of(alloc, parts, letters)?;
    are_names(alloc, &design, names)
}

// Parts, a letter for each line, and the names of all faults by number, each with a semicolon after it: of stems alone,
// of stems and pins, and of stems and positions.
const NAMED: &[(CircuitParts, &[u8], &[u8])] = &[
    (
        AND_OF_TWO,
        b"abz",
        b"free;S a 0;S a 1;S b 0;S b 1;S z 0;S z 1;",
    ),
    (
        NOT_AND_OR,
        b"abz",
        b"free;S a 0;S a 1;G a b 0 0;G a b 0 1;G a z 0 0;G a z 0 1;S b 0;S b 1;S z 0;S z 1;",
    ),
    (
        SHOWN_TWICE,
        b"a",
        b"free;S a 0;S a 1;O a 0 0;O a 0 1;O a 1 0;O a 1 1;",
    ),
];

#[test]
fn names_of_faults(rt: HostRuntime) -> Result<(), Fail> {
    for (number, (parts, letters, names)) in NAMED.iter().enumerate() {
        assert!(rt;
            has_names(rt.alloc(), *parts, letters, names)?,
            "circuit {number}"
        );
    }
    Ok(())
}

// Sites that have no number: sole destinations, and sites that the circuit doesn't have.
const UNNUMBERED: &[Site] = &[
    Pin(2, 1),
    Position(0),
    Pin(2, 2),
    Pin(3, 0),
    Position(1),
    Stem(3),
];

// Returns the first of `UNNUMBERED` that has a number.
fn first_numbered(faults: &FaultList) -> Option<Site> {
    for site in UNNUMBERED {
        if faults.number_of(&Stuck(*site, false)) != None {
            return Some(*site);
        }
    }
    None
}

fn numbered_site(alloc: Global, circuit: &Circuit) -> Result<Option<Site>, Fail> {
    let faults = list(alloc, circuit)?;
    Ok(first_numbered(&faults))
}

#[test]
fn sites_without_numbers(rt: HostRuntime) -> Result<(), Fail> {
    let circuit = circuit(rt.alloc(), NOT_AND_OR)?;
    assert!(rt; numbered_site(rt.alloc(), &circuit)? == None);
    Ok(())
}

// Returns which lines are split, whether the position is reached, and which lines are relevant, for three lines and one
// position.
fn marks(scope: &Scope) -> [bool; 7]
    requires split { length scope.now.split ≡ 3 }
    requires reached { length scope.now.reached ≡ 1 }
    requires relevant { length scope.now.relevant ≡ 3 }
{
    [
        scope.split(0),
        scope.split(1),
        scope.split(2),
        scope.reached(0),
        scope.relevant(0),
        scope.relevant(1),
        scope.relevant(2),
    ]
}

// Returns whether two faults of a circuit have these marks.
fn have_marks(
    alloc: Global,
    circuit: &Circuit,
    f: &Fault,
    g: &Fault,
    wanted: &[bool; 7],
) -> Result<bool, Fail>
    requires lines { line_count circuit.now ≡ 3 }
    requires positions { length circuit.now.positions ≡ 1 }
{
    let scope = Scope::of(alloc, circuit, f, g)?;
    Ok(marks(&scope) == *wanted)
}

// Returns whether two faults of the AND have these marks.
fn are_marked(alloc: Global, f: &Fault, g: &Fault, wanted: &[bool; 7]) -> Result<bool, Fail> {
    let circuit = circuit(alloc, AND_OF_TWO)?;
    have_marks(alloc, &circuit, f, g, wanted)
}

// Pairs of faults of the AND, and their marks: input a is stuck, the position that shows the AND is stuck, or nothing.
const SCOPES: &[(Fault, Fault, [bool; 7])] = &[
    (
        Stuck(Stem(0), true),
        Free,
        [true, false, true, true, true, true, true],
    ),
    (
        Free,
        Stuck(Position(0), false),
        [false, false, false, true, true, true, true],
    ),
    (Free, Free, [false; 7]),
];

#[test]
fn scopes_of_pairs(rt: HostRuntime) -> Result<(), Fail> {
    for (number, (f, g, wanted)) in SCOPES.iter().enumerate() {
        assert!(rt; are_marked(rt.alloc(), f, g, wanted)?, "pair {number}");
    }
    Ok(())
}
