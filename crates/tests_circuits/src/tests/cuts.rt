//! Netlists that are cut, and loops, with answers worked out by hand.

use bench_reader::{NetFault, Place, Statements, read};
use net_model::{Circuit, Design, Names};
use scan_cut::cut;
use std::alloc::Global;
use std::test::Fail;

// The ISCAS-89 circuit s27: four inputs, three flip-flops, ten gates and an output.
const S27: &[u8] =
    b"INPUT(G0)\nINPUT(G1)\nINPUT(G2)\nINPUT(G3)\nOUTPUT(G17)\nG5=DFF(G10)\nG6=DFF(G11)\nG7=DFF(G13)\n\
G14=NOT(G0)\nG17=NOT(G11)\nG8=AND(G14,G6)\nG15=OR(G12,G8)\nG16=OR(G3,G8)\nG9=NAND(G16,G15)\nG10=NOR(G14,G11)\n\
G11=NOR(G5,G9)\nG12=NOR(G1,G7)\nG13=NOR(G2,G12)\n";

fn are_names(names: &Names, expected: &[&[u8]]) -> bool {
    if names.len() as usize != expected.len() {
        return false;
    }
    for (line, name) in expected.iter().enumerate() {
        if names.text(line as u32) != *name {
            return false;
        }
    }
    true
}

// Returns whether a circuit has this number of sources and these positions.
fn has_ends(circuit: &Circuit, sources: u32, positions: &[u32]) -> bool {
    circuit.sources() == sources && circuit.positions() == positions
}

// Returns whether the cut of statements has this number of sources, these positions and lines with these names.
fn are_cut(
    alloc: Global,
    statements: &Statements,
    sources: u32,
    positions: &[u32],
    names: &[&[u8]],
) -> Result<bool, NetFault> {
    let design = cut(alloc, statements)?;
    Ok(has_ends(&design.circuit, sources, positions) && are_names(&design.names, names))
}

// The same for a netlist.
fn is_cut(
    alloc: Global,
    text: &[u8],
    sources: u32,
    positions: &[u32],
    names: &[&[u8]],
) -> Result<bool, NetFault> {
    let statements = read(alloc, text)?;
    are_cut(alloc, &statements, sources, positions, names)
}

// A netlist, and its cut: the number of sources, the positions and the names of the lines.
const CUTS: &[(&[u8], u32, &[u32], &[&[u8]])] = &[
    (b"q=DFF(d)\nd=NOT(q)", 1, &[1], &[b"q", b"d"]),
    (b"q=DFF(q)", 1, &[0], &[b"q"]),
    (
        b"OUTPUT(z)\nz=AND(q,a)\nq=DFF(z)\nINPUT(a)",
        2,
        &[2, 2],
        &[b"a", b"q", b"z"],
    ),
    (b"", 0, &[], &[]),
];

#[test]
fn flip_flops_are_cut(rt: HostRuntime) -> Result<(), Fail> {
    for (number, (text, sources, positions, names)) in CUTS.iter().enumerate() {
        assert!(rt;
            is_cut(rt.alloc(), text, *sources, positions, names)?,
            "netlist {number}"
        );
    }
    Ok(())
}

// Returns whether statements are cut as those of s27.
fn are_cut_s27(alloc: Global, statements: &Statements) -> Result<bool, NetFault> {
    let design = cut(alloc, statements)?;
    Ok(has_ends(&design.circuit, 7, &[8, 13, 14, 16]) && design.circuit.lines() == 17)
}

#[test]
fn s27_is_cut(rt: HostRuntime) -> Result<(), Fail> {
    let statements = read(rt.alloc(), S27)?;
    assert!(rt; are_cut_s27(rt.alloc(), &statements)?);
    Ok(())
}

// Returns whether there is no cut because of a loop at this place, along these names.
fn is_loop(made: &Result<Design, NetFault>, place: Place, along: &[&[u8]]) -> bool {
    match made {
        Err(NetFault::Loop(found, names)) => *found == place && are_names(names, along),
        _ => false,
    }
}

// Returns whether the cut of statements has such a loop.
fn have_loop(alloc: Global, statements: &Statements, place: Place, along: &[&[u8]]) -> bool {
    let made = cut(alloc, statements);
    is_loop(&made, place, along)
}

// Returns whether the cut of a netlist has such a loop.
fn has_loop(alloc: Global, text: &[u8], place: Place, along: &[&[u8]]) -> Result<bool, NetFault> {
    let statements = read(alloc, text)?;
    Ok(have_loop(alloc, &statements, place, along))
}

// A netlist, the place of its loop, and the names along it.
const LOOPS: &[(&[u8], Place, &[&[u8]])] = &[
    (
        b"INPUT(a)\nx=AND(a,y)\ny=NOT(x)",
        Place { byte: 9, line: 2 },
        &[b"x", b"y"],
    ),
    (
        b"INPUT(a)\nz=AND(a,x)\nx=NOT(y)\ny=NOT(x)",
        Place { byte: 20, line: 3 },
        &[b"x", b"y"],
    ),
    (b"z=AND(z,z)", Place { byte: 0, line: 1 }, &[b"z"]),
];

#[test]
fn loops_are_found(rt: HostRuntime) -> Result<(), Fail> {
    for (number, (text, place, along)) in LOOPS.iter().enumerate() {
        assert!(rt;
            has_loop(rt.alloc(), text, *place, along)?,
            "netlist {number}"
        );
    }
    Ok(())
}
