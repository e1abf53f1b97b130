//! Texts that are read, and texts that are refused.

use bench_reader::{NetFault, NetKind, Statement, Statements, read};
use net_model::Kind;
use std::alloc::Global;
use std::test::Fail;

// Returns whether a text is refused by this rule, at this byte and line, or whether it is read if `expected` is none.
fn is_refused(alloc: Global, text: &[u8], expected: Option<(NetKind, u32, u32)>) -> bool {
    let found = read(alloc, text);
    is_refusal(&found, expected)
}

// The same for the result of its reading.
fn is_refusal(found: &Result<Statements, NetFault>, expected: Option<(NetKind, u32, u32)>) -> bool {
    match found {
        Ok(_) => expected == None,
        Err(NetFault::At(kind, place)) => expected == Some((*kind, place.byte, place.line)),
        Err(_) => false,
    }
}

static READ: [&str; 14] = [
    "",
    "INPUT(a)",
    "input(INPUT)\nAND=and(INPUT)",
    "INPUT(a)INPUT(b)",
    "# \x01\x0c\x7f é\nINPUT(a)",
    "INPUT(a) # x\rINPUT(",
    "OUTPUT(z)z=buf(a)INPUT(a)",
    "a=nOt(b)\nb = DfF ( a )",
    "INPUT(a)z=Xnor\n(\r\na\t,\n# (\na\n)\n",
    "z=NAND(z,z,z)",
    "z=CONST0 ( # )\n )",
    "z=const1()",
    "INPUT(s)INPUT(a)INPUT(b)z=MUX(s,a,b)",
    "INPUT(MUX)CONST0=NOT(MUX)",
];

#[test]
fn texts_are_read(rt: HostRuntime) -> Result<(), Fail> {
    for text in &READ {
        assert!(rt; is_refused(rt.alloc(), text.as_bytes(), None), "{text}");
    }
    Ok(())
}

// A text, the rule by which it is refused, and the byte and line.
const REFUSED: &[(&str, NetKind, u32, u32)] = &[
    ("z=LUT\x01", NetKind::UnknownGate, 2, 1),
    ("FOO\x01", NetKind::BadByte, 3, 1),
    ("FOO (a", NetKind::UnknownGate, 0, 1),
    ("INPUT a(b)", NetKind::Expected, 6, 1),
    ("z=(a)", NetKind::Expected, 2, 1),
    ("z= # x\n", NetKind::Expected, 7, 2),
    ("INPUT(a)\n\x0c", NetKind::BadByte, 9, 2),
    ("INPUT(a)\x7f", NetKind::BadByte, 8, 1),
    ("INPUT(a)\r#\n\r\n\t)", NetKind::Expected, 14, 3),
    ("z=AND(a é)", NetKind::BadByte, 8, 1),
    ("z=NOT(a,b)\x01", NetKind::WrongPins, 2, 1),
    ("\nz = dff (a, b)", NetKind::WrongPins, 5, 2),
    ("z=AND()", NetKind::Expected, 6, 1),
    ("z=CONST1", NetKind::Expected, 8, 1),
    ("z=CONST1\nINPUT(a)", NetKind::Expected, 9, 2),
    ("INPUT(a)\nz=CONST0(a)", NetKind::WrongPins, 11, 2),
    ("INPUT(a)\nz=MUX(a,a)", NetKind::WrongPins, 11, 2),
    ("z=AND(a,)", NetKind::Expected, 8, 1),
    ("z=AND(a b)", NetKind::Expected, 8, 1),
    ("z=AND(a", NetKind::Expected, 7, 1),
    ("z=AND a", NetKind::Expected, 6, 1),
    ("INPUT(a,b)", NetKind::Expected, 7, 1),
    ("INPUT()", NetKind::Expected, 6, 1),
    ("z", NetKind::Expected, 1, 1),
    ("z,", NetKind::Expected, 1, 1),
    ("OUTPUT(b)\nz=NOT(c,c)", NetKind::WrongPins, 12, 2),
    (
        "INPUT(a)\nOUTPUT(b)\na=BUFF(c)",
        NetKind::DrivenTwice,
        19,
        3,
    ),
    ("INPUT(a)\nOUTPUT(A)\nz=BUFF(c)", NetKind::Undriven, 16, 2),
];

#[test]
fn texts_are_refused(rt: HostRuntime) -> Result<(), Fail> {
    for (text, kind, byte, line) in REFUSED {
        let refusal = Some((*kind, *byte, *line));
        assert!(rt; is_refused(rt.alloc(), text.as_bytes(), refusal), "{text}");
    }
    Ok(())
}

// Returns whether the names in the statements are numbered in order of first appearance, and have their places.
fn are_numbered(netlist: &Statements) -> bool {
    let [
        Statement::Output(out),
        Statement::Drive(z, kind, pins),
        Statement::Input(a),
        Statement::Flop(q, data),
    ] = netlist.as_slice()
    else {
        return false;
    };
    let [first, second, third] = pins.as_slice() else {
        return false;
    };
    *kind == Kind::Nand
        && (z.name, first.name, second.name, third.name) == (1, 0, 2, 0)
        && (out.name, a.name, q.name, data.name) == (0, 2, 0, 1)
        && (q.place.byte, q.place.line, data.place.byte) == (33, 4, 39)
        && netlist.names_len() == 3
        && netlist.name(2) == b"a".as_slice()
}

#[test]
fn names_are_numbered_as_they_come(rt: HostRuntime) -> Result<(), Fail> {
    let netlist = read(
        rt.alloc(),
        b"OUTPUT(b)\nz=NAND(b,a,b)\nINPUT(a)\nb=DFF(z)\n",
    )?;
    assert!(rt; are_numbered(&netlist));
    Ok(())
}

#[test]
fn the_longest_text_is_read(rt: HostRuntime) -> Result<(), Fail> {
    let mut text = vec![in rt.alloc(); b'x'; 16_777_217]?;
    text[0] = b'#';
    let too_long = Some((NetKind::TooLong, 16_777_216, 1));
    assert!(rt; is_refused(rt.alloc(), text.as_slice(), too_long));
    let _ = text.pop();
    assert!(rt; is_refused(rt.alloc(), text.as_slice(), None));
    Ok(())
}
