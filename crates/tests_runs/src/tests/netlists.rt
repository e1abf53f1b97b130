//! Netlists that are refused, and the longest netlist.

use crate::tests::runs::FileText::{self, Absent, Any, Is};
use crate::tests::runs::{joined, left_by, plain};
use std::alloc::{AllocError, Global};
use std::test::Fail;

// Whether `gen` over a netlist that is read in large pieces ends with this status, prints this, and leaves such a
// result.
fn generates(
    alloc: Global,
    netlist: &[u8],
    status: u8,
    console: &str,
    output: FileText,
) -> Result<bool, AllocError> {
    let left = left_by(alloc, 65_536, &[], &[("n", netlist)], &["gen", "n", "r"])?;
    Ok(left.ended(status, Is(console.as_bytes())) && left.holds("r", output))
}

// The longest text that is read, a comment of 16,777,216 bytes, and a text of one byte more.
#[test]
fn the_longest_netlist(rt: HostRuntime) -> Result<(), Fail> {
    let mut text = vec![in rt.alloc(); b'x'; 16_777_216]?;
    text[0] = b'#';
    let console = "numbers 1 patterns 0 classes 1 equal 0 open 0\n";
    assert!(rt; generates(rt.alloc(), &text, 0, console, Any)?);
    text.push(b'x')?;
    let console = "netlist: TooLong at byte 16777216, line 1\n";
    assert!(rt; generates(rt.alloc(), &text, 3, console, Absent)?);
    Ok(())
}

// A netlist, and why it is refused.
static REFUSED: [(&[u8], &[u8]); 21] = [
    (
        b"INPUT(a)\nOUTPUT(z)\nz=AND(a,b)\n",
        b"Undriven at byte 27, line 3",
    ),
    (b"INPUT(a)\nINPUT(a)\n", b"DrivenTwice at byte 15, line 2"),
    (b"INPUT(a)\nz=NOT(a,b)\n", b"WrongPins at byte 11, line 2"),
    (b"z=LUT 0x8 (a,b)\n", b"UnknownGate at byte 2, line 1"),
    (b"INPUT(a\n", b"Expected at byte 8, line 2"),
    (b"INPUT()\n", b"Expected at byte 6, line 1"),
    (b"INPUT(\x01", b"BadByte at byte 6, line 1"),
    (b"z=LUT\x01", b"UnknownGate at byte 2, line 1"),
    (b"FOO\x01", b"BadByte at byte 3, line 1"),
    (b"FOO (a", b"UnknownGate at byte 0, line 1"),
    (b"INPUT a(b)", b"Expected at byte 6, line 1"),
    (b"z=(a)", b"Expected at byte 2, line 1"),
    (b"z= # x\n", b"Expected at byte 7, line 2"),
    (b"INPUT(a)\x0c", b"BadByte at byte 8, line 1"),
    (b"#\x0c\x7f\r\n\x7f", b"BadByte at byte 5, line 2"),
    (
        b"OUTPUT(u)\nINPUT(a)\nINPUT(a)\n",
        b"DrivenTwice at byte 25, line 3",
    ),
    (b"q=DFF(d)\nOUTPUT(q)\n", b"Undriven at byte 6, line 1"),
    (
        b"INPUT(a)\nx=AND(a,y)\ny=NOT(x)\n",
        b"Loop at byte 9, line 2: x y",
    ),
    (
        b"INPUT(a)\nz=AND(a,x)\nx=NOT(y)\ny=NOT(x)\n",
        b"Loop at byte 20, line 3: x y",
    ),
    (b"z=AND(z,z)\n", b"Loop at byte 0, line 1: z"),
    (b"z=NOT(Z)\n", b"Undriven at byte 6, line 1"),
];

fn is_refused(alloc: Global, netlist: &[u8], refusal: &[u8]) -> Result<bool, AllocError> {
    let console = joined(alloc, &[b"netlist: ", refusal, b"\n"])?;
    let left = plain(alloc, &[("n", netlist)], &["gen", "n", "r"])?;
    Ok(left.ended(3, Is(&console)) && left.holds("r", Absent))
}

#[test]
fn refusals_create_no_file(rt: HostRuntime) -> Result<(), Fail> {
    for (at, (netlist, refusal)) in REFUSED.iter().enumerate() {
        assert!(rt; is_refused(rt.alloc(), *netlist, *refusal)?, "case {at}");
    }
    Ok(())
}
