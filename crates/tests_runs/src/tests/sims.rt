//! Runs of `sim`.

use crate::tests::runs::FileText::Is;
use crate::tests::runs::{left_by, plain};
use crate::tests::texts::{AND, TWICE};
use std::alloc::{AllocError, Global};
use std::process::Abort;
use std::test::Fail;
use word_sim::LANES;

// A netlist, a list of vectors, the status, and what is printed.
type Simulating = (&'static [u8], &'static [u8], u8, &'static [u8]);

// An AND at one vector; one too narrow; no vector; a line without LF; and a wire that is shown twice, at two vectors.
static SIMULATED: [Simulating; 5] = [
    (
        AND,
        b"11\n",
        0,
        b"pattern 0 answer 1\nfault 1 0\nfault 3 0\nfault 5 0\n",
    ),
    (AND, b"1\n", 6, b"log: Width at line 1\n"),
    (AND, b"", 0, b""),
    (AND, b"11\n00", 6, b"log: Syntax at line 2\n"),
    (
        TWICE,
        b"0\n1\n",
        0,
        b"pattern 0 answer 00\nfault 2 11\nfault 4 10\nfault 6 01\npattern 1 answer 11\nfault 1 00\nfault 3 01\nfault 5 10\n",
    ),
];

#[test]
fn simulations(rt: HostRuntime) -> Result<(), Fail> {
    for (at, (netlist, list, status, console)) in SIMULATED.iter().enumerate() {
        let files = [("n", *netlist), ("v", *list)];
        let left = plain(rt.alloc(), &files, &["sim", "n", "v"])?;
        assert!(rt; left.ended(*status, Is(*console)), "case {at}");
    }
    Ok(())
}

// Returns a wire's answers to `count` vectors 0.
fn lines_at_zero(alloc: Global, count: u32) -> Result<Vec<u8>, AllocError> {
    let mut lines = Vec::new(alloc);
    for number in 0..count {
        let line = format!(in alloc; "pattern {number} answer 0\n")?;
        lines.extend_from_slice(line.as_bytes())?;
        lines.extend_from_slice(b"fault 2 1\nfault 4 1\n")?;
    }
    Ok(lines)
}

const WIRE: &[u8] = b"INPUT(a)\nOUTPUT(z)\nz=BUFF(a)\n";

// Whether a run over a wire and a list, in which a call fails, ends with this status after the lines of the given
// number of vectors.
fn breaks_off(
    alloc: Global,
    list: &[u8],
    call: u64,
    status: u8,
    count: u32,
) -> Result<bool, AllocError> {
    let files = [("n", WIRE), ("v", list)];
    let left = left_by(alloc, 65_536, &[call], &files, &["sim", "n", "v"])?;
    let console = lines_at_zero(alloc, count)?;
    Ok(left.ended(status, Is(&console)))
}

// Returns a list of `count` vectors 0.
fn zeros(alloc: Global, count: u32) -> Result<Vec<u8>, AllocError> {
    let mut list = Vec::new(alloc);
    for _ in 0..count {
        list.extend_from_slice(b"0\n")?;
    }
    Ok(list)
}

static BROKEN_OFF: [(u64, u8, u32); 6] = [
    (2, 7, 0),
    (5, 7, 0),
    (6, 8, 0),
    (7, 8, 1),
    (262, 8, LANES),
    (263, 0, LANES + 1),
];

fn all_break_off(rt: &impl Abort, alloc: Global, list: &[u8]) -> Result<(), Fail> {
    for (call, status, count) in BROKEN_OFF {
        assert!(rt;
            breaks_off(alloc, list, call, status, count)?,
            "call {call}"
        );
    }
    Ok(())
}

// The netlist is opened by call 0 and read by calls 1 and 2, and the list by calls 3 to 5; call 6 prints the lines of
// the first vector, and each later call those of the next, beyond a block of vectors too.
#[test]
fn each_failing_print_leaves_the_vectors_before_it(rt: HostRuntime) -> Result<(), Fail> {
    let list = zeros(rt.alloc(), LANES + 1)?;
    all_break_off(&rt, rt.alloc(), &list)
}
