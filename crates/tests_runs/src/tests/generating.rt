//! Runs of `gen`.

use crate::tests::runs::FileText::{Any, Begins, Ends, Is};
use crate::tests::runs::{Case, Left, all_leave, has, is_accepted, left_by, plain};
use crate::tests::texts::{AND, AND_RESULT, C17, MUX, PARITY, S27, TRUTH, TRUTH_RESULT};
use std::alloc::{AllocError, Global};
use std::test::Fail;
use synth_netlist::synth_text;

// A wire, with its gate before its output and after it; no line at all; an AND; an OR of a signal and its complement,
// without a search too; a flip-flop that toggles; the wire without a block of the stream: no vector is kept, and all
// faults stay in one class; an input that no position shows: the miter of each pair has the empty clause alone; a
// multiplexer; and a constant, whose only pattern has no bit.
static SMALL: [Case; 11] = [
    (
        &[("n", b"INPUT(a)\nz=BUFF(a)\nOUTPUT(z)\n")],
        &["gen", "n", "r"],
        0,
        Is(b"numbers 5 patterns 2 classes 3 equal 2 open 0\n"),
        (
            "r",
            Is(
                b"diatest 1 1 1 5\nbudget 4 64 2000\npattern 0\npattern 1\nsame 3 1 C\nsame 4 2 C\nclass 0 - -\nclass 1 0 0\nclass 2 0 1\nmember 0 0 rep\nmember 1 2 rep\nmember 2 1 rep\nmember 3 2 equal\nmember 4 1 equal\nend\n",
            ),
        ),
    ),
    (
        &[("n", b"INPUT(a)\nOUTPUT(z)\nz=BUFF(a)\n")],
        &["gen", "n", "r"],
        0,
        Is(b"numbers 5 patterns 2 classes 3 equal 2 open 0\n"),
        (
            "r",
            Is(
                b"diatest 1 1 1 5\nbudget 4 64 2000\npattern 0\npattern 1\nsame 3 1 C\nsame 4 2 C\nclass 0 - -\nclass 1 0 0\nclass 2 0 1\nmember 0 0 rep\nmember 1 2 rep\nmember 2 1 rep\nmember 3 2 equal\nmember 4 1 equal\nend\n",
            ),
        ),
    ),
    (
        &[("n", b"")],
        &["gen", "n", "r"],
        0,
        Is(b"numbers 1 patterns 0 classes 1 equal 0 open 0\n"),
        (
            "r",
            Is(b"diatest 1 0 0 1\nbudget 4 64 2000\nclass 0 - -\nmember 0 0 rep\nend\n"),
        ),
    ),
    (
        &[("n", AND)],
        &["gen", "n", "r"],
        0,
        Is(b"numbers 7 patterns 4 classes 5 equal 2 open 0\n"),
        ("r", Is(AND_RESULT)),
    ),
    (
        &[("n", TRUTH)],
        &["gen", "n", "r"],
        0,
        Is(b"numbers 11 patterns 2 classes 4 equal 7 open 0\n"),
        ("r", Is(TRUTH_RESULT)),
    ),
    (
        &[("n", TRUTH)],
        &["gen", "n", "r", "--cubes", "0", "--conflicts", "0"],
        0,
        Is(b"numbers 11 patterns 2 classes 4 equal 1 open 6\n"),
        (
            "r",
            Is(
                b"diatest 1 1 1 11\nbudget 4 0 0\npattern 0\npattern 1\nsame 1 0 O ?\nsame 2 0 O ?\nsame 3 0 O ?\nsame 6 0 O ?\nsame 7 4 C\nsame 8 0 O ?\nsame 10 0 O ?\nclass 0 - -\nclass 1 0 0\nclass 2 0 1\nclass 3 1 1\nmember 0 0 rep\nmember 1 0 open\nmember 2 0 open\nmember 3 0 open\nmember 4 1 rep\nmember 5 2 rep\nmember 6 0 open\nmember 7 1 equal\nmember 8 0 open\nmember 9 3 rep\nmember 10 0 open\nend\n",
            ),
        ),
    ),
    (
        &[("n", b"q=DFF(d)\nd=NOT(q)\n")],
        &["gen", "n", "r"],
        0,
        Is(b"numbers 5 patterns 2 classes 3 equal 2 open 0\n"),
        (
            "r",
            Is(
                b"diatest 1 1 1 5\nbudget 4 64 2000\npattern 0\npattern 1\nsame 3 2 C\nsame 4 1 C\nclass 0 - -\nclass 1 0 0\nclass 2 0 1\nmember 0 0 rep\nmember 1 2 rep\nmember 2 1 rep\nmember 3 1 equal\nmember 4 2 equal\nend\n",
            ),
        ),
    ),
    (
        &[("n", b"INPUT(a)\nOUTPUT(z)\nz=BUFF(a)\n")],
        &[
            "gen",
            "n",
            "r",
            "--blocks",
            "0",
            "--cubes",
            "0",
            "--conflicts",
            "0",
        ],
        0,
        Is(b"numbers 5 patterns 0 classes 1 equal 0 open 4\n"),
        (
            "r",
            Is(
                b"diatest 1 1 1 5\nbudget 0 0 0\nsame 1 0 O ?\nsame 2 0 O ?\nsame 3 0 O ?\nsame 4 0 O ?\nclass 0 - -\nmember 0 0 rep\nmember 1 0 open\nmember 2 0 open\nmember 3 0 open\nmember 4 0 open\nend\n",
            ),
        ),
    ),
    (
        &[("n", b"INPUT(a)\n")],
        &["gen", "n", "r", "--cubes", "0"],
        0,
        Is(b"numbers 3 patterns 0 classes 1 equal 2 open 0\n"),
        (
            "r",
            Is(
                b"diatest 1 1 0 3\nbudget 4 0 2000\nsame 1 0 R ? ; 1\nsame 2 0 R ? ; 1\nclass 0 - -\nmember 0 0 rep\nmember 1 0 equal\nmember 2 0 equal\nend\n",
            ),
        ),
    ),
    (
        &[("n", MUX)],
        &["gen", "n", "r"],
        0,
        Is(b"numbers 9 patterns 6 classes 9 equal 0 open 0\n"),
        (
            "r",
            Is(
                b"diatest 1 3 1 9\nbudget 4 64 2000\npattern 000\npattern 100\npattern 010\npattern 110\npattern 001\npattern 101\nclass 0 - -\nclass 1 0 0\nclass 2 0 1\nclass 3 1 1\nclass 4 0 2\nclass 5 0 3\nclass 6 4 4\nclass 7 0 5\nclass 8 6 5\nmember 0 0 rep\nmember 1 5 rep\nmember 2 4 rep\nmember 3 6 rep\nmember 4 1 rep\nmember 5 7 rep\nmember 6 2 rep\nmember 7 8 rep\nmember 8 3 rep\nend\n",
            ),
        ),
    ),
    (
        &[("n", b"OUTPUT(z)\nz=CONST1()\n")],
        &["gen", "n", "r"],
        0,
        Is(b"numbers 3 patterns 1 classes 2 equal 1 open 0\n"),
        (
            "r",
            Is(
                b"diatest 1 0 1 3\nbudget 4 64 2000\npattern -\nsame 2 0 T .\nclass 0 - -\nclass 1 0 0\nmember 0 0 rep\nmember 1 1 rep\nmember 2 0 equal\nend\n",
            ),
        ),
    ),
];

#[test]
fn results_of_small_circuits(rt: HostRuntime) -> Result<(), Fail> {
    all_leave(&rt, rt.alloc(), 7, &SMALL)
}

// Wires, c17, s27 and the parity circuit: the file's first lines, and the console's end.
static KNOWN: [Case; 4] = [
    (
        &[("n", b"INPUT(a)\nOUTPUT(a)\nOUTPUT(a)\n")],
        &["gen", "n", "r"],
        0,
        Ends(b"numbers 7 patterns 2 classes 7 equal 0 open 0\n"),
        ("r", Any),
    ),
    (
        &[("n", C17)],
        &["gen", "n", "r"],
        0,
        Ends(b"numbers 35 patterns 11 classes 23 equal 12 open 0\n"),
        ("r", Any),
    ),
    (
        &[("n", S27)],
        &["gen", "n", "r", "--cubes", "128"],
        0,
        Ends(b" open 0\n"),
        (
            "r",
            Begins(b"diatest 1 7 4 53\nbudget 4 128 2000\npattern 0000001\n"),
        ),
    ),
    (
        &[("n", PARITY)],
        &["gen", "n", "r", "--cubes", "512", "--conflicts", "0"],
        0,
        Ends(b" open 0\n"),
        ("r", Begins(b"diatest 1 9 1 67\nbudget 4 512 0\n")),
    ),
];

// Whether the run leaves what the case says, and `check` accepts it.
fn is_known(alloc: Global, case: &Case) -> Result<bool, Fail> {
    let (files, words, status, console, (name, file)) = *case;
    let left = plain(alloc, files, words)?;
    Ok(left.ended(status, console) && left.holds(name, file) && is_accepted(alloc, &left)?)
}

#[test]
fn results_of_known_circuits(rt: HostRuntime) -> Result<(), Fail> {
    for (at, case) in KNOWN.iter().enumerate() {
        assert!(rt; is_known(rt.alloc(), case)?, "case {at}");
    }
    Ok(())
}

fn count(line: &[u8], wanted: u8) -> usize {
    line.iter().filter(|byte| **byte == wanted).count()
}

// Whether number 66 is open after four closed cubes and one learned clause, or equal by a refutation.
fn is_left_open(file: &[u8]) -> bool {
    let open = has(file, b"\nmember 66 0 open\n");
    if !open && !has(file, b"\nmember 66 0 equal\n") {
        return false;
    }
    let start: &[u8] = if open {
        b"same 66 0 O "
    } else {
        b"same 66 0 R "
    };
    let found = file
        .split(|byte| *byte == b'\n')
        .find(|line| line.starts_with(start));
    let Some(line) = found else {
        return false;
    };
    let groups = count(line, b';');
    count(line, b'.') == 4 && line.contains(&b'?') && (groups == 1 || (!open && groups == 2))
}

// Whether the run leaves number 66 so, after these first lines, and `check` accepts it.
fn is_left(alloc: Global, left: &Left) -> Result<bool, Fail> {
    let file = left.copy_of(alloc, "r")?;
    let begins = left.holds("r", Begins(b"diatest 1 9 1 67\nbudget 4 4 1\n"));
    Ok(left.ended(0, Any) && begins && is_left_open(&file) && is_accepted(alloc, left)?)
}

// Four closed cubes don't show that the output of the parity circuit is always 1: then at most one learned clause may
// be found, or a refutation.
#[test]
fn a_pair_that_the_search_leaves_open(rt: HostRuntime) -> Result<(), Fail> {
    let words = ["gen", "n", "r", "--cubes", "4", "--conflicts", "1"];
    let left = plain(rt.alloc(), &[("n", PARITY)], &words)?;
    assert!(rt; is_left(rt.alloc(), &left)?);
    Ok(())
}

const MANY_BLOCKS: &[&str] = &[
    "gen",
    "n",
    "r",
    "--blocks",
    "256",
    "--cubes",
    "0",
    "--conflicts",
    "0",
];

fn is_simulated(alloc: Global, netlist: &[u8]) -> Result<bool, AllocError> {
    let left = left_by(alloc, 4096, &[], &[("n", netlist)], MANY_BLOCKS)?;
    Ok(
        left.ended(0, Begins(b"numbers 7203 "))
            && left.holds("r", Begins(b"diatest 1 601 301 7203\nbudget 256 0 0\n")),
    )
}

// A netlist of 1,200 gates at 16,384 vectors: a simulation of one vector and one fault at a time wouldn't end in the
// time of a test.
#[test]
fn results_of_a_large_netlist(rt: HostRuntime) -> Result<(), Fail> {
    let netlist = synth_text(rt.alloc(), 300)?;
    assert!(rt; is_simulated(rt.alloc(), &netlist)?);
    Ok(())
}
