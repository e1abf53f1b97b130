//! Runs over a shelf, one call of which fails.

use crate::tests::runs::FileText::{self, Absent, Any, Is, Part};
use crate::tests::runs::{Case, all_leave, left_by};
use crate::tests::texts::{AND, AND_COMPACTED, AND_RESULT, LOG, ONE, TWO};
use std::alloc::Global;
use std::process::Abort;
use std::test::Fail;

// A call fails: its number, the status, and the output.
type Failing = (u64, u8, FileText<'static>);

// Each of these calls fails in a run that moves `chunk` bytes at a time and prints last. The files that it read are as
// before.
fn each_fails(
    rt: &impl Abort,
    alloc: Global,
    chunk: usize,
    files: &[(&str, &[u8])],
    words: &[&str],
    output: &str,
    cases: &[Failing],
) -> Result<(), Fail> {
    for (call, status, file) in cases {
        let left = left_by(alloc, chunk, &[*call], files, words)?;
        let failed = left.ended(*status, Is(b"")) && left.holds(output, *file);
        assert!(rt; failed && left.keeps(files), "call {call}");
    }
    Ok(())
}

// Over the empty netlist call 0 opens it, call 1 reads it, call 2 creates the result, call 3 writes its first three
// bytes.
static OF_GEN: [Failing; 5] = [
    (0, 7, Absent),
    (1, 7, Absent),
    (2, 8, Absent),
    (3, 8, Is(b"")),
    (4, 8, Is(b"dia")),
];

#[test]
fn each_failing_call_of_gen_shows(rt: HostRuntime) -> Result<(), Fail> {
    let words = ["gen", "n", "r"];
    each_fails(&rt, rt.alloc(), 3, &[("n", b"")], &words, "r", &OF_GEN)
}

static NO_NETLIST: [Case; 1] = [(&[], &["gen", "absent", "r"], 7, Any, ("r", Absent))];

#[test]
fn an_absent_netlist_shows(rt: HostRuntime) -> Result<(), Fail> {
    all_leave(&rt, rt.alloc(), 7, &NO_NETLIST)
}

// The old dictionary is opened by call 0 and read by calls 1 and 2; call 3 creates the new one, which calls 4 and 5
// write, and call 6 prints.
static OF_CONVERT: [Failing; 7] = [
    (0, 7, Absent),
    (1, 7, Absent),
    (2, 7, Absent),
    (3, 8, Absent),
    (4, 8, Is(b"")),
    (5, 8, Part(TWO, 32)),
    (6, 8, Part(TWO, 60)),
];

#[test]
fn each_failing_call_of_convert_shows(rt: HostRuntime) -> Result<(), Fail> {
    let words = ["convert", "o", "d"];
    each_fails(&rt, rt.alloc(), 32, &[("o", ONE)], &words, "d", &OF_CONVERT)
}

// The netlist is opened and read by calls 0 to 2, the result by calls 3 to 5; call 6 creates the dictionary, call 7
// writes it, and call 8 prints.
static OF_DICT: [Failing; 6] = [
    (2, 7, Absent),
    (3, 7, Absent),
    (5, 7, Absent),
    (6, 8, Absent),
    (7, 8, Part(TWO, 0)),
    (8, 8, Part(TWO, 60)),
];

#[test]
fn each_failing_call_of_dict_shows(rt: HostRuntime) -> Result<(), Fail> {
    let words = ["dict", "passfail", "n", "r", "d"];
    let files = [("n", AND), ("r", AND_RESULT)];
    each_fails(&rt, rt.alloc(), 4096, &files, &words, "d", &OF_DICT)
}

// The netlist is opened and read by calls 0 to 2, the result by calls 3 to 6; call 7 creates the new file, which calls
// 8 and 9 write, and call 10 prints.
static OF_COMPACT: [Failing; 9] = [
    (0, 7, Absent),
    (2, 7, Absent),
    (3, 7, Absent),
    (4, 7, Absent),
    (6, 7, Absent),
    (7, 8, Absent),
    (8, 8, Is(b"")),
    (9, 8, Part(AND_COMPACTED, 256)),
    (10, 8, Is(AND_COMPACTED)),
];

#[test]
fn each_failing_call_of_compact_shows(rt: HostRuntime) -> Result<(), Fail> {
    let words = ["compact", "n", "r", "m"];
    let files = [("n", AND), ("r", AND_RESULT)];
    each_fails(&rt, rt.alloc(), 256, &files, &words, "m", &OF_COMPACT)
}

// The dictionary is opened and read by calls 0 to 2, the log by calls 3 to 5, and call 6 prints.
static OF_DIAGNOSE: [Failing; 5] = [
    (1, 7, Absent),
    (3, 7, Absent),
    (4, 7, Absent),
    (5, 7, Absent),
    (6, 8, Absent),
];

// If 13 bytes are moved at a time, call 10 prints what is left.
#[test]
fn each_failing_call_of_diagnose_shows(rt: HostRuntime) -> Result<(), Fail> {
    let files = [("d", ONE), ("l", LOG)];
    let words = ["diagnose", "d", "l"];
    each_fails(&rt, rt.alloc(), 30, &files, &words, "e", &OF_DIAGNOSE)?;
    let left = left_by(rt.alloc(), 13, &[10], &files, &words)?;
    assert!(rt; left.ended(8, Is(b"1\n3\n5\nlisted ")));
    Ok(())
}
