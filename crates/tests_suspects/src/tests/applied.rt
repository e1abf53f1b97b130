//! Runs of `expect`, `suspects`, `cover` and `bridges` with a list of vectors that were applied.

use crate::tests::bridging::{OF_BRIDGED as BRIDGES_OF_BRIDGED, OF_STUCK as BRIDGES_OF_STUCK};
use crate::tests::runs::{Case, File, all_leave, left_by};
use crate::tests::suspecting::{BRIDGED, STUCK};
use crate::tests::texts::{AND, C17, C17_BRIDGED, C17_RESULT, C17_STUCK, UNSEEN};
use std::alloc::Global;
use std::process::Abort;
use std::test::Fail;

const EXPECT: &[&str] = &["expect", "n", "r", "l", "--applied", "v"];

const SUSPECTS: &[&str] = &["suspects", "n", "r", "l", "--applied", "v"];

const COVER: &[&str] = &["cover", "n", "r", "l", "--applied", "v"];

const BRIDGES: &[&str] = &["bridges", "n", "r", "l", "--applied", "v"];

// Eight vectors: the sixth is the second again, and the fourth and the seventh split no class.
const LIST: &[u8] = b"01111\n10010\n10001\n00100\n01011\n10010\n10011\n11111\n";

// The list and then four vectors that the result with all classes has found.
const LONGER: &[u8] =
    b"01111\n10010\n10001\n00100\n01011\n10010\n10011\n11111\n10100\n00101\n00111\n01000\n";

// The result of `grade` of the list, with seven open members, and one of `topup`, with none.
const GRADED: &[u8] =
    b"diatest 1 5 2 35\nbudget 0 0 0\npattern 01111\npattern 10010\npattern 10001\npattern 01011\npattern 11111\nsame 7 1 C\nsame 9 5 O ?\nsame 11 5 O ?\nsame 12 0 O ?\nsame 16 1 C\nsame 18 5 O ?\nsame 19 3 C\nsame 20 5 O ?\nsame 21 13 C\nsame 24 3 C\nsame 25 15 C\nsame 26 3 O ?\nsame 28 0 O ?\nsame 29 27 C\nsame 30 13 C\nsame 32 15 C\nsame 34 27 C\nclass 0 - -\nclass 1 0 0\nclass 2 0 0\nclass 3 0 0\nclass 4 0 1\nclass 5 0 1\nclass 6 0 1\nclass 7 1 1\nclass 8 2 1\nclass 9 3 1\nclass 10 0 2\nclass 11 0 3\nclass 12 0 3\nclass 13 5 3\nclass 14 10 3\nclass 15 10 3\nclass 16 0 4\nclass 17 11 4\nmember 0 0 rep\nmember 1 16 rep\nmember 2 1 rep\nmember 3 11 rep\nmember 4 4 rep\nmember 5 2 rep\nmember 6 5 rep\nmember 7 16 equal\nmember 8 13 rep\nmember 9 2 open\nmember 10 12 rep\nmember 11 2 open\nmember 12 0 open\nmember 13 10 rep\nmember 14 6 rep\nmember 15 7 rep\nmember 16 16 equal\nmember 17 14 rep\nmember 18 2 open\nmember 19 11 equal\nmember 20 2 open\nmember 21 10 equal\nmember 22 3 rep\nmember 23 8 rep\nmember 24 11 equal\nmember 25 7 equal\nmember 26 11 open\nmember 27 9 rep\nmember 28 0 open\nmember 29 9 equal\nmember 30 10 equal\nmember 31 17 rep\nmember 32 7 equal\nmember 33 15 rep\nmember 34 9 equal\nend\n";

const TOPPED: &[u8] =
    b"diatest 1 5 2 35\nbudget 0 64 2000\npattern 01111\npattern 10010\npattern 10001\npattern 01011\npattern 11111\nsame 7 1 C\npattern 10100\nsame 11 9 C\npattern 00101\nsame 16 1 C\nsame 18 9 C\nsame 19 3 C\npattern 00111\nsame 21 13 C\nsame 24 3 C\nsame 25 15 C\npattern 01000\nsame 29 27 C\nsame 30 13 C\nsame 32 15 C\nsame 34 27 C\nclass 0 - -\nclass 1 0 0\nclass 2 0 0\nclass 3 0 0\nclass 4 0 1\nclass 5 0 1\nclass 6 0 1\nclass 7 1 1\nclass 8 2 1\nclass 9 3 1\nclass 10 0 2\nclass 11 0 3\nclass 12 0 3\nclass 13 5 3\nclass 14 10 3\nclass 15 10 3\nclass 16 0 4\nclass 17 11 4\nclass 18 2 5\nclass 19 0 6\nclass 20 18 7\nclass 21 0 8\nclass 22 11 8\nmember 0 0 rep\nmember 1 16 rep\nmember 2 1 rep\nmember 3 11 rep\nmember 4 4 rep\nmember 5 2 rep\nmember 6 5 rep\nmember 7 16 equal\nmember 8 13 rep\nmember 9 18 rep\nmember 10 12 rep\nmember 11 18 equal\nmember 12 19 rep\nmember 13 10 rep\nmember 14 6 rep\nmember 15 7 rep\nmember 16 16 equal\nmember 17 14 rep\nmember 18 18 equal\nmember 19 11 equal\nmember 20 20 rep\nmember 21 10 equal\nmember 22 3 rep\nmember 23 8 rep\nmember 24 11 equal\nmember 25 7 equal\nmember 26 22 rep\nmember 27 9 rep\nmember 28 21 rep\nmember 29 9 equal\nmember 30 10 equal\nmember 31 17 rep\nmember 32 7 equal\nmember 33 15 rep\nmember 34 9 equal\nend\n";

// What c17 answers to the list without a fault, with number 3, and with nets 10 and 19 shorted.
const GOOD: &[u8] = b"0 00\n1 00\n2 01\n3 00\n4 11\n5 00\n6 01\n7 10\n";

const OF_THREE: &[u8] = b"0 00\n1 00\n2 01\n3 00\n4 01\n5 00\n6 01\n7 10\n";

const OF_SHORT: &[u8] = b"0 00\n1 00\n2 11\n3 00\n4 11\n5 00\n6 11\n7 11\n";

// What it answers to the longer list with number 26, which answers to the first eight as number 3.
const OF_26: &[u8] = b"0 00\n1 00\n2 01\n3 00\n4 01\n5 00\n6 01\n7 10\n8 10\n9 01\n10 00\n11 01\n";

const GRADED_SUSPECTS: &[u8] =
    b"3 1 1 0 0\n31 1 1 0 1\n10 0 1 0 2\n17 0 1 0 3\n6 0 1 0 6\nlisted 5 failing 1 logged 8\n";

const TOPPED_SUSPECTS: &[u8] =
    b"3 1 1 0 0\n26 1 1 0 0\n31 1 1 0 1\n10 0 1 0 2\n17 0 1 0 3\n6 0 1 0 6\nlisted 6 failing 1 logged 8\n";

const SUSPECTS_OF_26: &[u8] =
    b"26 2 2 0 0\n31 2 2 0 2\n3 1 2 0 1\n10 0 1 1 2\n17 0 2 0 5\n6 0 1 1 6\nlisted 6 failing 2 logged 12\n";

const SUSPECTS_OF_SHORT: &[u8] =
    b"23 3 3 0 8\n8 2 2 1 2\n15 2 2 1 4\n4 2 2 1 6\n22 1 1 2 1\n5 1 1 2 2\n6 1 2 1 5\n27 1 1 2 4\nlisted 8 failing 3 logged 8\n";

const BRIDGES_OF_SHORT: &[u8] =
    b"and 10 19 3 0\nor 22 23 3 0\nor 2 11 3 4\nlisted 3 of 3 exact 2 failing 3 logged 8\n";

// A list, a log, the words, the status, and what is printed.
type ListCase = (
    &'static [u8],
    &'static [u8],
    &'static [&'static str],
    u8,
    &'static [u8],
);

// Checks that each log of a list is listed or refused so, for a netlist with its result, and that no file changes.
fn are_listed(
    rt: &impl Abort,
    alloc: Global,
    netlist: &[u8],
    output: &[u8],
    cases: &[ListCase],
) -> Result<(), Fail> {
    for (at, (list, log, words, status, console)) in cases.iter().enumerate() {
        let files = [("n", netlist), ("r", output), ("v", *list), ("l", *log)];
        let left = left_by(alloc, 64, &[], &files, *words)?;
        let listed = left.ended(*status, *console)
            && left.holds("l", Some(*log))
            && left.holds("v", Some(*list));
        assert!(rt; listed, "case {at}");
    }
    Ok(())
}

// The words of the option come anywhere. Without it the log is one of the result's five patterns.
static OF_GRADED: [ListCase; 9] = [
    (LIST, OF_THREE, SUSPECTS, 0, GRADED_SUSPECTS),
    (
        LIST,
        OF_THREE,
        &["suspects", "n", "r", "l"],
        6,
        b"log: Order at line 6\n",
    ),
    (LIST, OF_SHORT, SUSPECTS, 0, SUSPECTS_OF_SHORT),
    (
        LIST,
        OF_SHORT,
        COVER,
        0,
        b"23 3\nlisted 1 explained 3 failing 3\n",
    ),
    (LIST, OF_SHORT, BRIDGES, 0, BRIDGES_OF_SHORT),
    (LIST, GOOD, SUSPECTS, 0, b"listed 0 failing 0 logged 8\n"),
    (
        LIST,
        GOOD,
        BRIDGES,
        0,
        b"listed 0 of 0 exact 0 failing 0 logged 8\n",
    ),
    (
        LIST,
        OF_THREE,
        &["suspects", "--applied=v", "n", "r", "l", "--most", "1"],
        0,
        b"3 1 1 0 0\nlisted 1 failing 1 logged 8\n",
    ),
    (
        LIST,
        OF_THREE,
        &["suspects", "n", "--applied", "v", "r", "--most=2", "l"],
        0,
        b"3 1 1 0 0\n31 1 1 0 1\nlisted 2 failing 1 logged 8\n",
    ),
];

// The vectors that were found distinguish 3 from 26, which a log of the list alone doesn't.
static OF_TOPPED: [ListCase; 6] = [
    (LIST, OF_THREE, SUSPECTS, 0, TOPPED_SUSPECTS),
    (
        LIST,
        OF_THREE,
        COVER,
        0,
        b"3 1\nlisted 1 explained 1 failing 1\n",
    ),
    (LONGER, OF_THREE, SUSPECTS, 0, TOPPED_SUSPECTS),
    (LONGER, OF_26, SUSPECTS, 0, SUSPECTS_OF_26),
    (LIST, OF_SHORT, BRIDGES, 0, BRIDGES_OF_SHORT),
    (
        LIST,
        OF_SHORT,
        &[
            "bridges",
            "n",
            "--most",
            "1",
            "--applied=v",
            "r",
            "l",
            "--within",
            "0",
        ],
        0,
        b"and 10 19 3 0\nlisted 1 of 3 exact 2 failing 3 logged 8\n",
    ),
];

// The patterns of a result, as its list.
const OWN: &[u8] = b"00000\n10000\n01000\n00100\n10100\n01100\n01010\n00110\n01110\n00001\n00111\n";

// With these vectors each command prints what it prints without a list.
static OF_OWN: [ListCase; 6] = [
    (OWN, C17_STUCK, SUSPECTS, 0, STUCK),
    (OWN, C17_BRIDGED, SUSPECTS, 0, BRIDGED),
    (
        OWN,
        C17_STUCK,
        COVER,
        0,
        b"3 3\nlisted 1 explained 3 failing 3\n",
    ),
    (
        OWN,
        C17_BRIDGED,
        COVER,
        0,
        b"4 2\nlisted 1 explained 2 failing 2\n",
    ),
    (OWN, C17_STUCK, BRIDGES, 0, BRIDGES_OF_STUCK),
    (OWN, C17_BRIDGED, BRIDGES, 0, BRIDGES_OF_BRIDGED),
];

// A log is judged by how many vectors the list has, and the list before the log.
static REFUSED: [ListCase; 11] = [
    (
        LIST,
        b"0 00\n1 01\n9 00\n",
        SUSPECTS,
        6,
        b"log: Order at line 3\n",
    ),
    (LIST, b"8 00\n", SUSPECTS, 6, b"log: Order at line 1\n"),
    (LIST, b"8 00\n", COVER, 6, b"log: Order at line 1\n"),
    (LIST, b"8 00\n", BRIDGES, 6, b"log: Order at line 1\n"),
    (LIST, b"0 0\n", SUSPECTS, 6, b"log: Width at line 1\n"),
    (
        b"0000\n",
        b"no log\n",
        SUSPECTS,
        6,
        b"vectors: Width at line 1\n",
    ),
    (
        b"01111\n011110\n",
        b"no log\n",
        COVER,
        6,
        b"vectors: Width at line 2\n",
    ),
    (
        b"01111",
        b"no log\n",
        BRIDGES,
        6,
        b"vectors: Syntax at line 1\n",
    ),
    (
        b"01x11\n",
        b"no log\n",
        EXPECT,
        6,
        b"vectors: Syntax at line 1\n",
    ),
    (b"", b"", SUSPECTS, 0, b"listed 0 failing 0 logged 0\n"),
    (b"", b"0 00\n", SUSPECTS, 6, b"log: Order at line 1\n"),
];

#[test]
fn logs_of_a_list(rt: HostRuntime) -> Result<(), Fail> {
    are_listed(&rt, rt.alloc(), C17, GRADED, &OF_GRADED)?;
    are_listed(&rt, rt.alloc(), C17, TOPPED, &OF_TOPPED)?;
    are_listed(&rt, rt.alloc(), C17, C17_RESULT, &OF_OWN)?;
    are_listed(&rt, rt.alloc(), C17, GRADED, &REFUSED)
}

// An AND whose result has one pattern. Numbers 2, 4 and 6 are open with 0; the list distinguishes 2 and 6 from it.
const ONE_PATTERN: &[u8] =
    b"diatest 1 2 1 7\nbudget 0 0 0\npattern 11\nsame 2 0 O ?\nsame 3 1 C\nsame 4 0 O ?\nsame 5 1 C\nsame 6 0 O ?\nclass 0 - -\nclass 1 0 0\nmember 0 0 rep\nmember 1 1 rep\nmember 2 0 open\nmember 3 1 equal\nmember 4 0 open\nmember 5 1 equal\nmember 6 0 open\nend\n";

static OF_AND: [ListCase; 2] = [
    (
        b"01\n10\n00\n",
        b"0 1\n1 0\n2 0\n",
        SUSPECTS,
        0,
        b"2 1 1 0 0\n6 1 1 0 2\nlisted 2 failing 1 logged 3\n",
    ),
    (
        b"01\n10\n00\n",
        b"0 1\n1 0\n2 0\n",
        COVER,
        0,
        b"2 1\nlisted 1 explained 1 failing 1\n",
    ),
];

const UNSEEN_RESULT: &[u8] =
    b"diatest 1 1 0 3\nbudget 4 64 2000\nsame 1 0 T .\nsame 2 0 T .\nclass 0 - -\nmember 0 0 rep\nmember 1 0 equal\nmember 2 0 equal\nend\n";

// Without positions a line of the log has no bit.
static OF_UNSEEN: [ListCase; 2] = [
    (
        b"0\n1\n",
        b"0 -\n1 -\n",
        SUSPECTS,
        0,
        b"listed 0 failing 0 logged 2\n",
    ),
    (
        b"0\n1\n",
        b"0 -\n1 -\n",
        BRIDGES,
        0,
        b"listed 0 of 0 exact 0 failing 0 logged 2\n",
    ),
];

#[test]
fn open_members_and_no_positions(rt: HostRuntime) -> Result<(), Fail> {
    are_listed(&rt, rt.alloc(), AND, ONE_PATTERN, &OF_AND)?;
    are_listed(&rt, rt.alloc(), UNSEEN, UNSEEN_RESULT, &OF_UNSEEN)
}

const THREE: &[u8] = b"01\n10\n00\n";

const THREE_EXPECTED: &[u8] = b"0 0\n1 0\n2 0\n";

const OF_THREE_VECTORS: &[File] = &[("n", AND), ("r", ONE_PATTERN), ("v", THREE)];

const COUNTS: &[u8] = b"patterns 3 positions 1\n";

// The log may have the name of a file that was read. A list may have any name, an empty one too.
static OTHERS: [Case; 12] = [
    (
        OF_THREE_VECTORS,
        EXPECT,
        0,
        COUNTS,
        ("l", Some(THREE_EXPECTED)),
    ),
    (
        OF_THREE_VECTORS,
        &["expect", "n", "r", "v", "--applied=v"],
        0,
        COUNTS,
        ("v", Some(THREE_EXPECTED)),
    ),
    (
        &[("n", AND), ("r", ONE_PATTERN), ("-", THREE)],
        &["expect", "n", "r", "l", "--applied", "-"],
        0,
        COUNTS,
        ("l", Some(THREE_EXPECTED)),
    ),
    (
        &[("n", AND), ("r", ONE_PATTERN), ("", THREE)],
        &["expect", "n", "r", "l", "--applied="],
        0,
        COUNTS,
        ("l", Some(THREE_EXPECTED)),
    ),
    (
        &[("n", AND), ("r", ONE_PATTERN), ("v", b"")],
        EXPECT,
        0,
        b"patterns 0 positions 1\n",
        ("l", Some(b"")),
    ),
    (
        OF_THREE_VECTORS,
        &["expect", "n", "r", "l", "--applied="],
        7,
        b"",
        ("l", None),
    ),
    (
        OF_THREE_VECTORS,
        &["suspects", "n", "r", "v", "--applied", ""],
        7,
        b"",
        ("v", Some(THREE)),
    ),
    (
        &[("n", AND), ("r", ONE_PATTERN), ("l", b"0 0\n")],
        SUSPECTS,
        7,
        b"",
        ("v", None),
    ),
    (OF_THREE_VECTORS, COVER, 7, b"", ("l", None)),
    (
        &[("n", AND), ("r", b"x\n")],
        BRIDGES,
        4,
        b"result: Syntax at line 1\n",
        ("l", None),
    ),
    (
        &[("n", AND), ("r", b"x\n"), ("v", b"no list\n")],
        SUSPECTS,
        4,
        b"result: Syntax at line 1\n",
        ("l", None),
    ),
    (
        &[("n", b"z=NOT(Z)\n"), ("r", b"x\n")],
        EXPECT,
        3,
        b"netlist: Undriven at byte 6, line 1\n",
        ("l", None),
    ),
];

#[test]
fn logs_of_a_good_chip_and_files_that_are_absent(rt: HostRuntime) -> Result<(), Fail> {
    let alloc = rt.alloc();
    let files = [("n", C17), ("r", GRADED), ("v", LIST)];
    let left = left_by(alloc, 64, &[], &files, EXPECT)?;
    let written = left.ended(0, b"patterns 8 positions 2\n") && left.holds("l", Some(GOOD));
    assert!(rt; written);
    all_leave(&rt, alloc, &OTHERS)
}

// Returns a list with the first vector 255 times, so that the others are in the last place of a block of lanes and
// after it.
fn long_list(alloc: Global) -> Result<String, Fail> {
    let mut list = String::new(alloc);
    for _number in 0..255 {
        list.push_str("01111\n")?;
    }
    list.push_str("10010\n10001\n01011\n11111\n")?;
    Ok(list)
}

// Returns what c17 with nets 10 and 19 shorted answers to that list.
fn long_log(alloc: Global) -> Result<String, Fail> {
    let mut log = String::new(alloc);
    for number in 0..256 {
        writeln!(log, "{number} 00")?;
    }
    log.push_str("256 11\n257 11\n258 11\n")?;
    Ok(log)
}

static OF_LONG: [(&[&str], &[u8]); 3] = [
    (
        &["suspects", "n", "r", "l", "--applied", "v", "--most", "2"],
        b"23 2 2 0 512\n8 1 1 1 1\nlisted 2 failing 2 logged 259\n",
    ),
    (COVER, b"23 2\nlisted 1 explained 2 failing 2\n"),
    (
        BRIDGES,
        b"and 6 10 2 0\nand 10 19 2 0\nor 22 23 2 0\nor 2 11 2 256\nlisted 4 of 4 exact 3 failing 2 logged 259\n",
    ),
];

#[test]
fn vectors_behind_a_block_of_lanes(rt: HostRuntime) -> Result<(), Fail> {
    let alloc = rt.alloc();
    let list = long_list(alloc)?;
    let log = long_log(alloc)?;
    let files = [
        ("n", C17),
        ("r", GRADED),
        ("v", list.as_bytes()),
        ("l", log.as_bytes()),
    ];
    for (at, (words, console)) in OF_LONG.iter().enumerate() {
        let left = left_by(alloc, 4096, &[], &files, *words)?;
        assert!(rt; left.ended(0, *console), "case {at}");
    }
    Ok(())
}
