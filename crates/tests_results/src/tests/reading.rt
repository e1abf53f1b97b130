//! Lines that are records, and lines that aren't.

use result_file::{Record, RecordFault, read_record, write_record};
use std::alloc::Global;
use std::test::Fail;

// Returns whether the record is written as the line, before the line feed.
fn is_written(alloc: Global, record: &Record, line: &str) -> Result<bool, Fail> {
    let mut written = write_record(alloc, record)?;
    written.pop();
    Ok(written.as_slice() == line.as_bytes())
}

// Returns whether the line is read as a record that is written as the line again.
fn is_read_back(alloc: Global, line: &str) -> Result<bool, Fail> {
    let record = read_record(alloc, line.as_bytes())?;
    is_written(alloc, &record, line)
}

const LINES: &[&str] = &[
    "diatest 1 2 1 7",
    "diatest 1 0 0 4294967295",
    "budget 4 64 2000",
    "pattern 010",
    "pattern -",
    "same 7 4 C",
    "same 8 0 T 10 . 3 . .",
    "same 10 0 R ? ; 1 1 3 2 4 3 8 -5 11 -4 6",
    "same 10 0 R 0 . ? ; 8 ; 12 -2147483647 13",
    "same 10 0 O ?",
    "same 10 0 O ? ; -3 8 -5 11 ; 2 1",
    "class 0 - -",
    "class 3 0 2",
    "member 0 0 rep",
    "member 3 4 equal",
    "member 5 4 open",
    "end",
];

#[test]
fn lines_are_read_back(rt: HostRuntime) -> Result<(), Fail> {
    for line in LINES {
        assert!(rt; is_read_back(rt.alloc(), line)?, "{line}");
    }
    Ok(())
}

// Returns whether the line is no record's spelling.
fn is_refused(alloc: Global, line: &[u8]) -> bool {
    matches!(read_record(alloc, line), Err(RecordFault::Syntax))
}

const OTHERS: &[&[u8]] = &[
    b"",
    b" ",
    b"end ",
    b" end",
    b"end\n",
    b"end\r",
    b"END",
    b"end 1",
    b"\xff",
    b"diatest 2 2 1 7",
    b"diatest 1 2 1",
    b"diatest 1 2 1 7 7",
    b"diatest 1  2 1 7",
    b"diatest 1 02 1 7",
    b"diatest 1 2 1 4294967296",
    b"diatest 1 +2 1 7",
    b"diatest 1 -2 1 7",
    b"budget 4 64",
    b"budget 4\t64 2000",
    b"pattern",
    b"pattern ",
    b"pattern 012",
    b"pattern 0 1",
    b"pattern 0-",
    b"pattern --",
    b"same 7 4",
    b"same 7 4 C .",
    b"same 7 4 T",
    b"same 7 4 T *",
    b"same 7 4 T . ;",
    b"same 7 4 T 00 . .",
    b"same 7 4 R ?",
    b"same 7 4 R ; 1",
    b"same 7 4 R ? ; -1 1",
    b"same 7 4 R ? ;",
    b"same 7 4 R ? ; 1 1",
    b"same 7 4 R ? ; 1 0 3",
    b"same 7 4 R ? ; 1 2147483648 3",
    b"same 7 4 O ? ; 1",
    b"same 7 4 O ? ; 0 1",
    b"same 7 4 O ? ; --1 1",
    b"same 7 4 P ?",
    b"class 0 -",
    b"class 0 - 0",
    b"member 0 0 Rep",
    b"member 0 0 rep ",
];

#[test]
fn other_lines_are_refused(rt: HostRuntime) -> Result<(), Fail> {
    for line in OTHERS {
        assert!(rt; is_refused(rt.alloc(), line), "{line:?}");
    }
    Ok(())
}
