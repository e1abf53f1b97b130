//! Runs over shelves in memory, and what they leave.

use dia_runs::run;
use diag_shelf::MemoryShelf;
use std::alloc::{AllocError, Global};
use std::process::Abort;
use std::test::Fail;

fn strings(alloc: Global, all: &[&str]) -> Result<Vec<String>, AllocError> {
    let mut words = Vec::new(alloc);
    for word in all {
        words.push(String::from_str(alloc, *word)?)?;
    }
    Ok(words)
}

/// A name, and what the file under it holds.
pub(crate) type File = (&'static str, &'static [u8]);

/// What a run leaves: its status, and the shelf.
pub(crate) struct Left {
    status: u8,
    shelf: MemoryShelf,
}

// Written by hand, it is one step in the proof of each test that drops a shelf.
impl Drop for Left {
    fn drop(self) {
        let Left {
            status: _,
            shelf: _,
        } = self;
    }
}

impl Left {
    /// Whether the run ended with this status and printed this.
    pub(crate) fn ended(&self, status: u8, console: &[u8]) -> bool {
        self.status == status && self.shelf.console() == console
    }

    /// Whether the file under a name is this, or there is none if `wanted` is none.
    pub(crate) fn holds(&self, name: &str, wanted: Option<&[u8]>) -> bool {
        match (self.shelf.file(name), wanted) {
            (Some(bytes), Some(all)) => bytes == all,
            (None, None) => true,
            _ => false,
        }
    }

    /// Returns a copy of the file under a name.
    pub(crate) fn copy_of(&self, alloc: Global, name: &str) -> Result<Vec<u8>, Fail> {
        match self.shelf.file(name) {
            Some(bytes) => Ok(bytes.to_vec(alloc)?),
            None => Err(Fail::new("there is no such file")),
        }
    }
}

/// Returns what a run leaves over a shelf that moves `chunk` bytes at a time, fails these calls, and holds these files.
pub(crate) fn left_by(
    alloc: Global,
    chunk: usize,
    failing: &[u64],
    files: &[(&str, &[u8])],
    words: &[&str],
) -> Result<Left, AllocError> {
    let words = strings(alloc, words)?;
    let mut shelf = MemoryShelf::new(alloc, chunk.max(1), failing.to_vec(alloc)?);
    for (name, bytes) in files {
        shelf.put_file(*name, *bytes)?;
    }
    let status = run(alloc, &words, &mut shelf);
    Ok(Left { status, shelf })
}

/// Files that a run is given, its words, the status, what is printed, and a name with the file under it.
pub(crate) type Case = (
    &'static [File],
    &'static [&'static str],
    u8,
    &'static [u8],
    (&'static str, Option<&'static [u8]>),
);

// Whether a run leaves what the case says.
fn leaves(alloc: Global, case: &Case) -> Result<bool, AllocError> {
    let (files, words, status, console, (name, file)) = *case;
    let left = left_by(alloc, 64, &[], files, words)?;
    Ok(left.ended(status, console) && left.holds(name, file))
}

/// Checks that each run leaves what its case says.
pub(crate) fn all_leave(rt: &impl Abort, alloc: Global, cases: &[Case]) -> Result<(), Fail> {
    for (at, case) in cases.iter().enumerate() {
        assert!(rt; leaves(alloc, case)?, "case {at}");
    }
    Ok(())
}

/// A log, the words, the status, and what is printed.
pub(crate) type LogCase = (&'static [u8], &'static [&'static str], u8, &'static [u8]);

/// Checks that each log is listed or refused so, for a netlist with its result, and stays as it was.
pub(crate) fn are_listed(
    rt: &impl Abort,
    alloc: Global,
    netlist: &[u8],
    output: &[u8],
    cases: &[LogCase],
) -> Result<(), Fail> {
    for (at, (log, words, status, console)) in cases.iter().enumerate() {
        let files = [("n", netlist), ("r", output), ("l", *log)];
        let left = left_by(alloc, 64, &[], &files, *words)?;
        let listed = left.ended(*status, *console) && left.holds("l", Some(*log));
        assert!(rt; listed, "case {at}");
    }
    Ok(())
}
