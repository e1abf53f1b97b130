//! Runs over shelves in memory, and what they leave. No clause here repeats what a run promises, so that no test
//! carries it along.

use dia_runs::run;
use diag_shelf::MemoryShelf;
use std::alloc::{AllocError, Global};
use std::process::Abort;
use std::test::Fail;

/// What a file holds, or what is printed: no file; anything; just this; the given number of bytes from the front of
/// this; or this at the front, at the end or anywhere.
#[derive(Clone, Copy)]
pub(crate) enum FileText<'a> {
    Absent,
    Any,
    Is(&'a [u8]),
    Part(&'a [u8], usize),
    Begins(&'a [u8]),
    Ends(&'a [u8]),
    Has(&'a [u8]),
}

/// Whether `part` occurs somewhere in `text`.
pub(crate) fn has(text: &[u8], part: &[u8]) -> bool {
    text.windows(part.len().max(1)).any(|window| window == part)
}

fn is_like(text: &[u8], wanted: FileText) -> bool {
    match wanted {
        FileText::Absent => false,
        FileText::Any => true,
        FileText::Is(all) => text == all,
        FileText::Part(all, length) => text.len() == length && all.starts_with(text),
        FileText::Begins(start) => text.starts_with(start),
        FileText::Ends(end) => text.ends_with(end),
        FileText::Has(part) => has(text, part),
    }
}

/// What a run leaves: its status, and the shelf.
pub(crate) struct Left {
    status: u8,
    shelf: MemoryShelf,
}

// Written by hand, it is one step in the proof of each test that drops a shelf.
impl Drop for Left {
    fn drop(self) {
        let Left {
            status: _,
            shelf: _,
        } = self;
    }
}

impl Left {
    /// Whether the run ended with this status and printed this.
    pub(crate) fn ended(&self, status: u8, console: FileText) -> bool {
        self.status == status && is_like(self.shelf.console(), console)
    }

    /// Whether the file under a name is like this.
    pub(crate) fn holds(&self, name: &str, wanted: FileText) -> bool {
        match self.shelf.file(name) {
            Some(bytes) => is_like(bytes, wanted),
            None => matches!(wanted, FileText::Absent),
        }
    }

    /// Whether each of these files is as it was given.
    pub(crate) fn keeps(&self, files: &[(&str, &[u8])]) -> bool {
        files
            .iter()
            .all(|(name, bytes)| self.holds(*name, FileText::Is(*bytes)))
    }

    /// Whether the file under a name is as the other run left it.
    pub(crate) fn holds_same(&self, other: &Left, name: &str) -> bool {
        match other.shelf.file(name) {
            Some(bytes) => self.holds(name, FileText::Is(bytes)),
            None => self.holds(name, FileText::Absent),
        }
    }

    /// Whether there is no file under a name, or it is a beginning of the one that the other run left.
    pub(crate) fn holds_part(&self, other: &Left, name: &str) -> bool {
        match (self.shelf.file(name), other.shelf.file(name)) {
            (None, _) => true,
            (Some(part), Some(all)) => all.starts_with(part),
            (Some(_), None) => false,
        }
    }

    /// Returns what was printed.
    pub(crate) fn console(&self) -> &[u8] {
        self.shelf.console()
    }

    /// Returns a copy of the file under a name.
    pub(crate) fn copy_of(&self, alloc: Global, name: &str) -> Result<Vec<u8>, Fail> {
        match self.shelf.file(name) {
            Some(bytes) => Ok(bytes.to_vec(alloc)?),
            None => Err(Fail::new("there is no such file")),
        }
    }
}

/// Returns the words of a run.
pub(crate) fn strings(alloc: Global, all: &[&str]) -> Result<Vec<String>, AllocError> {
    let mut words = Vec::new(alloc);
    for word in all {
        words.push(String::from_str(alloc, *word)?)?;
    }
    Ok(words)
}

fn put_all(shelf: &mut MemoryShelf, files: &[(&str, &[u8])]) -> Result<(), AllocError> {
    for (name, bytes) in files {
        shelf.put_file(*name, *bytes)?;
    }
    Ok(())
}

/// Returns what a run leaves over a shelf that moves `chunk` bytes at a time (one if `chunk` is 0), fails the calls
/// `failing`, and holds these files.
pub(crate) fn left_by(
    alloc: Global,
    chunk: usize,
    failing: &[u64],
    files: &[(&str, &[u8])],
    words: &[&str],
) -> Result<Left, AllocError> {
    let words = strings(alloc, words)?;
    let mut shelf = MemoryShelf::new(alloc, chunk.max(1), failing.to_vec(alloc)?);
    put_all(&mut shelf, files)?;
    let status = run(alloc, &words, &mut shelf);
    Ok(Left { status, shelf })
}

/// Returns what a run leaves over a shelf that moves seven bytes at a time, fails no call, and holds these files.
pub(crate) fn plain(
    alloc: Global,
    files: &[(&str, &[u8])],
    words: &[&str],
) -> Result<Left, AllocError> {
    left_by(alloc, 7, &[], files, words)
}

/// A name, and what the file under it holds.
pub(crate) type File = (&'static str, &'static [u8]);

/// Files that a run is given, its words, the status, what is printed, and a name with what the file under it is like.
pub(crate) type Case = (
    &'static [File],
    &'static [&'static str],
    u8,
    FileText<'static>,
    (&'static str, FileText<'static>),
);

// Whether a run over a shelf that moves `chunk` bytes at a time leaves what the case says.
fn leaves(alloc: Global, chunk: usize, case: &Case) -> Result<bool, AllocError> {
    let (files, words, status, console, (name, file)) = *case;
    let left = left_by(alloc, chunk, &[], files, words)?;
    Ok(left.ended(status, console) && left.holds(name, file))
}

/// Checks that each run over a shelf that moves `chunk` bytes at a time leaves what its case says.
pub(crate) fn all_leave(
    rt: &impl Abort,
    alloc: Global,
    chunk: usize,
    cases: &[Case],
) -> Result<(), Fail> {
    for (at, case) in cases.iter().enumerate() {
        assert!(rt; leaves(alloc, chunk, case)?, "case {at}");
    }
    Ok(())
}

/// Whether `check` accepts the netlist `n` and the result `r` that a run left, with the counts that it printed.
pub(crate) fn is_accepted(alloc: Global, left: &Left) -> Result<bool, Fail> {
    let netlist = left.copy_of(alloc, "n")?;
    let file = left.copy_of(alloc, "r")?;
    let files = [("n", netlist.as_slice()), ("r", file.as_slice())];
    let again = left_by(alloc, 4096, &[], &files, &["check", "n", "r"])?;
    Ok(
        again.ended(0, FileText::Begins(b"valid "))
            && again.ended(0, FileText::Ends(left.console())),
    )
}

pub(crate) fn joined(alloc: Global, pieces: &[&[u8]]) -> Result<Vec<u8>, AllocError> {
    let mut text = Vec::new(alloc);
    for piece in pieces {
        text.extend_from_slice(*piece)?;
    }
    Ok(text)
}
