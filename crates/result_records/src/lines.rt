//! Lines of bytes that come in pieces.

ghost use Rattle.std.specs.Prelude.{◌≡◌, ◌≤◌, ◌++◌, [], IfOk, OnOk, OnErr, MatchOption, Contains, length};
ghost use Rattle.net_model.specs.Ascii.{line_feed};
ghost use Rattle.result_records.specs.Held.{IsFirstLine, IsFirstFrom, IsWithoutLineFeed};

use std::alloc::{AllocError, Global};
use std::marker::Model;

const LF: u8 = b'\n';

/// Bytes that were fed and not yet taken out as lines.
#[derive(Debug, Drop)]
pub struct Lines {
    // what was fed; the bytes before `start` are taken
    bytes: Vec<u8>,
    start: usize,
    // there is no LF from `start` up to here, so that no byte is looked at twice
    looked: usize,
}

impl Model for Lines {
    ghost use Rattle.std.specs.Prelude.{ℕ, List, ◌≤◌, drop, length};
    ghost use Rattle.result_records.specs.Held.{IsWithoutLineFeed};

    ghost Value = { List ℕ };

    ghost view = { λ a. drop a.start a.bytes.items };

    ghost invariant = { λ a. (a.start ≤ a.looked) × (a.looked ≤ length a.bytes.items) × IsWithoutLineFeed a.bytes.items a.start a.looked };
}

impl Lines {
    /// Returns lines that hold no bytes.
    pub fn new(alloc: Global) -> Lines
        ensures { result ≡ [] }
    {
        Lines {
            bytes: Vec::new(alloc),
            start: 0,
            looked: 0,
        }
    }

    /// Appends a piece to what is held. After an error nothing has changed.
    pub fn feed(&mut self, piece: &[u8]) -> Result<(), AllocError>
        ensures ok { OnOk result (self.new ≡ self.old ++ piece.now) }
        ensures err { OnErr result (self.new ≡ self.old) }
    {
        self.drop_taken();
        self.bytes.extend_from_slice(piece)?;
        Ok(())
    }

    /// Takes the first line out and returns it without its LF, or returns none if what is held has no LF. Then, and
    /// after an error, nothing has changed.
    pub fn take_line(&mut self) -> Result<Option<Vec<u8>>, AllocError>
        ensures ok { IfOk result (λ taken. MatchOption taken ((¬ Contains self.old line_feed) × (self.new ≡ self.old)) (λ line. IsFirstLine self.old line.items self.new)) }
        ensures err { OnErr result (self.new ≡ self.old) }
    {
        let Some(end) = find_end(&self.bytes, self.looked) else {
            self.looked = self.bytes.len();
            return Ok(None);
        };
        let line = Vec::from_slice(*self.bytes.allocator(), &self.bytes[self.start..end])?;
        self.start = end + 1;
        self.looked = end + 1;
        Ok(Some(line))
    }

    /// Returns what is held: the bytes that were fed and not taken.
    pub fn rest(&self) -> &[u8]
        ensures { result.now ≡ self.now }
    {
        &self.bytes[self.start..]
    }

    // Moves what is held to the front, unless more bytes are held than were taken since the last move: so no more
    // bytes are moved than are taken.
    fn drop_taken(&mut self)
        ensures { self.new ≡ self.old }
    {
        let held = self.bytes.len() - self.start;
        if held <= self.start {
            self.bytes.copy_within(self.start.., 0);
            self.bytes.truncate(held);
            self.looked -= self.start;
            self.start = 0;
        }
    }
}

// Returns the place of the first LF, starting at place `from`, if there is one.
fn find_end(bytes: &[u8], from: usize) -> Option<usize>
    requires { from ≤ length bytes.now }
    ensures { MatchOption result (IsWithoutLineFeed bytes.now from (length bytes.now)) (λ end. IsFirstFrom bytes.now from end) }
{
    for at in from..bytes.len() {
        if bytes[at] == LF {
            return Some(at);
        }
    }
    None
}
