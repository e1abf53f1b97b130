//! Partial tester logs.

ghost use Rattle.std.specs.Prelude.{◌≡◌, ◌<◌, [], ◌∷◌, ◌++◌, length, Some, slice_get, OnOk};

use std::alloc::{AllocError, Global};
use std::marker::Model;

/// What a tester saw at a position: a bit, or nothing.
#[derive(Clone, Copy, Debug, PartialEq, Eq)]
pub enum Seen {
    Zero,
    One,
    Unseen,
}

/// A list of pairs: a pattern, and what was seen at each position.
#[derive(Debug, Drop)]
pub struct Partial {
    lines: Vec<(u32, Vec<Seen>)>,
}

impl Model for Partial {
    ghost use Rattle.std.specs.Prelude.{ℕ, List, map};
    ghost use Rattle.ranked_diag.specs.declared.partial.Seen.{Seen};

    ghost Value = { List (ℕ × List Seen) };

    ghost view = { λ p. map (λ line. (line.0, line.1.items)) p.lines.items };
}

impl Partial {
    /// Returns how many patterns were logged.
    pub fn len(&self) -> usize
        ensures { result ≡ length self.now }
    {
        self.lines.len()
    }

    pub(crate) fn new(alloc: Global) -> Partial
        ensures { result ≡ [] }
    {
        let lines = Vec::new(alloc);
        Partial { lines }
    }

    pub(crate) fn push(&mut self, pattern: u32, seen: Vec<Seen>) -> Result<(), AllocError>
        ensures { OnOk result (self.new ≡ self.old ++ (pattern, seen.items) ∷ []) }
    {
        Ok(self.lines.push((pattern, seen))?)
    }

    /// Returns the pattern of line `at`, and what was seen at each position.
    pub fn line(&self, at: usize) -> (u32, &[Seen])
        requires { at < length self.now }
        ensures { slice_get self.now at ≡ Some (result.0, result.1.now) }
    {
        let line = &self.lines[at];
        (line.0, line.1.as_slice())
    }
}
