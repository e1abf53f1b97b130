//! The lines that two faults can change.

ghost use Rattle.std.specs.Prelude.{◌≡◌, ℕ, ◌<◌, true, false, All, Contains, IfOk, length, slice_set};
ghost use Rattle.net_model.specs.Answer.{bit_at};

use std::alloc::{AllocError, Global};
use std::marker::Model;

/// A mark for each line, and a list of the lines that are marked.
#[derive(Debug, Drop)]
pub(crate) struct Cone {
    marks: Vec<bool>,
    lines: Vec<u32>,
}

impl Model for Cone {
    ghost use Rattle.std.specs.Prelude.{List, Bool};
    ghost use Rattle.pair_sets.specs.ConeFields.{AreLinesListed};

    ghost Value = { List Bool };

    ghost view = { λ a. a.marks.items };

    ghost invariant = { AreLinesListed };
}

impl Cone {
    /// Returns marks for `lines` lines, none of them marked. No later call allocates memory.
    pub(crate) fn none(alloc: Global, lines: usize) -> Result<Cone, AllocError>
        ensures whole { IfOk result (λ cone. length cone ≡ lines) }
        ensures none { IfOk result (λ cone. (line : ℕ) → bit_at cone line ≡ false) }
    {
        Ok(Cone {
            marks: vec![in alloc; false; lines]?,
            lines: Vec::with_capacity(alloc, lines)?,
        })
    }

    /// Returns whether `line` is marked.
    pub(crate) fn has(&self, line: u32) -> bool
        requires { line < length self.now }
        ensures { result ≡ bit_at self.now line }
    {
        self.marks[line as usize]
    }

    /// Returns the marked lines.
    pub(crate) fn lines(&self) -> &[u32]
        ensures within { All (λ line. line < length self.now) result.now }
        ensures marked { (line : ℕ) → Contains result.now line → bit_at self.now line ≡ true }
        ensures all { (line : ℕ) → bit_at self.now line ≡ true → Contains result.now line }
    {
        self.lines.as_slice()
    }

    pub(crate) fn mark(&mut self, line: u32)
        requires { line < length self.old }
        ensures { self.new ≡ slice_set self.old line true }
    {
        if self.marks[line as usize] {
            return;
        }
        self.marks[line as usize] = true;
        self.lines.push_reserved(line);
    }

    /// Removes all marks. It touches only lines that are marked.
    pub(crate) fn unmark_all(&mut self)
        ensures whole { length self.new ≡ length self.old }
        ensures none { (line : ℕ) → bit_at self.new line ≡ false }
    {
        while let Some(line) = self.lines.pop() {
            self.marks[line as usize] = false;
        }
    }
}
