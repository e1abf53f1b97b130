//! The stack of a search.

ghost use Rattle.std.specs.Prelude.{◌≡◌, ℕ, ◌∷◌, [], None, IfOk, OnOk, MatchOption, length, replicate, slice_index_or};
ghost use Rattle.pair_sets.specs.Cube.{FixesOnce, fixed_bit};
ghost use Rattle.distinguish_search.specs.Frames.{tried_cube, last_place};

use crate::frames::Frame;
use std::alloc::{AllocError, Global};
use std::marker::Model;

/// The splits that are under way, each within a half of the one before.
#[derive(Drop)]
pub(crate) struct Stack {
    frames: Vec<Frame>,
}

impl Model for Stack {
    ghost use Rattle.std.specs.Prelude.{List, reverse};
    ghost use Rattle.distinguish_search.specs.declared.frames.Frame.{Frame};

    ghost Value = { List Frame };

    ghost view = { λ s. reverse s.frames.items };
}

impl Stack {
    pub(crate) fn new(alloc: Global) -> Stack
        ensures { result ≡ [] }
    {
        Stack {
            frames: Vec::new(alloc),
        }
    }

    pub(crate) fn pop(&mut self) -> Option<Frame>
        ensures { MatchOption result (self.old ≡ []) (λ frame. self.old ≡ frame ∷ self.new) }
    {
        self.frames.pop()
    }

    pub(crate) fn push(&mut self, frame: Frame) -> Result<(), AllocError>
        ensures { OnOk result (self.new ≡ frame ∷ self.old) }
    {
        self.frames.push(frame)?;
        Ok(())
    }

    /// Returns the place of the reached position that asked for the last split, or 0 if there is no split.
    pub(crate) fn place(&self) -> usize
        ensures { result ≡ last_place self.now }
    {
        match self.frames.last() {
            Some(frame) => frame.place,
            None => 0,
        }
    }

    /// Returns the cube of the bits that are tried: a bit for each source that is fixed, and none for one that is free.
    pub(crate) fn cube(&self, alloc: Global, sources: u32) -> Result<Vec<Option<bool>>, AllocError>
        requires { FixesOnce sources (tried_cube self.now) }
        ensures width { IfOk result (λ cube. length cube.items ≡ sources) }
        ensures bits { IfOk result (λ cube. (source : ℕ) → slice_index_or cube.items source None ≡ fixed_bit (tried_cube self.now) source) }
    {
        let mut cube = free_cube(alloc, sources)?;
        for frame in &self.frames {
            cube[frame.source as usize] = Some(frame.bit);
        }
        Ok(cube)
    }
}

// Returns the cube of all vectors.
fn free_cube(alloc: Global, sources: u32) -> Result<Vec<Option<bool>>, AllocError>
    ensures { IfOk result (λ cube. cube.items ≡ replicate sources None) }
{
    let cube = vec![in alloc; None; sources as usize]?;
    Ok(cube)
}
