//! Lists by number; each grows at its end.

ghost use Rattle.std.specs.Prelude.{◌≡◌, ◌<◌, ◌∷◌, [], ◌++◌, IfOk, OnOk, OnErr, length, map, replicate, slice_index_or, slice_set};

use std::alloc::{AllocError, Global};
use std::marker::Model;

/// A list for each number below a count, for example the users of each line of a circuit.
#[derive(Debug, Drop)]
pub struct GrowingLists<T> {
    pub(crate) lists: Vec<Vec<T>>,
}

impl<T> Model for GrowingLists<T> {
    ghost use Rattle.std.specs.Prelude.{List, map};

    ghost Value = { List (List T) };

    ghost view = { λ g. map (λ list. list.items) g.lists.items };
}

impl<T: Drop> GrowingLists<T> {
    /// Returns `count` empty lists.
    pub fn none(alloc: Global, count: usize) -> Result<GrowingLists<T>, AllocError>
        ensures { IfOk result (λ lists. lists ≡ replicate count []) }
    {
        let mut lists = Vec::with_capacity(alloc, count)?;
        for _ in 0..count {
            lists.push_reserved(Vec::new(alloc));
        }
        Ok(GrowingLists { lists })
    }

    /// Adds `element` to the list of `number`. After an error nothing has changed.
    pub fn add(&mut self, number: usize, element: T) -> Result<(), AllocError>
        requires { number < length self.old }
        ensures ok { OnOk result (self.new ≡ slice_set self.old number (slice_index_or self.old number [] ++ element ∷ [])) }
        ensures err { OnErr result (self.new ≡ self.old) }
    {
        self.lists[number].push(element)?;
        Ok(())
    }

    /// Returns the number of lists.
    pub fn count(&self) -> usize
        ensures { result ≡ length self.now }
    {
        self.lists.len()
    }

    /// Returns the list of `number`.
    pub fn at(&self, number: usize) -> &[T]
        requires { number < length self.now }
        ensures { result.now ≡ slice_index_or self.now number [] }
    {
        self.lists[number].as_slice()
    }
}
