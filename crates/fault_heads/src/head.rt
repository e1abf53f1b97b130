//! Heads, and in which lanes they are turned.

use word_sim::Lanes;

/// What a fault turns: a line, or what an observed position shows.
#[derive(Clone, Copy, Debug, PartialEq, Eq)]
pub enum Head {
    Line(u32),
    Position(u32),
}

/// The head that a fault turns, and in which lanes of a block it turns it.
#[derive(Clone, Copy, Debug)]
pub struct Turn {
    pub head: Head,
    pub lanes: Lanes,
}
