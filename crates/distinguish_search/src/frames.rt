//! Splits that are under way.

use pair_sets::Tree;

/// A split: its source, the bit that is tried, the tree of the other bit once that is finished, and the place of the
/// reached position that asked for the split.
#[derive(Drop)]
pub(crate) struct Frame {
    pub(crate) source: u32,
    pub(crate) bit: bool,
    pub(crate) half: Option<Tree>,
    pub(crate) place: usize,
}
