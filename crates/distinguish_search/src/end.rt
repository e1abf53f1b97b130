//! How a descent ends.

/// What the cube at the end of a descent is: a leaf, or one whose vectors all separate the faults (`Apart`).
#[derive(Clone, Copy)]
pub(crate) enum End {
    Leaf,
    Apart,
}
