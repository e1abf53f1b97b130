//! What a search with a simulation finds.

use pair_sets::Tree;

/// `Apart`: a cube whose vectors all separate the faults, with a bit for each source that it fixes and none for a free
/// one. `Covered`: a tree whose leaves are all closed. `Spent`: a tree with an open leaf, and with as many closed ones
/// as the limit allows.
#[derive(Debug, Drop)]
pub enum Searched {
    Apart(Vec<Option<bool>>),
    Covered(Tree),
    Spent(Tree),
}
