//! What a search for a pair of faults finds.

use net_model::Vector;
use pair_sets::Tree;

/// `Vector`: a vector that separates the faults. `Covered`: a tree whose leaves are all closed. `Spent`: a tree with an
/// open leaf, and with as many closed ones as the limit allows.
#[derive(Debug, Drop)]
pub enum Found {
    Vector(Vector),
    Covered(Tree),
    Spent(Tree),
}
