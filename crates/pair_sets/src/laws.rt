//! Laws of the pair sets: each function has an empty body, and its contract is the law.

ghost use Rattle.pair_sets.specs.Laws.{SetsCover, AllSameClosed, ApartSeparates, FixedDecided, OneState, LeavesApart, LeavesCover, NoLeafEmpty, LeavesClosed, CoveringEqual, SpendingBounded};

/// The sets cover the real pairs: under each vector of the cube the pair of a line's two values is in its set.
pub fn sets_cover_real_pairs()
    ensures { SetsCover }
{}

/// No vector of a cube that is all same separates the faults.
pub fn all_same_is_closed()
    ensures { AllSameClosed }
{}

/// Each vector of an apart cube that is as wide as the circuit separates the faults, and their answers to it differ at
/// the position that is named.
pub fn apart_separates()
    ensures { ApartSeparates }
{}

/// If all relevant sources are fixed, the cube isn't undecided.
pub fn relevant_fixed_is_decided()
    ensures { FixedDecided }
{}

/// A cube has at most one state.
pub fn one_state()
    ensures { OneState }
{}

/// No vector lies in the cubes of two leaves of a tree.
pub fn leaves_are_apart()
    ensures { LeavesApart }
{}

/// Each vector lies in the cube of some leaf of a tree.
pub fn leaves_cover_all()
    ensures { LeavesCover }
{}

/// The cube of each leaf of a tree has a vector.
pub fn no_leaf_is_empty()
    ensures { NoLeafEmpty }
{}

/// No vector of the cube of a closed leaf of a tree separates the faults.
pub fn leaves_are_closed()
    ensures { LeavesClosed }
{}

/// The faults of a tree without an open leaf are equal.
pub fn covering_is_equal()
    ensures { CoveringEqual }
{}

/// A limit of closed leaves is spent only if it is less than the number of vectors: as many closed leaves as there are
/// vectors leave none open.
pub fn full_tree_is_covered()
    ensures { SpendingBounded }
{}
