//! Laws of the numbers of faults and of the scope of a pair: each function has an empty body, and its contract is the
//! law.

ghost use Rattle.fault_list.specs.Laws.{OneNumber, UnsplitAgree, UnreachedAgree};

/// No fault of a circuit has two numbers.
pub fn one_number()
    ensures { OneNumber }
{}

/// A line that isn't split has one value under both faults of the pair, for every vector.
pub fn unsplit_lines_agree()
    ensures { UnsplitAgree }
{}

/// A position that isn't reached shows the same under both faults of the pair, for every vector.
pub fn unreached_positions_agree()
    ensures { UnreachedAgree }
{}
