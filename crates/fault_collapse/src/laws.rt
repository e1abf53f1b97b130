//! Laws of collapse: each function has an empty body, and its contract is the law.

ghost use Rattle.fault_collapse.specs.Laws.{RootIsLast, SameRootEqual};

/// Faults of a circuit with the same root are equal: they answer alike to every vector.
pub fn same_root_equal()
    ensures { SameRootEqual }
{}

/// The root of a fault is the last fault of its chain: it has no successor.
pub fn root_is_last()
    ensures { RootIsLast }
{}
