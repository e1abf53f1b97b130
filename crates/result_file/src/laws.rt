//! Laws over the definitions: each function computes nothing, and its contract is the law.

ghost use Rattle.result_file.specs.Laws.{RefusedFileIsWrong, OneFileRefusal, ValidIsTrue, ValidFileIsTrue, ClosedClassesAreEqual};

use class_refine::named_separates_faults;
use fault_collapse::same_root_equal;
use pair_sets::{covering_is_equal, full_tree_is_covered, leaves_are_closed};

/// A refused file isn't valid, and it is refused for one rule at one line.
pub fn file_is_refused_once()
    ensures wrong { RefusedFileIsWrong }
    ensures once { OneFileRefusal }
{}

/// What valid records state of a circuit is true of it: faults of different classes answer differently to the pattern
/// that is named of the classes, equal members answer as the lowest of their class to every vector, and the budgets
/// are spent on each open member.
pub fn valid_is_true()
    ensures records { ValidIsTrue }
    ensures file { ValidFileIsTrue }
{
    named_separates_faults();
    same_root_equal();
    covering_is_equal();
    leaves_are_closed();
    full_tree_is_covered();
}

/// If what is stated is true and no member is open, two numbers are of one class exactly if their faults answer alike
/// to every vector: no vector makes more classes.
pub fn closed_classes_are_equal()
    ensures { ClosedClassesAreEqual }
{}
