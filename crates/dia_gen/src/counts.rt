//! The counts of the members that are marked equal and of those that are left open.

ghost use Rattle.std.specs.Prelude.{◌≡◌, length};
ghost use Rattle.member_marks.specs.Given.{AreAllMarked};
ghost use Rattle.dia_gen.specs.Marked.{AreMarkedBelow};

use class_refine::Classes;
use member_marks::{MarkCounts, Marks};

// Counts the marks of all numbers.
pub(crate) fn count_marks(classes: &Classes, marks: &Marks, numbers: u32) -> MarkCounts
    requires numbers { numbers ≡ length classes.now.class_of }
    requires whole { length marks.now ≡ length classes.now.class_of }
    requires marked { AreAllMarked classes.now marks.now }
    ensures { AreMarkedBelow classes.now marks.now numbers result }
{
    let mut counts = MarkCounts::none();
    for number in 0..numbers {
        counts.count(marks.of(classes, number).unwrap());
    }
    counts
}
