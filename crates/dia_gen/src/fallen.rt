//! The lowest number that may have lost its mark by new classes.

ghost use Rattle.std.specs.Prelude.{◌≡◌, ◌≤◌, ◌<◌, ℕ, length, slice_index};
ghost use Rattle.net_model.specs.ClassTable.{class_at, representative};

use class_refine::Classes;

// Returns a number, at most `limit`, below which each number of a class numbered `first` or higher is its
// representative.
pub(crate) fn lowest_fallen(classes: &Classes, first: u32, limit: u32) -> u32
    ensures within { result ≤ limit }
    ensures leads { (n : ℕ) → n < result → n < length classes.now.class_of → first ≤ class_at classes.now n → representative classes.now (class_at classes.now n) ≡ n }
{
    let mut lowest = limit;
    for class in first..classes.count() {
        lowest = up_to_second(classes.members(class), lowest);
    }
    lowest
}

// Returns a number that is at most `limit`, and at most the second of `members` if there is one.
fn up_to_second(members: &[u32], limit: u32) -> u32
    ensures within { result ≤ limit }
    ensures second { 1 < length members.now → result ≤ slice_index members.now 1 }
{
    if members.len() > 1 {
        limit.min(members[1])
    } else {
        limit
    }
}
