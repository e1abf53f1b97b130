//! Laws over the definitions: each function has an empty body, and its contract is the law.

ghost use Rattle.listing_commands.specs.Laws.{OwnListSplitsNone, ResultsSaySame};

/// If all that is kept of a list is among a result's patterns, the list splits none of their classes.
pub fn own_list_splits_none()
    ensures { OwnListSplitsNone }
{}

/// With a result's own patterns as the vectors that were applied, the same is printed and made as without.
pub fn own_patterns_say_same()
    ensures { ResultsSaySame }
{}
