//! Laws over the definitions: each function has an empty body, and its contract is the law.

ghost use Rattle.kept_vectors.specs.Laws.{TablesArePartedBy, KeptTellAsMuch, KeptAnswerAlike, NoneOfListSplits, KeptOnce, NothingMoreIsKept, SplittersAreKept};

/// Two numbers are in one class of a table of patterns exactly if they answer alike to each of these.
pub fn tables_are_parted_by()
    ensures { TablesArePartedBy }
{}

/// If nothing is kept before a list, what is kept of it has the classes of the whole list.
pub fn kept_tell_as_much()
    ensures { KeptTellAsMuch }
{}

/// Two numbers answer alike to what is kept of a list exactly if they answer alike to the whole list.
pub fn kept_answer_alike()
    ensures { KeptAnswerAlike }
{}

/// If all that is kept of a list is among some patterns, no vector of the list splits a class of these patterns.
pub fn none_of_list_splits()
    ensures { NoneOfListSplits }
{}

/// If a list comes twice to a whole table, nothing of it is kept the second time.
pub fn kept_once()
    ensures { KeptOnce }
{}

/// A keeper keeps nothing of a list whose vectors split no class of what it has kept already.
pub fn nothing_more_is_kept()
    ensures { NothingMoreIsKept }
{}

/// If each vector of a list has a bit for each source and splits a class of those before it, all are kept.
pub fn splitters_are_kept()
    ensures { SplittersAreKept }
{}
