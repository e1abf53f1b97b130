//! Laws over the definitions: each function has an empty body, and its contract is the law.

ghost use Rattle.sim_listing.specs.Laws.{OneTextEach, BlocksMakeTheList};

/// Each list of vectors has exactly one text for a circuit and the number of its first vector.
pub fn one_text_each()
    ensures { OneTextEach }
{}

/// The texts of two blocks, the second numbered on from the first, are one after the other the text of both.
pub fn blocks_make_the_list()
    ensures { BlocksMakeTheList }
{}
