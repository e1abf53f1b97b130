//! Laws over the definitions: each function has an empty body, and its contract is the law.

ghost use Rattle.dia_gen.specs.Laws.{OneFileOfStream, OneFileOfList, ListIsGraded, PatternsSplitInTurn};

/// Without a budget of cubes and a budget of conflicts, the file that is made and its summary are functions of the
/// circuit and the budget of blocks.
pub fn file_of_stream_is_one()
    ensures { OneFileOfStream }
{}

/// Without a budget of cubes and a budget of conflicts, the file that is made from a list and its summary are functions
/// of the circuit, the list and the budget of blocks.
pub fn file_of_list_is_one()
    ensures { OneFileOfList }
{}

/// A file made from a list states classes whose numbers answer alike to each vector of the list, and without budgets of
/// cubes and conflicts exactly the classes of the list. No pattern that was found is a vector of the list.
pub fn list_is_graded()
    ensures { ListIsGraded }
{}

/// The patterns of right lines have a bit for each source, and each splits a class of the patterns before it.
pub fn patterns_split_in_turn()
    ensures { PatternsSplitInTurn }
{}
