//! Laws over the definitions: each function has an empty body, and its contract is the law.

ghost use Rattle.samediff_dict.specs.Laws.{NoneIsLeft, KeepsAsMany, NoRowIsBetter};

/// The third step ends: no replacement of a chosen baseline by a candidate keeps more pairs apart.
pub fn none_is_left()
    ensures { NoneIsLeft }
{}

/// The chosen baselines keep at least as many pairs apart as the fault-free ones.
pub fn keeps_as_many()
    ensures { KeepsAsMany }
{}

/// No row in place of one of the chosen baselines keeps more pairs apart, even one that no class answers.
pub fn no_row_is_better()
    ensures { NoRowIsBetter }
{}
