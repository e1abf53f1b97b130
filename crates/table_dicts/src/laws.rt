//! Laws of tables: each function has an empty body, and its contract is the law.

ghost use Rattle.table_dicts.specs.Laws.{HaveOneTable};

/// A circuit has exactly one table of answers to patterns.
pub fn one_table_of_answers()
    ensures { HaveOneTable }
{}
