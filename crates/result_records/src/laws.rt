//! Laws over the definitions: each function computes nothing, and its contract is the law.

ghost use Rattle.result_records.specs.Laws.{OneSpelling, SpellingIsLine, LinesGiveAll, LinesAreAlike};

/// No line is the spelling of two records that can be written, and the spelling of such a record has no LF.
pub fn record_is_spelled_once()
    ensures once { OneSpelling }
    ensures line { SpellingIsLine }
{}

/// If nothing was held at first, the taken lines and what is held are the bytes that were fed. They are the same
/// however these bytes were cut, if no more lines can be taken.
pub fn lines_are_what_was_fed()
    ensures all { LinesGiveAll }
    ensures alike { LinesAreAlike }
{}
