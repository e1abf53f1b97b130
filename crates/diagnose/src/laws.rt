//! Laws over the definitions: each function has an empty body, and its contract is the law.

ghost use Rattle.diagnose.specs.Laws.{RefusedTesterLogIsWrong, OneTesterLogRefusal, OneLogReading, RefusedListIsWrong, OneListRefusal, OneListReading};

/// A text is the log of at most one list of rows. If there are fewer than 2^32 patterns, it is refused by at most one
/// rule at one line, and isn't both a log and refused.
pub fn log_is_read_once()
    ensures wrong { RefusedTesterLogIsWrong }
    ensures refusal { OneTesterLogRefusal }
    ensures reading { OneLogReading }
{}

/// A text is the list of at most one list of vectors, is refused by at most one rule at one line, and isn't both.
pub fn list_is_read_once()
    ensures wrong { RefusedListIsWrong }
    ensures refusal { OneListRefusal }
    ensures reading { OneListReading }
{}
