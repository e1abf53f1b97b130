//! Laws over the definitions: each function has an empty body, and its contract is the law.
ghost use Rattle.bench_reader.specs.Laws.{AcceptedOrRefused, NeverAcceptedAndRefused, OneRefusal, OneNetlist, SpelledIsAccepted, LinesSpell};

/// Each text is accepted or refused.
pub fn accepted_or_refused()
    ensures { AcceptedOrRefused }
{}

/// No text is both accepted and refused.
pub fn never_accepted_and_refused()
    ensures { NeverAcceptedAndRefused }
{}

/// A text is refused by at most one rule, at one byte.
pub fn one_refusal()
    ensures { OneRefusal }
{}

/// A text reads as at most one netlist.
pub fn one_netlist()
    ensures { OneNetlist }
{}

/// A text of at most `NETLIST_LIMIT` bytes that spells right statements is accepted, and reads as these statements.
pub fn spelled_is_accepted()
    ensures { SpelledIsAccepted }
{}

/// A text with a line for each statement spells the statements, if each of their names and words is a run of bytes of
/// names (`HasRuns`).
pub fn lines_spell()
    ensures { LinesSpell }
{}
