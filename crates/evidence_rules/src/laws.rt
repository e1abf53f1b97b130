//! Laws over the definitions: each function has an empty body, and its contract is the law.

ghost use Rattle.evidence_rules.specs.Laws.{RefutationEqual, ChainEndsOrStops, StoppedChainHasNoEnd, ChainStopsOnce, RefusedLogIsWrong, OneLogRefusal, RefusedTreeIsWrong, OneTreeRefusal};

/// Two faults with a refutation of their miter answer alike to every vector.
pub fn refutation_is_equal()
    ensures { RefutationEqual }
{}

/// Every chain has an end or stops, never both, and a chain that stops does so for one rule.
pub fn chain_ends_or_stops()
    ensures either { ChainEndsOrStops }
    ensures not_both { StoppedChainHasNoEnd }
    ensures one_rule { ChainStopsOnce }
{}

/// A log that is refused as a refutation or as a spent log isn't what that kind of evidence needs, and for that kind it
/// is refused for one rule at one step.
pub fn log_is_refused_once()
    ensures wrong { RefusedLogIsWrong }
    ensures once { OneLogRefusal }
{}

/// A refused tree isn't what its kind of evidence needs, and it is refused for one rule at one step.
pub fn tree_is_refused_once()
    ensures wrong { RefusedTreeIsWrong }
    ensures once { OneTreeRefusal }
{}
