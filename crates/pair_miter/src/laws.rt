//! Laws over the definitions: each function has an empty body, and its contract is the law.

ghost use Rattle.pair_miter.specs.Laws.{TidyKeepsModels, SupersetIsNotFresh, ModelSeparates, SeparatedHasModel, MiterIsSmall, MiterIsProper};

/// An assignment satisfies a list of clauses exactly if it satisfies the tidied list.
pub fn tidy_keeps_models()
    ensures { TidyKeepsModels }
{}

/// A clause that has all literals of a clause of the list isn't fresh over the list.
pub fn superset_is_not_fresh()
    ensures { SupersetIsNotFresh }
{}

/// The vector of an assignment that satisfies the miter of two faults of a circuit separates the two.
pub fn model_separates()
    ensures { ModelSeparates }
{}

/// If some vector separates two faults of a circuit, some assignment of all variables satisfies their miter.
pub fn separated_pair_has_model()
    ensures { SeparatedHasModel }
{}

/// The miter of two faults of a circuit has fewer than 2^30 clauses, and fewer than 2^31 variables.
pub fn miter_is_small()
    ensures { MiterIsSmall }
{}

/// Each clause of the miter of two faults of a circuit is over the miter's variables, and has none of them twice.
pub fn miter_is_proper()
    ensures { MiterIsProper }
{}
