//! What a descent is for.

use clause_pool::Lit;

/// Two literals that are to be true together, and the highest variable that is decided for this.
#[derive(Clone, Copy)]
pub(crate) struct Both {
    pub(crate) first: Lit,
    pub(crate) second: Lit,
    pub(crate) highest: u32,
}

/// A model, for which all variables are set (`Model`), or only a test whether two literals can be true together
/// (`Both`).
#[derive(Clone, Copy)]
pub(crate) enum Aim {
    Model,
    Both(Both),
}
