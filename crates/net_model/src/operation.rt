//! What a gate makes of its pins, defined once for bits, lanes, pairs and clauses.

ghost use Rattle.std.specs.Prelude.{◌≡◌};
ghost use Rattle.net_model.specs.Gate.{operation_of, inverts};

use crate::gate::Kind;

/// An operation over any number of pins in any order: 1 if all of them are 1, if any of them is, or if an odd number
/// is.
#[derive(Clone, Copy, Debug)]
pub enum Fold {
    AllOf,
    AnyOf,
    OddOf,
}

/// What a gate makes of its pins, before it may invert: a fold of them, or the pin that the first one chooses.
#[derive(Clone, Copy, Debug)]
pub enum Operation {
    Folded(Fold),
    Chosen,
}

impl Kind {
    /// Returns what a gate of this kind makes of its pins. A constant is all of no pins, or any of none.
    #[inline]
    pub fn operation(self) -> Operation
        ensures { result ≡ operation_of self }
    {
        match self {
            Kind::And | Kind::Nand | Kind::Not | Kind::Buff | Kind::Const1 => {
                Operation::Folded(Fold::AllOf)
            }
            Kind::Or | Kind::Nor | Kind::Const0 => Operation::Folded(Fold::AnyOf),
            Kind::Xor | Kind::Xnor => Operation::Folded(Fold::OddOf),
            Kind::Mux => Operation::Chosen,
        }
    }

    /// Returns whether a gate of this kind shows the opposite of what its operation gives.
    #[inline]
    pub fn inverts(self) -> bool
        ensures { result ≡ inverts self }
    {
        match self {
            Kind::Nand | Kind::Nor | Kind::Xnor | Kind::Not => true,
            Kind::And
            | Kind::Or
            | Kind::Xor
            | Kind::Buff
            | Kind::Mux
            | Kind::Const0
            | Kind::Const1 => false,
        }
    }
}
