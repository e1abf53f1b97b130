//! `Operand`, what a pin or an observed position gives in one copy: a variable or a constant.

ghost use Rattle.std.specs.Prelude.{◌≡◌};
ghost use Rattle.pair_miter.specs.Operand.{is_constant, operand_where, variable_of};

use std::marker::Model;

/// The value at which a pin or position is stuck, or the variable of the line that it reads.
#[derive(Drop)]
pub(crate) struct Operand {
    stuck: Option<bool>,
    // The variable of the line, also if there is a stuck value.
    variable: u32,
}

impl Model for Operand {
    ghost use Rattle.pair_miter.specs.Operand as spec;

    ghost Value = { spec.Operand };

    ghost view = { λ a. spec.operand_where a.stuck a.variable };
}

impl Operand {
    /// Returns the operand of a pin or position: the value `stuck` if it is stuck, else `variable`, that of the line
    /// that it reads.
    pub(crate) fn new(stuck: Option<bool>, variable: u32) -> Operand
        ensures { result ≡ operand_where stuck variable }
    {
        Operand { stuck, variable }
    }

    /// Returns the variable, or none for a constant.
    pub(crate) fn variable(&self) -> Option<u32>
        ensures { result ≡ variable_of self.now }
    {
        match self.stuck {
            Some(_) => None,
            None => Some(self.variable),
        }
    }

    /// Returns whether it is the constant `bit`.
    pub(crate) fn is_constant(&self, bit: bool) -> bool
        ensures { result ≡ is_constant bit self.now }
    {
        match self.stuck {
            Some(constant) => constant == bit,
            None => false,
        }
    }
}
