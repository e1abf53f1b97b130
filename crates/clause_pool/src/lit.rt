//! Literals.

ghost use Rattle.std.specs.Prelude.{◌≡◌, ◌<◌, ◌≤◌, ◌^◌};
ghost use Rattle.clause_pool.specs.Literal.{opposite};
ghost use Rattle.clause_pool.specs.LiteralCode.{code_of};

use std::marker::Model;

/// A variable or its negation. Variables are numbered from 1, and are below 2^31.
#[derive(Clone, Copy, Debug, PartialEq, Eq)]
pub struct Lit {
    // Twice the variable, and one more if the literal is positive.
    code: u32,
}

impl Model for Lit {
    ghost use Rattle.clause_pool.specs.Literal.{Literal};
    ghost use Rattle.clause_pool.specs.LiteralCode.{code_of, literal_of, code_of-literal_of};
    ghost use Rattle.std.specs.Prelude.{◌<◌, ◌≤◌, ◌^◌};

    ghost Value = { Literal };

    ghost view = { λ a. literal_of a.code };

    ghost inverse = { λ l. record { code = code_of l } };

    ghost inverse_ok = { λ a h i. record { code = code_of-literal_of a.code i } };

    ghost invariant = { λ a. (2 ≤ a.code) × (a.code < 2 ^ 32) };
}

impl Lit {
    /// Returns the literal of `variable`, positive or negated.
    pub fn new(variable: u32, positive: bool) -> Lit
        requires from { 0 < variable }
        requires below { variable < 2 ^ 31 }
        ensures { result ≡ record { variable = variable; positive = positive } }
    {
        let sign = if positive { 1 } else { 0 };
        Lit {
            code: 2 * variable + sign,
        }
    }

    pub fn variable(self) -> u32
        ensures value { result ≡ self.variable }
        ensures from { 0 < result }
        ensures below { result < 2 ^ 31 }
    {
        self.code / 2
    }

    pub fn positive(self) -> bool
        ensures { result ≡ self.positive }
    {
        self.code % 2 == 1
    }

    /// Returns the number of the literal: twice its variable, and one more if it is positive.
    pub fn code(self) -> usize
        ensures { result ≡ code_of self }
    {
        self.code as usize
    }

    /// Returns the negation of the literal.
    pub fn opposite(self) -> Lit
        ensures { result ≡ opposite self }
    {
        Lit::new(self.variable(), !self.positive())
    }
}
