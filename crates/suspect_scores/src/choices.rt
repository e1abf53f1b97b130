//! Fault numbers that together explain failing patterns.

ghost use Rattle.std.specs.Prelude.{◌≡◌, ◌<◌, length, Some, slice_get};

use std::marker::Model;

/// A number, and how many failing patterns it explains that no number before it explains.
#[derive(Clone, Copy, Debug, PartialEq, Eq)]
pub struct Choice {
    pub number: u32,
    pub explained: u32,
}

/// A list of choices.
#[derive(Debug, Drop)]
pub struct Cover {
    choices: Vec<Choice>,
}

impl Model for Cover {
    ghost use Rattle.std.specs.Prelude.{List};
    ghost use Rattle.suspect_scores.specs.declared.choices.Choice.{Choice};

    ghost Value = { List Choice };

    ghost view = { λ a. a.choices.items };
}

impl Cover {
    pub(crate) fn of(choices: Vec<Choice>) -> Cover
        ensures { result ≡ choices.items }
    {
        Cover { choices }
    }

    pub fn len(&self) -> usize
        ensures { result ≡ length self.now }
    {
        self.choices.len()
    }

    pub fn get(&self, at: usize) -> Choice
        requires { at < length self.now }
        ensures { slice_get self.now at ≡ Some result }
    {
        self.choices[at]
    }
}
