//! Fault numbers with their scores.

ghost use Rattle.std.specs.Prelude.{◌≡◌, ◌<◌, length, Some, slice_get};

use std::marker::Model;

/// A fault number with its score: how many failing patterns the number explains, at how many positions an observed bit
/// differs from that of number 0 and the number's bit does too (`hit_bits`) or doesn't (`missed_bits`), and at how many
/// an observed bit doesn't differ but the number's does (`false_bits`).
#[derive(Clone, Copy, Debug, PartialEq, Eq)]
pub struct Suspect {
    pub number: u32,
    pub explained: u32,
    pub hit_bits: u64,
    pub missed_bits: u64,
    pub false_bits: u64,
}

/// A list of suspects.
#[derive(Debug, Drop)]
pub struct Suspects {
    listed: Vec<Suspect>,
}

impl Model for Suspects {
    ghost use Rattle.std.specs.Prelude.{List};
    ghost use Rattle.suspect_scores.specs.declared.suspect.Suspect.{Suspect};

    ghost Value = { List Suspect };

    ghost view = { λ a. a.listed.items };
}

impl Suspects {
    pub(crate) fn of(listed: Vec<Suspect>) -> Suspects
        ensures { result ≡ listed.items }
    {
        Suspects { listed }
    }

    pub fn len(&self) -> usize
        ensures { result ≡ length self.now }
    {
        self.listed.len()
    }

    pub fn get(&self, at: usize) -> Suspect
        requires { at < length self.now }
        ensures { slice_get self.now at ≡ Some result }
    {
        self.listed[at]
    }
}
