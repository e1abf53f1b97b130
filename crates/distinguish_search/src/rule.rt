//! Which pin a walk goes through, of those that see several pairs.

use crate::levels::Levels;
use net_model::Kind;
use pair_sets::PairSet;

/// How well a pin serves. `first` decides; if it is equal, `second` does, and if that is equal too, `third`.
#[derive(Clone, Copy)]
pub(crate) struct Weight {
    first: bool,
    second: bool,
    third: u32,
}

impl Weight {
    /// Returns the least weight.
    pub(crate) fn least() -> Weight {
        weight_of(false, false, 0)
    }

    /// Returns whether this weight is more than `other`.
    pub(crate) fn is_heavier(&self, other: Weight) -> bool {
        if self.first != other.first {
            return self.first;
        }
        if self.second != other.second {
            return self.second;
        }
        self.third > other.third
    }
}

/// A rule by which pins are weighed. A pin that may have the asked bit goes first, then one whose pairs aren't all
/// equal, and then the level of its line decides. If `differences_first`, a pin whose pairs aren't all equal goes
/// first, then one that may have the asked bit, and then the first pin.
#[derive(Clone, Copy)]
pub(crate) struct Rule<'a> {
    pub(crate) levels: &'a Levels,
    pub(crate) differences_first: bool,
}

impl<'a> Rule<'a> {
    /// Returns the weight of a pin of a gate of kind `kind` that reads line `read`, sees `pairs` of it, and is asked
    /// for `bit`. The walk goes through the heaviest pin.
    pub(crate) fn weight(&self, kind: Kind, read: u32, pairs: PairSet, bit: bool) -> Weight {
        let has = pairs.has(bit, bit);
        let differs = !pairs.only_equal();
        if self.differences_first {
            return weight_of(differs, has, 0);
        }
        let level = self.levels.level(read);
        if takes_lowest(kind, bit) {
            weight_of(has, differs, u32::MAX - level)
        } else {
            weight_of(has, differs, level)
        }
    }
}

fn weight_of(first: bool, second: bool, third: u32) -> Weight {
    Weight {
        first,
        second,
        third,
    }
}

// Returns whether the line nearest to the sources is best for a gate of kind `kind`. It is, unless all pins of the gate
// need `bit`; then the farthest line is best.
fn takes_lowest(kind: Kind, bit: bool) -> bool {
    match kind {
        Kind::And | Kind::Nand => !bit,
        Kind::Or | Kind::Nor => bit,
        Kind::Xor | Kind::Xnor | Kind::Not | Kind::Buff | Kind::Mux | Kind::Const0 | Kind::Const1 =>
            true,
    }
}
