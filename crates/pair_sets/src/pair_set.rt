//! `PairSet`, a set of pairs of bits in four binary digits, and what gates make of such sets. A pair has the value of a
//! line under one fault and its value under another.

ghost use Rattle.std.specs.Prelude.{◌≡◌, ◌∷◌, [], Some, None};
ghost use Rattle.net_model.specs.declared.gate.Kind.TheVariants.{Not};
ghost use Rattle.net_model.specs.declared.operation.Operation.TheVariants.{Chosen, Folded};
ghost use Rattle.pair_sets.specs.PairSet.{forced_pairs, gate_pairs, operation_pairs, fixed_pairs, free_pairs, some_pair, has_first, has_second, has_pair, has_several, only_equal, only_unequal};

use crate::images::{NOT, image_table};
use net_model::Fold;
use std::marker::Model;

/// A set of pairs of bits: whether each of the four is in it.
#[derive(Clone, Copy, Debug, PartialEq, Eq)]
pub struct PairSet {
    // A binary digit for each pair. The two bits of a pair, the first one the higher, are its digit's number.
    digits: u8,
}

impl Model for PairSet {
    ghost use Rattle.std.specs.Prelude.{◌<◌};
    ghost use Rattle.pair_sets.specs.PairSet as spec;

    ghost Value = { spec.PairSet };

    ghost use Rattle.pair_sets.specs.PairSetFields.{pair_set_of, fields_of, fields_again};

    ghost view = { pair_set_of };

    ghost invariant = { λ a. a.digits < 16 };

    ghost inverse = { fields_of };

    ghost inverse_ok = { fields_again };
}

impl PairSet {
    #[inline]
    fn new(both_zero: bool, zero_one: bool, one_zero: bool, both_one: bool) -> PairSet
        ensures { result ≡ record { both_zero = both_zero; zero_one = zero_one; one_zero = one_zero; both_one = both_one } }
    {
        let equal = u8::from(both_zero) + 8 * u8::from(both_one);
        let unequal = 2 * u8::from(zero_one) + 4 * u8::from(one_zero);
        PairSet {
            digits: equal + unequal,
        }
    }

    // Returns the equal pairs of both values, which a free source has.
    pub(crate) fn free() -> PairSet
        ensures { result ≡ free_pairs }
    {
        PairSet { digits: 0b1001 }
    }

    // Returns the equal pair of one value, which a fixed source has.
    pub(crate) fn fixed(bit: bool) -> PairSet
        ensures { result ≡ fixed_pairs bit }
    {
        PairSet::new(!bit, false, false, bit)
    }

    // Returns the pairs of a fold of no pins.
    #[inline]
    pub(crate) fn unit(fold: Fold) -> PairSet
        ensures { result ≡ operation_pairs (Folded fold) [] }
    {
        match fold {
            Fold::AllOf => PairSet::fixed(true),
            Fold::AnyOf | Fold::OddOf => PairSet::fixed(false),
        }
    }

    // Returns the pairs of a fold of two pins, which see `self` and `other`.
    #[inline]
    pub(crate) fn step(self, fold: Fold, other: PairSet) -> PairSet
        ensures { result ≡ operation_pairs (Folded fold) (self ∷ other ∷ []) }
    {
        let place = 16 * usize::from(self.digits) + usize::from(other.digits);
        PairSet {
            digits: image_table(fold)[place],
        }
    }

    // Returns the pairs of a NOT whose pin sees this set.
    #[inline]
    pub(crate) fn not(self) -> PairSet
        ensures { result ≡ gate_pairs Not (self ∷ []) }
    {
        PairSet {
            digits: NOT[usize::from(self.digits)],
        }
    }

    // Returns the pairs of a multiplexer whose three pins see `self`, `low` and `high`.
    pub(crate) fn chosen(self, low: PairSet, high: PairSet) -> PairSet
        ensures { result ≡ operation_pairs Chosen (self ∷ low ∷ high ∷ []) }
    {
        PairSet::new(
            self.chooses(low, high, false, false),
            self.chooses(low, high, false, true),
            self.chooses(low, high, true, false),
            self.chooses(low, high, true, true),
        )
    }

    // Returns whether such a multiplexer has the pair of `first` and `second`.
    fn chooses(self, low: PairSet, high: PairSet, first: bool, second: bool) -> bool
        ensures { result ≡ has_pair (operation_pairs Chosen (self ∷ low ∷ high ∷ [])) first second }
    {
        (self.has(false, false) & low.has(first, second) & high.some())
            | (self.has(false, true) & low.has_first(first) & high.has_second(second))
            | (self.has(true, false) & high.has_first(first) & low.has_second(second))
            | (self.has(true, true) & low.some() & high.has(first, second))
    }

    // Returns whether the set has a pair.
    #[inline]
    fn some(self) -> bool
        ensures { result ≡ some_pair self }
    {
        self.digits != 0
    }

    // Returns whether some pair has `bit` in its first place.
    #[inline]
    fn has_first(self, bit: bool) -> bool
        ensures { result ≡ has_first self bit }
    {
        self.has(bit, false) | self.has(bit, true)
    }

    // Returns whether some pair has `bit` in its second place.
    #[inline]
    fn has_second(self, bit: bool) -> bool
        ensures { result ≡ has_second self bit }
    {
        self.has(false, bit) | self.has(true, bit)
    }

    // Returns the set with `bit` put in the first place of each pair.
    fn with_first(self, bit: bool) -> PairSet
        ensures { result ≡ forced_pairs (Some bit) None self }
    {
        let (zero, one) = (self.has_second(false), self.has_second(true));
        PairSet::new(!bit & zero, !bit & one, bit & zero, bit & one)
    }

    // Returns the set with `bit` put in the second place of each pair.
    fn with_second(self, bit: bool) -> PairSet
        ensures { result ≡ forced_pairs None (Some bit) self }
    {
        let (zero, one) = (self.has_first(false), self.has_first(true));
        PairSet::new(!bit & zero, bit & zero, !bit & one, bit & one)
    }

    // Returns the set with the value of `first`, if there is one, put in the first place of each pair.
    #[inline]
    fn first_forced(self, first: Option<bool>) -> PairSet
        ensures { result ≡ forced_pairs first None self }
    {
        match first {
            Some(bit) => self.with_first(bit),
            None => self,
        }
    }

    // Returns the set with the value of `first`, if there is one, put in the first place of each pair, and that of
    // `second` in the second place.
    pub(crate) fn forced(self, first: Option<bool>, second: Option<bool>) -> PairSet
        ensures { result ≡ forced_pairs first second self }
    {
        let pairs = self.first_forced(first);
        match second {
            Some(bit) => pairs.with_second(bit),
            None => pairs,
        }
    }

    /// Returns whether the pair of `first` and `second` is in the set.
    #[inline]
    pub fn has(self, first: bool, second: bool) -> bool
        ensures { result ≡ has_pair self first second }
    {
        match (first, second) {
            (false, false) => self.digits & 1 != 0,
            (false, true) => self.digits & 2 != 0,
            (true, false) => self.digits & 4 != 0,
            (true, true) => self.digits & 8 != 0,
        }
    }

    /// Returns whether the set has two pairs or more.
    #[inline]
    pub fn has_several(self) -> bool
        ensures { result ≡ has_several self }
    {
        // `&` clears the lowest digit that is 1.
        self.digits & (self.digits + 15) != 0
    }

    /// Returns whether no pair of the set has two different bits.
    #[inline]
    pub fn only_equal(self) -> bool
        ensures { result ≡ only_equal self }
    {
        self.digits & 0b0110 == 0
    }

    /// Returns whether each pair of the set has two different bits.
    #[inline]
    pub fn only_unequal(self) -> bool
        ensures { result ≡ only_unequal self }
    {
        self.digits & 0b1001 == 0
    }
}
