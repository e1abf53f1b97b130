//! The pairs that positions show, with counts of those that are not all equal and of those that are all unequal.

ghost use Rattle.std.specs.Prelude.{◌≡◌, ◌<◌, IfOk, not, length, replicate, slice_set};
ghost use Rattle.std.specs.List.{list_all};
ghost use Rattle.pair_sets.specs.PairSet.{free_pairs, only_equal, only_unequal};

use crate::pair_set::PairSet;
use std::alloc::{AllocError, Global};
use std::marker::Model;

/// A set of pairs for each place, the number of places whose pairs aren't all equal (`unlike`), and the number of
/// places whose pairs are all unequal (`apart`).
#[derive(Debug, Drop)]
pub(crate) struct Shown {
    pairs: Vec<PairSet>,
    unlike: usize,
    apart: usize,
}

impl Model for Shown {
    ghost use Rattle.std.specs.Prelude.{List};
    ghost use Rattle.pair_sets.specs.declared.pair_set.PairSet.{PairSet};

    ghost Value = { List PairSet };

    ghost use Rattle.pair_sets.specs.ShownFields.{AreCounted};

    ghost view = { λ a. a.pairs.items };

    ghost invariant = { AreCounted };
}

impl Shown {
    /// Returns `count` places, each with the equal pairs of both values.
    pub(crate) fn equal(alloc: Global, count: usize) -> Result<Shown, AllocError>
        ensures { IfOk result (λ shown. shown ≡ replicate count free_pairs) }
    {
        Ok(Shown {
            pairs: vec![in alloc; PairSet::free(); count]?,
            unlike: 0,
            apart: 0,
        })
    }

    pub(crate) fn put(&mut self, place: u32, pairs: PairSet)
        requires { place < length self.old }
        ensures { self.new ≡ slice_set self.old place pairs }
    {
        let was = self.pairs[place as usize];
        self.unlike -= usize::from(!was.only_equal());
        self.apart -= usize::from(was.only_unequal());
        self.unlike += usize::from(!pairs.only_equal());
        self.apart += usize::from(pairs.only_unequal());
        self.pairs[place as usize] = pairs;
    }

    /// Returns whether each place has equal pairs only.
    pub(crate) fn are_equal(&self) -> bool
        ensures { result ≡ list_all only_equal self.now }
    {
        self.unlike == 0
    }

    /// Returns whether no place has unequal pairs only.
    pub(crate) fn none_apart(&self) -> bool
        ensures { result ≡ list_all (λ s. not (only_unequal s)) self.now }
    {
        self.apart == 0
    }
}
