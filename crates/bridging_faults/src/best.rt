//! `Best`: the best of the bridges that have been found so far.

ghost use Rattle.std.specs.Prelude.{◌≡◌, ◌+◌, ◌<◌, ◌≤◌, ◌^◌, [], length, take, Contains, if◌then◌else◌, OnOk};
ghost use Rattle.bridging_faults.specs.Found.{bridge_cmp, kind_rank};
ghost use Rattle.bridging_faults.specs.Search.{put, IsPlaceOf};

use crate::bridge::BridgeKind;
use crate::scored::ScoredBridge;
use std::alloc::{AllocError, Global};
use std::cmp::Ordering;

/// The best bridges found so far, at most `most` of them, with the number of all found and of the exact ones among
/// these.
#[derive(Drop)]
pub(crate) struct Best {
    pub(crate) listed: Vec<ScoredBridge>,
    pub(crate) most: usize,
    pub(crate) found: u64,
    pub(crate) exact: u64,
}

impl Best {
    /// Returns an empty list that keeps at most `most` bridges.
    pub(crate) fn none(alloc: Global, most: usize) -> Best
        ensures listed { result.listed.items ≡ [] }
        ensures most { result.most ≡ most }
        ensures found { result.found ≡ 0 }
        ensures exact { result.exact ≡ 0 }
    {
        Best {
            listed: Vec::new(alloc),
            most,
            found: 0,
            exact: 0,
        }
    }

    /// Counts a bridge that isn't in the list, and puts it at its place if it is among the first `most`.
    pub(crate) fn add(&mut self, bridge: ScoredBridge, is_exact: bool) -> Result<(), AllocError>
        requires new { ¬ Contains self.old.listed.items bridge }
        requires few { self.old.found < 2 ^ 54 }
        requires exact { self.old.exact ≤ self.old.found }
        ensures listed { OnOk result (self.new.listed.items ≡ take self.old.most (put bridge self.old.listed.items)) }
        ensures most { self.new.most ≡ self.old.most }
        ensures found { OnOk result (self.new.found ≡ self.old.found + 1) }
        ensures exact { OnOk result (self.new.exact ≡ self.old.exact + (if is_exact then 1 else 0)) }
    {
        self.found += 1;
        self.exact += u64::from(is_exact);
        let place = place_of(&self.listed, &bridge);
        self.listed.insert(place, bridge)?;
        self.listed.truncate(self.most);
        Ok(())
    }
}

// Returns the place of `bridge` in the order of `listed`.
fn place_of(listed: &Vec<ScoredBridge>, bridge: &ScoredBridge) -> usize
    ensures { IsPlaceOf bridge.now listed.now.items result }
{
    for place in 0..listed.len() {
        if order(bridge, &listed[place]) == Ordering::Less {
            return place;
        }
    }
    listed.len()
}

// Compares two bridges: the one that comes first is less.
fn order(a: &ScoredBridge, b: &ScoredBridge) -> Ordering
    ensures { result ≡ bridge_cmp a.now b.now }
{
    let explained = b.explained.cmp(&a.explained);
    let wrong = a.false_patterns.cmp(&b.false_patterns);
    let kind = kind_rank(a.bridge.kind).cmp(&kind_rank(b.bridge.kind));
    let first = a.bridge.first.cmp(&b.bridge.first);
    let second = a.bridge.second.cmp(&b.bridge.second);
    explained.then(wrong.then(kind.then(first.then(second))))
}

// Returns the rank of a kind in the order.
fn kind_rank(kind: BridgeKind) -> u8
    ensures { result ≡ kind_rank kind }
{
    match kind {
        BridgeKind::And => 0,
        BridgeKind::Or => 1,
        BridgeKind::Dominant => 2,
    }
}
