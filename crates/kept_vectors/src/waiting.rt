//! Units that wait at the lanes at which they leave their classes.

ghost use Rattle.std.specs.Prelude.{◌≡◌, ◌≤◌, ◌<◌, ◌++◌, ℕ, [], ◌∷◌, true, All, Contains, IfOk, OnOk, OnErr, length, slice_index_or};
ghost use Rattle.net_model.specs.Answer.{bit_at};
ghost use Rattle.net_model.specs.Circuit.{IsCircuit};
ghost use Rattle.net_model.specs.FaultList.{fault_count};
ghost use Rattle.class_refine.specs.Fields.{IsWhole};
ghost use Rattle.word_sim.specs.GoodSim.{vectors_of};
ghost use Rattle.kept_vectors.specs.Notes.{noted_by, AreMatesNoted, AreAsked};
ghost use Rattle.kept_vectors.specs.Units.{IsUnit};
ghost use Rattle.kept_vectors.specs.Waits.{IsLed, LeavesFirst, AreWaiting};

use crate::apart::first_lane;
use crate::differences::Differences;
use class_refine::Classes;
use std::alloc::{AllocError, Global};
use std::marker::Model;
use word_sim::{GoodSim, LANES, Lanes};

// The numbers that wait at one lane.
#[derive(Debug, Drop)]
pub(crate) struct Waiters {
    numbers: Vec<u32>,
}

impl Model for Waiters {
    ghost use Rattle.std.specs.Prelude.{List, ℕ};

    ghost Value = { List ℕ };

    ghost view = { λ waiters. waiters.numbers.items };
}

impl Waiters {
    fn new(alloc: Global) -> Waiters
        ensures { result ≡ [] }
    {
        Waiters {
            numbers: Vec::new(alloc),
        }
    }

    fn as_slice(&self) -> &[u32]
        ensures { result.now ≡ self.now }
    {
        self.numbers.as_slice()
    }

    fn push(&mut self, number: u32) -> Result<(), AllocError>
        ensures { OnOk result (self.new ≡ self.old ++ number ∷ []) }
    {
        self.numbers.push(number)?;
        Ok(())
    }

    fn clear(&mut self)
        ensures { self.new ≡ [] }
    {
        self.numbers.clear();
    }
}

// For each lane the units that wait there.
#[derive(Debug, Drop)]
pub(crate) struct Waiting {
    pub(crate) lanes: Vec<Waiters>,
}

impl Waiting {
    pub(crate) fn new(alloc: Global) -> Result<Waiting, AllocError>
        ensures { IfOk result (λ waiting. length waiting.lanes.items ≡ LANES) }
    {
        let mut lanes = Vec::new(alloc);
        for _lane in 0..LANES {
            lanes.push(Waiters::new(alloc))?;
        }
        Ok(Waiting { lanes })
    }

    // Returns the numbers that wait at `lane`.
    pub(crate) fn at(&self, lane: u32) -> &[u32]
        requires { lane < length self.now.lanes.items }
        ensures { result.now ≡ slice_index_or self.now.lanes.items lane [] }
    {
        self.lanes[lane as usize].as_slice()
    }

    // Makes all numbers stop waiting.
    fn clear(&mut self)
        ensures count { length self.new.lanes.items ≡ length self.old.lanes.items }
        ensures empty { All (λ waiters. waiters ≡ []) self.new.lanes.items }
    {
        for lane in 0..self.lanes.len() {
            self.lanes[lane].clear();
        }
    }

    // Lets all units whose classes are noted wait as `wait` does, and no other number.
    pub(crate) fn wait_all(
        &mut self,
        good: &GoodSim,
        differences: &Differences,
        classes: &Classes,
        from: u32,
        live: u32,
    ) -> Result<(), AllocError>
        requires circuit { IsCircuit good.now.circuit }
        requires whole { IsWhole classes.now }
        requires numbers { length classes.now.class_of ≡ fault_count good.now.circuit }
        requires asked { AreAsked good.now (noted_by differences.now) classes.now differences.now.numbers.items }
        requires live { live ≤ length (vectors_of good.now) }
        requires few { live ≤ LANES }
        requires lanes { length self.old.lanes.items ≡ LANES }
        ensures count { length self.new.lanes.items ≡ length self.old.lanes.items }
        ensures waits { OnOk result (AreWaiting good.now differences.now.units.roots.now classes.now from live self.new.lanes.items []) }
    {
        self.clear();
        let numbers = differences.numbers.as_slice();
        self.wait(good, differences, classes, numbers, from, live)
    }

    // Lets each of `numbers` whose row has `lane` wait at it, and no other number.
    pub(crate) fn wait_at(
        &mut self,
        rows: &[Lanes],
        numbers: &[u32],
        lane: u32,
    ) -> Result<(), AllocError>
        requires below { All (λ n. n < length rows.now) numbers.now }
        requires few { lane < LANES }
        requires lanes { length self.old.lanes.items ≡ LANES }
        ensures count { length self.new.lanes.items ≡ length self.old.lanes.items }
        ensures right { OnOk result ((n : ℕ) → Contains (slice_index_or self.new.lanes.items lane []) n → Contains numbers.now n × (bit_at (slice_index_or rows.now n []) lane ≡ true)) }
        ensures all { OnOk result ((n : ℕ) → Contains numbers.now n → bit_at (slice_index_or rows.now n []) lane ≡ true → Contains (slice_index_or self.new.lanes.items lane []) n) }
    {
        self.clear();
        for number in numbers {
            if rows[*number as usize].get(lane) {
                self.lanes[lane as usize].push(*number)?;
            }
        }
        Ok(())
    }

    // Lets each unit of `numbers` wait at the first lane, starting at `from`, at which it answers otherwise than the
    // representative of its class, if a lane below `live` is one.
    pub(crate) fn wait(
        &mut self,
        good: &GoodSim,
        differences: &Differences,
        classes: &Classes,
        numbers: &[u32],
        from: u32,
        live: u32,
    ) -> Result<(), AllocError>
        requires circuit { IsCircuit good.now.circuit }
        requires whole { IsWhole classes.now }
        requires numbers { length classes.now.class_of ≡ fault_count good.now.circuit }
        requires noted { All (λ n. (n < length classes.now.class_of) × AreMatesNoted good.now (noted_by differences.now) classes.now n) numbers.now }
        requires live { live ≤ length (vectors_of good.now) }
        requires few { live ≤ LANES }
        requires waits { AreWaiting good.now differences.now.units.roots.now classes.now from live self.old.lanes.items numbers.now }
        ensures count { length self.new.lanes.items ≡ length self.old.lanes.items }
        ensures waits { OnOk result (AreWaiting good.now differences.now.units.roots.now classes.now from live self.new.lanes.items []) }
        ensures short { OnErr result (from < live) }
    {
        if from >= live {
            return Ok(());
        }
        for number in numbers {
            let lane = leaves_at(good, differences, classes, *number, from, live);
            if lane < live {
                self.lanes[lane as usize].push(*number)?;
            }
        }
        Ok(())
    }
}

// Returns the first lane, starting at `from`, at which a unit answers otherwise than the representative of its class,
// if one below `live` is one, else `live` or more. For a number that is no unit it returns `live`.
fn leaves_at(
    good: &GoodSim,
    differences: &Differences,
    classes: &Classes,
    number: u32,
    from: u32,
    live: u32,
) -> u32
    requires circuit { IsCircuit good.now.circuit }
    requires whole { IsWhole classes.now }
    requires numbers { length classes.now.class_of ≡ fault_count good.now.circuit }
    requires number { number < length classes.now.class_of }
    requires noted { AreMatesNoted good.now (noted_by differences.now) classes.now number }
    requires live { live ≤ length (vectors_of good.now) }
    requires few { live ≤ LANES }
    requires from { from ≤ live }
    ensures from { from ≤ result }
    ensures first { result < live → LeavesFirst good.now classes.now from result number }
    ensures before { IsUnit differences.now.units.roots.now number → (lane : ℕ) → from ≤ lane → lane < result → lane < live → IsLed good.now classes.now lane number }
{
    if !differences.units.has(number) {
        return live;
    }
    let lead = classes.representative(classes.class_of(number));
    first_lane(differences.apart(lead, number), from, live)
}
