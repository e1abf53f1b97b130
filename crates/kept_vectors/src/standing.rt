//! A standing block: it is simulated once and stays while vectors of it are kept, and each unit has a row of the lanes
//! in which it leaves its class.

ghost use Rattle.std.specs.Prelude.{◌≡◌, ◌≤◌, ◌<◌, ℕ, List, Bool, [], ◌∷◌, true, false, All, Contains, IfOk, OnOk, OnErr, IsTrue, length, slice_index_or};
ghost use Rattle.net_model.specs.Answer.{bit_at};
ghost use Rattle.net_model.specs.Circuit.{IsCircuit};
ghost use Rattle.net_model.specs.FaultList.{fault_count};
ghost use Rattle.class_refine.specs.Fields.{IsWhole};
ghost use Rattle.word_sim.specs.Block.{IsBlock};
ghost use Rattle.word_sim.specs.GoodSim.{vectors_of};
ghost use Rattle.kept_vectors.specs.Kept.{Keeps};
ghost use Rattle.kept_vectors.specs.Keeper.{SeparatesMember};
ghost use Rattle.kept_vectors.specs.Notes.{noted_by, AreMatesNoted, AreAsked};
ghost use Rattle.kept_vectors.specs.Scan.{kept_now, IsScan};
ghost use Rattle.kept_vectors.specs.Standing.{IsRowOf, AreRowsBut, AreRows, IsStanding};
ghost use Rattle.kept_vectors.specs.Units.{AreTogether};

use crate::differences::Differences;
use crate::scan::{Kept, Scan};
use crate::tally::Tally;
use class_refine::Classes;
use std::alloc::AllocError;
use word_sim::{GoodSim, LANES, Lanes};

impl Scan<'_> {
    // Simulates the block, and finds the row of each unit.
    pub(crate) fn look(&mut self, classes: &Classes) -> Result<(), AllocError>
        requires scan { IsScan self.old }
        requires block { IsBlock self.old.block }
        requires whole { IsWhole classes.now }
        requires numbers { length classes.now.class_of ≡ fault_count self.old.good.circuit }
        requires together { AreTogether self.old.differences.units.roots.now classes.now }
        ensures scan { IsScan self.new }
        ensures block { self.new.block ≡ self.old.block }
        ensures circuit { self.new.good.circuit ≡ self.old.good.circuit }
        ensures stands { OnOk result (IsStanding self.new classes.now) }
    {
        self.note(classes)?;
        let rows = self.rows.as_mut_slice();
        clear_rows(rows);
        find_rows(&self.good, &self.differences, classes, rows);
        Ok(())
    }

    // Keeps a vector of the block at which `member` answers otherwise than the representative of its class, if there is
    // one: of these the one at which the most units leave their classes. Returns whether there is one.
    pub(crate) fn keep_apart(&mut self, kept: &mut Kept, member: u32) -> Result<bool, AllocError>
        requires scan { IsScan self.old }
        requires stands { IsStanding self.old kept.old.classes }
        requires member { member < fault_count self.old.good.circuit }
        ensures scan { IsScan self.new }
        ensures circuit { self.new.good.circuit ≡ self.old.good.circuit }
        ensures block { self.new.block ≡ self.old.block }
        ensures stands { IsStanding self.new kept.new.classes }
        ensures apart { IfOk result (λ apart. IsTrue apart → (v : List Bool) × Contains self.old.block.vectors v × SeparatesMember self.old.good.circuit kept.old.classes member v × Keeps self.old.good.circuit (v ∷ []) (kept_now kept.old) (kept_now kept.new)) }
        ensures same { IfOk result (λ apart. ¬ IsTrue apart → kept_now kept.new ≡ kept_now kept.old) }
        ensures none { IfOk result (λ apart. ¬ IsTrue apart → (v : List Bool) → Contains self.old.block.vectors v → SeparatesMember self.old.good.circuit kept.old.classes member v → ⊥) }
        ensures err { OnErr result (kept_now kept.new ≡ kept_now kept.old) }
    {
        let live = self.block.live();
        let lanes = Lanes::first(live);
        let unit = self.differences.units.of(member);
        let apart = self.rows[unit as usize].and(lanes);
        if !apart.any() {
            return Ok(false);
        }
        let rows = self.rows.as_slice();
        let numbers = self.differences.numbers.as_slice();
        count_leaving(rows, numbers, apart, &mut self.tally);
        let lane = self.tally.fullest(apart);
        self.waiting.wait_at(rows, numbers, lane)?;
        self.judge_lane(kept, lane, lane + 1)?;
        let (good, differences) = (&self.good, &self.differences);
        let rows = self.rows.as_mut_slice();
        find_rows_anew(good, differences, &kept.classes, lane, rows);
        Ok(true)
    }
}

fn clear_rows(rows: &mut [Lanes])
    ensures count { length rows.new ≡ length rows.old }
    ensures none { (n lane : ℕ) → n < length rows.old → lane < LANES → bit_at (slice_index_or rows.new n []) lane ≡ false }
{
    for number in 0..rows.len() {
        rows[number] = Lanes::all(false);
    }
}

// Finds the rows of the numbers that were asked.
fn find_rows(good: &GoodSim, differences: &Differences, classes: &Classes, rows: &mut [Lanes])
    requires circuit { IsCircuit good.now.circuit }
    requires few { length (vectors_of good.now) ≤ LANES }
    requires asked { AreAsked good.now (noted_by differences.now) classes.now differences.now.numbers.items }
    requires left { AreRowsBut good.now differences.now.units.roots.now classes.now differences.now.numbers.items (Contains differences.now.numbers.items) rows.old }
    ensures { AreRows good.now differences.now.units.roots.now classes.now differences.now.numbers.items rows.new }
{
    for number in differences.numbers.as_slice() {
        rows[*number as usize] = row_of(good, differences, classes, *number);
    }
}

// Returns the row of a number whose class is noted.
fn row_of(good: &GoodSim, differences: &Differences, classes: &Classes, number: u32) -> Lanes
    requires circuit { IsCircuit good.now.circuit }
    requires few { length (vectors_of good.now) ≤ LANES }
    requires number { number < length classes.now.class_of }
    requires noted { AreMatesNoted good.now (noted_by differences.now) classes.now number }
    ensures { IsRowOf good.now classes.now number result }
{
    let lead = classes.representative(classes.class_of(number));
    differences.apart(lead, number)
}

// Counts in each of `lanes` how many of `numbers` leave their classes.
fn count_leaving(rows: &[Lanes], numbers: &[u32], lanes: Lanes, tally: &mut Tally)
    requires { All (λ n. n < length rows.now) numbers.now }
{
    tally.clear();
    for number in numbers {
        tally.add(rows[*number as usize].and(lanes));
    }
}

// Finds again the rows of the numbers that left their classes at `lane`.
fn find_rows_anew(
    good: &GoodSim,
    differences: &Differences,
    classes: &Classes,
    lane: u32,
    rows: &mut [Lanes],
)
    requires circuit { IsCircuit good.now.circuit }
    requires few { length (vectors_of good.now) ≤ LANES }
    requires lane { lane < LANES }
    requires asked { AreAsked good.now (noted_by differences.now) classes.now differences.now.numbers.items }
    requires left { AreRowsBut good.now differences.now.units.roots.now classes.now differences.now.numbers.items (λ n. (bit_at (slice_index_or rows.old n []) lane ≡ true) × Contains differences.now.numbers.items n) rows.old }
    ensures { AreRows good.now differences.now.units.roots.now classes.now differences.now.numbers.items rows.new }
{
    for number in differences.numbers.as_slice() {
        let at = *number as usize;
        if rows[at].get(lane) {
            rows[at] = row_of(good, differences, classes, *number);
        }
    }
}
