//! The scan of a block for vectors that split a class.

ghost use Rattle.std.specs.Prelude.{◌≡◌, ◌≤◌, ◌<◌, ◌+◌, ◌++◌, ◌⊎◌, ℕ, List, Bool, [], ◌∷◌, IfOk, OnOk, OnErr, length, true};
ghost use Rattle.net_model.specs.FaultList.{faults as faults_of, fault_count};
ghost use Rattle.class_refine.specs.Fields.{IsWhole};
ghost use Rattle.class_refine.specs.Leavers.{AreLeavers};
ghost use Rattle.fault_heads.specs.Turned.{vector_at};
ghost use Rattle.kept_vectors.specs.Kept.{with_vector, Keeps, KeepsFirst};
ghost use Rattle.kept_vectors.specs.Scan.{kept_now, IsScan, IsOffered, HasJudged, IsScanEnd};
ghost use Rattle.kept_vectors.specs.Notes.{noted_by, AreOf, AreTold, AreAsked};
ghost use Rattle.kept_vectors.specs.Units.{AreTogether, HasChains};
ghost use Rattle.kept_vectors.specs.Waits.{AreWaiting};
ghost use Rattle.word_sim.specs.Block.{IsBlock};

use crate::differences::Differences;
use crate::leaving::Leaving;
use crate::tally::Tally;
use crate::waiting::Waiting;
use class_refine::Classes;
use fault_collapse::Subject;
use fault_list::FaultList;
use net_model::Vector;
use std::alloc::{AllocError, Global};
use word_sim::{Block, GoodSim, LANES, Lanes};

// The kept vectors, and their classes.
#[derive(Debug, Drop)]
pub(crate) struct Kept {
    pub(crate) vectors: Vec<Vector>,
    pub(crate) classes: Classes,
}

impl Kept {
    // Keeps the vector `v`, at which the numbers of `leaving` leave their classes.
    fn offer(&mut self, v: Vector, leaving: &Leaving) -> Result<(), AllocError>
        requires whole { IsWhole self.old.classes }
        requires some { 0 < length leaving.now.leavers.items }
        requires leave { (row : List (List Bool)) × AreLeavers self.old.classes row leaving.now.leavers.items leaving.now.positions.items }
        ensures ok { OnOk result ((row : List (List Bool)) → AreLeavers self.old.classes row leaving.now.leavers.items leaving.now.positions.items → kept_now self.new ≡ with_vector (kept_now self.old) (v, row)) }
        ensures kept { OnOk result ((kept_now self.new).vectors ≡ (kept_now self.old).vectors ++ v ∷ []) }
        ensures err { OnErr result (kept_now self.new ≡ kept_now self.old) }
    {
        self.vectors.reserve(1)?;
        let (leavers, positions) = (leaving.leavers.as_slice(), leaving.positions.as_slice());
        self.classes.part(leavers, positions)?;
        self.vectors.push_reserved(v);
        Ok(())
    }

    pub(crate) fn into_parts(self) -> (Vec<Vector>, Classes)
        ensures vectors { result.0.items ≡ self.vectors.items }
        ensures classes { result.1 ≡ self.classes }
    {
        let Kept { vectors, classes } = self;
        (vectors, classes)
    }
}

// What finds the vectors that split a class: the circuit's faults, a block of vectors, the simulator of the block, the
// simulator of faults with what they showed, the units that wait at the lanes at which they leave their classes, the
// numbers that leave at one lane, the counts for each lane, and for a standing block the lanes at which each unit
// leaves its class.
#[derive(Debug)]
pub(crate) struct Scan<'a> {
    pub(crate) listed: &'a FaultList,
    pub(crate) block: Block,
    pub(crate) good: GoodSim<'a>,
    pub(crate) differences: Differences<'a>,
    pub(crate) waiting: Waiting,
    pub(crate) leaving: Leaving,
    pub(crate) tally: Tally,
    // By number, for a standing block.
    pub(crate) rows: Vec<Lanes>,
}

// As for `Keeper`.
impl Drop for Scan<'_> {
    fn drop(self) {
        let Scan {
            listed: _,
            block: _,
            good: _,
            differences: _,
            waiting: _,
            leaving: _,
            tally: _,
            rows: _,
        } = self;
    }
}

impl<'a> Scan<'a> {
    pub(crate) fn new(alloc: Global, subject: &'a Subject<'a>) -> Result<Scan<'a>, AllocError>
        ensures scan { IfOk result IsScan }
        ensures circuit { IfOk result (λ scan. scan.good.circuit ≡ subject.now) }
    {
        let good = GoodSim::new(alloc, subject.circuit())?;
        let differences = Differences::new(alloc, subject)?;
        Scan::with(alloc, subject.listed(), good, differences)
    }

    fn with(
        alloc: Global,
        listed: &'a FaultList,
        good: GoodSim<'a>,
        differences: Differences<'a>,
    ) -> Result<Scan<'a>, AllocError>
        requires faults { listed.now ≡ faults_of good.circuit }
        requires differences { AreOf good.circuit differences }
        ensures scan { IfOk result IsScan }
        ensures circuit { IfOk result (λ scan. scan.good.circuit ≡ good.entry.circuit) }
    {
        let circuit = good.circuit();
        let waiting = Waiting::new(alloc)?;
        let leaving = Leaving::new(alloc);
        let tally = Tally::new(alloc)?;
        let rows = vec![in alloc; Lanes::all(false); differences.turns.len()]?;
        let block = Block::new(alloc, circuit.sources())?;
        Ok(Scan {
            listed,
            block,
            good,
            differences,
            waiting,
            leaving,
            tally,
            rows,
        })
    }

    // Keeps each vector of the block that splits a class.
    pub(crate) fn keep_block(&mut self, kept: &mut Kept) -> Result<(), AllocError>
        requires scan { IsScan self.old }
        requires whole { IsWhole kept.old.classes }
        requires numbers { length kept.old.classes.class_of ≡ fault_count self.old.good.circuit }
        requires together { AreTogether self.old.differences.units.roots.now kept.old.classes }
        ensures scan { IsScan self.new }
        ensures circuit { self.new.good.circuit ≡ self.old.good.circuit }
        ensures ok { OnOk result (Keeps self.old.good.circuit self.old.block.vectors (kept_now kept.old) (kept_now kept.new)) }
        ensures err { OnErr result (KeepsFirst self.old.good.circuit self.old.block.vectors (kept_now kept.old) (kept_now kept.new)) }
    {
        self.judge(kept, false)?;
        Ok(())
    }

    // Judges the vectors of the block one after another, and keeps each that splits a class. In a run it stops at the
    // first that splits none. Returns how many were judged, without the one at which it stopped.
    pub(crate) fn judge(&mut self, kept: &mut Kept, run: bool) -> Result<u32, AllocError>
        requires scan { IsScan self.old }
        requires whole { IsWhole kept.old.classes }
        requires numbers { length kept.old.classes.class_of ≡ fault_count self.old.good.circuit }
        requires together { AreTogether self.old.differences.units.roots.now kept.old.classes }
        ensures scan { IsScan self.new }
        ensures circuit { self.new.good.circuit ≡ self.old.good.circuit }
        ensures ok { IfOk result (λ count. HasJudged self.old.good.circuit self.old.block.vectors run count (kept_now kept.old) (kept_now kept.new)) }
        ensures ended { IfOk result (λ count. IsScanEnd self.old.good.circuit self.old.block.vectors run count (kept_now kept.new)) }
        ensures err { OnErr result ((count : ℕ) × (count < length self.old.block.vectors) × HasJudged self.old.good.circuit self.old.block.vectors run count (kept_now kept.old) (kept_now kept.new)) }
    {
        let live = self.block.live();
        if live == 0 {
            return Ok(0);
        }
        self.note(&kept.classes)?;
        let (good, differences) = (&self.good, &self.differences);
        self.waiting
            .wait_all(good, differences, &kept.classes, 0, live)?;
        self.judge_lanes(kept, run)
    }

    // Notes how the numbers of each class answer to the vectors of the block.
    pub(crate) fn note(&mut self, classes: &Classes) -> Result<(), AllocError>
        requires scan { IsScan self.old }
        requires block { IsBlock self.old.block }
        requires whole { IsWhole classes.now }
        requires numbers { length classes.now.class_of ≡ fault_count self.old.good.circuit }
        requires together { AreTogether self.old.differences.units.roots.now classes.now }
        ensures scan { IsScan self.new }
        ensures block { self.new.block ≡ self.old.block }
        ensures circuit { self.new.good.circuit ≡ self.old.good.circuit }
        ensures told { OnOk result (AreTold self.new.good self.old.block.vectors (noted_by self.new.differences) classes.now) }
        ensures asked { OnOk result (AreAsked self.new.good (noted_by self.new.differences) classes.now self.new.differences.numbers.items) }
    {
        self.good.run(&self.block);
        self.differences
            .note_classes(self.listed, &self.good, classes)
    }

    // Judges the vectors of the block by what is noted of them and by the units that wait at each lane.
    fn judge_lanes(&mut self, kept: &mut Kept, run: bool) -> Result<u32, AllocError>
        requires scan { IsScan self.old }
        requires told { AreTold self.old.good self.old.block.vectors (noted_by self.old.differences) kept.old.classes }
        requires waits { AreWaiting self.old.good self.old.differences.units.roots.now kept.old.classes 0 (length self.old.block.vectors) self.old.waiting.lanes.items [] }
        ensures scan { IsScan self.new }
        ensures circuit { self.new.good.circuit ≡ self.old.good.circuit }
        ensures ok { IfOk result (λ count. HasJudged self.old.good.circuit self.old.block.vectors run count (kept_now kept.old) (kept_now kept.new)) }
        ensures ended { IfOk result (λ count. IsScanEnd self.old.good.circuit self.old.block.vectors run count (kept_now kept.new)) }
        ensures err { OnErr result ((count : ℕ) × (count < length self.old.block.vectors) × HasJudged self.old.good.circuit self.old.block.vectors run count (kept_now kept.old) (kept_now kept.new)) }
    {
        let live = self.block.live();
        for lane in 0..live {
            let splits = self.judge_lane(kept, lane, live)?;
            if run && !splits {
                return Ok(lane);
            }
        }
        Ok(live)
    }

    // Keeps the vector of `lane` if it splits a class, and lets the units that left their classes wait at later lanes.
    // Returns whether it splits one.
    pub(crate) fn judge_lane(
        &mut self,
        kept: &mut Kept,
        lane: u32,
        live: u32,
    ) -> Result<bool, AllocError>
        requires scan { IsScan self.old }
        requires told { AreTold self.old.good self.old.block.vectors (noted_by self.old.differences) kept.old.classes }
        requires waits { AreWaiting self.old.good self.old.differences.units.roots.now kept.old.classes lane live self.old.waiting.lanes.items [] }
        requires lane { lane < live }
        requires live { live ≤ length self.old.block.vectors }
        requires few { length self.old.block.vectors ≤ LANES }
        ensures scan { IsScan self.new }
        ensures same { self.new ≡ record self.old { waiting = self.new.waiting; leaving = self.new.leaving } }
        ensures told { OnOk result (AreTold self.old.good self.old.block.vectors (noted_by self.old.differences) kept.new.classes) }
        ensures waits { OnOk result (AreWaiting self.old.good self.old.differences.units.roots.now kept.new.classes (lane + 1) live self.new.waiting.lanes.items []) }
        ensures ok { OnOk result (Keeps self.old.good.circuit (vector_at self.old.good lane ∷ []) (kept_now kept.old) (kept_now kept.new)) }
        ensures offered { IfOk result (λ splits. IsOffered splits (vector_at self.old.good lane) (kept_now kept.old) (kept_now kept.new)) }
        ensures err { OnErr result ((kept_now kept.new ≡ kept_now kept.old) ⊎ ((lane + 1 < live) × Keeps self.old.good.circuit (vector_at self.old.good lane ∷ []) (kept_now kept.old) (kept_now kept.new) × IsOffered true (vector_at self.old.good lane) (kept_now kept.old) (kept_now kept.new))) }
    {
        let (good, differences) = (&self.good, &self.differences);
        let leaving = self.waiting.at(lane);
        self.leaving
            .put_in_order(&kept.classes, &differences.units, leaving)?;
        if self.leaving.numbers.is_empty() {
            return Ok(false);
        }
        let v = self.block.vector(lane)?;
        self.leaving.tell(differences, lane)?;
        kept.offer(v, &self.leaving)?;
        let numbers = self.leaving.numbers.as_slice();
        self.waiting
            .wait(good, differences, &kept.classes, numbers, lane + 1, live)?;
        Ok(true)
    }
}
