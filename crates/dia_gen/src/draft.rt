//! The result under way: takes one number after another until all are marked.

ghost use Rattle.std.specs.Prelude.{◌≡◌, ◌<◌, ◌+◌, ℕ, List, Bool, Contains, IfOk, IfErr, OnOk, IsSome, IsTrue, MatchOption};
ghost use Rattle.kept_vectors.specs.Cube.{IsOfCube};
ghost use Rattle.kept_vectors.specs.Keeper.{SeparatesMember};
ghost use Rattle.diag_shelf.specs.World.{State};
ghost use Rattle.net_model.specs.FaultList.{fault_count, fault_numbered};
ghost use Rattle.net_model.specs.ClassTable.{class_at, class_count, representative};
ghost use Rattle.dia_gen.specs.Settled.{AreApartBy, IsProofFor};
ghost use Rattle.member_marks.specs.Given.{given_mark, AreAllMarked, IsLowestOpen};
ghost use Rattle.dia_gen.specs.Draft.{IsBegun, IsDraft};
ghost use Rattle.dia_gen.specs.Marked.{AreMarkedUpTo, DoMarksStay};
ghost use Rattle.dia_gen.specs.Writing.{BrokeOff};

use crate::block::add_ahead;
use crate::fallen::lowest_fallen;
use crate::gathered::Gathered;
use crate::pair::{PairSpace, Settled, settle_pair};
use crate::setting::GenerationSetting;
use crate::writing::{write_last, write_patterns};
use diag_shelf::{Shelf, ShelfFault};
use kept_vectors::{Cube, Keeper};
use member_marks::{Marks, mark_of};
use result_file::{Evidence, Proof, Record};
use std::alloc::{AllocError, Global};

// What is kept, the marks given so far, the space in which pairs are settled, and the lines that aren't written yet.
pub(crate) struct Draft<'a> {
    pub(crate) keeper: Keeper<'a>,
    pub(crate) marks: Marks,
    pub(crate) space: PairSpace<'a>,
    pub(crate) gathered: Gathered,
}

// Written by hand so that a drop of a draft is one step in the proof of each function that drops one.
impl Drop for Draft<'_> {
    fn drop(self) {
        let Draft {
            keeper: _,
            marks: _,
            space: _,
            gathered: _,
        } = self;
    }
}

impl<'a> Draft<'a> {
    // Returns a draft with the first vectors that are kept and without marks.
    pub(crate) fn begin(
        alloc: Global,
        setting: &GenerationSetting<'a>,
    ) -> Result<Draft<'a>, AllocError>
        ensures { IfOk result (IsBegun setting.now) }
    {
        let marks = Marks::none(alloc, setting.numbers())?;
        let space = PairSpace::new(alloc, setting)?;
        let keeper = setting.keeper(alloc)?;
        Ok(Draft {
            keeper,
            marks,
            space,
            gathered: Gathered::new(alloc),
        })
    }

    // Writes the first two lines, and a line for each of the first vectors that is kept.
    pub(crate) fn start<S: Shelf>(
        &mut self,
        setting: &GenerationSetting,
        shelf: &mut S,
    ) -> Result<(), ShelfFault>
        requires { IsBegun setting.now self.old }
        ensures draft { OnOk result (IsDraft setting.now self.new (S.state shelf.old) (S.state shelf.new)) }
        ensures err { IfErr result (λ fault. BrokeOff setting.now.circuit fault (S.state shelf.old) (S.state shelf.new)) }
    {
        self.gathered.add_head(shelf, setting)?;
        write_patterns(&mut self.gathered, shelf, self.keeper.vectors())?;
        Ok(())
    }

    // Writes evidence or patterns until each number is a representative or marked.
    pub(crate) fn mark_all<S: Shelf>(
        &mut self,
        alloc: Global,
        setting: &GenerationSetting,
        shelf: &mut S,
    ) -> Result<(), ShelfFault>
        ghost start: { State }
        requires draft { IsDraft setting.now self.old start (S.state shelf.old) }
        ensures draft { OnOk result (IsDraft setting.now self.new start (S.state shelf.new)) }
        ensures marked { OnOk result (AreAllMarked self.new.keeper.kept.table self.new.marks) }
        ensures err { IfErr result (λ fault. BrokeOff setting.now.circuit fault start (S.state shelf.new)) }
    {
        let mut from = 0;
        while let Some(next) = self.mark_round(alloc, setting, shelf, from)? {
            from = next;
        }
        Ok(())
    }

    // Writes evidence for one open number after another, up to the first one that a new pattern separates from its
    // representative. Each number below `first` is a representative or marked. If there was a new pattern, which may
    // take marks away, returns a number below which each number is still a representative or marked. Otherwise returns
    // none, and each number is a representative or marked.
    fn mark_round<S: Shelf>(
        &mut self,
        alloc: Global,
        setting: &GenerationSetting,
        shelf: &mut S,
        first: u32,
    ) -> Result<Option<u32>, ShelfFault>
        ghost start: { State }
        requires draft { IsDraft setting.now self.old start (S.state shelf.old) }
        requires first { AreMarkedUpTo self.old.keeper.kept.table self.old.marks first }
        ensures draft { OnOk result (IsDraft setting.now self.new start (S.state shelf.new)) }
        ensures more { IfOk result (λ next. IsSome next → class_count self.old.keeper.kept.table < class_count self.new.keeper.kept.table) }
        ensures marked { IfOk result (λ next. MatchOption next (AreAllMarked self.new.keeper.kept.table self.new.marks) (AreMarkedUpTo self.new.keeper.kept.table self.new.marks)) }
        ensures err { IfErr result (λ fault. BrokeOff setting.now.circuit fault start (S.state shelf.new)) }
    {
        let mut from = first;
        while let Some(member) = self.marks.next_open(self.keeper.classes(), from) {
            let count = self.keeper.classes().count();
            if self.settle(alloc, setting, shelf, member)? {
                return Ok(Some(lowest_fallen(self.keeper.classes(), count, member)));
            }
            from = member + 1;
        }
        Ok(None)
    }

    // Writes evidence for `member`, the lowest open number, or a pattern that separates it from its representative: one
    // of the block that is looked at if it has one, else one of a new block. Returns whether it was a pattern. Before a
    // search all waiting lines are written.
    fn settle<S: Shelf>(
        &mut self,
        alloc: Global,
        setting: &GenerationSetting,
        shelf: &mut S,
        member: u32,
    ) -> Result<bool, ShelfFault>
        ghost start: { State }
        requires draft { IsDraft setting.now self.old start (S.state shelf.old) }
        requires lowest { IsLowestOpen self.old.keeper.kept.table self.old.marks member }
        ensures draft { OnOk result (IsDraft setting.now self.new start (S.state shelf.new)) }
        ensures more { IfOk result (λ apart. IsTrue apart → class_count self.old.keeper.kept.table < class_count self.new.keeper.kept.table) }
        ensures stay { IfOk result (λ apart. IsTrue apart → DoMarksStay self.old.keeper.kept.table self.new.keeper.kept.table self.old.marks self.new.marks) }
        ensures same { IfOk result (λ apart. ¬ IsTrue apart → self.new.keeper.kept ≡ self.old.keeper.kept) }
        ensures marked { IfOk result (λ apart. ¬ IsTrue apart → (n : ℕ) → n < member + 1 → IsSome (given_mark self.new.keeper.kept.table self.new.marks n)) }
        ensures err { IfErr result (λ fault. BrokeOff setting.now.circuit fault start (S.state shelf.new)) }
    {
        if self.keep_apart(setting, shelf, member)? {
            return Ok(true);
        }
        let classes = self.keeper.classes();
        let lead = classes.representative(classes.class_of(member));
        self.write_before_search(setting, shelf, lead, member)?;
        match settle_pair(alloc, setting, &mut self.space, lead, member) {
            Ok(Settled::Apart(cube)) => {
                self.add_pattern(alloc, setting, shelf, member, cube)?;
                Ok(true)
            }
            Ok(Settled::By(proof)) => {
                self.add_evidence(setting, shelf, lead, member, proof)?;
                Ok(false)
            }
            Err(_) => Err(ShelfFault::NoMemory),
        }
    }

    // Writes the waiting lines unless the two numbers have the same root. If they have, no search follows.
    fn write_before_search<S: Shelf>(
        &mut self,
        setting: &GenerationSetting,
        shelf: &mut S,
        lead: u32,
        member: u32,
    ) -> Result<(), ShelfFault>
        ghost start: { State }
        requires draft { IsDraft setting.now self.old start (S.state shelf.old) }
        requires lead { lead < fault_count setting.now.circuit }
        requires member { member < fault_count setting.now.circuit }
        ensures draft { OnOk result (IsDraft setting.now self.new start (S.state shelf.new)) }
        ensures keeper { self.new.keeper ≡ self.old.keeper }
        ensures marks { self.new.marks ≡ self.old.marks }
        ensures err { IfErr result (λ fault. BrokeOff setting.now.circuit fault start (S.state shelf.new)) }
    {
        if setting.same_root(lead, member) {
            return Ok(());
        }
        self.gathered.write_out(shelf)
    }

    // Adds a pattern of the block that is looked at, if one separates `member` from its representative. Returns whether
    // there is one.
    fn keep_apart<S: Shelf>(
        &mut self,
        setting: &GenerationSetting,
        shelf: &mut S,
        member: u32,
    ) -> Result<bool, ShelfFault>
        ghost start: { State }
        requires draft { IsDraft setting.now self.old start (S.state shelf.old) }
        requires lowest { IsLowestOpen self.old.keeper.kept.table self.old.marks member }
        ensures draft { OnOk result (IsDraft setting.now self.new start (S.state shelf.new)) }
        ensures more { IfOk result (λ apart. IsTrue apart → class_count self.old.keeper.kept.table < class_count self.new.keeper.kept.table) }
        ensures stay { IfOk result (λ apart. IsTrue apart → DoMarksStay self.old.keeper.kept.table self.new.keeper.kept.table self.old.marks self.new.marks) }
        ensures same { IfOk result (λ apart. ¬ IsTrue apart → self.new ≡ self.old) }
        ensures none { IfOk result (λ apart. ¬ IsTrue apart → (v : List Bool) → Contains self.old.keeper.looked v → SeparatesMember setting.now.circuit self.old.keeper.kept.table member v → ⊥) }
        ensures err { IfErr result (λ fault. BrokeOff setting.now.circuit fault start (S.state shelf.new)) }
    {
        match self.keeper.keep_apart(member) {
            Ok(true) => {
                write_last(&mut self.gathered, shelf, self.keeper.vectors())?;
                Ok(true)
            }
            Ok(false) => Ok(false),
            Err(_) => Err(ShelfFault::NoMemory),
        }
    }

    // Adds a pattern that separates `member` from its representative. All vectors of `cube` do.
    fn add_pattern<S: Shelf>(
        &mut self,
        alloc: Global,
        setting: &GenerationSetting,
        shelf: &mut S,
        member: u32,
        cube: Vec<Option<bool>>,
    ) -> Result<(), ShelfFault>
        ghost start: { State }
        requires draft { IsDraft setting.now self.old start (S.state shelf.old) }
        requires lowest { IsLowestOpen self.old.keeper.kept.table self.old.marks member }
        requires apart { AreApartBy setting.now.circuit (fault_numbered setting.now.circuit (representative self.old.keeper.kept.table (class_at self.old.keeper.kept.table member))) (fault_numbered setting.now.circuit member) setting.now.budgets cube.items }
        ensures draft { OnOk result (IsDraft setting.now self.new start (S.state shelf.new)) }
        ensures more { OnOk result (class_count self.old.keeper.kept.table < class_count self.new.keeper.kept.table) }
        ensures stay { OnOk result (DoMarksStay self.old.keeper.kept.table self.new.keeper.kept.table self.old.marks self.new.marks) }
        ensures err { IfErr result (λ fault. BrokeOff setting.now.circuit fault start (S.state shelf.new)) }
    {
        match self.look_ahead(alloc, setting, member, cube) {
            Ok(()) => {
                self.keep_apart(setting, shelf, member)?;
                Ok(())
            }
            Err(_) => Err(ShelfFault::NoMemory),
        }
    }

    // Looks at a block of vectors, of `cube` for `member` and of the cubes found for the next open numbers.
    fn look_ahead(
        &mut self,
        alloc: Global,
        setting: &GenerationSetting,
        member: u32,
        cube: Vec<Option<bool>>,
    ) -> Result<(), AllocError>
        requires draft { (start : State) × (now : State) × IsDraft setting.now self.old start now }
        requires lowest { IsLowestOpen self.old.keeper.kept.table self.old.marks member }
        requires apart { AreApartBy setting.now.circuit (fault_numbered setting.now.circuit (representative self.old.keeper.kept.table (class_at self.old.keeper.kept.table member))) (fault_numbered setting.now.circuit member) setting.now.budgets cube.items }
        ensures draft { OnOk result ((start now : State) → IsDraft setting.now self.old start now → IsDraft setting.now self.new start now) }
        ensures kept { self.new.keeper.kept ≡ self.old.keeper.kept }
        ensures marks { self.new.marks ≡ self.old.marks }
        ensures looked { OnOk result ((v : List Bool) × Contains self.new.keeper.looked v × IsOfCube cube.items v) }
    {
        let mut cubes = Vec::new(alloc);
        cubes.push(Cube::new(cube))?;
        let classes = self.keeper.classes();
        let marks = &self.marks;
        add_ahead(
            alloc,
            setting,
            &mut self.space,
            classes,
            marks,
            member + 1,
            &mut cubes,
        )?;
        self.keeper.look(cubes.as_slice())
    }

    // Adds evidence for `member` and its representative `lead`.
    fn add_evidence<S: Shelf>(
        &mut self,
        setting: &GenerationSetting,
        shelf: &mut S,
        lead: u32,
        member: u32,
        proof: Proof,
    ) -> Result<(), ShelfFault>
        ghost start: { State }
        requires draft { IsDraft setting.now self.old start (S.state shelf.old) }
        requires lowest { IsLowestOpen self.old.keeper.kept.table self.old.marks member }
        requires lead { lead ≡ representative self.old.keeper.kept.table (class_at self.old.keeper.kept.table member) }
        requires right { IsProofFor setting.now.circuit setting.now.budgets lead member proof }
        ensures draft { OnOk result (IsDraft setting.now self.new start (S.state shelf.new)) }
        ensures kept { OnOk result (self.new.keeper.kept ≡ self.old.keeper.kept) }
        ensures marked { OnOk result ((n : ℕ) → n < member + 1 → IsSome (given_mark self.new.keeper.kept.table self.new.marks n)) }
        ensures err { IfErr result (λ fault. BrokeOff setting.now.circuit fault start (S.state shelf.new)) }
    {
        let mark = mark_of(&proof);
        let evidence = Evidence {
            member,
            partner: lead,
            proof,
        };
        self.gathered.add_line(shelf, Record::Same(evidence))?;
        self.marks.give(member, lead, mark);
        Ok(())
    }
}
