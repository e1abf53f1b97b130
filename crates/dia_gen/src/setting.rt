//! What a result is made for: the circuit with its faults and their roots, the levels of its lines, the budgets, and
//! where its first vectors come from; and what is kept of these.

ghost use Rattle.std.specs.Prelude.{◌≡◌, ◌<◌, ◌↔◌, ◌^◌, [], All, IsTrue, IfOk, OnOk, length};
ghost use Rattle.net_model.specs.Circuit.{IsCircuit};
ghost use Rattle.net_model.specs.Fault.{IsFaultOf};
ghost use Rattle.net_model.specs.Collapse.{root};
ghost use Rattle.dia_gen.specs.GenerationSetting as spec;
ghost use Rattle.net_model.specs.FaultList.{fault_count, fault_numbered};
ghost use Rattle.kept_vectors.specs.Kept.{Keeps, nothing_kept};
ghost use Rattle.result_records.specs.Limits.{AreWithinLimits};
ghost use Rattle.dia_gen.specs.GenerationSetting.{setting_from, first_vectors, HaveWidth};

use distinguish_search::Levels;
use fault_collapse::Subject;
use kept_vectors::Keeper;
use net_model::{Circuit, Fault, Vector};
use result_file::Budgets;
use std::alloc::{AllocError, Global};
use std::marker::Model;

// Where the first vectors come from: the first blocks of the stream, as many as the budget has, or a list. Those that
// split a class are kept before any pair is searched.
#[derive(Clone, Copy)]
pub(crate) enum FirstVectors<'a> {
    OfStream,
    OfList(&'a [Vector]),
}

// The circuit with its faults, the levels of its lines, the budgets, and the first vectors.
#[derive(Drop)]
pub(crate) struct GenerationSetting<'a> {
    subject: &'a Subject<'a>,
    levels: &'a Levels,
    budgets: Budgets,
    first: FirstVectors<'a>,
}

impl<'a> Model for GenerationSetting<'a> {
    ghost Value = { spec.GenerationSetting };

    ghost view = { λ a. setting_from a.subject.now a.budgets (first_vectors a.subject.now a.budgets a.first) };

    ghost invariant = { λ a. AreWithinLimits a.budgets × HaveWidth a.subject.now a.first };
}

impl<'a> GenerationSetting<'a> {
    pub(crate) fn new(
        subject: &'a Subject<'a>,
        levels: &'a Levels,
        budgets: Budgets,
        first: FirstVectors<'a>,
    ) -> GenerationSetting<'a>
        requires limits { AreWithinLimits budgets }
        requires widths { HaveWidth subject.now first }
        ensures { result ≡ setting_from subject.now budgets (first_vectors subject.now budgets first.entry) }
    {
        GenerationSetting {
            subject,
            levels,
            budgets,
            first,
        }
    }

    pub(crate) fn circuit(&self) -> &'a Circuit
        ensures value { result.now ≡ self.now.circuit }
        ensures circuit { IsCircuit result.now }
    {
        self.subject.circuit()
    }

    pub(crate) fn levels(&self) -> &'a Levels {
        self.levels
    }

    pub(crate) fn budgets(&self) -> Budgets
        ensures value { result ≡ self.now.budgets }
        ensures limits { AreWithinLimits result }
    {
        self.budgets
    }

    // Returns the number of faults that the circuit lists.
    pub(crate) fn numbers(&self) -> u32
        ensures value { result ≡ fault_count self.now.circuit }
        ensures few { result < 2 ^ 27 }
    {
        self.subject.numbers()
    }

    pub(crate) fn fault(&self, number: u32) -> Fault
        requires { number < fault_count self.now.circuit }
        ensures value { result ≡ fault_numbered self.now.circuit number }
        ensures stands { IsFaultOf self.now.circuit result }
    {
        self.subject.fault(number)
    }

    // Returns for each number the number of its root.
    pub(crate) fn roots(&self) -> &[u32]
        ensures count { length result.now ≡ fault_count self.now.circuit }
        ensures within { All (λ root. root < length result.now) result.now }
    {
        self.subject.forest().roots()
    }

    // Returns for how many of the next open numbers a cube is searched before a block is looked at: a 1,024th of all
    // numbers, at least 64 and at most 256; 0 without a budget of cubes.
    pub(crate) fn ahead(&self) -> u32 {
        if self.budgets.cubes == 0 {
            return 0;
        }
        (self.numbers() / 1024).max(64).min(256)
    }

    // Returns whether the faults numbered `a` and `b` have the same root.
    pub(crate) fn same_root(&self, a: u32, b: u32) -> bool
        requires first { a < fault_count self.now.circuit }
        requires second { b < fault_count self.now.circuit }
        ensures { IsTrue result ↔ (root self.now.circuit (fault_numbered self.now.circuit a) ≡ root self.now.circuit (fault_numbered self.now.circuit b)) }
    {
        self.subject.same_root(a, b)
    }

    // Returns a keeper of vectors for the circuit that keeps each of the first vectors that splits a class.
    pub(crate) fn keeper(&self, alloc: Global) -> Result<Keeper<'a>, AllocError>
        ensures is_circuit { IsCircuit self.now.circuit }
        ensures limits { AreWithinLimits self.now.budgets }
        ensures circuit { IfOk result (λ keeper. keeper.circuit ≡ self.now.circuit) }
        ensures kept { IfOk result (λ keeper. Keeps self.now.circuit self.now.vectors (nothing_kept (fault_count self.now.circuit)) keeper.kept) }
        ensures looked { IfOk result (λ keeper. keeper.looked ≡ []) }
    {
        self.subject.circuit().stands();
        let mut keeper = Keeper::new(alloc, self.subject)?;
        self.keep_first(&mut keeper)?;
        Ok(keeper)
    }

    // Keeps each of the first vectors that splits a class.
    fn keep_first(&self, keeper: &mut Keeper) -> Result<(), AllocError>
        requires { keeper.old.circuit ≡ self.now.circuit }
        ensures circuit { keeper.new.circuit ≡ self.now.circuit }
        ensures looked { keeper.new.looked ≡ [] }
        ensures ok { OnOk result (Keeps self.now.circuit self.now.vectors keeper.old.kept keeper.new.kept) }
    {
        match self.first {
            FirstVectors::OfStream => keeper.keep_stream(self.budgets.blocks),
            FirstVectors::OfList(vectors) => keeper.keep_list(vectors),
        }
    }
}
