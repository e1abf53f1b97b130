//! The miter of a pair of faults, and the vectors of its models.

ghost use Rattle.std.specs.Prelude.{◌≡◌, ◌<◌, ◌^◌, true, length, All, IfOk};
ghost use Rattle.net_model.specs.Answer.{Separates};
ghost use Rattle.net_model.specs.Circuit.{line_count};
ghost use Rattle.net_model.specs.Scope.{is_relevant, relevant_lines};
ghost use Rattle.clause_pool.specs.Proper.{IsProper};
ghost use Rattle.pair_miter.specs.Miter.{miter, is_model, copy_bit, source_bit, vector_of};
ghost use Rattle.pair_miter.specs.SplitLines.{AreSplitLines, AreVariables};
ghost use Rattle.pair_miter.specs.Variables.{variable_count};

use crate::numbering::Numbering;
use crate::side::Side;
use crate::space::MiterSpace;
use crate::split::{Copies, split_lines};
use net_model::{Bits, Vector, stuck_stem};
use std::alloc::{AllocError, Global};
use std::marker::Model;

/// The miter of two faults of a circuit. It borrows the circuit and keeps copies of the faults.
#[derive(Debug)]
pub struct Miter<'a> {
    pub(crate) alloc: Global,
    pub(crate) numbering: Numbering<'a>,
    pub(crate) variables: u32,
    pub(crate) clauses: u32,
}

impl<'a> Model for Miter<'a> {
    ghost use Rattle.pair_miter.specs.MiterView as spec;
    ghost use Rattle.pair_miter.specs.MiterFields.{miter_of, IsCounted};

    ghost Value = { spec.Miter };

    ghost view = { miter_of };

    ghost invariant = { IsCounted };
}

// Written by hand, so that dropping a miter is one step in a proof.
impl Drop for Miter<'_> {
    fn drop(self) {
        let Miter {
            alloc: _,
            numbering: _,
            variables: _,
            clauses: _,
        } = self;
    }
}

impl<'a> Miter<'a> {
    /// Returns the space of the miter, for a next one.
    pub fn into_space(self) -> MiterSpace<'a>
        ensures { result ≡ self.entry.circuit }
    {
        let Miter {
            alloc,
            numbering,
            variables: _,
            clauses: _,
        } = self;
        MiterSpace { alloc, numbering }
    }

    /// Returns the relevant lines of the two faults, ascending: those that are, or lead to, the lines of reached
    /// positions.
    pub fn relevant_lines(&self) -> &[u32]
        ensures { result.now ≡ relevant_lines self.now.circuit self.now.f self.now.g }
    {
        self.numbering.relevant_lines()
    }

    /// Returns the number of variables. They are numbered from 1. The clauses have no others, and no clause has one
    /// twice.
    pub fn variables(&self) -> u32
        ensures value { result ≡ variable_count self.now.circuit self.now.f self.now.g }
        ensures below { result < 2 ^ 31 }
        ensures proper { All (IsProper result) (miter self.now.circuit self.now.f self.now.g) }
    {
        self.variables
    }

    pub fn clause_count(&self) -> u32
        ensures value { result ≡ length (miter self.now.circuit self.now.f self.now.g) }
        ensures below { result < 2 ^ 30 }
    {
        self.clauses
    }

    /// Returns the variables of the two copies of each line that is relevant and split, in an evaluation order: first
    /// the sources, then the gates, each after those that it reads.
    pub fn split_lines(&self) -> Result<Vec<Copies>, AllocError>
        ensures lines { IfOk result (λ lines. AreSplitLines self.now.circuit self.now.f self.now.g lines.items) }
        ensures inside { IfOk result (λ lines. All (AreVariables (variable_count self.now.circuit self.now.f self.now.g)) lines.items) }
    {
        split_lines(self.alloc, &self.numbering)
    }

    /// Returns the vector of a model of the miter. The faults answer differently to it.
    ///
    /// The model has a bit for each variable, that of variable 1 first.
    pub fn vector_of(&self, model: &Bits) -> Result<Vector, AllocError>
        requires whole { length model.now ≡ variable_count self.now.circuit self.now.f self.now.g }
        requires satisfies { is_model model.now (miter self.now.circuit self.now.f self.now.g) ≡ true }
        ensures value { IfOk result (λ v. v ≡ vector_of self.now.circuit self.now.f self.now.g model.now) }
        ensures separates { IfOk result (λ v. Separates self.now.circuit v self.now.f self.now.g) }
    {
        let sources = self.numbering.circuit().sources();
        let mut v = Bits::zeros(self.alloc, sources as usize)?;
        for line in self.numbering.relevant_lines() {
            if *line >= sources {
                break;
            }
            v.set(*line as usize, source_bit(&self.numbering, model, *line));
        }
        Ok(v)
    }
}

// Returns the bit of a relevant source in the vector of a model.
fn source_bit(numbering: &Numbering, model: &Bits, source: u32) -> bool
    requires whole { length model.now ≡ variable_count numbering.now.circuit numbering.now.f numbering.now.g }
    requires source { source < numbering.now.circuit.sources }
    requires relevant { is_relevant numbering.now.circuit numbering.now.f numbering.now.g source ≡ true }
    ensures { result ≡ source_bit numbering.now.circuit numbering.now.f numbering.now.g model.now source }
{
    if !numbering.split(source) {
        return copy_bit(numbering, model, Side::First, source);
    }
    if stuck_stem(numbering.fault(Side::First), source).is_none() {
        return copy_bit(numbering, model, Side::First, source);
    }
    if stuck_stem(numbering.fault(Side::Second), source).is_none() {
        return copy_bit(numbering, model, Side::Second, source);
    }
    false
}

// Returns the bit of a relevant line in copy `side`.
fn copy_bit(numbering: &Numbering, model: &Bits, side: Side, line: u32) -> bool
    requires whole { length model.now ≡ variable_count numbering.now.circuit numbering.now.f numbering.now.g }
    requires line { line < line_count numbering.now.circuit }
    requires relevant { is_relevant numbering.now.circuit numbering.now.f numbering.now.g line ≡ true }
    ensures { result ≡ copy_bit numbering.now.circuit numbering.now.f numbering.now.g model.now side line }
{
    model.get(numbering.variable(side, line) as usize - 1)
}
