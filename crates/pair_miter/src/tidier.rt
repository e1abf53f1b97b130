//! A writer that tidies each clause: a repeated literal is kept once, and a clause with opposite literals is left out.

ghost use Rattle.std.specs.Prelude.{◌≡◌, ◌+◌, ◌-◌, ◌<◌, ◌≤◌, ◌^◌, [], ◌∷◌, ◌++◌, length, All, vec_capacity, IfOk, OnOk};
ghost use Rattle.clause_pool.specs.Proper.{IsVariable};
ghost use Rattle.pair_miter.specs.Adds.{WritesClauses};
ghost use Rattle.pair_miter.specs.Marks.{AreMarksOfClause, HavePlaces, IsOperand};
ghost use Rattle.pair_miter.specs.Miter.{tidy, without_repeats, is_tautology};
ghost use Rattle.pair_miter.specs.Rows.{variables, operand_literals, case_clause, with_all};

use crate::operand::Operand;
use clause_pool::{Lit, Pool};
use std::alloc::{AllocError, Global};
use std::marker::Model;

/// A writer of tidied clauses over `variables` variables. No literal is marked between two clauses.
#[derive(Drop)]
pub(crate) struct Tidier {
    variables: u32,
    // A mark for each literal, by its code.
    marks: Vec<bool>,
    kept: Vec<Lit>,
    row: Vec<Lit>,
}

impl Model for Tidier {
    ghost use Rattle.std.specs.Prelude.{ℕ};
    ghost use Rattle.pair_miter.specs.Marks.{AreClear};

    ghost Value = { ℕ };

    ghost view = { λ a. a.variables };

    ghost invariant = { λ a. AreClear a.variables a.marks.items };
}

impl Tidier {
    pub(crate) fn new(alloc: Global, variables: u32) -> Result<Tidier, AllocError>
        requires { variables < 2 ^ 31 }
        ensures { IfOk result (λ tidier. tidier ≡ variables) }
    {
        let marks = vec![in alloc; false; 2 * variables as usize + 2]?;
        Ok(Tidier {
            variables,
            marks,
            kept: Vec::new(alloc),
            row: Vec::new(alloc),
        })
    }

    /// Returns the literal of one of the variables.
    pub(crate) fn literal(&self, variable: u32, positive: bool) -> Lit
        requires { IsVariable self.now variable }
        ensures { result ≡ record { variable = variable; positive = positive } }
    {
        prove!(variable <= self.variables);
        Lit::new(variable, positive)
    }

    /// Writes `clause`, tidied.
    pub(crate) fn write(&mut self, pool: &mut Pool, clause: &[Lit]) -> Result<(), AllocError>
        requires { All (λ l. l.variable ≤ self.old) clause.now }
        ensures written { WritesClauses result pool.old pool.new (tidy (clause.now ∷ [])) }
        ensures variables { self.new ≡ self.old }
    {
        write_once(&mut self.marks, &mut self.kept, pool, clause)
    }

    /// Writes the clause of the literal `first` and of the variables among `operands`, these all with the sign
    /// `positive`.
    pub(crate) fn write_all(
        &mut self,
        pool: &mut Pool,
        operands: &[Operand],
        first: Lit,
        positive: bool,
    ) -> Result<(), AllocError>
        requires operands { All (IsOperand self.old) operands.now }
        requires first { first.variable ≤ self.old }
        ensures written { WritesClauses result pool.old pool.new (tidy (with_all first positive (variables operands.now) ∷ [])) }
        ensures variables { self.new ≡ self.old }
    {
        fill(&mut self.row, first, positive, operands)?;
        write_once(&mut self.marks, &mut self.kept, pool, self.row.as_slice())
    }

    /// Writes the clause of the literal `l` and of `chooser` and `chosen` with the signs `unless` and `positive`. A
    /// constant that is false under its sign is left out, and with one that is true the whole clause is left out.
    pub(crate) fn write_case(
        &mut self,
        pool: &mut Pool,
        l: Lit,
        unless: bool,
        chooser: &Operand,
        positive: bool,
        chosen: &Operand,
    ) -> Result<(), AllocError>
        requires first { l.variable ≤ self.old }
        requires chooser { IsOperand self.old chooser.now }
        requires chosen { IsOperand self.old chosen.now }
        ensures written { WritesClauses result pool.old pool.new (tidy (case_clause l unless chooser.now positive chosen.now)) }
        ensures variables { self.new ≡ self.old }
    {
        if chooser.is_constant(unless) || chosen.is_constant(positive) {
            return Ok(());
        }
        fill_case(&mut self.row, l, chooser, unless, chosen, positive)?;
        write_once(&mut self.marks, &mut self.kept, pool, self.row.as_slice())
    }
}

// Replaces `row` by the literal `first` and the variables among `operands`, these all with the sign `positive`.
fn fill(
    row: &mut Vec<Lit>,
    first: Lit,
    positive: bool,
    operands: &[Operand],
) -> Result<(), AllocError>
    requires { All (IsOperand (2 ^ 31 - 1)) operands.now }
    ensures { OnOk result (row.new.items ≡ with_all first positive (variables operands.now)) }
{
    row.clear();
    row.push(first)?;
    for operand in operands {
        push_literal(row, positive, operand)?;
    }
    Ok(())
}

// Replaces `row` by the literal `l` and the variables among `chooser` and `chosen` with their signs.
fn fill_case(
    row: &mut Vec<Lit>,
    l: Lit,
    chooser: &Operand,
    unless: bool,
    chosen: &Operand,
    positive: bool,
) -> Result<(), AllocError>
    requires chooser { IsOperand (2 ^ 31 - 1) chooser.now }
    requires chosen { IsOperand (2 ^ 31 - 1) chosen.now }
    ensures { OnOk result (row.new.items ≡ l ∷ operand_literals unless chooser.now ++ operand_literals positive chosen.now) }
{
    row.clear();
    row.push(l)?;
    push_literal(row, unless, chooser)?;
    push_literal(row, positive, chosen)
}

// Appends the literal of `operand` with the sign `positive`, unless it is a constant.
fn push_literal(row: &mut Vec<Lit>, positive: bool, operand: &Operand) -> Result<(), AllocError>
    requires { IsOperand (2 ^ 31 - 1) operand.now }
    ensures { OnOk result (row.new.items ≡ row.old.items ++ operand_literals positive operand.now) }
{
    if let Some(x) = operand.variable() {
        row.push(Lit::new(x, positive))?;
    }
    Ok(())
}

// Writes `clause`, tidied. No literal is marked before or after.
fn write_once(
    marks: &mut Vec<bool>,
    kept: &mut Vec<Lit>,
    pool: &mut Pool,
    clause: &[Lit],
) -> Result<(), AllocError>
    requires places { HavePlaces marks.old.items clause.now }
    requires clear { AreMarksOfClause marks.old.items [] }
    ensures written { WritesClauses result pool.old pool.new (tidy (clause.now ∷ [])) }
    ensures places { length marks.new.items ≡ length marks.old.items }
    ensures clear { AreMarksOfClause marks.new.items [] }
{
    kept.clear();
    kept.reserve(clause.len())?;
    let tautology = keep_once(marks, kept, clause);
    clear_marks(marks, clause);
    if tautology {
        Ok(())
    } else {
        push(pool, kept.as_slice())
    }
}

// Keeps and marks the literals of `clause`, each once. Returns whether there are opposite ones.
fn keep_once(marks: &mut Vec<bool>, kept: &mut Vec<Lit>, clause: &[Lit]) -> bool
    requires places { HavePlaces marks.old.items clause.now }
    requires clear { AreMarksOfClause marks.old.items [] }
    requires none { kept.old.items ≡ [] }
    requires room { length clause.now ≤ vec_capacity kept.old }
    ensures kept { kept.new.items ≡ without_repeats clause.now }
    ensures opposites { result ≡ is_tautology clause.now }
    ensures places { length marks.new.items ≡ length marks.old.items }
    ensures marked { AreMarksOfClause marks.new.items clause.now }
{
    let mut opposites = false;
    for lit in clause {
        let at = lit.code();
        if !marks[at] {
            marks[at] = true;
            kept.push_reserved(*lit);
        }
        opposites |= marks[lit.opposite().code()];
    }
    opposites
}

// Removes the marks of the literals of `clause`.
fn clear_marks(marks: &mut Vec<bool>, clause: &[Lit])
    requires places { HavePlaces marks.old.items clause.now }
    requires marked { AreMarksOfClause marks.old.items clause.now }
    ensures places { length marks.new.items ≡ length marks.old.items }
    ensures clear { AreMarksOfClause marks.new.items [] }
{
    for lit in clause {
        marks[lit.code()] = false;
    }
}

// Adds `clause` to `pool`, which grows only if it lacks room. After `u32::MAX` clauses there is no number left for one
// more, but no miter has as many.
fn push(pool: &mut Pool, clause: &[Lit]) -> Result<(), AllocError>
    ensures written { WritesClauses result pool.old pool.new (clause.now ∷ []) }
{
    if pool.len() == u32::MAX {
        return Err(AllocError);
    }
    pool.add(clause)?;
    Ok(())
}
