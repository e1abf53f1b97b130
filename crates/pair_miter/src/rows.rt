//! The rows of a gate (Tseitin's encoding), written into a pool.

ghost use Rattle.std.specs.Prelude.{◌≡◌, ◌+◌, ◌<◌, ◌≤◌, ◌^◌, true, [], ◌∷◌, length, All, IsTrue, MatchOption};
ghost use Rattle.net_model.specs.Gate.{takes_pins};
ghost use Rattle.clause_pool.specs.Literal.{Literal, opposite, pos_literal};
ghost use Rattle.clause_pool.specs.Proper.{IsVariable};
ghost use Rattle.pair_miter.specs.Adds.{WritesClauses};
ghost use Rattle.pair_miter.specs.Marks.{IsOperand, AreHelpers};
ghost use Rattle.pair_miter.specs.Miter.{tidy};
ghost use Rattle.pair_miter.specs.Rows.{variables, has_constant, has_odd_constants, same_value, xor_of_two, xor_onward, odd_rows, decided_rows, case_rows, chosen_rows, gate_rows};
ghost use Rattle.pair_miter.specs.Variables.{is_parity};

use crate::operand::Operand;
use crate::tidier::Tidier;
use clause_pool::{Lit, Pool};
use net_model::{Fold, Kind, Operation};
use std::alloc::AllocError;

/// Writes the rows of a gate of kind `kind` with the output variable `output` and these operands. `helper` is its first
/// helper, which only an exclusive or of three or more variables has.
pub(crate) fn write_gate(
    tidier: &mut Tidier,
    pool: &mut Pool,
    kind: Kind,
    output: u32,
    helper: u32,
    operands: &[Operand],
) -> Result<(), AllocError>
    requires output { IsVariable tidier.old output }
    requires operands { All (IsOperand tidier.old) operands.now }
    requires helpers { is_parity kind ≡ true → AreHelpers tidier.old helper (length (variables operands.now)) }
    requires pins { IsTrue (takes_pins kind (length operands.now)) }
    ensures written { WritesClauses result pool.old pool.new (tidy (gate_rows kind output helper operands.now)) }
    ensures variables { tidier.new ≡ tidier.old }
{
    let y = tidier.literal(output, !kind.inverts());
    match kind.operation() {
        Operation::Folded(Fold::AllOf) => write_decided(
            tidier,
            pool,
            false,
            y.opposite(),
            operands,
        ),
        Operation::Folded(Fold::AnyOf) => write_decided(tidier, pool, true, y, operands),
        Operation::Folded(Fold::OddOf) => write_odd(tidier, pool, y, operands, helper),
        Operation::Chosen => write_chosen(tidier, pool, y, operands),
    }
}

// Writes that `l` holds exactly if one of the operands has the value `decides`.
fn write_decided(
    tidier: &mut Tidier,
    pool: &mut Pool,
    decides: bool,
    l: Lit,
    operands: &[Operand],
) -> Result<(), AllocError>
    requires output { l.variable ≤ tidier.old }
    requires operands { All (IsOperand tidier.old) operands.now }
    ensures written { WritesClauses result pool.old pool.new (tidy (decided_rows decides l operands.now)) }
    ensures variables { tidier.new ≡ tidier.old }
{
    if has_constant(decides, operands) {
        return tidier.write(pool, &[l]);
    }
    for operand in operands {
        if let Some(x) = operand.variable() {
            let lit = tidier.literal(x, !decides);
            tidier.write(pool, &[l, lit])?;
        }
    }
    tidier.write_all(pool, operands, l.opposite(), decides)
}

// Writes that `y` and the variable have the same value.
fn write_same(tidier: &mut Tidier, pool: &mut Pool, y: Lit, variable: u32) -> Result<(), AllocError>
    requires output { y.variable ≤ tidier.old }
    requires variable { IsVariable tidier.old variable }
    ensures written { WritesClauses result pool.old pool.new (tidy (same_value y variable)) }
    ensures variables { tidier.new ≡ tidier.old }
{
    let x = tidier.literal(variable, true);
    write_clauses(tidier, pool, &[[y.opposite(), x], [y, x.opposite()]])
}

// Writes that `y` holds exactly if an odd number of operands is 1. An odd number of constants 1 inverts it.
fn write_odd(
    tidier: &mut Tidier,
    pool: &mut Pool,
    y: Lit,
    operands: &[Operand],
    helper: u32,
) -> Result<(), AllocError>
    requires output { y.variable ≤ tidier.old }
    requires operands { All (IsOperand tidier.old) operands.now }
    requires helpers { AreHelpers tidier.old helper (length (variables operands.now)) }
    ensures written { WritesClauses result pool.old pool.new (tidy (odd_rows y helper operands.now)) }
    ensures variables { tidier.new ≡ tidier.old }
{
    let out = if has_odd_constants(operands) {
        y.opposite()
    } else {
        y
    };
    let Some((first, rest)) = next_variable(operands) else {
        return tidier.write(pool, &[out.opposite()]);
    };
    let Some((second, rest)) = next_variable(rest) else {
        return write_same(tidier, pool, out, first);
    };
    let before = tidier.literal(first, true);
    write_xor_onward(tidier, pool, out, helper, before, second, rest)
}

// Writes that `y` is the exclusive or of `first`, `second` and the variables among the operands. Helpers have the
// partial results.
fn write_xor_onward(
    tidier: &mut Tidier,
    pool: &mut Pool,
    y: Lit,
    helper: u32,
    first: Lit,
    second: u32,
    operands: &[Operand],
) -> Result<(), AllocError>
    requires output { y.variable ≤ tidier.old }
    requires first { first.variable ≤ tidier.old }
    requires second { IsVariable tidier.old second }
    requires operands { All (IsOperand tidier.old) operands.now }
    requires helpers { AreHelpers tidier.old helper (2 + length (variables operands.now)) }
    ensures written { WritesClauses result pool.old pool.new (tidy (xor_onward y helper first (second ∷ variables operands.now))) }
    ensures variables { tidier.new ≡ tidier.old }
{
    let mut part = helper;
    let mut before = first;
    let mut last = second;
    for operand in operands {
        if let Some(x) = operand.variable() {
            let here = tidier.literal(part, true);
            write_xor_of_two(tidier, pool, here, before, last)?;
            part += 1;
            before = here;
            last = x;
        }
    }
    write_xor_of_two(tidier, pool, y, before, last)
}

// Writes that `a` is the exclusive or of `b` and the variable.
fn write_xor_of_two(
    tidier: &mut Tidier,
    pool: &mut Pool,
    a: Lit,
    b: Lit,
    variable: u32,
) -> Result<(), AllocError>
    requires output { a.variable ≤ tidier.old }
    requires first { b.variable ≤ tidier.old }
    requires second { IsVariable tidier.old variable }
    ensures written { WritesClauses result pool.old pool.new (tidy (xor_of_two a b (pos_literal variable))) }
    ensures variables { tidier.new ≡ tidier.old }
{
    let c = tidier.literal(variable, true);
    let (not_a, not_b, not_c) = (a.opposite(), b.opposite(), c.opposite());
    let clauses = [
        [not_a, b, c],
        [not_a, not_b, not_c],
        [a, not_b, c],
        [a, b, not_c],
    ];
    write_clauses(tidier, pool, &clauses)
}

// Writes clauses of `N` literals.
fn write_clauses<const N: usize>(
    tidier: &mut Tidier,
    pool: &mut Pool,
    clauses: &[[Lit; N]],
) -> Result<(), AllocError>
    requires { All (All (λ (l : Literal). l.variable ≤ tidier.old)) clauses.now }
    ensures written { WritesClauses result pool.old pool.new (tidy clauses.now) }
    ensures variables { tidier.new ≡ tidier.old }
{
    for clause in clauses {
        tidier.write(pool, clause)?;
    }
    Ok(())
}

// Writes that `y` is the second operand if the first is 0, and the third if it is 1.
fn write_chosen(
    tidier: &mut Tidier,
    pool: &mut Pool,
    y: Lit,
    operands: &[Operand],
) -> Result<(), AllocError>
    requires output { y.variable ≤ tidier.old }
    requires operands { All (IsOperand tidier.old) operands.now }
    requires three { length operands.now ≡ 3 }
    ensures written { WritesClauses result pool.old pool.new (tidy (chosen_rows y operands.now)) }
    ensures variables { tidier.new ≡ tidier.old }
{
    let (chooser, first, second) = (&operands[0], &operands[1], &operands[2]);
    write_case(tidier, pool, y, true, chooser, first)?;
    write_case(tidier, pool, y, false, chooser, second)
}

// Writes that `y` is `chosen`, unless `chooser` has the value `unless`.
fn write_case(
    tidier: &mut Tidier,
    pool: &mut Pool,
    y: Lit,
    unless: bool,
    chooser: &Operand,
    chosen: &Operand,
) -> Result<(), AllocError>
    requires output { y.variable ≤ tidier.old }
    requires chooser { IsOperand tidier.old chooser.now }
    requires chosen { IsOperand tidier.old chosen.now }
    ensures written { WritesClauses result pool.old pool.new (tidy (case_rows y unless chooser.now chosen.now)) }
    ensures variables { tidier.new ≡ tidier.old }
{
    tidier.write_case(pool, y.opposite(), unless, chooser, true, chosen)?;
    tidier.write_case(pool, y, unless, chooser, false, chosen)
}

// Returns whether an operand is the constant `bit`.
fn has_constant(bit: bool, operands: &[Operand]) -> bool
    ensures { result ≡ has_constant bit operands.now }
{
    operands.iter().any(|operand| operand.is_constant(bit))
}

// Returns whether an odd number of operands is the constant 1.
fn has_odd_constants(operands: &[Operand]) -> bool
    ensures { result ≡ has_odd_constants operands.now }
{
    operands
        .iter()
        .filter(|operand| operand.is_constant(true))
        .count()
        % 2
        == 1
}

// Returns the first variable and the operands after it, or none if there is no variable.
fn next_variable(operands: &[Operand]) -> Option<(u32, &[Operand])>
    ensures { MatchOption result (variables operands.now ≡ []) (λ found. variables operands.now ≡ found.0 ∷ variables found.1.now) }
{
    for (at, operand) in operands.iter().enumerate() {
        if let Some(x) = operand.variable() {
            return Some((x, &operands[at + 1..]));
        }
    }
    None
}
