//! The marks of a clause's variables.

ghost use Rattle.std.specs.Prelude.{◌≡◌, ◌↔◌, ◌+◌, ◌<◌, ◌≤◌, IsTrue, IfOk, length, Contains};
ghost use Rattle.clause_pool.specs.Proper.{HasVariablesUpTo};
ghost use Rattle.solver_trail.specs.declared.set_literals.SetLiteral.{SetLiteral};
ghost use Rattle.solver_trail.specs.Assignment.{IsTrail};
ghost use Rattle.learn_solver.specs.Marks.{MarksClause};

use crate::marks::MetVariables;
use clause_pool::Lit;
use solver_trail::Trail;
use std::alloc::AllocError;

/// Marks the variables of the clause. Returns how many of them weren't marked before and are set at the present
/// level.
pub(crate) fn mark_clause(
    trail: &Trail,
    marks: &mut MetVariables,
    clause: &[Lit],
) -> Result<usize, AllocError>
    requires trail { IsTrail trail.now.assignment }
    requires places { length marks.old ≡ trail.now.assignment.variables + 1 }
    requires inside { HasVariablesUpTo trail.now.assignment.variables clause.now }
    ensures { IfOk result (MarksClause trail.now.assignment marks.old marks.new clause.now) }
{
    let mut opened = 0;
    for lit in clause {
        let variable = lit.variable();
        if !marks.has(variable) {
            marks.add(variable)?;
            if is_present(trail, variable) {
                opened += 1;
            }
        }
    }
    Ok(opened)
}

fn is_present(trail: &Trail, variable: u32) -> bool
    requires trail { IsTrail trail.now.assignment }
    requires from { 0 < variable }
    requires inside { variable ≤ trail.now.assignment.variables }
    ensures { (s : SetLiteral) → Contains trail.now.assignment.literals s → s.literal.variable ≡ variable → IsTrue result ↔ (s.level ≡ trail.now.assignment.level) }
{
    let present = trail.level();
    match trail.level_of(variable) {
        Some(level) => level == present,
        None => false,
    }
}
