//! Literals of the trail by their places.

ghost use Rattle.std.specs.Prelude.{◌≡◌, ◌+◌, ◌<◌, ◌≤◌, ◌^◌, length};
ghost use Rattle.solver_trail.specs.Assignment.{IsTrail};
ghost use Rattle.learn_solver.specs.Places.{set_literal_at};

use clause_pool::Lit;
use solver_trail::Trail;

/// Returns the literal at this place of the trail.
pub(crate) fn literal_at(trail: &Trail, place: usize) -> Lit
    requires trail { IsTrail trail.now.assignment }
    requires inside { place < length trail.now.assignment.literals }
    ensures is { result ≡ (set_literal_at trail.now.assignment place).literal }
    ensures from { 0 < result.variable }
    ensures inside { result.variable ≤ trail.now.assignment.variables }
    ensures room { place + 1 < 2 ^ 64 }
{
    let literals = trail.set_literals();
    let _count = literals.len();
    literals[place]
}

/// Returns the level of the literal at this place of the trail.
pub(crate) fn level_at(trail: &Trail, place: usize) -> u32
    requires trail { IsTrail trail.now.assignment }
    requires inside { place < length trail.now.assignment.literals }
    ensures { result ≡ (set_literal_at trail.now.assignment place).level }
{
    match trail.level_of(literal_at(trail, place).variable()) {
        Some(level) => level,
        None => unreachable!(),
    }
}
