//! Which literal is decided next: of the variable that conflicts met last, with the sign that it had last (phase
//! saving).

ghost use Rattle.std.specs.Prelude.{◌≡◌, ℕ, ◌<◌, ◌≤◌, ◌^◌, All, IfOk, IfSome, MatchBool, MatchOption};
ghost use Rattle.solver_trail.specs.Assignment.{IsTrail, IsUnset};
ghost use Rattle.learn_solver.specs.Ready.{IsSet};
ghost use Rattle.learn_solver.specs.Decisions.{AreBoth, HasSigns, IsDecidable, IsFree, AreAllSet};

use crate::aim::Both;
use crate::places::{level_at, literal_at};
use crate::queue::Queue;
use clause_pool::Lit;
use solver_trail::Trail;
use std::alloc::{AllocError, Global};
use std::marker::Model;

/// The order of decisions, and the sign that each variable had last, which is negative at first.
#[derive(Drop)]
pub(crate) struct Decider {
    queue: Queue,
    phases: Vec<bool>,
    // all newer variables of the queue are set
    place: u32,
    // descents with an aim decide the variables up to `highest`, and those above `low` are set
    highest: u32,
    low: u32,
}

impl Model for Decider {
    ghost Value = { ℕ };

    ghost view = { λ d. d.queue };

    ghost invariant = { λ d. HasSigns d.queue d.phases.items d.place d.low };
}

impl Decider {
    /// Returns the decider of variables 1 to `variables`. The highest is decided first, and all signs are negative.
    pub(crate) fn new(alloc: Global, variables: u32) -> Result<Decider, AllocError>
        requires { variables < 2 ^ 31 }
        ensures { IfOk result (λ decider. decider ≡ variables) }
    {
        let phases = vec![in alloc; false; variables as usize + 1]?;
        let queue = Queue::new(alloc, variables)?;
        let place = queue.newest();
        Ok(Decider {
            queue,
            phases,
            place,
            highest: 0,
            low: 0,
        })
    }

    /// Returns the literal of an unset variable, with the sign that it had last, or none if all variables are set.
    pub(crate) fn next(&mut self, trail: &Trail) -> Option<Lit>
        requires trail { IsTrail trail.now.assignment }
        requires variables { trail.now.assignment.variables ≡ self.old }
        ensures variables { self.new ≡ self.old }
        ensures next { MatchOption result (AreAllSet trail.now.assignment) (IsDecidable trail.now.assignment) }
    {
        match newest_unset(trail, &self.queue, self.place) {
            Some(variable) => {
                self.place = variable;
                Some(self.signed(variable))
            }
            // the queue shows none any more: a look over all variables makes sure
            None => {
                let variable = lowest_unset(trail, self.queue.variables())?;
                Some(self.signed(variable))
            }
        }
    }

    /// Returns a literal of an unset variable, to bring the two literals nearer to being true: one of these two, or one
    /// of another variable up to that of the last `turn_to`. Returns none if all those are set, or one of the two is
    /// false.
    pub(crate) fn next_for(&mut self, trail: &Trail, both: &Both) -> Option<Lit>
        requires trail { IsTrail trail.now.assignment }
        requires variables { trail.now.assignment.variables ≡ self.old }
        requires both { AreBoth self.old both.now }
        ensures variables { self.new ≡ self.old }
        ensures next { IfSome result (IsDecidable trail.now.assignment) }
    {
        for lit in [both.first, both.second] {
            match trail.value(lit.variable()) {
                None => return Some(lit),
                Some(positive) if positive != lit.positive() => return None,
                Some(_) => {}
            }
        }
        self.low = highest_unset(trail, self.low);
        if self.low == 0 {
            return None;
        }
        Some(self.signed(self.low))
    }

    /// Makes descents with an aim decide the variables up to `highest`, from the highest down.
    pub(crate) fn turn_to(&mut self, highest: u32)
        requires { highest ≤ self.old }
        ensures { self.new ≡ self.old }
    {
        self.highest = highest;
        self.low = highest;
    }

    /// Keeps the signs of the literals of levels above `level`, before they are unset.
    pub(crate) fn leave(&mut self, trail: &Trail, level: u32)
        requires trail { IsTrail trail.now.assignment }
        requires variables { trail.now.assignment.variables ≡ self.old }
        ensures { self.new ≡ self.old }
    {
        let mut place = trail.set_literals().len();
        while 0 < place && level_at(trail, place - 1) > level {
            place -= 1;
            self.keep(literal_at(trail, place));
        }
    }

    // Keeps the sign of a literal that is about to be unset, and moves `place` and `low` so that its variable is
    // found.
    fn keep(&mut self, lit: Lit)
        requires { lit.variable ≤ self.old }
        ensures { self.new ≡ self.old }
    {
        let variable = lit.variable();
        self.phases[variable as usize] = lit.positive();
        if self.queue.stamp(variable) > self.queue.stamp(self.place) {
            self.place = variable;
        }
        if variable <= self.highest && variable > self.low {
            self.low = variable;
        }
    }

    /// Makes the variables the newest ones, and keeps their order.
    pub(crate) fn renew(&mut self, alloc: Global, met: &[u32]) -> Result<(), AllocError>
        requires { All (λ x. x ≤ self.old) met.now }
        ensures { self.new ≡ self.old }
    {
        self.queue.renew_all(alloc, met)
    }

    // Returns the literal of the variable with the sign that it had last.
    fn signed(&self, variable: u32) -> Lit
        requires from { 0 < variable }
        requires inside { variable ≤ self.now }
        ensures { result.variable ≡ variable }
    {
        Lit::new(variable, self.phases[variable as usize])
    }
}

// Returns the newest unset variable of the queue, starting at `place`, if there is one.
fn newest_unset(trail: &Trail, queue: &Queue, place: u32) -> Option<u32>
    requires variables { trail.now.assignment.variables ≡ queue.now }
    requires place { place ≤ queue.now }
    ensures { IfSome result (IsFree trail.now.assignment) }
{
    let mut variable = place;
    for _seen in 0..queue.variables() {
        if variable == 0 {
            return None;
        }
        if is_unset(trail, variable) {
            return Some(variable);
        }
        variable = queue.older_than(variable);
    }
    None
}

// Returns the highest unset variable up to `from`, or 0 if there is none.
fn highest_unset(trail: &Trail, from: u32) -> u32
    requires { from ≤ trail.now.assignment.variables }
    ensures inside { result ≤ from }
    ensures unset { 0 < result → IsUnset trail.now.assignment result }
{
    let mut variable = from;
    while 0 < variable && !is_unset(trail, variable) {
        variable -= 1;
    }
    variable
}

// Returns the lowest unset variable, if there is one.
fn lowest_unset(trail: &Trail, variables: u32) -> Option<u32>
    requires { trail.now.assignment.variables ≡ variables }
    ensures { MatchOption result (AreAllSet trail.now.assignment) (IsFree trail.now.assignment) }
{
    for at in 0..variables {
        if is_unset(trail, at + 1) {
            return Some(at + 1);
        }
    }
    None
}

fn is_unset(trail: &Trail, variable: u32) -> bool
    requires from { 0 < variable }
    requires inside { variable ≤ trail.now.assignment.variables }
    ensures { MatchBool result (IsUnset trail.now.assignment variable) (IsSet trail.now.assignment variable) }
{
    trail.value(variable).is_none()
}
