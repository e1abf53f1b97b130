//! Unit propagation. Clauses of one literal come first. Then each set literal is visited in order: each clause that
//! watches its opposite, which is false now, watches another literal instead, or has its other watched literal set.

ghost use Rattle.std.specs.Prelude.{◌≡◌, ℕ, ◌+◌, ◌^◌, ◌<◌, ◌≤◌, [], None, Some, Contains, IsNone, IfSome, MatchOption, is_none, if◌then◌else◌, length};
ghost use Rattle.clause_pool.specs.Literal.{opposite};
ghost use Rattle.clause_pool.specs.LiteralCode.{code_of};
ghost use Rattle.clause_pool.specs.Clauses.{Clause, numbered_clause};
ghost use Rattle.clause_pool.specs.Proper.{IsProper};
ghost use Rattle.solver_trail.specs.Assignment.{IsTrail, Propagates, assigned_literals};
ghost use Rattle.solver_trail.specs.Trail.{AreAttached, AreReasons, AreShort, IsPropagated};
ghost use Rattle.solver_trail.specs.Watches.{AreInLists, AreKept, other_watched, owner, watched_literals};
ghost use Rattle.solver_trail.specs.Propagation.{numbers_attached, trail_state, AreSatisfied, AreOthersFalse, IsOpenOther, IsVisited, IsConflict, KeepsReasons, HasWatches, ArePartnersTrue};

use crate::set_literals::SetLiterals;
use crate::trail::Propagated;
use crate::watches::{Watches, partner};
use clause_pool::{Lit, Pool};

/// The numbers of the attached clauses, in the order of attaching.
#[derive(Debug, Drop)]
pub(crate) struct Attached {
    /// The numbers of clauses of fewer than two literals, which watch nothing.
    pub(crate) short: Vec<u32>,
    /// The numbers of clauses of two or more literals. The watches of the k-th one are 2 k and 2 k + 1.
    pub(crate) long: Vec<u32>,
}

/// Sets all literals that unit propagation forces, up to a clause that is false. The set literals before `place` have
/// been visited; moves `place` up to the first one that hasn't been.
pub(crate) fn propagate(
    set: &mut SetLiterals,
    watches: &mut Watches,
    attached: &Attached,
    pool: &Pool,
    place: &mut usize,
) -> Propagated
    requires trail { IsTrail set.old }
    requires place { place.old ≤ length set.old.literals }
    requires watches { HasWatches attached.now pool.now.clauses set.old watches.old }
    requires listed { AreInLists watches.old [] }
    requires short { AreShort attached.now.short.items pool.now.clauses }
    requires kept { AreKept set.old.literals place.old place.old (watched_literals watches.old) }
    ensures found { IsPropagated (trail_state set.new attached.now watches.new) pool.now.clauses result }
    ensures set { Propagates set.old set.new }
    ensures trail { IsTrail set.new }
    ensures watches { HasWatches attached.now pool.now.clauses set.new watches.new }
    ensures listed { AreInLists watches.new [] }
    ensures from { place.old ≤ place.new }
    ensures below { place.new ≤ length set.new.literals }
    ensures kept { AreKept set.new.literals place.old place.new (watched_literals watches.new) }
{
    match set_units(set, attached, pool) {
        Some(number) => Propagated::Conflict(number),
        None => match follow(set, watches, attached, pool, place) {
            Some(number) => Propagated::Conflict(number),
            None => Propagated::Quiet,
        },
    }
}

// Sets the literals of the clauses of one literal, up to a clause that has no literal or a false one, and returns the
// number of that clause.
fn set_units(set: &mut SetLiterals, attached: &Attached, pool: &Pool) -> Option<u32>
    requires trail { IsTrail set.old }
    requires attached { AreAttached set.old.variables (numbers_attached attached.now) pool.now.clauses }
    requires reasons { AreReasons (numbers_attached attached.now) pool.now.clauses set.old.literals }
    requires short { AreShort attached.now.short.items pool.now.clauses }
    ensures set { Propagates set.old set.new }
    ensures trail { IsTrail set.new }
    ensures reasons { AreReasons (numbers_attached attached.now) pool.now.clauses set.new.literals }
    ensures units { IsNone result → AreSatisfied (assigned_literals set.new) attached.now.short.items pool.now.clauses }
    ensures conflict { IfSome result (IsConflict (numbers_attached attached.now) pool.now.clauses (assigned_literals set.new)) }
{
    let level = set.level();
    for number in &attached.short {
        match pool.get(*number).first() {
            None => return Some(*number),
            Some(lit) => match set.value_of(*lit) {
                Some(true) => {}
                Some(false) => return Some(*number),
                None => set.put(*lit, level, Some(*number)),
            },
        }
    }
    None
}

// Visits the clauses that watch the opposites of the set literals, starting at `place`, up to a clause that is false.
fn follow(
    set: &mut SetLiterals,
    watches: &mut Watches,
    attached: &Attached,
    pool: &Pool,
    place: &mut usize,
) -> Option<u32>
    requires trail { IsTrail set.old }
    requires watches { HasWatches attached.now pool.now.clauses set.old watches.old }
    requires listed { AreInLists watches.old [] }
    requires place { place.old ≤ length set.old.literals }
    ensures from { place.old ≤ place.new }
    ensures below { place.new ≤ length set.new.literals }
    ensures done { IsNone result → place.new ≡ length set.new.literals }
    ensures set { Propagates set.old set.new }
    ensures trail { IsTrail set.new }
    ensures watches { HasWatches attached.now pool.now.clauses set.new watches.new }
    ensures listed { AreInLists watches.new [] }
    ensures kept { AreKept set.old.literals place.old place.old (watched_literals watches.old) → AreKept set.new.literals place.old place.new (watched_literals watches.new) }
    ensures conflict { IfSome result (IsConflict (numbers_attached attached.now) pool.now.clauses (assigned_literals set.new)) }
{
    while *place < set.literals().len() {
        match visit_list(set, watches, attached, pool, *place) {
            Some(number) => return Some(number),
            None => *place += 1,
        }
    }
    None
}

// Visits the clauses that watch the opposite of the set literal at `place`, up to a clause that is false.
fn visit_list(
    set: &mut SetLiterals,
    watches: &mut Watches,
    attached: &Attached,
    pool: &Pool,
    place: usize,
) -> Option<u32>
    requires trail { IsTrail set.old }
    requires place { place < length set.old.literals }
    requires watches { HasWatches attached.now pool.now.clauses set.old watches.old }
    requires listed { AreInLists watches.old [] }
    ensures set { Propagates set.old set.new }
    ensures trail { IsTrail set.new }
    ensures watches { HasWatches attached.now pool.now.clauses set.new watches.new }
    ensures listed { AreInLists watches.new [] }
    ensures kept { (visited : ℕ) → visited ≤ place → AreKept set.old.literals visited place (watched_literals watches.old) → AreKept set.new.literals visited (if is_none result then place + 1 else place) (watched_literals watches.new) }
    ensures conflict { IfSome result (IsConflict (numbers_attached attached.now) pool.now.clauses (assigned_literals set.new)) }
{
    let lit = set.literals()[place].opposite();
    visit_watches(set, watches, attached, pool, lit)
}

// Visits the clauses that watch `lit`, which is false, up to a clause that is false. Watches that still watch `lit`
// stay where they are in its list.
fn visit_watches(
    set: &mut SetLiterals,
    watches: &mut Watches,
    attached: &Attached,
    pool: &Pool,
    lit: Lit,
) -> Option<u32>
    requires trail { IsTrail set.old }
    requires lit { Contains (assigned_literals set.old) (opposite lit) }
    requires code { code_of lit < length watches.old.firsts.items }
    requires watches { HasWatches attached.now pool.now.clauses set.old watches.old }
    requires listed { AreInLists watches.old [] }
    ensures set { Propagates set.old set.new }
    ensures trail { IsTrail set.new }
    ensures watches { HasWatches attached.now pool.now.clauses set.new watches.new }
    ensures listed { AreInLists watches.new [] }
    ensures kept { (visited reached : ℕ) → reached ≤ length set.old.literals → AreKept set.old.literals visited reached (watched_literals watches.old) → AreKept set.new.literals visited reached (watched_literals watches.new) }
    ensures done { IsNone result → ArePartnersTrue lit set.new watches.new }
    ensures conflict { IfSome result (IsConflict (numbers_attached attached.now) pool.now.clauses (assigned_literals set.new)) }
{
    let mut last = None;
    for _ in 0..watches.len() {
        let watch = watches.after(lit, last)?;
        match visit_watch(set, watches, attached, pool, lit, watch) {
            Some(target) => last = watches.rewatch(lit, last, watch, target),
            None => return Some(attached.long[watch / 2]),
        }
    }
    None
}

// Returns the literal that the watch watches next in place of `lit`, which has become false, or none if its clause is
// false. The literal of the partner is stored beside the watch: if it is true, neither the clause nor its number is
// read.
fn visit_watch(
    set: &mut SetLiterals,
    watches: &Watches,
    attached: &Attached,
    pool: &Pool,
    lit: Lit,
    watch: usize,
) -> Option<Lit>
    requires trail { IsTrail set.old }
    requires watches { HasWatches attached.now pool.now.clauses set.old watches.now }
    requires within { watch < length (watched_literals watches.now) }
    requires few { length (watched_literals watches.now) < 2 ^ 32 }
    ensures set { Propagates set.old set.new }
    ensures trail { IsTrail set.new }
    ensures watches { HasWatches attached.now pool.now.clauses set.new watches.now }
    ensures target { IsVisited pool.now.clauses (owner attached.now.long.items watch) (assigned_literals set.new) lit (other_watched (watched_literals watches.now) watch) result }
{
    let other = watches.literal(partner(watch));
    if set.is_true(other) {
        return Some(lit);
    }
    let number = attached.long[watch / 2];
    visit(set, pool, number, lit, other)
}

// Returns the literal that the clause watches next in place of `lit`, which has become false, or none if the clause
// is false. This is `lit` itself if `other`, the clause's other watched literal, is true, or is set now because all
// other literals are false.
fn visit(set: &mut SetLiterals, pool: &Pool, number: u32, lit: Lit, other: Lit) -> Option<Lit>
    requires trail { IsTrail set.old }
    requires from { 0 < number }
    requires below { number ≤ length pool.now.clauses }
    requires proper { (clause : Clause) → numbered_clause pool.now.clauses number ≡ Some clause → IsProper set.old.variables clause }
    requires other { (clause : Clause) → numbered_clause pool.now.clauses number ≡ Some clause → Contains clause other }
    ensures set { Propagates set.old set.new }
    ensures trail { IsTrail set.new }
    ensures reasons { KeepsReasons number pool.now.clauses set.old.literals set.new.literals }
    ensures target { IsVisited pool.now.clauses number (assigned_literals set.new) lit other result }
{
    match set.value_of(other) {
        Some(true) => Some(lit),
        Some(false) => open_other(set, pool.get(number), other),
        None => match open_other(set, pool.get(number), other) {
            Some(open) => Some(open),
            None => {
                let level = set.level();
                set.put(other, level, Some(number));
                Some(lit)
            }
        },
    }
}

// Returns a literal of the clause that isn't false and isn't `other`, if there is one.
fn open_other(set: &SetLiterals, clause: &[Lit], other: Lit) -> Option<Lit>
    requires trail { IsTrail set.now }
    requires proper { IsProper set.now.variables clause.now }
    ensures { MatchOption result (AreOthersFalse (assigned_literals set.now) clause.now other) (IsOpenOther (assigned_literals set.now) clause.now other) }
{
    for lit in clause {
        if *lit != other && set.value_of(*lit) != Some(false) {
            return Some(*lit);
        }
    }
    None
}
