//! Which two of its literals a clause watches when it is attached.

ghost use Rattle.std.specs.Prelude.{◌≢◌, ◌≤◌, ◌<◌, length, MatchOption};
ghost use Rattle.clause_pool.specs.Proper.{IsProper};
ghost use Rattle.solver_trail.specs.Watches.{AreWatched};

use crate::set_literals::SetLiterals;
use clause_pool::Lit;

/// The two literals that a clause watches.
#[derive(Clone, Copy)]
pub(crate) struct WatchedPair {
    pub(crate) first: Lit,
    pub(crate) second: Lit,
}

/// Returns two literals of the clause to watch, or none if it has fewer than two: literals that aren't false, else
/// those that became false last.
pub(crate) fn two_to_watch(set: &SetLiterals, clause: &[Lit]) -> Option<WatchedPair>
    requires { IsProper set.now.variables clause.now }
    ensures { MatchOption result (length clause.now < 2) (λ two. AreWatched clause.now two.first two.second) }
{
    if clause.len() < 2 {
        return None;
    }
    let first = last_false(set, clause, clause.len());
    let second = last_false(set, clause, first);
    Some(WatchedPair {
        first: clause[first],
        second: clause[second],
    })
}

// Returns the place of a literal of the clause, other than place `but`: one that isn't false, else the one that
// became false last.
fn last_false(set: &SetLiterals, clause: &[Lit], but: usize) -> usize
    requires proper { IsProper set.now.variables clause.now }
    requires two { 2 ≤ length clause.now }
    ensures inside { result < length clause.now }
    ensures apart { result ≢ but }
{
    let mut best = if but == 0 { 1 } else { 0 };
    let mut latest = set.false_from(clause[best]);
    for (place, lit) in clause.iter().enumerate() {
        let from = set.false_from(*lit);
        if place != but && from > latest {
            best = place;
            latest = from;
        }
    }
    best
}
