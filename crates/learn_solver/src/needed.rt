//! Which chains of a log the end of its last one needs.

ghost use Rattle.std.specs.Prelude.{◌≡◌, ℕ, ◌+◌, ◌<◌, ◌≤◌, ◌↔◌, ◌⊎◌, IfOk, length};
ghost use Rattle.learn_solver.specs.Needed.{AreNeeded, IsNeededAt};
ghost use Rattle.learn_solver.specs.Trimmed.{UsesClause};

use pair_miter::Chain;
use std::alloc::{AllocError, Global};

/// Marks exactly the chains that the end of `last` needs: those that `last` uses, and those that a later marked chain
/// uses. The ends of the chains are numbered after `count` clauses.
pub(crate) fn needed(
    alloc: Global,
    chains: &[Chain],
    last: &Chain,
    count: u32,
) -> Result<Vec<bool>, AllocError>
    ensures { IfOk result (λ marks. AreNeeded count chains.now last.now marks.items) }
{
    let mut marks = vec![in alloc; false; chains.len()]?;
    mark_used(last, chains.len(), count, &mut marks);
    for at in (0..chains.len()).rev() {
        if marks[at] {
            mark_used(&chains[at], at, count, &mut marks);
        }
    }
    Ok(marks)
}

// Marks the chains before place `before` whose ends the chain uses.
fn mark_used(chain: &Chain, before: usize, count: u32, marks: &mut [bool])
    requires { before ≤ length marks.old }
    ensures length { length marks.new ≡ length marks.old }
    ensures marked { (at : ℕ) → IsNeededAt marks.new at ↔ (IsNeededAt marks.old at ⊎ ((at < before) × UsesClause chain.now (count + at + 1))) }
{
    mark(chain.start(), before, count, marks);
    for (_pivot, number) in chain.steps() {
        mark(*number, before, count, marks);
    }
}

// Marks the chain before place `before` whose end has this number, if there is one.
fn mark(number: u32, before: usize, count: u32, marks: &mut [bool])
    requires { before ≤ length marks.old }
    ensures length { length marks.new ≡ length marks.old }
    ensures marked { (at : ℕ) → IsNeededAt marks.new at ↔ (IsNeededAt marks.old at ⊎ ((at < before) × (number ≡ count + at + 1))) }
{
    if number <= count {
        return;
    }
    let at = (number - count - 1) as usize;
    if at < before {
        marks[at] = true;
    }
}
