//! Finds nodes and branches in the steps of a plan by their places.

ghost use Rattle.std.specs.Prelude.{◌≡◌, ◌+◌, ◌<◌, ◌≤◌, ◌^◌, Bool, List, length, drop, Option, option_and_then};
ghost use Rattle.net_model.specs.ClassTable.{same_bits};
ghost use Rattle.text_fields.specs.Fields.{digit_bits};
ghost use Rattle.adaptive_tree.specs.declared.steps.Step.TheVariants.{On};
ghost use Rattle.adaptive_tree.specs.PlanNode.{PlanNode, BeginsWithNode};
ghost use Rattle.adaptive_tree.specs.Walk.{next_node, branch_for, outcome_at as outcome_of_node};
ghost use Rattle.adaptive_tree.specs.Places.{IsWalkAt, IsWalkSomewhere, HasBranchesAt, nodes_behind};

use crate::outcome::Outcome;
use crate::steps::Step;
use packed_bits::PackedBits;

/// Returns the outcome of a walk that has come to `place`, or to no place.
pub(crate) fn outcome_at(steps: &[Step], place: Option<usize>) -> Outcome
    requires { IsWalkSomewhere steps.now place }
    ensures { (node : Option PlanNode) → IsWalkAt steps.now place node → result ≡ outcome_of_node node }
{
    let Some(at) = place else {
        return Outcome::Unknown;
    };
    match &steps[at] {
        Step::Ask(pattern, _) => Outcome::Ask(*pattern),
        Step::Class(class) => Outcome::Class(*class),
        Step::On(_) => Outcome::Unknown,
    }
}

/// Returns the place to which an answer leads from `place`, if there is one.
pub(crate) fn next_place(steps: &[Step], place: Option<usize>, digits: &[u8]) -> Option<usize>
    requires { IsWalkSomewhere steps.now place }
    ensures { (node : Option PlanNode) → IsWalkAt steps.now place node → IsWalkAt steps.now result (option_and_then (next_node (digit_bits digits.now)) node) }
{
    let at = place?;
    match &steps[at] {
        Step::Ask(_, branches) => branch_place(steps, at + 1, *branches, digits),
        Step::On(_) | Step::Class(_) => None,
    }
}

// Returns the place of the node of the branch for an answer, if it is one of the `count` branches that begin at
// `first`.
fn branch_place(steps: &[Step], first: usize, count: u32, digits: &[u8]) -> Option<usize>
    requires { HasBranchesAt steps.now first count }
    ensures { (given : HasBranchesAt steps.now first count) → IsWalkAt steps.now result (branch_for (digit_bits digits.now) given.branches) }
{
    let mut at = first;
    let mut left = count;
    while left > 0 {
        if is_branch_for(&steps[at], digits) {
            return Some(at + 1);
        }
        at = behind_node(steps, at + 1);
        left -= 1;
    }
    None
}

// Returns whether a step that begins a branch begins that for the answer of these digits.
fn is_branch_for(step: &Step, digits: &[u8]) -> bool
    ensures { (answer : List Bool) → step.now ≡ On answer → result ≡ same_bits answer (digit_bits digits.now) }
{
    match step {
        Step::On(answer) => is_same(answer, digits),
        Step::Ask(_, _) | Step::Class(_) => false,
    }
}

// Returns whether the digits spell these bits.
fn is_same(bits: &PackedBits, digits: &[u8]) -> bool
    ensures { result ≡ same_bits bits.now (digit_bits digits.now) }
{
    if bits.len() != digits.len() {
        return false;
    }
    for at in 0..digits.len() {
        if bits.get(at) != (digits[at] == b'1') {
            return false;
        }
    }
    true
}

// Returns the place after the node that begins at `from`.
fn behind_node(steps: &[Step], from: usize) -> usize
    requires { from ≤ length steps.now }
    ensures { (given : BeginsWithNode (drop from steps.now)) → drop result steps.now ≡ given.rest }
{
    // The number of nodes that are still to end, at most 1 and the sum of 32-bit counts over all steps.
    let mut left: u128 = 1;
    let mut at = from;
    while left > 0 && at < steps.len() {
        left = nodes_left(&steps[at], left);
        at += 1;
    }
    at
}

// Returns how many nodes are still to end after a step, if `left` were before it.
fn nodes_left(step: &Step, left: u128) -> u128
    requires some { 0 < left }
    requires small { left < 2 ^ 100 }
    ensures left { result ≡ nodes_behind step.now left }
    ensures few { result < left + 2 ^ 32 }
{
    match step {
        Step::Ask(_, branches) => left - 1 + *branches as u128,
        Step::On(_) => left,
        Step::Class(_) => left - 1,
    }
}
