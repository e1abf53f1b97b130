//! A tree of one split, right and wrong, over an OR of a line and its negation with its output stuck at 1.

use crate::tests::logs::is_refusal;
use net_model::{Circuit, Fault, Site};
use pair_sets::Token::{Closed, Rest, Split};
use pair_sets::{Token, Tree};
use refute_check::EvidenceKind::{self, Covered, Spent};
use refute_check::RefusalKind::{self, BadTree, LeafOpen, WrongCount};
use refute_check::{TreeChecker, check_tree};
use sample_circuits::{NOT_AND_OR, circuit, stands};
use std::alloc::Global;
use std::test::Fail;

// A kind of evidence, how many cubes may be closed, a tree, and its refusal, or none.
type Judged = (
    EvidenceKind,
    u32,
    &'static [Token],
    Option<(RefusalKind, u64)>,
);

const TREES: &[Judged] = &[
    (Covered, 64, &[Split(0), Closed, Closed], None),
    (Covered, 64, &[Closed], Some((LeafOpen, 0))),
    (
        Covered,
        64,
        &[Split(0), Closed, Rest],
        Some((WrongCount, 3)),
    ),
    (
        Covered,
        1,
        &[Split(0), Closed, Closed],
        Some((WrongCount, 3)),
    ),
    (Covered, 64, &[Split(0), Closed], Some((BadTree, 2))),
    (Covered, 64, &[Split(1), Closed, Closed], Some((BadTree, 0))),
    (
        Covered,
        64,
        &[Split(0), Split(0), Closed, Closed],
        Some((BadTree, 1)),
    ),
    (
        Covered,
        64,
        &[Split(0), Closed, Closed, Closed],
        Some((BadTree, 3)),
    ),
    (Spent, 0, &[Rest], None),
    (Spent, 1, &[Rest], Some((WrongCount, 1))),
];

// Returns whether the checker says of a tree what is wanted, alone and after the tree of another pair.
fn is_judged(alloc: Global, case: &Judged) -> Result<bool, Fail> {
    let circuit = circuit(alloc, NOT_AND_OR)?;
    is_judged_in(alloc, &circuit, case)
}

// As `is_judged`, for that circuit.
fn is_judged_in(alloc: Global, circuit: &Circuit, case: &Judged) -> Result<bool, Fail> {
    let (kind, cubes, tokens, wanted) = *case;
    let stuck = Fault::Stuck(Site::Stem(2), true);
    if !stands(circuit, stuck) {
        return Err(Fail::new("the fault doesn't stand"));
    }
    let mut tree = Tree::new(alloc);
    tree.extend(tokens)?;
    let mut closed = Tree::new(alloc);
    closed.push(Closed)?;
    let alone = check_tree(alloc, circuit, &Fault::Free, &stuck, &tree, kind, cubes);
    let mut trees = TreeChecker::new(alloc, circuit);
    let before = trees.check(&Fault::Free, &Fault::Free, &closed, Covered, 64);
    let behind = trees.check(&Fault::Free, &stuck, &tree, kind, cubes);
    Ok(before.is_ok() && is_refusal(alone, wanted) && is_refusal(behind, wanted))
}

#[test]
fn trees_are_checked(rt: HostRuntime) -> Result<(), Fail> {
    for (at, case) in TREES.iter().enumerate() {
        assert!(rt; is_judged(rt.alloc(), case)?, "case {at}");
    }
    Ok(())
}
