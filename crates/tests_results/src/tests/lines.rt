//! One record of each kind, as written.

use net_model::Bits;
use pair_miter::Log;
use pair_sets::{Token, Tree};
use result_file::{Budgets, Evidence, Mark, Proof, Record, write_record};
use std::alloc::{AllocError, Global};
use std::test::Fail;

/// Returns whether the record is written as the line.
pub(crate) fn is_written(alloc: Global, record: &Record, line: &str) -> Result<bool, Fail> {
    let written = write_record(alloc, record)?;
    Ok(written.as_slice() == line.as_bytes())
}

/// Returns whether a member with its partner and a proof are written as the line.
pub(crate) fn is_same(
    alloc: Global,
    (member, partner): (u32, u32),
    proof: Proof,
    line: &str,
) -> Result<bool, Fail> {
    let record = Record::Same(Evidence {
        member,
        partner,
        proof,
    });
    is_written(alloc, &record, line)
}

/// Returns a tree of these tokens.
pub(crate) fn tree_of(alloc: Global, tokens: &[Token]) -> Result<Tree, AllocError> {
    let mut tree = Tree::new(alloc);
    push_all(&mut tree, tokens)?;
    Ok(tree)
}

fn push_all(tree: &mut Tree, tokens: &[Token]) -> Result<(), AllocError> {
    for token in tokens {
        tree.push(*token)?;
    }
    Ok(())
}

fn is_line(alloc: Global, record: Record, line: &str) -> Result<bool, Fail> {
    is_written(alloc, &record, line)
}

fn is_budget(alloc: Global, line: &str) -> Result<bool, Fail> {
    let budgets = Budgets {
        blocks: 4,
        cubes: 64,
        conflicts: 2000,
    };
    is_line(alloc, Record::Budget(budgets), line)
}

fn are_ends(alloc: Global) -> Result<bool, Fail> {
    Ok(
        is_line(alloc, Record::Head(2, 1, 7), "diatest 1 2 1 7\n")?
            && is_budget(alloc, "budget 4 64 2000\n")?
            && is_line(alloc, Record::End, "end\n")?,
    )
}

#[test]
fn ends_are_lines(rt: HostRuntime) -> Result<(), Fail> {
    assert!(rt; are_ends(rt.alloc())?);
    Ok(())
}

const CLASSES: &[(u32, Option<(u32, u32)>, &str)] = &[
    (0, None, "class 0 - -\n"),
    (3, Some((0, 2)), "class 3 0 2\n"),
];

#[test]
fn classes_are_lines(rt: HostRuntime) -> Result<(), Fail> {
    for (number, birth, line) in CLASSES {
        assert!(rt;
            is_line(rt.alloc(), Record::Class(*number, *birth), line)?,
            "{line}"
        );
    }
    Ok(())
}

const MEMBERS: &[(u32, u32, Mark, &str)] = &[
    (0, 0, Mark::Rep, "member 0 0 rep\n"),
    (3, 4, Mark::Equal, "member 3 4 equal\n"),
    (5, 4, Mark::Spent, "member 5 4 open\n"),
];

#[test]
fn members_are_lines(rt: HostRuntime) -> Result<(), Fail> {
    for (number, class, mark, line) in MEMBERS {
        assert!(rt;
            is_line(rt.alloc(), Record::Member(*number, *class, *mark), line)?,
            "{line}"
        );
    }
    Ok(())
}

// Returns whether bits are written as the line, after bit 1 is set if there is one.
fn is_pattern(alloc: Global, width: usize, line: &str) -> Result<bool, Fail> {
    let mut bits = Bits::zeros(alloc, width)?;
    if width > 1 {
        bits.set(1, true);
    }
    let record = Record::Pattern(bits);
    is_written(alloc, &record, line)
}

#[test]
fn patterns_are_lines(rt: HostRuntime) -> Result<(), Fail> {
    assert!(rt; is_pattern(rt.alloc(), 3, "pattern 010\n")?);
    assert!(rt; is_pattern(rt.alloc(), 0, "pattern -\n")?);
    Ok(())
}

fn is_spent(alloc: Global, line: &str) -> Result<bool, Fail> {
    let tree = tree_of(alloc, &[Token::Rest])?;
    is_same(alloc, (3, 1), Proof::Spent(tree, Log::new(alloc)), line)
}

fn is_covered(alloc: Global, line: &str) -> Result<bool, Fail> {
    let tree = tree_of(alloc, &[Token::Split(10), Token::Closed, Token::Closed])?;
    is_same(alloc, (8, 0), Proof::Covered(tree), line)
}

#[test]
fn proofs_are_lines(rt: HostRuntime) -> Result<(), Fail> {
    assert!(rt; is_spent(rt.alloc(), "same 3 1 O ?\n")?);
    assert!(rt; is_covered(rt.alloc(), "same 8 0 T 10 . .\n")?);
    assert!(rt; is_same(rt.alloc(), (7, 4), Proof::Collapse, "same 7 4 C\n")?);
    Ok(())
}
