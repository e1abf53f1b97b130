//! Logs, as written.

use crate::tests::lines::{is_same, tree_of};
use clause_pool::Lit;
use pair_miter::{Chain, Log};
use pair_sets::Token;
use result_file::Proof;
use std::alloc::{AllocError, Global};
use std::test::Fail;

// Adds a chain that starts at clause `start`.
fn push_chain(
    alloc: Global,
    log: &mut Log,
    start: u32,
    at: Option<Lit>,
    steps: &[(Lit, u32)],
) -> Result<(), AllocError> {
    let mut chain = Chain::new(alloc, start, at);
    push_steps(&mut chain, steps)?;
    log.push(chain)
}

fn push_steps(chain: &mut Chain, steps: &[(Lit, u32)]) -> Result<(), AllocError> {
    for (lit, clause) in steps {
        chain.push(*lit, *clause)?;
    }
    Ok(())
}

fn push_refutation(alloc: Global, log: &mut Log) -> Result<(), AllocError> {
    let steps = [(Lit::new(5, false), 11), (Lit::new(4, false), 6)];
    push_chain(alloc, log, 8, None, &steps)?;
    push_chain(alloc, log, 12, None, &[])
}

// Returns whether a refutation is written as the line, after an open tree.
fn is_refuted(alloc: Global, line: &str) -> Result<bool, Fail> {
    let mut log = Log::new(alloc);
    push_refutation(alloc, &mut log)?;
    let tree = tree_of(alloc, &[Token::Rest])?;
    is_same(alloc, (10, 0), Proof::Refuted(tree, log), line)
}

#[test]
fn a_refutation_is_a_line(rt: HostRuntime) -> Result<(), Fail> {
    assert!(rt; is_refuted(rt.alloc(), "same 10 0 R ? ; 8 -5 11 -4 6 ; 12\n")?);
    Ok(())
}

fn push_spent(alloc: Global, log: &mut Log) -> Result<(), AllocError> {
    let steps = [(Lit::new(5, false), 11)];
    push_chain(alloc, log, 8, Some(Lit::new(3, false)), &steps)?;
    push_chain(alloc, log, 1, Some(Lit::new(2, true)), &[])
}

// Returns whether a spent log is written as the line, after an open tree.
fn is_spent(alloc: Global, line: &str) -> Result<bool, Fail> {
    let mut log = Log::new(alloc);
    push_spent(alloc, &mut log)?;
    let tree = tree_of(alloc, &[Token::Rest])?;
    is_same(alloc, (10, 0), Proof::Spent(tree, log), line)
}

#[test]
fn a_spent_log_names_its_literals(rt: HostRuntime) -> Result<(), Fail> {
    assert!(rt; is_spent(rt.alloc(), "same 10 0 O ? ; -3 8 -5 11 ; 2 1\n")?);
    Ok(())
}
