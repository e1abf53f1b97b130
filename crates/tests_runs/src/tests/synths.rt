//! Runs of `synth`.

use crate::tests::runs::FileText::{Absent, Any, Begins, Is};
use crate::tests::runs::{Left, is_accepted, plain};
use std::alloc::{AllocError, Global};
use std::test::Fail;
use synth_netlist::synth_text;

// The netlist of 2, by the first two outputs of SplitMix64 from the seed 2.
#[test]
fn a_netlist_of_two_cells(rt: HostRuntime) -> Result<(), Fail> {
    let text: &[u8] =
        b"INPUT(c0)\nINPUT(x0)\nINPUT(y0)\nOUTPUT(s0)\np0=NAND(x0,y0)\nq0=NAND(x0,c0)\ns0=NOR(p0,q0)\nc1=NOR(p0,c0)\nINPUT(x1)\nINPUT(y1)\nOUTPUT(s1)\np1=OR(x1,y1)\nq1=AND(x1,c1)\ns1=NAND(p1,q1)\nc2=NOR(p1,c1)\nOUTPUT(c2)\n";
    assert!(rt; synth_text(rt.alloc(), 2)?.as_slice() == text);
    Ok(())
}

// Whether a run with one name for both files leaves the result in place of the netlist, with the same console.
fn replaces(alloc: Global, left: &Left) -> Result<bool, Fail> {
    let output = left.copy_of(alloc, "r")?;
    let again = plain(alloc, &[], &["synth", "8", "r", "r"])?;
    Ok(
        again.ended(0, Is(left.console()))
            && again.holds("r", Is(&output))
            && again.holds("n", Absent),
    )
}

// Whether a run with two names leaves the netlist, and such a result.
fn is_synthesized(alloc: Global, left: &Left) -> Result<bool, AllocError> {
    let netlist = synth_text(alloc, 8)?;
    Ok(
        left.ended(0, Any)
            && left.holds("n", Is(&netlist))
            && left.holds("r", Begins(b"diatest 1 17 9 195\nbudget 4 16 100\n")),
    )
}

fn is_right(alloc: Global, left: &Left) -> Result<bool, Fail> {
    Ok(
        is_synthesized(alloc, left)?
            && is_accepted(alloc, left)?
            && replaces(alloc, left)?
            && is_repeated(alloc, "8", left)?,
    )
}

#[test]
fn results_of_a_netlist_by_number(rt: HostRuntime) -> Result<(), Fail> {
    let left = plain(rt.alloc(), &[], &["synth", "8", "n", "r"])?;
    assert!(rt; is_right(rt.alloc(), &left)?);
    Ok(())
}

// Whether a run of the same words leaves the same, for the given number of cells.
fn is_repeated(alloc: Global, cells: &str, left: &Left) -> Result<bool, Fail> {
    let again = plain(alloc, &[], &["synth", cells, "n", "r"])?;
    Ok(
        again.ended(0, Is(left.console()))
            && again.holds_same(left, "n")
            && again.holds_same(left, "r"),
    )
}

fn is_of_fifty(alloc: Global, left: &Left) -> Result<bool, Fail> {
    let begun = left.holds("r", Begins(b"diatest 1 101 51 1203\nbudget 4 16 100\n"));
    Ok(left.ended(0, Any) && begun && is_repeated(alloc, "50", left)? && is_accepted(alloc, left)?)
}

#[test]
fn a_result_of_fifty_cells(rt: HostRuntime) -> Result<(), Fail> {
    let left = plain(rt.alloc(), &[], &["synth", "50", "n", "r"])?;
    assert!(rt; is_of_fifty(rt.alloc(), &left)?);
    Ok(())
}
