//! Runs of `faults`.

use crate::tests::runs::FileText::{self, Has, Is};
use crate::tests::runs::left_by;
use crate::tests::texts::{AND, C17, MUX, S27};
use std::test::Fail;

// A netlist, and what is printed.
static LISTED: [(&[u8], FileText<'static>); 7] = [
    (
        AND,
        Is(
            b"0 0 free\n1 5 S a 0\n2 2 S a 1\n3 5 S b 0\n4 4 S b 1\n5 5 S z 0\n6 6 S z 1\nfaults 6 roots 4\n",
        ),
    ),
    (
        b"input(INPUT)\nAND=and(INPUT)\nOUTPUT=BUF(AND)\nOutput(OUTPUT)\n",
        Is(
            b"0 0 free\n1 5 S INPUT 0\n2 6 S INPUT 1\n3 5 S AND 0\n4 6 S AND 1\n5 5 S OUTPUT 0\n6 6 S OUTPUT 1\nfaults 6 roots 2\n",
        ),
    ),
    (
        MUX,
        Is(
            b"0 0 free\n1 1 S s 0\n2 2 S s 1\n3 3 S a 0\n4 4 S a 1\n5 5 S b 0\n6 6 S b 1\n7 7 S z 0\n8 8 S z 1\nfaults 8 roots 8\n",
        ),
    ),
    (C17, Has(b"\n7 16 G 3 10 1 0\n")),
    (C17, Has(b"\n15 32 S 10 0\n")),
    (C17, Has(b"\nfaults 34 roots 22\n")),
    (S27, Has(b"\nfaults 52 roots 32\n")),
];

#[test]
fn faults_of_small_circuits(rt: HostRuntime) -> Result<(), Fail> {
    for (at, (netlist, console)) in LISTED.iter().enumerate() {
        let left = left_by(rt.alloc(), 100, &[], &[("n", *netlist)], &["faults", "n"])?;
        assert!(rt; left.ended(0, *console), "case {at}");
    }
    Ok(())
}
