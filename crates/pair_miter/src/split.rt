//! The split lines of a miter, in an evaluation order.

ghost use Rattle.std.specs.Prelude.{◌≡◌, ◌<◌, ◌++◌, true, [], ◌∷◌, IfOk, OnOk};
ghost use Rattle.net_model.specs.Circuit.{line_count};
ghost use Rattle.net_model.specs.Scope.{is_split};
ghost use Rattle.pair_miter.specs.SplitLines.{AreSplitLines, all_copies};

use crate::numbering::Numbering;
use crate::side::Side;
use std::alloc::{AllocError, Global};

/// The variables of a split line: in the copy under the first fault, and in that under the second.
#[derive(Clone, Copy, Debug)]
pub struct Copies {
    pub first: u32,
    pub second: u32,
}

/// Returns the copies of all split lines that have variables: of the sources, and then of the gates, each after those
/// that it reads.
pub(crate) fn split_lines(alloc: Global, numbering: &Numbering) -> Result<Vec<Copies>, AllocError>
    ensures { IfOk result (λ lines. AreSplitLines numbering.now.circuit numbering.now.f numbering.now.g lines.items) }
{
    let mut copies = Vec::new(alloc);
    for line in numbering.split_lines() {
        push_copies(&mut copies, numbering, *line)?;
    }
    Ok(copies)
}

// Adds the copies of a split line, if it has variables.
fn push_copies(copies: &mut Vec<Copies>, numbering: &Numbering, line: u32) -> Result<(), AllocError>
    requires line { line < line_count numbering.now.circuit }
    requires split { is_split numbering.now.circuit numbering.now.f numbering.now.g line ≡ true }
    ensures { OnOk result (copies.new.items ≡ copies.old.items ++ all_copies numbering.now.circuit numbering.now.f numbering.now.g (line ∷ [])) }
{
    if numbering.relevant(line) {
        copies.push(Copies {
            first: numbering.variable(Side::First, line),
            second: numbering.variable(Side::Second, line),
        })?;
    }
    Ok(())
}
