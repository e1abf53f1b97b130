//! The way up from a finished tree to the next split whose other half is left.

ghost use Rattle.std.specs.Prelude.{◌≡◌, ◌∷◌, ◌++◌, IfOk, if◌then◌else◌};
ghost use Rattle.pair_sets.specs.declared.tree.Token.TheVariants.{Split};
ghost use Rattle.pair_sets.specs.PairSim.{with_cube};
ghost use Rattle.pair_sets.specs.Subtree.{IsSubtree};
ghost use Rattle.distinguish_search.specs.Frames.{IsUnderWay, IsClimbed};

use crate::frames::Frame;
use crate::stack::Stack;
use pair_sets::{PairSim, Token, Tree};
use std::alloc::{AllocError, Global};

/// Finishes the cube of the simulation with its tree `tree`, and with it each split whose second half it completes.
/// Returns the whole tree if no split is left. Else it begins the second half of the split whose first half is
/// finished, and returns none.
pub(crate) fn climb(
    alloc: Global,
    sim: &mut PairSim,
    stack: &mut Stack,
    tree: Tree,
) -> Result<Option<Tree>, AllocError>
    requires under_way { IsUnderWay sim.old.circuit sim.old.f sim.old.g sim.old stack.old }
    requires tree { IsSubtree sim.old.circuit sim.old.f sim.old.g sim.old.cube tree }
    ensures circuit { sim.new.circuit ≡ sim.old.circuit }
    ensures faults { sim.new ≡ with_cube sim.old sim.new.cube }
    ensures climbed { IfOk result (IsClimbed sim.old.circuit sim.old.f sim.old.g tree stack.old sim.new stack.new) }
{
    let mut tree = tree;
    while let Some(frame) = stack.pop() {
        sim.undo();
        let Frame {
            source,
            bit,
            half,
            place,
        } = frame;
        match half {
            None => {
                stack.push(Frame {
                    source,
                    bit: !bit,
                    half: Some(tree),
                    place,
                })?;
                sim.assign(source, !bit);
                return Ok(None);
            }
            Some(other) => tree = joined(alloc, source, bit, &tree, &other)?,
        }
    }
    Ok(Some(tree))
}

// Returns the tree of a split of `source`, from its tree `here` at `bit` and its tree `other` at the other bit.
fn joined(
    alloc: Global,
    source: u32,
    bit: bool,
    here: &Tree,
    other: &Tree,
) -> Result<Tree, AllocError>
    ensures { IfOk result (λ tree. tree ≡ (if bit then Split source ∷ other.now ++ here.now else Split source ∷ here.now ++ other.now)) }
{
    let (zero, one) = if bit { (other, here) } else { (here, other) };
    let mut tree = Tree::new(alloc);
    tree.push(Token::Split(source))?;
    tree.extend(zero.as_slice())?;
    tree.extend(one.as_slice())?;
    Ok(tree)
}
