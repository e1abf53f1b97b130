//! The way down from a cube, split by split, to a decided one.

ghost use Rattle.std.specs.Prelude.{◌≡◌, IfOk};
ghost use Rattle.pair_sets.specs.PairSim.{with_cube};
ghost use Rattle.distinguish_search.specs.Frames.{IsUnderWay, SplitsOn};
ghost use Rattle.distinguish_search.specs.End.{IsSearchEnd};

use crate::end::End;
use crate::frames::Frame;
use crate::rule::Rule;
use crate::stack::Stack;
use crate::walk::choose;
use pair_sets::{PairSim, PairState};
use std::alloc::AllocError;

/// Splits the cube, then a half of it, and so on, until it is decided. If no further leaf may be closed (`full`), it
/// splits nothing.
pub(crate) fn descend(
    sim: &mut PairSim,
    stack: &mut Stack,
    rule: Rule,
    full: bool,
) -> Result<End, AllocError>
    requires { IsUnderWay sim.old.circuit sim.old.f sim.old.g sim.old stack.old }
    ensures circuit { sim.new.circuit ≡ sim.old.circuit }
    ensures faults { sim.new ≡ with_cube sim.old sim.new.cube }
    ensures under_way { IfOk result (λ end. IsUnderWay sim.old.circuit sim.old.f sim.old.g sim.new stack.new) }
    ensures splits { IfOk result (λ end. SplitsOn sim.old.circuit.sources stack.old stack.new) }
    ensures ends { IfOk result (IsSearchEnd sim.old.circuit sim.old.f sim.old.g sim.new.cube full) }
{
    loop {
        match sim.state() {
            PairState::Apart(_) => return Ok(End::Apart),
            PairState::AllSame => return Ok(End::Leaf),
            PairState::Undecided => {}
        }
        if full {
            return Ok(End::Leaf);
        }
        let choice = choose(sim, rule, stack.place());
        stack.push(Frame {
            source: choice.source,
            bit: choice.bit,
            half: None,
            place: choice.place,
        })?;
        sim.assign(choice.source, choice.bit);
    }
}
