//! Which source a split fixes, and at which bit first: the walk from an undecided reached position back to a free
//! source that can still decide it.

ghost use Rattle.std.specs.Prelude.{◌≤◌, MatchOption, length};
ghost use Rattle.distinguish_search.specs.Open.{IsPositionOpen, AreDecided};
ghost use Rattle.net_model.specs.Scope.{reached_positions};
ghost use Rattle.pair_sets.specs.CubeState.{IsState};
ghost use Rattle.pair_sets.specs.Tree.{IsRightAt};
ghost use Rattle.pair_sets.specs.declared.state.PairState.TheVariants.{Undecided};
ghost use Rattle.pair_sets.specs.declared.tree.Token.TheVariants.{Split};

use crate::rule::Rule;
use crate::step::{Objective, asked_bit, step_back};
use pair_sets::PairSim;

/// A free source to split, the bit at which it is tried first, and the place of the reached position that asks for it.
#[derive(Clone, Copy)]
pub(crate) struct SourceChoice {
    pub(crate) source: u32,
    pub(crate) bit: bool,
    pub(crate) place: usize,
}

/// Returns a source by which the undecided cube can be split. It tries the reached positions at place `from` and after
/// it first: those before it are most often decided.
pub(crate) fn choose(sim: &PairSim, rule: Rule, from: usize) -> SourceChoice
    requires { IsState sim.now.circuit sim.now.f sim.now.g sim.now.cube Undecided }
    ensures { IsRightAt sim.now.circuit sim.now.f sim.now.g (Split result.source) sim.now.cube }
{
    let circuit = sim.circuit();
    let place = open_place(sim, from);
    let at = sim.reached()[place];
    let mut here = Objective {
        line: circuit.positions()[at as usize],
        bit: true,
    };
    for _step in 0..circuit.lines() + 1 {
        let Objective { line, bit } = here;
        if line < circuit.sources() {
            return SourceChoice {
                source: line,
                bit: asked_bit(sim.pairs(line), bit, bit),
                place,
            };
        }
        here = step_back(sim, rule, here);
    }
    unreachable!()
}

// Returns the place of a reached position at which the faults may answer alike and may answer differently.
fn open_place(sim: &PairSim, from: usize) -> usize
    requires { IsState sim.now.circuit sim.now.f sim.now.g sim.now.cube Undecided }
    ensures { IsPositionOpen sim.now.circuit sim.now.f sim.now.g sim.now.cube result }
{
    let count = sim.reached().len();
    let from = from.min(count);
    if let Some(place) = first_open(sim, from, count) {
        return place;
    }
    match first_open(sim, 0, from) {
        Some(place) => place,
        None => unreachable!(),
    }
}

// Returns the first such place at `from` or after it and before `end`, if there is one.
fn first_open(sim: &PairSim, from: usize, end: usize) -> Option<usize>
    requires { end ≤ length (reached_positions sim.now.circuit sim.now.f sim.now.g) }
    ensures { MatchOption result (AreDecided sim.now.circuit sim.now.f sim.now.g sim.now.cube from end) (IsPositionOpen sim.now.circuit sim.now.f sim.now.g sim.now.cube) }
{
    let reached = sim.reached();
    for place in from..end {
        let pairs = sim.position_pairs(reached[place]);
        if !(pairs.only_equal() | pairs.only_unequal()) {
            return Some(place);
        }
    }
    None
}
