//! `search_with`, the search depth first: one run, and a second one if the first is spent.

ghost use Rattle.std.specs.Prelude.{◌≡◌, ◌≤◌, ◌∷◌, [], IfOk, if◌then◌else◌};
ghost use Rattle.std.specs.List.{list_any};
ghost use Rattle.net_model.specs.Fault.{IsFaultOf};
ghost use Rattle.pair_sets.specs.PairSim.{pair_sim, with_cube};
ghost use Rattle.distinguish_search.specs.End.{leaf_token};
ghost use Rattle.distinguish_search.specs.Frames.{is_open_leaf};
ghost use Rattle.distinguish_search.specs.Searched.{IsSearched};

use crate::climb::climb;
use crate::descent::descend;
use crate::end::End;
use crate::levels::Levels;
use crate::rule::Rule;
use crate::searched::Searched;
use crate::stack::Stack;
use net_model::Fault;
use pair_sets::{PairSim, Token, Tree};
use std::alloc::{AllocError, Global};

/// Searches for a cube whose vectors all separate faults `f` and `g` of the simulation's circuit. As in PODEM, it
/// splits undecided cubes only by sources that can still decide them, found by walks back from reached positions. It
/// closes at most `leaves` leaves, 1 or more; the cubes that are then left stay open. If a first run spends the leaves,
/// a second run has as many again and weighs the pins of its walks differently, and its result is returned. Returns
/// `Covered` only if the tree is right for the faults and has no open leaf and at most `leaves` closed ones, and
/// `Spent` only if the tree is right for the faults and has an open leaf and exactly `leaves` closed ones.
///
/// Each run restarts the simulation, whatever its faults and its cube are, so one simulation serves every search in a
/// circuit. The stack of a run is in memory from `alloc`, and grows by a frame for each source that is fixed. After an
/// error, too, the simulation is of the same circuit and of these two faults, under some cube.
pub fn search_with(
    alloc: Global,
    sim: &mut PairSim,
    levels: &Levels,
    f: &Fault,
    g: &Fault,
    leaves: u32,
) -> Result<Searched, AllocError>
    requires first { IsFaultOf sim.old.circuit f.now }
    requires second { IsFaultOf sim.old.circuit g.now }
    requires leaves { 1 ≤ leaves }
    ensures found { IfOk result (IsSearched sim.old.circuit f.now g.now leaves) }
    ensures circuit { sim.new.circuit ≡ sim.old.circuit }

    // Whatever is returned, the simulation is of the two faults, under some cube.
    ensures faults { sim.new ≡ pair_sim sim.old.circuit f.now g.now sim.new.cube }
{
    let by_bit = Rule {
        levels,
        differences_first: false,
    };
    let by_difference = Rule {
        levels,
        differences_first: true,
    };
    match run(alloc, sim, by_bit, f, g, leaves)? {
        Searched::Apart(cube) => Ok(Searched::Apart(cube)),
        Searched::Covered(tree) => Ok(Searched::Covered(tree)),
        Searched::Spent(_tree) => run(alloc, sim, by_difference, f, g, leaves),
    }
}

// Does one run of the search, with walks by `rule`.
fn run(
    alloc: Global,
    sim: &mut PairSim,
    rule: Rule,
    f: &Fault,
    g: &Fault,
    leaves: u32,
) -> Result<Searched, AllocError>
    requires leaves { 1 ≤ leaves }
    requires first { IsFaultOf sim.old.circuit f.now }
    requires second { IsFaultOf sim.old.circuit g.now }
    ensures circuit { sim.new.circuit ≡ sim.old.circuit }
    ensures faults { sim.new ≡ pair_sim sim.old.circuit f.now g.now sim.new.cube }
    ensures found { IfOk result (IsSearched sim.old.circuit f.now g.now leaves) }
{
    let mut stack = Stack::new(alloc);
    sim.restart(f, g);
    go_through(alloc, sim, &mut stack, rule, leaves)
}

// Searches the cube of all vectors, with an empty stack.
fn go_through(
    alloc: Global,
    sim: &mut PairSim,
    stack: &mut Stack,
    rule: Rule,
    leaves: u32,
) -> Result<Searched, AllocError>
    requires leaves { 1 ≤ leaves }
    requires first { IsFaultOf sim.old.circuit sim.old.f }
    requires second { IsFaultOf sim.old.circuit sim.old.g }
    requires all { sim.old.cube ≡ [] }
    requires empty { stack.old ≡ [] }
    ensures circuit { sim.new.circuit ≡ sim.old.circuit }
    ensures faults { sim.new ≡ with_cube sim.old sim.new.cube }
    ensures found { IfOk result (IsSearched sim.old.circuit sim.old.f sim.old.g leaves) }
{
    let circuit = sim.circuit();
    let mut closed = 0;
    loop {
        let full = closed == leaves;
        match descend(sim, stack, rule, full)? {
            End::Leaf => {}
            End::Apart => return Ok(Searched::Apart(stack.cube(alloc, circuit.sources())?)),
        }
        if !full {
            closed += 1;
        }
        let tree = leaf(alloc, full)?;
        match climb(alloc, sim, stack, tree)? {
            Some(tree) => return Ok(finished(tree)),
            None => {}
        }
    }
}

// Returns a tree of one leaf, which is open if `full` holds, else closed.
fn leaf(alloc: Global, full: bool) -> Result<Tree, AllocError>
    ensures { IfOk result (λ tree. tree ≡ leaf_token full ∷ []) }
{
    let token = if full { Token::Rest } else { Token::Closed };
    let mut tree = Tree::new(alloc);
    tree.push(token)?;
    Ok(tree)
}

// Returns a whole tree as spent if it has an open leaf, else as covered.
fn finished(tree: Tree) -> Searched
    ensures { result ≡ (if list_any is_open_leaf tree then Searched.Spent tree else Searched.Covered tree) }
{
    if has_open(tree.as_slice()) {
        Searched::Spent(tree)
    } else {
        Searched::Covered(tree)
    }
}

// Returns whether some leaf is open.
fn has_open(tokens: &[Token]) -> bool
    ensures { result ≡ list_any is_open_leaf tokens.now }
{
    tokens.iter().any(|token| is_open_leaf(*token))
}

fn is_open_leaf(token: Token) -> bool
    ensures { result ≡ is_open_leaf token }
{
    matches!(token, Token::Rest)
}
