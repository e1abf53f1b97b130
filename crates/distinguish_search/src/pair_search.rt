//! `search`, the search for one pair of faults, with a simulation and levels of its own.

ghost use Rattle.std.specs.Prelude.{◌≡◌, ◌≤◌, IfOk, length};
ghost use Rattle.net_model.specs.Fault.{IsFaultOf};
ghost use Rattle.distinguish_search.specs.Found.{IsFound};
ghost use Rattle.distinguish_search.specs.Searched.{HasBits};

use crate::depth_first::search_with;
use crate::found::Found;
use crate::levels::Levels;
use crate::searched::Searched;
use net_model::{Bits, Circuit, Fault, Vector};
use pair_sets::PairSim;
use std::alloc::{AllocError, Global};

/// Searches for a vector that separates faults `f` and `g` of `circuit`, with a simulation and levels of its own. It
/// closes at most `leaves` leaves, 1 or more. Returns `Covered` only if the tree is right for the faults and has no
/// open leaf and at most `leaves` closed ones, and `Spent` only if the tree is right for the faults and has an open
/// leaf and exactly `leaves` closed ones.
pub fn search(
    alloc: Global,
    circuit: &Circuit,
    f: &Fault,
    g: &Fault,
    leaves: u32,
) -> Result<Found, AllocError>
    requires first { IsFaultOf circuit.now f.now }
    requires second { IsFaultOf circuit.now g.now }
    requires leaves { 1 ≤ leaves }
    ensures { IfOk result (IsFound circuit.now f.now g.now leaves) }
{
    let levels = Levels::new(alloc, circuit)?;
    let mut sim = PairSim::new(alloc, circuit, f, g)?;
    match search_with(alloc, &mut sim, &levels, f, g, leaves)? {
        Searched::Apart(cube) => Ok(Found::Vector(vector_of(alloc, &cube)?)),
        Searched::Covered(tree) => Ok(Found::Covered(tree)),
        Searched::Spent(tree) => Ok(Found::Spent(tree)),
    }
}

// Returns a vector of `cube`, with 0 at each free source.
fn vector_of(alloc: Global, cube: &[Option<bool>]) -> Result<Vector, AllocError>
    ensures width { IfOk result (λ v. length v ≡ length cube.now) }
    ensures bits { IfOk result (HasBits cube.now) }
{
    let mut v = Bits::zeros(alloc, cube.len())?;
    for (source, bit) in cube.iter().enumerate() {
        v.set(source, bit.unwrap_or(false));
    }
    Ok(v)
}
