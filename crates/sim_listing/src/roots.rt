//! The roots of the faults, the only faults that are simulated.

ghost use Rattle.std.specs.Prelude.{◌≡◌, ◌<◌, ◌^◌, ◌++◌, ◌∷◌, [], All, IfOk, OnOk, length, map, slice_index, if◌then◌else◌};
ghost use Rattle.fault_collapse.specs.ForestFields.{AreForestFields};
ghost use Rattle.sim_listing.specs.LaneAnswers.{AreEqualRoots};
ghost use Rattle.sim_listing.specs.RootPlaces.{AreOwnPlaces, AreRootPlaces};

use fault_collapse::{Forest, Subject};
use std::alloc::{AllocError, Global};

/// Roots of fault numbers, and for each number the place of its root among them.
#[derive(Debug, Drop)]
pub struct RootPlaces {
    pub roots: Vec<u32>,
    pub places: Vec<u32>,
}

/// Returns roots of a circuit's faults, and for each fault number the place of a root that is equal to it. Of the
/// faults that collapse into one, only the root is simulated.
pub fn root_places(alloc: Global, subject: &Subject) -> Result<RootPlaces, AllocError>
    ensures { IfOk result (λ found. AreEqualRoots subject.now found.roots.items found.places.items) }
{
    let found = forest_places(alloc, subject.forest())?;
    Ok(found)
}

// Returns the roots of the numbers, and for each number the place of its root.
fn forest_places(alloc: Global, forest: &Forest) -> Result<RootPlaces, AllocError>
    requires { AreForestFields forest.now }
    ensures { IfOk result (λ found. AreRootPlaces forest.now.roots found.roots.items found.places.items) }
{
    let all = forest.roots();
    let RootPlaces { roots, places } = own_roots(alloc, all)?;
    let places = places_of(alloc, all, places.as_slice())?;
    Ok(RootPlaces { roots, places })
}

// Returns numbers, the roots, and for each number that is its own root its place among them.
fn own_roots(alloc: Global, all: &[u32]) -> Result<RootPlaces, AllocError>
    requires { length all.now < 2 ^ 32 }
    ensures { IfOk result (λ found. AreOwnPlaces all.now (length all.now) found.roots.items found.places.items) }
{
    let mut found = RootPlaces {
        roots: Vec::new(alloc),
        places: Vec::with_capacity(alloc, all.len())?,
    };
    for (number, root) in all.iter().enumerate() {
        found.add(number as u32, *root == number as u32)?;
    }
    Ok(found)
}

impl RootPlaces {
    // Adds the next number.
    fn add(&mut self, number: u32, is_root: bool) -> Result<(), AllocError>
        requires { length self.old.roots.items < 2 ^ 32 }
        ensures roots { OnOk result (self.new.roots.items ≡ (if is_root then self.old.roots.items ++ number ∷ [] else self.old.roots.items)) }
        ensures places { OnOk result (self.new.places.items ≡ self.old.places.items ++ length self.old.roots.items ∷ []) }
    {
        self.places.push(self.roots.len() as u32)?;
        if is_root {
            self.roots.push(number)?;
        }
        Ok(())
    }
}

// Returns for each number the place of its root.
fn places_of(alloc: Global, all: &[u32], own: &[u32]) -> Result<Vec<u32>, AllocError>
    requires { All (λ root. root < length own.now) all.now }
    ensures { IfOk result (λ places. places.items ≡ map (slice_index own.now) all.now) }
{
    let mut places = Vec::with_capacity(alloc, all.len())?;
    for root in all {
        places.push(own[*root as usize])?;
    }
    Ok(places)
}
