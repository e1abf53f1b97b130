//! The faults of a circuit and their numbers.

ghost use Rattle.std.specs.Prelude.{◌≡◌, ◌<◌, ◌^◌, ◌↔◌, ℕ, All, IfOk, Some, flat_map, length, map, slice_get};
ghost use Rattle.net_model.specs.Circuit.{all_lines};
ghost use Rattle.net_model.specs.Fault.{IsFaultOf};
ghost use Rattle.net_model.specs.FaultList.{destinations, sites_of_line, faults};

use crate::destinations::destinations;
use crate::slots::{place_of, places, starts};
use net_model::{Circuit, Fault, GrowingLists, Site};
use std::alloc::{AllocError, Global};
use std::marker::Model;

// A line with at least this many destinations has each of them as a branch.
const FAN_OUT: usize = 2;

/// The faults of a circuit in order of their numbers. Number 0 is the fault-free circuit.
#[derive(Debug, Drop)]
pub struct FaultList {
    sites: Vec<Site>,
    starts: Vec<u32>,
    places: Vec<u32>,
}

impl Model for FaultList {
    ghost use Rattle.std.specs.Prelude.{List};
    ghost use Rattle.net_model.specs.declared.fault.Fault.{Fault};
    ghost use Rattle.fault_list.specs.Numbers.{faults_at, HasSiteNumbers};

    ghost Value = { List Fault };

    ghost view = { λ l. faults_at l.sites.items };

    ghost invariant = { λ l. HasSiteNumbers l.starts.items l.places.items l.sites.items };
}

/// Returns all faults of a circuit: fewer than 2^27, number 0 included.
pub fn list(alloc: Global, circuit: &Circuit) -> Result<FaultList, AllocError>
    ensures faults { IfOk result (λ listed. listed ≡ faults circuit.now) }
    ensures stand { IfOk result (λ listed. All (IsFaultOf circuit.now) listed) }
    ensures few { IfOk result (λ listed. length listed < 2 ^ 27) }
{
    let sites = sites(alloc, circuit, &destinations(alloc, circuit)?)?;
    let starts = starts(alloc, circuit)?;
    let places = places(alloc, circuit, starts.as_slice(), sites.as_slice())?;
    Ok(FaultList {
        sites,
        starts,
        places,
    })
}

impl FaultList {
    /// Returns how many numbers there are, number 0 included.
    pub fn len(&self) -> u32
        ensures value { result ≡ length self.now }
        ensures few { result < 2 ^ 27 }
    {
        1 + 2 * self.sites.len() as u32
    }

    /// Returns the fault with a number.
    pub fn get(&self, number: u32) -> Fault
        requires { number < length self.now }
        ensures value { slice_get self.now number ≡ Some result }
        ensures free { number ≡ 0 → result ≡ Fault.Free }
    {
        let sites = self.sites.as_slice();
        if number == 0 {
            return Fault::Free;
        }
        let place = number - 1;
        Fault::Stuck(sites[(place / 2) as usize], place % 2 == 1)
    }

    /// Returns the number of a fault, or none exactly if the list doesn't have the fault. A branch of a line with one
    /// destination is in no list.
    pub fn number_of(&self, fault: &Fault) -> Option<u32>
        ensures { (number : ℕ) → (result ≡ Some number) ↔ (slice_get self.now number ≡ Some fault.now) }
    {
        let sites = self.sites.as_slice();
        match *fault {
            Fault::Free => Some(0),
            Fault::Stuck(site, bit) => {
                let place = place_of(self.starts.as_slice(), self.places.as_slice(), sites, site)?;
                Some(1 + 2 * place + u32::from(bit))
            }
        }
    }
}

// Returns the sites of all lines, in order of the list.
fn sites(
    alloc: Global,
    circuit: &Circuit,
    readers: &GrowingLists<Site>,
) -> Result<Vec<Site>, AllocError>
    requires { readers.now ≡ map (destinations circuit.now) (all_lines circuit.now) }
    ensures sites { IfOk result (λ found. found.items ≡ flat_map (sites_of_line circuit.now) (all_lines circuit.now)) }
    ensures few { IfOk result (λ found. length found.items < 2 ^ 26) }
{
    let mut sites = Vec::new(alloc);
    for line in 0..circuit.lines() {
        sites.push(Site::Stem(line))?;
        let branches = readers.at(line as usize);
        if branches.len() >= FAN_OUT {
            sites.extend_from_slice(branches)?;
        }
    }
    Ok(sites)
}
