//! The forest of a circuit's faults, in which each fault leads to one that is equal to it.

ghost use Rattle.std.specs.Prelude.{◌≡◌, ◌<◌, ◌↔◌, ◌==◌, IfOk, IsTrue, length};
ghost use Rattle.net_model.specs.Answer.{AreEqual};
ghost use Rattle.net_model.specs.Circuit.{Circuit};
ghost use Rattle.net_model.specs.FaultList.{faults as faults_of, fault_numbered};
ghost use Rattle.net_model.specs.Collapse.{successor, root};
ghost use Rattle.fault_collapse.specs.Forest.{IsForestOf, IsNumberOf, number_count, successor_of, root_of, root_numbers};

use crate::roots::roots;
use crate::successors::successors;
use fault_list::FaultList;
use net_model::Circuit;
use std::alloc::{AllocError, Global};
use std::marker::Model;

/// The successors and roots of a circuit's faults, by number. A fault at a gate pin, or at a stem whose sole
/// destination is a gate pin, has the equal fault at the gate's output as its successor, if it alone decides that
/// output. The root of a fault is the last fault of its chain of successors.
#[derive(Debug, Drop)]
pub struct Forest {
    successors: Vec<Option<u32>>,
    roots: Vec<u32>,
}

impl Model for Forest {
    ghost use Rattle.fault_collapse.specs.Forest as spec;
    ghost use Rattle.fault_collapse.specs.ForestFields.{AreForestFields};

    ghost Value = { spec.Forest };

    ghost view = { λ f. spec.forest_with f.successors.items f.roots.items };

    ghost invariant = { λ f. AreForestFields (spec.forest_with f.successors.items f.roots.items) };
}

/// Returns the forest of a circuit's faults. `faults` is the list of these faults.
pub fn collapse(alloc: Global, circuit: &Circuit, faults: &FaultList) -> Result<Forest, AllocError>
    requires { faults.now ≡ faults_of circuit.now }
    ensures { IfOk result (IsForestOf circuit.now) }
{
    circuit.stands();
    let successors = successors(alloc, circuit, faults)?;
    let roots = roots(alloc, circuit, faults, successors.as_slice())?;
    Ok(Forest { successors, roots })
}

impl Forest {
    /// Returns the number of the successor of the fault with this number, or none exactly if the fault has no
    /// successor. The program uses only roots; this is for tests and for callers from outside.
    pub fn successor(&self, number: u32) -> Option<u32>
        requires { number < number_count self.now }
        ensures value { result ≡ successor_of self.now number }
        ensures fault { (c : Circuit) → IsForestOf c self.now → IsNumberOf c (successor c (fault_numbered c number)) result }
    {
        self.successors[number as usize]
    }

    /// Returns the number of the root of the fault with this number.
    pub fn root(&self, number: u32) -> u32
        requires { number < number_count self.now }
        ensures value { result ≡ root_of self.now number }
        ensures inside { result < number_count self.now }
        ensures fault { (c : Circuit) → IsForestOf c self.now → fault_numbered c result ≡ root c (fault_numbered c number) }
    {
        self.roots[number as usize]
    }

    /// Returns the root of each number.
    pub fn roots(&self) -> &[u32]
        ensures { result.now ≡ self.now.roots }
    {
        self.roots.as_slice()
    }

    /// Returns whether the faults with these numbers have the same root; then they are equal. Returns false exactly if
    /// their roots differ.
    pub fn same_root(&self, a: u32, b: u32) -> bool
        requires first { a < number_count self.now }
        requires second { b < number_count self.now }
        ensures value { result ≡ (root_of self.now a == root_of self.now b) }
        ensures roots { (c : Circuit) → IsForestOf c self.now → IsTrue result ↔ (root c (fault_numbered c a) ≡ root c (fault_numbered c b)) }
        ensures equal { (c : Circuit) → IsForestOf c self.now → IsTrue result → AreEqual c (fault_numbered c a) (fault_numbered c b) }
    {
        self.roots[a as usize] == self.roots[b as usize]
    }

    /// Returns how many numbers are roots, without number 0.
    pub fn root_count(&self) -> u32
        ensures { result ≡ length (root_numbers self.now) }
    {
        let mut count = 0;
        for number in 1..self.roots.len() as u32 {
            if self.roots[number as usize] == number {
                count += 1;
            }
        }
        count
    }
}
