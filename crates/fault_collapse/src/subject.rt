//! `Subject`: a circuit, the list of its faults and the forest in which they collapse, as one value.

ghost use Rattle.std.specs.Prelude.{◌≡◌, ◌<◌, ◌↔◌, ◌^◌, length, IsTrue, IfOk};
ghost use Rattle.net_model.specs.Circuit as spec;
ghost use Rattle.net_model.specs.Circuit.{IsCircuit};
ghost use Rattle.net_model.specs.Collapse.{root};
ghost use Rattle.net_model.specs.Fault.{IsFaultOf};
ghost use Rattle.net_model.specs.FaultList.{faults, fault_count, fault_numbered};
ghost use Rattle.fault_collapse.specs.Forest.{IsForestOf};
ghost use Rattle.fault_collapse.specs.SubjectFields.{subject_circuit, AreSubjectFields};

use crate::forest::{Forest, collapse};
use fault_list::{FaultList, list};
use net_model::{Circuit, Fault};
use std::alloc::{AllocError, Global};
use std::marker::Model;

/// A circuit with the list of its faults and the forest in which they collapse. It is made once, and lent to all code
/// that deals with the circuit's faults.
#[derive(Debug, Drop)]
pub struct Subject<'a> {
    circuit: &'a Circuit,
    listed: FaultList,
    forest: Forest,
}

impl<'a> Model for Subject<'a> {
    ghost Value = { spec.Circuit };

    ghost view = { subject_circuit };

    ghost invariant = { AreSubjectFields };
}

impl<'a> Subject<'a> {
    /// Lists the circuit's faults and collapses them.
    pub fn new(alloc: Global, circuit: &'a Circuit) -> Result<Subject<'a>, AllocError>
        ensures { IfOk result (λ subject. subject ≡ circuit.now) }
    {
        let listed = list(alloc, circuit)?;
        let forest = collapse(alloc, circuit, &listed)?;
        Ok(Subject {
            circuit,
            listed,
            forest,
        })
    }

    /// Returns the circuit.
    pub fn circuit(&self) -> &'a Circuit
        ensures value { result.now ≡ self.now }
        ensures circuit { IsCircuit result.now }
    {
        self.circuit
    }

    /// Returns the list of the circuit's faults.
    pub fn listed(&self) -> &FaultList
        ensures { result.now ≡ faults self.now }
    {
        &self.listed
    }

    /// Returns the forest in which the faults collapse.
    pub fn forest(&self) -> &Forest
        ensures { IsForestOf self.now result.now }
    {
        &self.forest
    }

    /// Returns how many fault numbers the circuit has.
    pub fn numbers(&self) -> u32
        ensures value { result ≡ fault_count self.now }
        ensures few { result < 2 ^ 27 }
    {
        self.listed.len()
    }

    /// Returns the fault with a number.
    pub fn fault(&self, number: u32) -> Fault
        requires { number < fault_count self.now }
        ensures value { result ≡ fault_numbered self.now number }
        ensures stands { IsFaultOf self.now result }
    {
        self.listed.get(number)
    }

    /// Returns whether these are the circuit's numbers of sources, positions and faults: false exactly if one of the
    /// three isn't the circuit's.
    pub fn has_sizes(&self, sources: u32, positions: u32, numbers: u32) -> bool
        ensures { IsTrue result ↔ ((sources ≡ self.now.sources) × (positions ≡ length self.now.positions) × (numbers ≡ fault_count self.now)) }
    {
        sources == self.circuit.sources()
            && positions as usize == self.circuit.positions().len()
            && numbers == self.listed.len()
    }

    /// Returns whether the faults with these numbers have the same root: false exactly if their roots differ.
    pub fn same_root(&self, a: u32, b: u32) -> bool
        requires first { a < fault_count self.now }
        requires second { b < fault_count self.now }
        ensures { IsTrue result ↔ (root self.now (fault_numbered self.now a) ≡ root self.now (fault_numbered self.now b)) }
    {
        self.forest.same_root(a, b)
    }
}
