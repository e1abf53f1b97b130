//! The successor of each fault, by the gate at which the fault is.

ghost use Rattle.std.specs.Prelude.{◌≡◌, ◌<◌, ◌≤◌, ◌==◌, IfOk, IsTrue, Some, false, length, if◌then◌else◌};
ghost use Rattle.net_model.specs.Gate.{takes_pins};
ghost use Rattle.net_model.specs.Fault.{IsFaultOf};
ghost use Rattle.net_model.specs.Circuit.{line_count};
ghost use Rattle.net_model.specs.FaultList.{destinations, faults as faults_of};
ghost use Rattle.net_model.specs.Collapse.{controlled_fold, carried_value, carried_fault, entered_gate, only_gate, successor};
ghost use Rattle.fault_collapse.specs.Forest.{AreSuccessors, IsNumberOf};

use fault_list::FaultList;
use net_model::{Circuit, Fault, Fold, Gate, Operation, Site};
use std::alloc::{AllocError, Global};

// Returns the numbers of all faults' successors.
pub(crate) fn successors(
    alloc: Global,
    circuit: &Circuit,
    faults: &FaultList,
) -> Result<Vec<Option<u32>>, AllocError>
    requires { faults.now ≡ faults_of circuit.now }
    ensures { IfOk result (λ found. AreSuccessors circuit.now found.items) }
{
    let mut found = Vec::with_capacity(alloc, faults.len() as usize)?;
    for number in 0..faults.len() {
        found.push(successor(circuit, faults, faults.get(number)))?;
    }
    Ok(found)
}

// Returns the number of a fault's successor, if it has one.
fn successor(circuit: &Circuit, faults: &FaultList, fault: Fault) -> Option<u32>
    requires faults { faults.now ≡ faults_of circuit.now }
    requires fault { IsFaultOf circuit.now fault }
    ensures { IsNumberOf circuit.now (successor circuit.now fault) result }
{
    match fault {
        Fault::Free => None,
        Fault::Stuck(site, bit) => {
            carried_fault(circuit, faults, bit, entered_gate(circuit, site)?)
        }
    }
}

// Returns the gate that a site alone leads into: that of the pin, or of the pin that is the stem's sole destination.
fn entered_gate(circuit: &Circuit, site: Site) -> Option<u32>
    requires { IsFaultOf circuit.now (Fault.Stuck site false) }
    ensures { result ≡ entered_gate circuit.now site }
{
    match site {
        Site::Stem(line) => sole_gate(circuit, line),
        Site::Pin(gate, _) => Some(gate),
        Site::Position(_) => None,
    }
}

// Returns the gate with the pin that is a line's sole destination, if it is a pin.
fn sole_gate(circuit: &Circuit, line: u32) -> Option<u32>
    requires { line < line_count circuit.now }
    ensures { result ≡ only_gate (destinations circuit.now line) }
{
    let wiring = circuit.wiring();
    let readers = wiring.readers(line);
    let shown = wiring.showing(line).len();
    if readers.len() != 1 || shown > 0 {
        return None;
    }
    Some(wiring.order()[readers[0] as usize])
}

// Returns the number of the fault at a gate's stem that equals a bit stuck at one of its pins, if that pin alone
// decides.
fn carried_fault(circuit: &Circuit, faults: &FaultList, bit: bool, gate: u32) -> Option<u32>
    requires faults { faults.now ≡ faults_of circuit.now }
    requires from { circuit.now.sources ≤ gate }
    requires below { gate < line_count circuit.now }
    ensures { IsNumberOf circuit.now (carried_fault circuit.now bit gate) result }
{
    let value = carried_value(circuit.gate(gate), bit)?;
    faults.number_of(&Fault::Stuck(Site::Stem(gate), value))
}

// Returns the value that a bit stuck at one pin puts on the gate, if it alone decides.
fn carried_value(gate: &Gate, bit: bool) -> Option<bool>
    requires { IsTrue (takes_pins gate.now.kind (length gate.now.pins)) }
    ensures { result ≡ carried_value gate.now.kind (length gate.now.pins) bit }
{
    let pins = gate.pins.as_slice().len();
    match gate.kind.operation() {
        Operation::Folded(fold) => {
            let value = decided_fold(fold, pins, bit)?;
            Some(value != gate.kind.inverts())
        }
        Operation::Chosen => None,
    }
}

// Returns what a fold of `bits` bits gives, if one of them alone decides it.
fn decided_fold(fold: Fold, bits: usize, bit: bool) -> Option<bool>
    ensures { result ≡ (if bits == 1 then Some bit else controlled_fold fold bit) }
{
    if bits == 1 {
        return Some(bit);
    }
    match (fold, bit) {
        (Fold::AllOf, false) | (Fold::AnyOf, true) => Some(bit),
        (Fold::AllOf, true) | (Fold::AnyOf, false) | (Fold::OddOf, _) => None,
    }
}
