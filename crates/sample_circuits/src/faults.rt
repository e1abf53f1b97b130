//! Stuck-at faults, and whether a circuit has one.

ghost use Rattle.std.specs.Prelude.{◌≡◌, ◌↔◌, IsTrue};
ghost use Rattle.net_model.specs.Fault.{IsFaultOf};

use net_model::{Circuit, Fault, Site};

/// Returns the fault that the stem of a line is stuck at a value.
pub fn stem(line: u32, bit: bool) -> Fault
    ensures { result ≡ Fault.Stuck (Site.Stem line) bit }
{
    Fault::Stuck(Site::Stem(line), bit)
}

/// Returns the fault that a pin of a line's gate is stuck at a value.
pub fn pin(gate: u32, at: u32, bit: bool) -> Fault
    ensures { result ≡ Fault.Stuck (Site.Pin gate at) bit }
{
    Fault::Stuck(Site::Pin(gate, at), bit)
}

/// Returns the fault that an observed position is stuck at a value.
pub fn position(at: u32, bit: bool) -> Fault
    ensures { result ≡ Fault.Stuck (Site.Position at) bit }
{
    Fault::Stuck(Site::Position(at), bit)
}

/// Returns whether the circuit has the fault's site. This holds of no fault, too.
pub fn stands(circuit: &Circuit, fault: Fault) -> bool
    ensures { IsTrue result ↔ IsFaultOf circuit.now fault }
{
    match fault {
        Fault::Free => true,
        Fault::Stuck(Site::Stem(line), _) => line < circuit.lines(),
        Fault::Stuck(Site::Pin(gate, pin), _) => {
            circuit.sources() <= gate
                && gate < circuit.lines()
                && (pin as usize) < circuit.gate(gate).pins.as_slice().len()
        }
        Fault::Stuck(Site::Position(at), _) => (at as usize) < circuit.positions().len(),
    }
}
