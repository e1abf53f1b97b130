//! The only destination of a line.

ghost use Rattle.std.specs.Prelude.{◌≡◌, ℕ, ◌<◌, ◌^◌, List, length, slice_get, All, IfOk};
ghost use Rattle.net_model.specs.Circuit.{line_count};
ghost use Rattle.fault_heads.specs.Places.{IsOnlyPlace, IsOnlyReader};
ghost use Rattle.fault_heads.specs.HeadsFields.{IsDestination, AreDestinations};

use net_model::Circuit;
use std::alloc::{AllocError, Global};

/// A pin of a gate. A gate has the number of the line that it drives.
#[derive(Clone, Copy, Debug)]
pub(crate) struct GatePin {
    pub(crate) gate: u32,
    pub(crate) pin: u32,
}

/// Returns for each line the pin that is its only destination, if it has one.
pub(crate) fn destinations(
    alloc: Global,
    circuit: &Circuit,
) -> Result<Vec<Option<GatePin>>, AllocError>
    ensures { IfOk result (λ found. AreDestinations circuit.now found.items) }
{
    let mut found = Vec::with_capacity(alloc, circuit.lines() as usize)?;
    for line in 0..circuit.lines() {
        found.push(only_destination(circuit, line))?;
    }
    Ok(found)
}

// Returns the pin that is the line's only destination, if it has one.
fn only_destination(circuit: &Circuit, line: u32) -> Option<GatePin>
    requires { line < line_count circuit.now }
    ensures { IsDestination circuit.now line result }
{
    let wiring = circuit.wiring();
    if !wiring.showing(line).is_empty() {
        return None;
    }
    let Some(gate) = only_reader(wiring.order(), wiring.readers(line)) else {
        return None;
    };
    let Some(pin) = only_place(circuit.gate(gate).pins.as_slice(), line) else {
        return None;
    };
    Some(GatePin { gate, pin })
}

// Returns the gate that `order` has at all of `places`, if there are any places and they have one gate.
fn only_reader(order: &[u32], places: &[u32]) -> Option<u32>
    requires { All (λ place. place < length order.now) places.now }
    ensures { IsOnlyReader order.now places.now result }
{
    let Some(first) = places.first() else {
        return None;
    };
    let gate = order[*first as usize];
    for place in places {
        if order[*place as usize] != gate {
            return None;
        }
    }
    Some(gate)
}

// Returns the place at which `lines` has `line`, if it has it exactly once.
fn only_place(lines: &[u32], line: u32) -> Option<u32>
    requires { length lines.now < 2 ^ 32 }
    ensures { IsOnlyPlace lines.now line result }
{
    let mut found = None;
    for (at, other) in lines.iter().enumerate() {
        if *other == line {
            if found.is_some() {
                return None;
            }
            found = Some(at as u32);
        }
    }
    found
}
