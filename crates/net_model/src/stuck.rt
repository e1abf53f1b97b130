//! The values at which a fault sticks stems, pins and observed positions.

ghost use Rattle.std.specs.Prelude.{◌≡◌};
ghost use Rattle.net_model.specs.Fault.{stuck_pin, stuck_stem, stuck_position};

use crate::fault::{Fault, Site};

/// Returns the value at which the fault sticks the stem of `line`, or none exactly if the fault isn't there.
#[inline]
pub fn stuck_stem(fault: Fault, line: u32) -> Option<bool>
    ensures { result ≡ stuck_stem fault line }
{
    match fault {
        Fault::Stuck(Site::Stem(at), bit) if at == line => Some(bit),
        _ => None,
    }
}

/// Returns the value at which the fault sticks a pin of the gate of `line`, or none exactly if the fault isn't there.
#[inline]
pub fn stuck_pin(fault: Fault, line: u32, pin: u32) -> Option<bool>
    ensures { result ≡ stuck_pin fault line pin }
{
    match fault {
        Fault::Stuck(Site::Pin(gate, at), bit) if gate == line && at == pin => Some(bit),
        _ => None,
    }
}

/// Returns the value at which the fault sticks an observed position, or none exactly if the fault isn't there.
#[inline]
pub fn stuck_position(fault: Fault, position: u32) -> Option<bool>
    ensures { result ≡ stuck_position fault position }
{
    match fault {
        Fault::Stuck(Site::Position(at), bit) => (at == position).then_some(bit),
        _ => None,
    }
}
