//! Where a fault begins to change a circuit.

ghost use Rattle.std.specs.Prelude.{◌≡◌};
ghost use Rattle.net_model.specs.Scope.{first_changed};

use crate::fault::{Fault, Site};

/// Returns the first line that the fault can change: its stem, or the line of its pin's gate. Returns none exactly for
/// no fault and for one at a position: these change no line.
#[inline]
pub fn first_changed(fault: Fault) -> Option<u32>
    ensures { result ≡ first_changed fault }
{
    match fault {
        Fault::Stuck(Site::Stem(line), _) => Some(line),
        Fault::Stuck(Site::Pin(gate, _), _) => Some(gate),
        Fault::Stuck(Site::Position(_), _) | Fault::Free => None,
    }
}
