//! The ending of a run after a fault of a shelf.

ghost use Rattle.std.specs.Prelude.{◌≡◌};
ghost use Rattle.run_steps.specs.Ending.{write_fault};

use diag_shelf::ShelfFault;
use run_steps::{RunFault, write_fault};

/// Returns why a run ends after a fault of a write. This function is here since one of another crate can't be passed by
/// its name.
pub(crate) fn broken_by(fault: ShelfFault) -> RunFault
    ensures { result ≡ write_fault fault }
{
    write_fault(fault)
}
