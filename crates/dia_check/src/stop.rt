//! What the judgement of a line returns, and why no further line is judged.

ghost use Rattle.std.specs.Prelude.{◌≡◌};
ghost use Rattle.dia_check.specs.declared.stop.Stop.TheVariants as stop;

use result_file::ResultFault;
use std::alloc::AllocError;

// A line breaks a rule, or memory is missing.
#[derive(Clone, Copy)]
pub(crate) enum Stop {
    Refused(ResultFault),
    NoMemory,
}

impl From<AllocError> for Stop {
    ghost from_gives = { λ _ e. e ≡ stop.NoMemory };

    fn from(_: AllocError) -> Self {
        Stop::NoMemory
    }
}

pub(crate) type Judged = Result<(), Stop>;
