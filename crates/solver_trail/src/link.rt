//! Links from one watch to the next.

ghost use Rattle.std.specs.Prelude.{◌≡◌, ◌+◌, ◌<◌, ◌^◌, None, Some};

use std::marker::Model;

/// The number of the next watch, or none, in four bytes.
#[derive(Clone, Copy, Debug)]
pub(crate) struct Link {
    // 0 for none, else the number of the watch plus one
    code: u32,
}

impl Model for Link {
    ghost use Rattle.std.specs.Prelude.{ℕ, Option, ◌<◌, ◌^◌};
    ghost use Rattle.solver_trail.specs.LinkCode.{link_code, link_of, link_code-link_of};

    ghost Value = { Option ℕ };

    ghost view = { λ a. link_of a.code };

    ghost inverse = { λ o. record { code = link_code o } };

    ghost inverse_ok = { λ a h i. record { code = link_code-link_of a.code i } };

    ghost invariant = { λ a. a.code < 2 ^ 32 };
}

impl Link {
    pub(crate) fn none() -> Link
        ensures { result ≡ None }
    {
        Link { code: 0 }
    }

    pub(crate) fn to(watch: usize) -> Link
        requires { watch + 1 < 2 ^ 32 }
        ensures { result ≡ Some watch }
    {
        Link {
            code: watch as u32 + 1,
        }
    }

    pub(crate) fn get(self) -> Option<usize>
        ensures { result ≡ self }
    {
        if self.code == 0 {
            None
        } else {
            Some(self.code as usize - 1)
        }
    }
}
