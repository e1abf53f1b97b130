//! Lists of numbers, stored one after another in one vector.

ghost use Rattle.std.specs.Prelude.{◌≡◌, ◌<◌, ◌≤◌, ◌^◌, [], IfOk, length, sum_by, slice_index_or, slice_range};

use crate::users::Users;
use std::alloc::{AllocError, Global};
use std::marker::Model;

// List k is the numbers from start k up to start k + 1.
#[derive(Debug, Drop)]
pub(crate) struct Lists {
    starts: Vec<u32>,
    numbers: Vec<u32>,
}

impl Model for Lists {
    ghost use Rattle.std.specs.Prelude.{List, ℕ};

    ghost Value = { List (List ℕ) };

    ghost use Rattle.net_model.specs.ListsFields.{lists_of, IsFlat};

    ghost view = { lists_of };

    ghost invariant = { IsFlat };
}

impl Lists {
    // Stores the users of each line.
    pub(crate) fn of_users(alloc: Global, users: &Users) -> Result<Lists, AllocError>
        requires lines { length users.now < 2 ^ 32 }
        requires numbers { sum_by length users.now < 2 ^ 32 }
        ensures { IfOk result (λ lists. lists ≡ users.now) }
    {
        let mut starts = Vec::with_capacity(alloc, users.count() + 1)?;
        starts.push_reserved(0);
        let mut numbers = Vec::new(alloc);
        for line in 0..users.count() {
            numbers.extend_from_slice(users.at(line))?;
            starts.push_reserved(numbers.len() as u32);
        }
        Ok(Lists { starts, numbers })
    }

    pub(crate) fn at(&self, number: u32) -> &[u32]
        requires { number < length self.now }
        ensures { result.now ≡ slice_index_or self.now number [] }
    {
        let at = number as usize;
        part(
            self.numbers.as_slice(),
            self.starts[at],
            self.starts[at + 1],
        )
    }
}

fn part(numbers: &[u32], start: u32, end: u32) -> &[u32]
    requires ascending { start ≤ end }
    requires inside { end ≤ length numbers.now }
    ensures { result.now ≡ slice_range numbers.now start end }
{
    &numbers[start as usize..end as usize]
}
