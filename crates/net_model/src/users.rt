//! The users of each line.

ghost use Rattle.std.specs.Prelude.{◌≡◌, ◌<◌, All, OnOk, length, map, slice_index};
ghost use Rattle.net_model.specs.Topological.{AddsUser};

use crate::growing::GrowingLists;
use std::alloc::AllocError;

// The users of each line, as numbers: the gates that read it, one for each pin, or the observed positions that show it.
pub(crate) type Users = GrowingLists<u32>;

impl GrowingLists<u32> {
    // Adds `user` to the list of each of `lines`.
    pub(crate) fn add_all(&mut self, user: u32, lines: &[u32]) -> Result<(), AllocError>
        requires { All (λ line. line < length self.old) lines.now }
        ensures { OnOk result (AddsUser user lines.now self.old self.new) }
    {
        for line in lines {
            self.add(*line as usize, user)?;
        }
        Ok(())
    }

    // Replaces each user by its new number.
    pub(crate) fn renumber(&mut self, numbers: &[u32])
        requires { All (All (λ user. user < length numbers.now)) self.old }
        ensures { self.new ≡ map (map (λ user. slice_index numbers.now user)) self.old }
    {
        for line in 0..self.lists.len() {
            renumber(&mut self.lists[line], numbers);
        }
    }
}

// Replaces each of `users` by its new number.
fn renumber(users: &mut Vec<u32>, numbers: &[u32])
    requires { All (λ user. user < length numbers.now) users.old.items }
    ensures { users.new.items ≡ map (λ user. slice_index numbers.now user) users.old.items }
{
    for user in users.iter_mut() {
        *user = numbers[*user as usize];
    }
}
