//! Numbers in groups by the roots of their faults.

ghost use Rattle.std.specs.Prelude.{◌≡◌, ◌<◌, ◌≤◌, ◌^◌, length, slice_index, All, IfOk};
ghost use Rattle.table_dicts.specs.ByRoot.{AreGroupsByRoot};

use dict_rows::Sorted;
use std::alloc::{AllocError, Global};

/// Returns groups of the numbers. Each number has the root of the first number of its group.
pub(crate) fn root_groups(alloc: Global, roots: &[u32]) -> Result<Sorted, AllocError>
    requires inside { All (λ root. root < length roots.now) roots.now }
    requires few { length roots.now < 2 ^ 32 }
    ensures { IfOk result (λ sorted. AreGroupsByRoot roots.now (length roots.now) sorted.groups sorted.firsts.items) }
{
    let mut sorted = Sorted::new(alloc);
    let mut noted = vec![in alloc; 0u32; roots.len()]?;
    for (number, root) in roots.iter().enumerate() {
        let firsts = sorted.firsts.as_slice();
        let group = group_with(roots, firsts, noted.as_mut_slice(), *root);
        sorted.put(group, number as u32)?;
    }
    Ok(sorted)
}

// Returns the group noted for the root, if its first number has this root. Otherwise notes the next group and returns
// it.
fn group_with(roots: &[u32], firsts: &[u32], noted: &mut [u32], root: u32) -> u32
    requires root { root < length noted.old }
    requires few { length firsts.now < 2 ^ 32 }
    requires firsts { All (λ first. first < length roots.now) firsts.now }
    ensures within { result ≤ length firsts.now }
    ensures known { result < length firsts.now → slice_index roots.now (slice_index firsts.now result) ≡ root }
{
    let group = noted[root as usize];
    if (group as usize) < firsts.len() && roots[firsts[group as usize] as usize] == root {
        return group;
    }
    let next = firsts.len() as u32;
    noted[root as usize] = next;
    next
}
