//! Groups of two numbers or more. A number that is alone in its group is distinguished from all others and isn't looked
//! at again.

ghost use Rattle.std.specs.Prelude.{◌≡◌, ◌<◌, length, map, All, IfOk};
ghost use Rattle.class_refine.specs.Fields.{IsWhole};
ghost use Rattle.net_model.specs.ClassTable.{class_count, representative};
ghost use Rattle.compact_tests.specs.Sharing.{has_two, shared_groups as all_shared, sharing_numbers as all_sharing};

use class_refine::Classes;
use std::alloc::{AllocError, Global};

/// Returns the groups of two numbers or more, ascending.
pub(crate) fn shared_groups(alloc: Global, groups: &Classes) -> Result<Vec<u32>, AllocError>
    ensures shared { IfOk result (λ shared. shared.items ≡ all_shared groups.now) }
    ensures whole { IsWhole groups.now }
{
    let mut shared = Vec::new(alloc);
    for group in 0..groups.count() {
        if is_group(groups, group) {
            shared.push(group)?;
        }
    }
    Ok(shared)
}

/// Returns the numbers that aren't alone in their groups, ascending. `numbers` is the count of all numbers.
pub(crate) fn sharing_numbers(
    alloc: Global,
    groups: &Classes,
    numbers: u32,
) -> Result<Vec<u32>, AllocError>
    requires { numbers ≡ length groups.now.class_of }
    ensures { IfOk result (λ sharing. sharing.items ≡ all_sharing groups.now) }
{
    let mut sharing = Vec::new(alloc);
    for number in 0..numbers {
        if is_group(groups, groups.class_of(number)) {
            sharing.push(number)?;
        }
    }
    Ok(sharing)
}

/// Returns whether the group has two numbers or more.
pub(crate) fn is_group(groups: &Classes, group: u32) -> bool
    requires { group < class_count groups.now }
    ensures { result ≡ has_two groups.now group }
{
    1 < groups.members(group).len()
}

/// Returns the lowest number of each listed class.
pub(crate) fn lowest_of(
    alloc: Global,
    classes: &Classes,
    listed: &[u32],
) -> Result<Vec<u32>, AllocError>
    requires { All (λ class. class < class_count classes.now) listed.now }
    ensures lowest { IfOk result (λ lowest. lowest.items ≡ map (representative classes.now) listed.now) }
    ensures within { IfOk result (λ lowest. All (λ number. number < length classes.now.class_of) lowest.items) }
{
    let mut lowest = Vec::with_capacity(alloc, listed.len())?;
    for class in listed {
        lowest.push(classes.representative(*class))?;
    }
    Ok(lowest)
}
