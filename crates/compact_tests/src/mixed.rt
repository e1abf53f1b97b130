//! Groups of numbers of two classes or more, if the numbers of a class are always in one group.

ghost use Rattle.std.specs.Prelude.{◌≡◌, ◌<◌, ◌^◌, length, IfOk};
ghost use Rattle.net_model.specs.ClassTable.{class_count};
ghost use Rattle.class_refine.specs.Fields.{IsWhole};
ghost use Rattle.compact_tests.specs.Mixed.{exceeds_class, mixed_groups as all_mixed, mixed_classes as all_in_mixed};

use class_refine::Classes;
use std::alloc::{AllocError, Global};

/// Returns the groups that contain numbers of two classes or more, ascending.
pub(crate) fn mixed_groups(
    alloc: Global,
    classes: &Classes,
    groups: &Classes,
) -> Result<Vec<u32>, AllocError>
    requires { length groups.now.class_of ≡ length classes.now.class_of }
    ensures mixed { IfOk result (λ mixed. mixed.items ≡ all_mixed classes.now groups.now) }
    ensures whole { IsWhole groups.now }
{
    let mut mixed = Vec::new(alloc);
    for group in 0..groups.count() {
        if is_mixed(classes, groups, group) {
            mixed.push(group)?;
        }
    }
    Ok(mixed)
}

/// Returns the classes that share a group with others, ascending.
pub(crate) fn mixed_classes(
    alloc: Global,
    classes: &Classes,
    groups: &Classes,
) -> Result<Vec<u32>, AllocError>
    requires { length groups.now.class_of ≡ length classes.now.class_of }
    ensures mixed { IfOk result (λ mixed. mixed.items ≡ all_in_mixed classes.now groups.now) }
    ensures few { IfOk result (λ mixed. length mixed.items < 2 ^ 32) }
    ensures whole { IsWhole classes.now }
{
    let mut mixed = Vec::new(alloc);
    for class in 0..classes.count() {
        if is_mixed(
            classes,
            groups,
            groups.class_of(classes.representative(class)),
        ) {
            mixed.push(class)?;
        }
    }
    Ok(mixed)
}

// Returns whether the group contains numbers of two classes or more.
fn is_mixed(classes: &Classes, groups: &Classes, group: u32) -> bool
    requires numbers { length groups.now.class_of ≡ length classes.now.class_of }
    requires group { group < class_count groups.now }
    ensures { result ≡ exceeds_class classes.now groups.now group }
{
    let class = classes.class_of(groups.representative(group));
    classes.members(class).len() < groups.members(group).len()
}
