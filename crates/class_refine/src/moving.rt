//! The moves of a cut: numbers come into new classes and leave the groups of the old ones.

ghost use Rattle.std.specs.Prelude.{◌≡◌, ◌+◌, ◌<◌, ◌≤◌, ◌^◌, ◌++◌, ◌⊎◌, ℕ, [], map, length, Some, slice_index, slice_index_or, All, Contains};
ghost use Rattle.std.specs.List.{range_with_len};
ghost use Rattle.std.specs.Vec.{vec_len, vec_capacity};
ghost use Rattle.class_refine.specs.Steps.{staying, IsMove};

use crate::group::Group;

/// Adds the births of new classes, one for each of `parents`, from which `pattern` cut it.
pub(crate) fn add_births(births: &mut Vec<Option<(u32, u32)>>, parents: &[u32], pattern: u32)
    requires { vec_len births.old + length parents.now ≤ vec_capacity births.old }
    ensures { births.new.items ≡ births.old.items ++ map (λ parent. Some (parent, pattern)) parents.now }
{
    for parent in parents {
        births.push_reserved(Some((*parent, pattern)));
    }
}

/// Puts the numbers of each group, starting at group `first`, into the class with the group's number.
pub(crate) fn enter_classes(class_of: &mut [u32], groups: &[Group], first: usize)
    requires few { length groups.now < 2 ^ 32 }
    requires inside { All (All (λ n. n < length class_of.old)) groups.now }
    ensures { (after : ℕ → ℕ) → IsMove class_of.old groups.now first after → class_of.new ≡ map after (range_with_len 0 (length class_of.old)) }
{
    for class in first..groups.len() {
        enter_class(class_of, groups[class].as_slice(), class as u32);
    }
}

fn enter_class(class_of: &mut [u32], numbers: &[u32], class: u32)
    requires { All (λ n. n < length class_of.old) numbers.now }
    ensures entered { All (λ n. slice_index class_of.new n ≡ class) numbers.now }
    ensures others { (n : ℕ) → (slice_index class_of.new n ≡ slice_index class_of.old n) ⊎ Contains numbers.now n }
{
    for n in numbers {
        class_of[*n as usize] = class;
    }
}

/// Keeps in the group of each of `classes` only the numbers that are still of the class.
pub(crate) fn keep_members(groups: &mut [Group], class_of: &[u32], classes: &[u32])
    requires { All (λ class. class < length groups.old) classes.now }
    ensures { (class : ℕ) → Contains classes.now class ⊎ (staying class_of.now groups.old class ≡ slice_index_or groups.old class []) → slice_index_or groups.new class [] ≡ staying class_of.now groups.old class }
{
    for (at, class) in classes.iter().enumerate() {
        if at > 0 && classes[at - 1] == *class {
            continue;
        }
        groups[*class as usize].keep(class_of, *class);
    }
}
