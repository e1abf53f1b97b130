//! The classes as they were before a pattern, and whether two classes of one group were one class.

ghost use Rattle.std.specs.Prelude.{◌≡◌, ◌↔◌, ◌<◌, false, length, map, All, IsTrue};
ghost use Rattle.class_refine.specs.Fields.{IsWhole};
ghost use Rattle.net_model.specs.ClassTable.{class_count};
ghost use Rattle.compact_tests.specs.Sharing.{shared_groups};
ghost use Rattle.compact_tests.specs.Earlier.{class_before, NoneIsMarked, AreMarkedTo, HasRepeat, ShareEarlier};

use class_refine::Classes;

/// Replaces each class in `earlier` by the class that it was before `pattern`.
pub(crate) fn step_back(earlier: &mut [u32], classes: &Classes, pattern: usize)
    requires { All (λ class. class < class_count classes.now) earlier.old }
    ensures earlier { earlier.new ≡ map (class_before classes.now.births pattern) earlier.old }
    ensures within { All (λ class. class < class_count classes.now) earlier.new }
{
    for class in earlier.iter_mut() {
        *class = before(classes, *class, pattern);
    }
}

// Returns the class that `class` was before `pattern`: its parent if the pattern cut it off, else itself.
fn before(classes: &Classes, class: u32, pattern: usize) -> u32
    requires { class < class_count classes.now }
    ensures class { result ≡ class_before classes.now.births pattern class }
    ensures within { result < class_count classes.now }
{
    match classes.born(class) {
        Some((parent, birth)) if birth as usize == pattern => parent,
        _ => class,
    }
}

/// Returns whether two numbers of one group have the same class in `earlier`. `shared` are the groups of two numbers or
/// more. No mark is set before and after the call.
pub(crate) fn share_earlier(
    groups: &Classes,
    shared: &[u32],
    earlier: &[u32],
    marks: &mut [bool],
) -> bool
    requires shared { shared.now ≡ shared_groups groups.now }
    requires whole { IsWhole groups.now }
    requires numbers { length groups.now.class_of ≡ length earlier.now }
    requires classes { All (λ class. class < length marks.old) earlier.now }
    requires unmarked { NoneIsMarked marks.old }
    ensures value { IsTrue result ↔ ShareEarlier groups.now earlier.now }
    ensures unmarked { NoneIsMarked marks.new }
{
    for group in shared {
        if repeats(groups.members(*group), earlier, marks) {
            return true;
        }
    }
    false
}

// Returns whether two numbers of `group` have the same class in `earlier`. No mark is set before and after the call.
fn repeats(group: &[u32], earlier: &[u32], marks: &mut [bool]) -> bool
    requires group { All (λ number. number < length earlier.now) group.now }
    requires classes { All (λ class. class < length marks.old) earlier.now }
    requires unmarked { NoneIsMarked marks.old }
    ensures value { IsTrue result ↔ HasRepeat group.now earlier.now }
    ensures unmarked { NoneIsMarked marks.new }
{
    let again = mark(group, earlier, marks);
    unmark(group, earlier, marks);
    again
}

// Marks the classes that the numbers of `group` have in `earlier`, and returns whether one of them is repeated.
fn mark(group: &[u32], earlier: &[u32], marks: &mut [bool]) -> bool
    requires group { All (λ number. number < length earlier.now) group.now }
    requires classes { All (λ class. class < length marks.old) earlier.now }
    requires unmarked { NoneIsMarked marks.old }
    ensures value { IsTrue result ↔ HasRepeat group.now earlier.now }
    ensures marked { AreMarkedTo group.now earlier.now (length group.now) marks.new }
{
    let mut again = false;
    for number in group {
        let class = earlier[*number as usize] as usize;
        again = again || marks[class];
        marks[class] = true;
    }
    again
}

// Clears the marks of the classes that the numbers of `group` have in `earlier`.
fn unmark(group: &[u32], earlier: &[u32], marks: &mut [bool])
    requires group { All (λ number. number < length earlier.now) group.now }
    requires classes { All (λ class. class < length marks.old) earlier.now }
    requires marked { AreMarkedTo group.now earlier.now (length group.now) marks.old }
    ensures { NoneIsMarked marks.new }
{
    for number in group {
        marks[earlier[*number as usize] as usize] = false;
    }
}
