//! Numbers in groups by their classes, and dictionaries of the entries of classes.

ghost use Rattle.std.specs.Prelude.{◌≡◌, ◌≢◌, ◌<◌, ◌==◌, ◌^◌, Bool, List, length, map, slice_index, slice_set, if◌then◌else◌, All, IfOk};
ghost use Rattle.std.specs.List.{range_with_len};
ghost use Rattle.class_refine.specs.Fields.{IsWhole};
ghost use Rattle.net_model.specs.ClassTable.{class_count, class_at, representative};
ghost use Rattle.net_model.specs.Rows.{row_at};
ghost use Rattle.dict_rows.specs.AnswerTable.{Answers, HasSizes};
ghost use Rattle.table_dicts.specs.ByClass.{AreRowsOfClasses, AreEntriesOfClasses};
ghost use Rattle.dict_rows.specs.Dictionary.{IsDictionary};
ghost use Rattle.dict_rows.specs.Entries.{same_diff_entry};
ghost use Rattle.dict_rows.specs.Grouped.{AreFirstsOf, AreGroupsOf};
ghost use Rattle.dict_rows.specs.Rows.{AreRows};

use class_refine::Classes;
use dict_rows::{Dict, DictKind, Grouped, Groups, Sorted, group_rows, rows_at};
use net_model::AnswerRows;
use std::alloc::{AllocError, Global};

/// Returns the lowest number of each class, in the order of the classes.
pub fn representatives(alloc: Global, classes: &Classes) -> Result<Vec<u32>, AllocError>
    ensures lowest { IfOk result (λ lowest. lowest.items ≡ map (representative classes.now) (range_with_len 0 (class_count classes.now))) }
    ensures within { IfOk result (λ lowest. All (λ number. number < length classes.now.class_of) lowest.items) }
    ensures few { IfOk result (λ lowest. length lowest.items < 2 ^ 32) }
    ensures whole { IsWhole classes.now }
{
    let count = classes.count();
    let mut lowest = Vec::with_capacity(alloc, count as usize)?;
    for class in 0..count {
        lowest.push(classes.representative(class))?;
    }
    Ok(lowest)
}

/// Returns the dictionary of a kind with baselines from the entry of each class. `numbers` is the count of all numbers
/// of the classes, and the baselines have `positions` bits.
pub fn dict_of_classes(
    alloc: Global,
    kind: DictKind,
    classes: &Classes,
    numbers: u32,
    positions: u32,
    baselines: AnswerRows,
    entries: &AnswerRows,
) -> Result<Dict, AllocError>
    requires kind { kind ≢ DictKind.Full }
    requires numbers { numbers ≡ length classes.now.class_of }
    requires few { length baselines < 2 ^ 32 }
    requires baselines { AreRows (length baselines) positions baselines }
    requires entries { AreRows (class_count classes.now) (length baselines) entries.now }
    ensures { IfOk result (λ dict. (t : Answers) → HasSizes t (length baselines) numbers positions → AreEntriesOfClasses classes.now entries.now (same_diff_entry t.rows baselines) → IsDictionary dict kind t baselines (same_diff_entry t.rows baselines)) }
{
    let grouped = group_numbers(alloc, classes, numbers, entries)?;
    Ok(Dict {
        kind,
        positions,
        patterns: baselines.rows() as u32,
        numbers,
        baselines,
        groups: grouped.groups,
        entries: grouped.entries,
    })
}

// Groups all numbers by the entries of their classes: two are in one group exactly if these entries are equal.
fn group_numbers(
    alloc: Global,
    classes: &Classes,
    numbers: u32,
    entries: &AnswerRows,
) -> Result<Grouped, AllocError>
    requires numbers { numbers ≡ length classes.now.class_of }
    requires entries { length entries.now ≡ class_count classes.now }
    ensures { IfOk result (λ grouped. (rows : List (List Bool)) → length rows ≡ numbers → AreEntriesOfClasses classes.now entries.now (row_at rows) → AreGroupsOf rows grouped.groups grouped.entries) }
{
    let sorted = class_groups(alloc, classes, numbers)?;
    let grouped = group_entries(alloc, classes, entries, sorted.firsts.as_slice())?;
    let outer = grouped.groups.as_slice();
    let groups = regroup(alloc, sorted.groups.as_slice(), outer)?;
    Ok(Grouped {
        groups,
        entries: grouped.entries,
    })
}

// Returns the groups of equal entries of the classes of the given numbers.
fn group_entries(
    alloc: Global,
    classes: &Classes,
    entries: &AnswerRows,
    numbers: &[u32],
) -> Result<Grouped, AllocError>
    requires numbers { All (λ number. number < length classes.now.class_of) numbers.now }
    requires few { length numbers.now < 2 ^ 32 }
    requires entries { length entries.now ≡ class_count classes.now }
    ensures { IfOk result (λ grouped. AreGroupsOf (map (row_at entries.now) (map (class_at classes.now) numbers.now)) grouped.groups grouped.entries) }
{
    let own = classes_of(alloc, classes, numbers)?;
    let cells = rows_at(alloc, entries, own.as_slice())?;
    group_rows(alloc, &cells)
}

// Returns the class of each of the given numbers.
fn classes_of(alloc: Global, classes: &Classes, numbers: &[u32]) -> Result<Vec<u32>, AllocError>
    requires { All (λ number. number < length classes.now.class_of) numbers.now }
    ensures classes { IfOk result (λ list. list.items ≡ map (class_at classes.now) numbers.now) }
    ensures within { IfOk result (λ list. All (λ class. class < class_count classes.now) list.items) }
{
    let mut list = Vec::with_capacity(alloc, numbers.len())?;
    for number in numbers {
        list.push(classes.class_of(*number))?;
    }
    Ok(list)
}

/// Returns a group for each class. Groups are numbered in the order of the lowest numbers of the classes, which are the
/// firsts. `numbers` is the count of all numbers of the classes.
pub(crate) fn class_groups(
    alloc: Global,
    classes: &Classes,
    numbers: u32,
) -> Result<Sorted, AllocError>
    requires { numbers ≡ length classes.now.class_of }
    ensures { IfOk result (λ sorted. (rows : List (List Bool)) → AreRowsOfClasses classes.now rows → AreFirstsOf rows numbers sorted.groups sorted.firsts.items) }
{
    let mut sorted = Sorted::new(alloc);
    let mut noted = vec![in alloc; 0u32; classes.count() as usize]?;
    for number in 0..numbers {
        let next = sorted.firsts.len() as u32;
        let group = group_of(classes, noted.as_mut_slice(), number, next);
        sorted.put(group, number)?;
    }
    Ok(sorted)
}

// Returns the group noted for the class of `number`. If `number` is the lowest of its class, its group is `next`, and
// is noted.
fn group_of(classes: &Classes, noted: &mut [u32], number: u32, next: u32) -> u32
    requires number { number < length classes.now.class_of }
    requires noted { length noted.old ≡ class_count classes.now }
    ensures noted { noted.new ≡ (if representative classes.now (class_at classes.now number) == number then slice_set noted.old (class_at classes.now number) next else noted.old) }
    ensures group { result ≡ slice_index noted.new (class_at classes.now number) }
{
    let class = classes.class_of(number);
    if classes.representative(class) == number {
        noted[class as usize] = next;
    }
    noted[class as usize]
}

/// Returns the groups of groups: for each number the outer group of its inner group.
pub(crate) fn regroup(alloc: Global, inner: &[u32], outer: &[u32]) -> Result<Groups, AllocError>
    requires { All (λ group. group < length outer.now) inner.now }
    ensures { IfOk result (λ groups. groups ≡ map (slice_index outer.now) inner.now) }
{
    let mut groups = Groups::new(alloc);
    for group in inner {
        groups.push(outer[*group as usize])?;
    }
    Ok(groups)
}
