//! How many pairs of classes a dictionary distinguishes.

ghost use Rattle.std.specs.Prelude.{◌≡◌, ◌+◌, ◌<◌, ◌^◌, IfOk, length, slice_index, slice_set};
ghost use Rattle.dict_rows.specs.Dictionary.{entry_of, IsGroupedDict};
ghost use Rattle.table_dicts.specs.Apart.{apart_count};

use class_refine::Classes;
use dict_rows::Dict;
use std::alloc::{AllocError, Global};

/// Returns the number of pairs of classes whose representatives have different entries.
pub fn apart(alloc: Global, dict: &Dict, classes: &Classes) -> Result<u64, AllocError>
    requires grouped { IsGroupedDict dict.now }
    requires numbers { length classes.now.class_of ≡ dict.now.numbers }
    ensures { IfOk result (λ count. count ≡ apart_count classes.now (entry_of dict.now)) }
{
    let groups = dict.groups.as_slice();
    // For each group, how many of the classes so far have their representative in it.
    let mut alike = vec![in alloc; 0u32; dict.entries.rows()]?;
    let mut count = 0u64;
    for class in 0..classes.count() {
        let group = groups[classes.representative(class) as usize];
        let before = count_one(alike.as_mut_slice(), group);
        count += u64::from(class - before);
    }
    Ok(count)
}

/// Counts one more in a group, and returns how many there were before.
pub fn count_one(sizes: &mut [u32], group: u32) -> u32
    requires group { group < length sizes.old }
    requires few { slice_index sizes.old group + 1 < 2 ^ 32 }
    ensures before { result ≡ slice_index sizes.old group }
    ensures counted { sizes.new ≡ slice_set sizes.old group (slice_index sizes.old group + 1) }
{
    let before = sizes[group as usize];
    sizes[group as usize] = before + 1;
    before
}
