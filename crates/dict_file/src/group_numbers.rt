//! The group numbers of version 2, and the groups of the rows of version 1.

ghost use Rattle.std.specs.Prelude.{◌≡◌, ◌<◌, ◌≤◌, ◌+◌, ◌-◌, ◌^◌, ◌++◌, ◌∷◌, [], length, max, replicate, flat_map, IfOk, IfErr, OnOk};
ghost use Rattle.byteorder.specs.Endian.{big_bytes};
ghost use Rattle.dict_rows.specs.Grouped.{AreGroupsOf};
ghost use Rattle.dict_file.specs.declared.reading.TheConstants.{DICTIONARY_LIMIT};
ghost use Rattle.dict_file.specs.declared.fault.DictFault.TheVariants as dict_fault;
ghost use Rattle.dict_file.specs.Parts.{reaches, wants, ◌⊳◌};
ghost use Rattle.dict_file.specs.Reading as reading;
ghost use Rattle.dict_file.specs.Reading.{number_at, groups_from, groups_before, groups_part, TellsDictFault};

use crate::fault::DictFault;
use crate::fields::{number, push_number, reach};
use dict_rows::{Grouped, Groups, group_rows};
use net_model::AnswerRows;
use std::alloc::{AllocError, Global};

/// Returns the group numbers starting at byte `from`, one for each number. Each must be used already or be the next
/// unused one, and be below `groups`; and each group below `groups` must be used. Otherwise the bytes are refused.
pub(crate) fn read_groups(
    alloc: Global,
    bytes: &[u8],
    from: usize,
    numbers: u32,
    groups: u32,
) -> Result<Groups, DictFault>
    requires from { from ≡ groups_from bytes.now }
    requires numbers { numbers ≡ reading.numbers bytes.now }
    requires groups { groups ≡ reading.groups bytes.now }
    requires begins { from ≤ length bytes.now }
    requires short { length bytes.now ≤ DICTIONARY_LIMIT }
    requires some { 0 < numbers }
    ensures read { IfOk result (λ read. read ≡ groups_before bytes.now numbers) }
    ensures right { OnOk result (groups_part bytes.now).Right }
    ensures refused { IfErr result (TellsDictFault (groups_part bytes.now).Refused) }
{
    let mut read = Groups::new(alloc);
    let mut used = 0;
    for number in 0..numbers {
        let at = from + 4 * number as usize;
        let group = read_group(bytes, at, used, groups)?;
        read.push(group)?;
        used = used_with(used, group);
    }
    if used < groups {
        return Err(DictFault::Value(from as u64 + 4 * (numbers as u64 - 1)));
    }
    Ok(read)
}

// Returns the group number at byte `at`. `used` groups are used so far. Refuses bytes that end inside it, and a number
// above `used` or not below `groups`.
fn read_group(bytes: &[u8], at: usize, used: u32, groups: u32) -> Result<u32, DictFault>
    requires { at < 2 ^ 60 }
    ensures value { IfOk result (λ group. group ≡ number_at bytes.now at) }
    ensures right { IfOk result (λ group. (at + 4 ≤ length bytes.now) × ((group ≤ used) × (group < groups))) }
    ensures refused { IfErr result (reaches bytes.now (at + 4) ⊳ wants ((number_at bytes.now at ≤ used) × (number_at bytes.now at < groups)) (dict_fault.Value at)).Refused }
{
    reach(bytes, at + 4)?;
    let group = number(bytes, at);
    if group > used || group >= groups {
        return Err(DictFault::Value(at as u64));
    }
    Ok(group)
}

// Returns the number of used groups after this group, which is used already or is the next one.
fn used_with(used: u32, group: u32) -> u32
    requires { group < 2 ^ 32 - 1 }
    ensures { result ≡ max used (group + 1) }
{
    used.max(group + 1)
}

/// Returns the groups of equal rows.
pub(crate) fn group(alloc: Global, rows: &AnswerRows) -> Result<Grouped, AllocError>
    requires some { 0 < length rows.now }
    requires few { length rows.now < 2 ^ 32 }
    ensures { IfOk result (λ grouped. AreGroupsOf rows.now grouped.groups grouped.entries) }
{
    if rows.width() == 0 {
        let grouped = one_group(alloc, rows.rows())?;
        return Ok(grouped);
    }
    group_rows(alloc, rows)
}

// Returns one group of `rows` rows without bits.
fn one_group(alloc: Global, rows: usize) -> Result<Grouped, AllocError>
    ensures groups { IfOk result (λ grouped. grouped.groups ≡ replicate rows 0) }
    ensures entries { IfOk result (λ grouped. grouped.entries ≡ [] ∷ []) }
{
    let mut groups = Groups::new(alloc);
    for _row in 0..rows {
        groups.push(0)?;
    }
    let entries = AnswerRows::zeros(alloc, 1, 0)?;
    Ok(Grouped { groups, entries })
}

/// Appends the four bytes of each group number.
pub(crate) fn push_groups(bytes: &mut Vec<u8>, groups: &[u32]) -> Result<(), AllocError>
    ensures { OnOk result (bytes.new.items ≡ bytes.old.items ++ flat_map (big_bytes 4) groups.now) }
{
    for group in groups {
        push_number(bytes, *group)?;
    }
    Ok(())
}
