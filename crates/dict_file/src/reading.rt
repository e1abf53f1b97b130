//! Bytes read as a dictionary.

ghost use Rattle.std.specs.Prelude.{◌≡◌, ◌+◌, ◌*◌, ◌<◌, ◌≤◌, ℕ, List, length, IfOk, IfErr, OnOk};
ghost use Rattle.dict_file.specs.declared.fault.DictVersion.TheVariants as dict_version;
ghost use Rattle.dict_file.specs.Heads.{IsDictHead, Begins};
ghost use Rattle.dict_file.specs.Spelling.{IsFileOf};
ghost use Rattle.dict_file.specs.Parts.{each};
ghost use Rattle.dict_file.specs.Places.{AreRead};
ghost use Rattle.dict_file.specs.Reading as reading;
ghost use Rattle.dict_file.specs.Reading.{IsRefusedBy, TellsDictFault, row_part, new_row_part, rows_end, baselines_part, group_count_part, groups_from, entries_one, entries_two, part_one, part_two, end_part};

use crate::fault::{DictFault, DictVersion};
use crate::fields::{number, reach};
use crate::group_numbers::{group, read_groups};
use crate::head::{FileHead, read_head};
use crate::row_bytes::{ReadRows, RowsAt, read_new_rows, read_rows};
use dict_rows::{Dict, DictKind, Grouped};
use std::alloc::Global;

/// The most bytes that a dictionary may have.
pub const DICTIONARY_LIMIT: u64 = 1_099_511_627_776;

/// Reads bytes as a dictionary, in version 1 or 2.
///
/// Memory aside, returns a fault exactly if the bytes are no dictionary's file: `Magic`, `Version`, `Kind`, `Short`,
/// `Value` or `Trailing` for the first field or row in the order of the file that is wrong. `TooLong` comes first, for
/// more than [`DICTIONARY_LIMIT`] bytes. Returns `NoMemory` if memory is missing.
pub fn decode(alloc: Global, bytes: &[u8]) -> Result<Dict, DictFault>
    ensures read { IfOk result (λ dict. IsFileOf dict bytes.now) }
    ensures refused { IfErr result (TellsDictFault (IsRefusedBy bytes.now)) }
{
    if bytes.len() as u64 > DICTIONARY_LIMIT {
        return Err(DictFault::TooLong(DICTIONARY_LIMIT));
    }
    let head = read_head(bytes)?;
    match head.version {
        DictVersion::One => decode_one(alloc, bytes, head),
        DictVersion::Two => decode_two(alloc, bytes, head),
    }
}

fn decode_one(alloc: Global, bytes: &[u8], head: FileHead) -> Result<Dict, DictFault>
    requires { Begins bytes.now dict_version.One head }
    ensures read { IfOk result (λ dict. IsFileOf dict bytes.now) }
    ensures refused { IfErr result (TellsDictFault (part_one bytes.now).Refused) }
{
    let above = baselines(alloc, bytes, head, 19)?;
    let below = entries(alloc, bytes, head, above.end)?;
    check_end(bytes, below.end)?;
    let grouped = group(alloc, &below.rows)?;
    Ok(head.with(above.rows, grouped))
}

fn decode_two(alloc: Global, bytes: &[u8], head: FileHead) -> Result<Dict, DictFault>
    requires { Begins bytes.now dict_version.Two head }
    ensures read { IfOk result (λ dict. IsFileOf dict bytes.now) }
    ensures refused { IfErr result (TellsDictFault (part_two bytes.now).Refused) }
{
    let count = read_group_count(bytes, head)?;
    let above = baselines(alloc, bytes, head, 23)?;
    let groups = read_groups(alloc, bytes, above.end, head.numbers, count)?;
    let from = above.end + 4 * head.numbers as usize;
    let below = new_entries(alloc, bytes, head, from, count)?;
    check_end(bytes, below.end)?;
    let entries = below.rows;
    Ok(head.with(above.rows, Grouped { groups, entries }))
}

// Returns the number of groups that version 2 states.
fn read_group_count(bytes: &[u8], head: FileHead) -> Result<u32, DictFault>
    requires { IsDictHead bytes.now head }
    ensures value { IfOk result (λ count. count ≡ reading.groups bytes.now) }
    ensures right { OnOk result (group_count_part bytes.now).Right }
    ensures refused { IfErr result (group_count_part bytes.now).Refused }
{
    reach(bytes, 23)?;
    let groups = number(bytes, 19);
    if groups == 0 || groups > head.numbers || (groups > 1 && entry_width(head) == 0) {
        return Err(DictFault::Value(19));
    }
    Ok(groups)
}

// Reads the baselines, starting at byte `from`.
fn baselines(
    alloc: Global,
    bytes: &[u8],
    head: FileHead,
    from: usize,
) -> Result<ReadRows, DictFault>
    requires head { IsDictHead bytes.now head }
    requires begins { from ≤ length bytes.now }
    requires short { length bytes.now ≤ DICTIONARY_LIMIT }
    ensures read { IfOk result (AreRead bytes.now (row_part bytes.now) (reading.baseline_rows_at bytes.now from)) }
    ensures refused { IfErr result (TellsDictFault (baselines_part bytes.now from).Refused) }
{
    let rows = baselines_at(head, from);
    read_rows(alloc, bytes, rows)
}

// Reads the entries of version 1, one for each number.
fn entries(alloc: Global, bytes: &[u8], head: FileHead, from: usize) -> Result<ReadRows, DictFault>
    requires head { IsDictHead bytes.now head }
    requires from { from ≡ rows_end (reading.baseline_rows_at bytes.now 19) }
    requires begins { from ≤ length bytes.now }
    requires short { length bytes.now ≤ DICTIONARY_LIMIT }
    ensures read { IfOk result (AreRead bytes.now (row_part bytes.now) (entries_one bytes.now)) }
    ensures refused { IfErr result (TellsDictFault (each (reading.numbers bytes.now) (row_part bytes.now (entries_one bytes.now))).Refused) }
{
    let rows = entries_at(head, from, head.numbers);
    read_rows(alloc, bytes, rows)
}

// Reads the `count` entries of version 2, one for each group.
fn new_entries(
    alloc: Global,
    bytes: &[u8],
    head: FileHead,
    from: usize,
    count: u32,
) -> Result<ReadRows, DictFault>
    requires head { IsDictHead bytes.now head }
    requires from { from ≡ groups_from bytes.now + 4 * reading.numbers bytes.now }
    requires count { count ≡ reading.groups bytes.now }
    requires begins { from ≤ length bytes.now }
    requires short { length bytes.now ≤ DICTIONARY_LIMIT }
    ensures read { IfOk result (AreRead bytes.now (new_row_part bytes.now) (entries_two bytes.now)) }
    ensures refused { IfErr result (TellsDictFault (each (reading.groups bytes.now) (new_row_part bytes.now (entries_two bytes.now))).Refused) }
{
    let rows = entries_at(head, from, count);
    read_new_rows(alloc, bytes, rows)
}

// Returns the place of the baselines.
fn baselines_at(head: FileHead, from: usize) -> RowsAt
    ensures { (bytes : List ℕ) → IsDictHead bytes head → result ≡ reading.baseline_rows_at bytes from }
{
    RowsAt {
        from,
        count: baseline_count(head),
        width: head.positions as usize,
    }
}

// Returns the number of baselines.
fn baseline_count(head: FileHead) -> usize
    ensures { (bytes : List ℕ) → IsDictHead bytes head → result ≡ reading.read_baseline_count bytes }
{
    match head.kind {
        DictKind::Full => 0,
        DictKind::PassFail | DictKind::SameDiff => head.patterns as usize,
    }
}

// Returns the place of `count` entry rows.
fn entries_at(head: FileHead, from: usize, count: u32) -> RowsAt
    ensures { (bytes : List ℕ) → IsDictHead bytes head → result ≡ reading.entries_at bytes from count }
{
    RowsAt {
        from,
        count: count as usize,
        width: entry_width(head),
    }
}

// Returns the number of bits of an entry.
fn entry_width(head: FileHead) -> usize
    ensures { (bytes : List ℕ) → IsDictHead bytes head → result ≡ reading.read_entry_width bytes }
{
    match head.kind {
        DictKind::Full => head.patterns as usize * head.positions as usize,
        DictKind::PassFail | DictKind::SameDiff => head.patterns as usize,
    }
}

// Refuses bytes after the last row.
fn check_end(bytes: &[u8], end: usize) -> Result<(), DictFault>
    ensures right { OnOk result (end_part bytes.now end).Right }
    ensures refused { IfErr result (end_part bytes.now end).Refused }
{
    if bytes.len() > end {
        return Err(DictFault::Trailing(end as u64));
    }
    Ok(())
}
