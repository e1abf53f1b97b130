//! Dictionaries written as bytes.

ghost use Rattle.std.specs.Prelude.{◌≡◌, ◌<◌, ◌++◌, length, flat_map, map, All, IfOk, OnOk};
ghost use Rattle.byteorder.specs.Endian.{big_bytes};
ghost use Rattle.net_model.specs.Rows.{row_at};
ghost use Rattle.dict_rows.specs.Dictionary.{IsShaped, IsGroupedDict};
ghost use Rattle.dict_file.specs.Spelling.{dict_spelling, body_bytes, packed_rows, entry_rows};

use crate::fault::DictVersion;
use crate::fields::push_number;
use crate::group_numbers::push_groups;
use crate::head::push_head;
use crate::row_bytes::{push_row, push_rows};
use dict_rows::Dict;
use net_model::AnswerRows;
use std::alloc::{AllocError, Global};

/// Returns the bytes of a dictionary in the version.
pub fn encode(alloc: Global, dict: &Dict, version: DictVersion) -> Result<Vec<u8>, AllocError>
    requires grouped { IsGroupedDict dict.now }
    requires shaped { IsShaped dict.now }
    ensures { IfOk result (λ bytes. bytes.items ≡ dict_spelling version dict.now) }
{
    let mut bytes = Vec::new(alloc);
    push_head(&mut bytes, dict, version)?;
    push_body(&mut bytes, dict, version)?;
    Ok(bytes)
}

// Appends what comes after the head.
fn push_body(bytes: &mut Vec<u8>, dict: &Dict, version: DictVersion) -> Result<(), AllocError>
    requires { IsGroupedDict dict.now }
    ensures { OnOk result (bytes.new.items ≡ bytes.old.items ++ body_bytes version dict.now) }
{
    match version {
        DictVersion::One => push_one(bytes, dict),
        DictVersion::Two => push_two(bytes, dict),
    }
}

// Appends the baselines, and the entry of each number.
fn push_one(bytes: &mut Vec<u8>, dict: &Dict) -> Result<(), AllocError>
    requires { IsGroupedDict dict.now }
    ensures { OnOk result (bytes.new.items ≡ bytes.old.items ++ (packed_rows dict.now.baselines ++ packed_rows (entry_rows dict.now))) }
{
    push_rows(bytes, &dict.baselines)?;
    push_picked(bytes, &dict.entries, dict.groups.as_slice())?;
    Ok(())
}

// Appends the rows at the given places.
fn push_picked(bytes: &mut Vec<u8>, rows: &AnswerRows, places: &[u32]) -> Result<(), AllocError>
    requires { All (λ place. place < length rows.now) places.now }
    ensures { OnOk result (bytes.new.items ≡ bytes.old.items ++ packed_rows (map (row_at rows.now) places.now)) }
{
    for place in places {
        push_row(bytes, rows, *place as usize)?;
    }
    Ok(())
}

// Appends the number of groups, the baselines, the group of each number, and the entry of each
// group.
fn push_two(bytes: &mut Vec<u8>, dict: &Dict) -> Result<(), AllocError>
    requires { IsGroupedDict dict.now }
    ensures { OnOk result (bytes.new.items ≡ bytes.old.items ++ (big_bytes 4 (length dict.now.entries) ++ (packed_rows dict.now.baselines ++ (flat_map (big_bytes 4) dict.now.groups ++ packed_rows dict.now.entries)))) }
{
    push_number(bytes, dict.group_count())?;
    push_rows(bytes, &dict.baselines)?;
    push_groups(bytes, dict.groups.as_slice())?;
    push_rows(bytes, &dict.entries)?;
    Ok(())
}
