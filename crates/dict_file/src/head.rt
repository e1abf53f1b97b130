//! The first 19 bytes: the fields that both versions have.

ghost use Rattle.std.specs.Prelude.{◌≡◌, ◌++◌, IfOk, IfErr, OnOk};
ghost use Rattle.dict_file.specs.Spelling.{head_bytes, version_number, kind_number};
ghost use Rattle.dict_file.specs.Reading.{head_part, magic_part, version_part, kind_part};
ghost use Rattle.dict_file.specs.Heads.{IsDictHead, IsVersionAt, IsKindAt, dict_with};

use crate::fault::{DictFault, DictVersion};
use crate::fields::{push_number, push_short, reach, read_count, short_number};
use dict_rows::{Dict, DictKind, Grouped};
use net_model::AnswerRows;
use std::alloc::AllocError;

/// The version, the kind and the sizes of a dictionary.
#[derive(Clone, Copy)]
pub(crate) struct FileHead {
    pub(crate) version: DictVersion,
    pub(crate) kind: DictKind,
    pub(crate) positions: u32,
    pub(crate) patterns: u32,
    pub(crate) numbers: u32,
}

impl FileHead {
    /// Returns the dictionary with these fields, baselines and groups.
    pub(crate) fn with(self, baselines: AnswerRows, grouped: Grouped) -> Dict
        ensures { result ≡ dict_with self baselines grouped.groups grouped.entries }
    {
        Dict {
            kind: self.kind,
            positions: self.positions,
            patterns: self.patterns,
            numbers: self.numbers,
            baselines,
            groups: grouped.groups,
            entries: grouped.entries,
        }
    }
}

/// Reads the first 19 bytes.
pub(crate) fn read_head(bytes: &[u8]) -> Result<FileHead, DictFault>
    ensures head { IfOk result (IsDictHead bytes.now) }
    ensures refused { IfErr result (head_part bytes.now).Refused }
{
    read_magic(bytes)?;
    let version = read_version(bytes)?;
    let kind = read_kind(bytes)?;
    let positions = read_count(bytes, 7)?;
    let patterns = read_count(bytes, 11)?;
    let numbers = read_count(bytes, 15)?;
    if numbers == 0 {
        return Err(DictFault::Value(15));
    }
    Ok(FileHead {
        version,
        kind,
        positions,
        patterns,
        numbers,
    })
}

fn read_magic(bytes: &[u8]) -> Result<(), DictFault>
    ensures right { OnOk result (magic_part bytes.now).Right }
    ensures refused { IfErr result (magic_part bytes.now).Refused }
{
    reach(bytes, 4)?;
    if &bytes[..4] != b"DIAT".as_slice() {
        return Err(DictFault::Magic);
    }
    Ok(())
}

fn read_version(bytes: &[u8]) -> Result<DictVersion, DictFault>
    ensures value { IfOk result (IsVersionAt bytes.now) }
    ensures right { OnOk result (version_part bytes.now).Right }
    ensures refused { IfErr result (version_part bytes.now).Refused }
{
    reach(bytes, 6)?;
    match short_number(bytes, 4) {
        1 => Ok(DictVersion::One),
        2 => Ok(DictVersion::Two),
        _ => Err(DictFault::Version),
    }
}

fn read_kind(bytes: &[u8]) -> Result<DictKind, DictFault>
    ensures value { IfOk result (IsKindAt bytes.now) }
    ensures right { OnOk result (kind_part bytes.now).Right }
    ensures refused { IfErr result (kind_part bytes.now).Refused }
{
    reach(bytes, 7)?;
    match bytes[6] {
        1 => Ok(DictKind::PassFail),
        2 => Ok(DictKind::Full),
        3 => Ok(DictKind::SameDiff),
        _ => Err(DictFault::Kind),
    }
}

/// Appends the first 19 bytes.
pub(crate) fn push_head(
    bytes: &mut Vec<u8>,
    dict: &Dict,
    version: DictVersion,
) -> Result<(), AllocError>
    ensures { OnOk result (bytes.new.items ≡ bytes.old.items ++ head_bytes version dict.now) }
{
    bytes.extend_from_slice(b"DIAT")?;
    push_short(bytes, number_of(version))?;
    bytes.push(kind_byte(dict.kind))?;
    push_number(bytes, dict.positions)?;
    push_number(bytes, dict.patterns)?;
    push_number(bytes, dict.numbers)?;
    Ok(())
}

fn number_of(version: DictVersion) -> u16
    ensures { result ≡ version_number version }
{
    match version {
        DictVersion::One => 1,
        DictVersion::Two => 2,
    }
}

fn kind_byte(kind: DictKind) -> u8
    ensures { result ≡ kind_number kind }
{
    match kind {
        DictKind::PassFail => 1,
        DictKind::Full => 2,
        DictKind::SameDiff => 3,
    }
}
