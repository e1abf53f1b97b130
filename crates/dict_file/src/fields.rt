//! Fields of big-endian numbers of two and four bytes.

ghost use Rattle.std.specs.Prelude.{◌≡◌, ◌+◌, ◌-◌, ◌<◌, ◌≤◌, ◌^◌, ◌++◌, length, drop, IfOk, IfErr, OnOk};
ghost use Rattle.byteorder.specs.Endian.{big_bytes, big_number};
ghost use Rattle.dict_file.specs.Parts.{reaches};
ghost use Rattle.dict_file.specs.Reading.{number_at, count_part};

use crate::fault::DictFault;
use byteorder::{BigEndian, ByteOrder};
use std::alloc::AllocError;

/// The largest count of positions, patterns or numbers.
pub(crate) const LIMIT: u32 = 67_108_864;

/// Refuses bytes that end before `end`.
pub(crate) fn reach(bytes: &[u8], end: usize) -> Result<(), DictFault>
    ensures right { OnOk result (reaches bytes.now end).Right }
    ensures refused { IfErr result (reaches bytes.now end).Refused }
{
    if bytes.len() < end {
        return Err(DictFault::Short(bytes.len() as u64));
    }
    Ok(())
}

/// Returns the number of the two bytes starting at `from`.
pub(crate) fn short_number(bytes: &[u8], from: usize) -> u16
    requires { from + 2 ≤ length bytes.now }
    ensures { result ≡ big_number 2 (drop from bytes.now) }
{
    BigEndian::read_u16(&bytes[from..])
}

/// Returns the number of the four bytes starting at `from`.
pub(crate) fn number(bytes: &[u8], from: usize) -> u32
    requires { from + 4 ≤ length bytes.now }
    ensures { result ≡ number_at bytes.now from }
{
    BigEndian::read_u32(&bytes[from..])
}

/// Returns the count at `from`. Refuses bytes that end inside it, and a count above `LIMIT`.
pub(crate) fn read_count(bytes: &[u8], from: usize) -> Result<u32, DictFault>
    requires { from < 2 ^ 32 }
    ensures value { IfOk result (λ count. count ≡ number_at bytes.now from) }
    ensures right { OnOk result (count_part bytes.now from).Right }
    ensures refused { IfErr result (count_part bytes.now from).Refused }
{
    reach(bytes, from + 4)?;
    let count = number(bytes, from);
    if count > LIMIT {
        return Err(DictFault::Value(from as u64));
    }
    Ok(count)
}

/// Appends the four bytes of a number.
pub(crate) fn push_number(bytes: &mut Vec<u8>, number: u32) -> Result<(), AllocError>
    ensures { OnOk result (bytes.new.items ≡ bytes.old.items ++ big_bytes 4 number) }
{
    let mut four = [0u8; 4];
    BigEndian::write_u32(&mut four, number);
    bytes.extend_from_slice(&four)
}

/// Appends the two bytes of a number.
pub(crate) fn push_short(bytes: &mut Vec<u8>, number: u16) -> Result<(), AllocError>
    ensures { OnOk result (bytes.new.items ≡ bytes.old.items ++ big_bytes 2 number) }
{
    let mut two = [0u8; 2];
    BigEndian::write_u16(&mut two, number);
    bytes.extend_from_slice(&two)
}
