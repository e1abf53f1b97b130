//! Versions of the format, and why bytes are no dictionary.

use std::alloc::AllocError;
use thiserror::Error;

/// The version of the format: an entry row for each number in version 1, for each group in version 2.
#[derive(Clone, Copy, Debug, PartialEq, Eq)]
pub enum DictVersion {
    One,
    Two,
}

/// The first field or row that is wrong, with its place in bytes, or missing memory.
#[derive(Debug, Drop, PartialEq, Eq, Error)]
pub enum DictFault {
    #[error("out of memory")]
    NoMemory,
    /// The file doesn't begin as a dictionary does.
    #[error("no dictionary")]
    Magic,
    /// The version is neither 1 nor 2.
    #[error("another version")]
    Version,
    /// The kind isn't 1, 2 or 3.
    #[error("another kind")]
    Kind,
    /// The bytes end inside a field or row; the value is the number of bytes.
    #[error("the bytes end at byte {0}")]
    Short(u64),
    /// A field has a wrong value, or a row is wrong; the value is the first byte of the field or the last byte of the
    /// row.
    #[error("a wrong value at byte {0}")]
    Value(u64),
    /// Bytes follow the last row; the value is the place of the first of them.
    #[error("more bytes from byte {0} on")]
    Trailing(u64),
    /// There are more bytes than this limit.
    #[error("more than {0} bytes")]
    TooLong(u64),
}

impl From<AllocError> for DictFault {
    ghost use Rattle.std.specs.Prelude.{◌≡◌};
    ghost use Rattle.dict_file.specs.declared.fault.DictFault.TheVariants as dict_fault;

    ghost from_gives = { λ _ e. e ≡ dict_fault.NoMemory };

    fn from(_: AllocError) -> Self {
        DictFault::NoMemory
    }
}
