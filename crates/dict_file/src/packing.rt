//! Words of bits as packed bytes, and back.

ghost use Rattle.std.specs.Prelude.{◌≡◌, ◌<◌, ◌+◌, ◌*◌, ◌^◌, ◌/◌, ℕ, Bool, List, slice_index, length};
ghost use Rattle.net_model.specs.Rows.{IsPacked};
ghost use Rattle.dict_file.specs.Packing.{byte_of};
ghost use Rattle.dict_file.specs.Words.{IsWordAt};

/// Returns the 64 bits of the packed bytes starting at `from`, the first one as the lowest bit, and 0 past the end of
/// the bytes.
pub(crate) fn word_at(bytes: &[u8], from: usize) -> u64
    requires { from + 7 < 2 ^ 64 }
    ensures { IsWordAt bytes.now from result }
{
    u64::from_be_bytes(eight_at(bytes, from)).reverse_bits()
}

// Returns the eight bytes starting at `from`, 0 past the end.
fn eight_at(bytes: &[u8], from: usize) -> [u8; 8]
    requires { from + 7 < 2 ^ 64 }
    ensures count { length result ≡ 8 }
    ensures same { (at : ℕ) → at < 8 → slice_index result at ≡ slice_index bytes.now (from + at) }
{
    [
        byte_at(bytes, from),
        byte_at(bytes, from + 1),
        byte_at(bytes, from + 2),
        byte_at(bytes, from + 3),
        byte_at(bytes, from + 4),
        byte_at(bytes, from + 5),
        byte_at(bytes, from + 6),
        byte_at(bytes, from + 7),
    ]
}

// Returns a byte, 0 past the end.
fn byte_at(bytes: &[u8], at: usize) -> u8
    ensures { result ≡ slice_index bytes.now at }
{
    bytes.get(at).copied().unwrap_or(0)
}

/// Returns a byte of a packed row from the words of the row.
pub(crate) fn packed_byte(words: &[u64], at: usize) -> u8
    requires { at / 8 < length words.now }
    ensures { (row : List Bool) → IsPacked row words.now → result ≡ byte_of row (8 * at) }
{
    let word = words[at / 8];
    let byte = (word >> (8 * (at % 8))) % 256;
    (byte as u8).reverse_bits()
}
