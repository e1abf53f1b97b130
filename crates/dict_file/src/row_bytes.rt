//! Rows of bits as bytes of a file and back, by words of 64 bits.

ghost use Rattle.std.specs.Prelude.{◌≡◌, ◌↔◌, ◌<◌, ◌≤◌, ◌+◌, ◌-◌, ◌*◌, ◌^◌, ◌++◌, ℕ, false, length, IfOk, IfErr, OnOk};
ghost use Rattle.net_model.specs.Rows.{bit_of, row_at};
ghost use Rattle.dict_rows.specs.Grouped.{AreDifferent};
ghost use Rattle.dict_rows.specs.Rows.{IsRowSet};
ghost use Rattle.dict_file.specs.Packing.{byte_count, row_in, packed_row};
ghost use Rattle.dict_file.specs.Spelling.{packed_rows};
ghost use Rattle.dict_file.specs.Parts.{each};
ghost use Rattle.dict_file.specs.Reading.{row_start, row_part, new_row_part, TellsDictFault};
ghost use Rattle.dict_file.specs.Places.{IsPlaced, AreWholeTo, AreRightRows, AreRead, TellsRepeat, first_rows};

use crate::fault::DictFault;
use crate::packing::{packed_byte, word_at};
use dict_rows::first_repeat;
use net_model::AnswerRows;
use std::alloc::{AllocError, Global};

/// Rows of one width, one after another starting at byte `from` of a file. Each is filled up to a whole byte.
#[derive(Clone, Copy)]
pub(crate) struct RowsAt {
    pub(crate) from: usize,
    pub(crate) count: usize,
    pub(crate) width: usize,
}

/// Rows that were read, and the place after the last one.
#[derive(Drop)]
pub(crate) struct ReadRows {
    pub(crate) rows: AnswerRows,
    pub(crate) end: usize,
}

impl RowsAt {
    // Returns the number of bytes of a row.
    #[tactic(auto, unfolding(crate::specs::Packing::byte_count))]
    fn size(self) -> usize
        ensures { result ≡ byte_count self.width }
    {
        self.width.div_ceil(8)
    }

    // Returns the place of the first byte of a row.
    fn start(self, row: usize) -> usize
        requires { row_start self row < 2 ^ 64 }
        ensures { result ≡ row_start self row }
    {
        self.from + row * self.size()
    }

    // Returns the place of the last byte of a row.
    fn last(self, row: usize) -> u64
        requires { row_start self row + byte_count self.width < 2 ^ 64 }
        ensures { result ≡ row_start self row + byte_count self.width - 1 }
    {
        (self.start(row) + self.size()).saturating_sub(1) as u64
    }

    // Returns how many of the first rows end within `len` bytes.
    fn whole(self, len: usize) -> usize
        requires { self.from ≤ len }
        ensures { AreWholeTo len self result }
    {
        let size = self.size();
        if size == 0 {
            return self.count;
        }
        self.count.min((len - self.from) / size)
    }

    // Returns how many of the first rows are complete and have a padding of zeros.
    fn right(self, bytes: &[u8]) -> usize
        requires { IsPlaced bytes.now self }
        ensures { AreRightRows bytes.now self result }
    {
        let whole = self.whole(bytes.len());
        let padding = 8 * self.size() - self.width;
        if padding == 0 {
            return whole;
        }
        for row in 0..whole {
            if has_low_bit(bytes[self.last(row) as usize], padding) {
                return row;
            }
        }
        whole
    }

    // Returns why this row is refused: the bytes end in it, or a bit of its padding is 1.
    fn fault(self, bytes: &[u8], row: usize) -> DictFault
        requires placed { IsPlaced bytes.now self }
        requires row { row_start self row ≤ length bytes.now }
        requires wrong { (row_part bytes.now self row).Right → ⊥ }
        ensures { (row_part bytes.now self row).Refused result }
    {
        let end = self.start(row) + self.size();
        if bytes.len() < end {
            return DictFault::Short(bytes.len() as u64);
        }
        DictFault::Value(self.last(row))
    }
}

// Returns whether one of the `count` lowest bits is 1.
fn has_low_bit(byte: u8, count: usize) -> bool
    requires { count < 8 }
    ensures { (result ≡ false) ↔ ((at : ℕ) → at < count → bit_of byte at ≡ false) }
{
    (byte.trailing_zeros() as usize) < count
}

/// Reads rows of a file. They may be equal.
pub(crate) fn read_rows(alloc: Global, bytes: &[u8], rows: RowsAt) -> Result<ReadRows, DictFault>
    requires { IsPlaced bytes.now rows }
    ensures read { IfOk result (AreRead bytes.now (row_part bytes.now) rows) }
    ensures refused { IfErr result (TellsDictFault (each rows.count (row_part bytes.now rows)).Refused) }
{
    let right = rows.right(bytes);
    if right < rows.count {
        return Err(rows.fault(bytes, right));
    }
    let read = load_rows(alloc, bytes, rows, right)?;
    let end = rows.start(right);
    Ok(ReadRows { rows: read, end })
}

/// Reads rows of a file. Refuses a row that is equal to an earlier one.
pub(crate) fn read_new_rows(
    alloc: Global,
    bytes: &[u8],
    rows: RowsAt,
) -> Result<ReadRows, DictFault>
    requires { IsPlaced bytes.now rows }
    ensures read { IfOk result (AreRead bytes.now (new_row_part bytes.now) rows) }
    ensures refused { IfErr result (TellsDictFault (each rows.count (new_row_part bytes.now rows)).Refused) }
{
    let right = rows.right(bytes);
    let read = load_rows(alloc, bytes, rows, right)?;
    refuse_repeat(alloc, &read, rows)?;
    if right < rows.count {
        return Err(rows.fault(bytes, right));
    }
    let end = rows.start(right);
    Ok(ReadRows { rows: read, end })
}

// Refuses the first of the read rows that is equal to an earlier one.
fn refuse_repeat(alloc: Global, read: &AnswerRows, rows: RowsAt) -> Result<(), DictFault>
    requires few { length read.now < 2 ^ 32 }
    requires small { (row : ℕ) → row < length read.now → row_start rows row + byte_count rows.width < 2 ^ 64 }
    ensures different { OnOk result (AreDifferent read.now) }
    ensures repeat { IfErr result (TellsDictFault (TellsRepeat read.now rows)) }
{
    match first_repeat(alloc, read)? {
        None => Ok(()),
        Some(row) => Err(DictFault::Value(rows.last(row as usize))),
    }
}

// Returns the first `count` rows.
fn load_rows(
    alloc: Global,
    bytes: &[u8],
    rows: RowsAt,
    count: usize,
) -> Result<AnswerRows, AllocError>
    requires placed { IsPlaced bytes.now rows }
    requires whole { row_start rows count ≤ length bytes.now }
    ensures { IfOk result (λ loaded. loaded ≡ first_rows bytes.now rows count) }
{
    let mut loaded = AnswerRows::zeros(alloc, count, rows.width)?;
    if rows.width == 0 {
        return Ok(loaded);
    }
    for row in 0..count {
        let start = rows.start(row);
        load_row(&mut loaded, row, bytes, start);
    }
    Ok(loaded)
}

// Writes the bits of the packed bytes starting at `start` into a row.
fn load_row(loaded: &mut AnswerRows, row: usize, bytes: &[u8], start: usize)
    requires row { row < length loaded.old }
    requires whole { start + byte_count (length (row_at loaded.old row)) ≤ length bytes.now }
    requires short { length bytes.now < 2 ^ 60 }
    ensures { IsRowSet loaded.old loaded.new row (row_in bytes.now start (length (row_at loaded.old row))) }
{
    for word in 0..loaded.width().div_ceil(64) {
        loaded.set_word(row, word, word_at(bytes, start + word * 8));
    }
}

/// Appends the bytes of a row.
pub(crate) fn push_row(bytes: &mut Vec<u8>, rows: &AnswerRows, row: usize) -> Result<(), AllocError>
    requires { row < length rows.now }
    ensures { OnOk result (bytes.new.items ≡ bytes.old.items ++ packed_row (row_at rows.now row)) }
{
    let words = rows.row_words(row);
    for at in 0..rows.width().div_ceil(8) {
        bytes.push(packed_byte(words, at))?;
    }
    Ok(())
}

/// Appends the bytes of all rows.
pub(crate) fn push_rows(bytes: &mut Vec<u8>, rows: &AnswerRows) -> Result<(), AllocError>
    ensures { OnOk result (bytes.new.items ≡ bytes.old.items ++ packed_rows rows.now) }
{
    for row in 0..rows.rows() {
        push_row(bytes, rows, row)?;
    }
    Ok(())
}
