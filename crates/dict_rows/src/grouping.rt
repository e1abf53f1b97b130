//! Groups of equal rows, found by an ordered map over their words.

ghost use Rattle.net_model.specs.Rows.{row_at};
ghost use Rattle.std.specs.BTreeMap.{get};
ghost use Rattle.std.specs.Borrow.{Bor};
ghost use Rattle.std.specs.Ordering.{is_eq};
ghost use Rattle.std.specs.Prelude.{◌≡◌, ◌↔◌, ◌<◌, ◌≤◌, ◌^◌, ◌&&◌, ◌==◌, ◌⊎◌, ℕ, List, [], ◌∷◌, ◌++◌, if◌then◌else◌, not, is_none, unwrap_or, length, map, Some, IsTrue, IfOk, OnOk, OnErr, MatchOption};
ghost use Rattle.dict_rows.specs.Grouped.{words_order, AreGroupsOf, AreDifferent, IsFirstRepeat, AreFirstsOf};

use crate::bits::rows_at;
use crate::dict::Groups;
use net_model::AnswerRows;
use std::alloc::{AllocError, Global};
use std::collections::BTreeMap;

/// Rows in groups: the group of each row, and one row for each group.
#[derive(Debug, Drop)]
pub struct Grouped {
    pub groups: Groups,
    pub entries: AnswerRows,
}

/// Returns the groups of equal rows, numbered in the order of their first rows.
pub fn group_rows(alloc: Global, rows: &AnswerRows) -> Result<Grouped, AllocError>
    requires { length rows.now < 2 ^ 32 }
    ensures { IfOk result (λ grouped. AreGroupsOf rows.now grouped.groups grouped.entries) }
{
    let sorted = sort(alloc, rows)?;
    let entries = rows_at(alloc, rows, sorted.firsts.as_slice())?;
    Ok(Grouped {
        groups: sorted.groups,
        entries,
    })
}

/// Returns the first row that is equal to an earlier one. Returns none exactly if all rows are different.
pub fn first_repeat(alloc: Global, rows: &AnswerRows) -> Result<Option<u32>, AllocError>
    requires { length rows.now < 2 ^ 32 }
    ensures { IfOk result (λ found. MatchOption found (AreDifferent rows.now) (IsFirstRepeat rows.now)) }
{
    let sorted = sort(alloc, rows)?;
    for (row, group) in sorted.groups.as_slice().iter().enumerate() {
        if (*group as usize) < row {
            return Ok(Some(row as u32));
        }
    }
    Ok(None)
}

/// The group of each row, and for each group the place of a row that is equal to its rows.
#[derive(Debug, Drop)]
pub struct Sorted {
    pub groups: Groups,
    pub firsts: Vec<u32>,
}

impl Sorted {
    /// Returns the state before the first row, without groups.
    pub fn new(alloc: Global) -> Sorted
        ensures groups { result.groups ≡ [] }
        ensures firsts { result.firsts.items ≡ [] }
    {
        Sorted {
            groups: Groups::new(alloc),
            firsts: Vec::new(alloc),
        }
    }

    /// Puts the next row, `row`, into a group, or begins a group if `group` is the next number. After an error no group
    /// was begun, and the row may have its group.
    pub fn put(&mut self, group: u32, row: u32) -> Result<(), AllocError>
        requires { group ≤ length self.old.firsts.items }
        ensures groups { OnOk result (self.new.groups ≡ self.old.groups ++ group ∷ []) }
        ensures firsts { OnOk result (self.new.firsts.items ≡ (if group == length self.old.firsts.items then self.old.firsts.items ++ row ∷ [] else self.old.firsts.items)) }
        ensures left { OnErr result (self.new.firsts.items ≡ self.old.firsts.items) }
        ensures cut { OnErr result ((self.new.groups ≡ self.old.groups) ⊎ (self.new.groups ≡ self.old.groups ++ group ∷ [])) }
    {
        self.groups.push(group)?;
        if group as usize == self.firsts.len() {
            self.firsts.push(row)?;
        }
        Ok(())
    }
}

// Sorts rows into groups.
fn sort(alloc: Global, rows: &AnswerRows) -> Result<Sorted, AllocError>
    requires { length rows.now < 2 ^ 32 }
    ensures { IfOk result (λ sorted. AreFirstsOf rows.now (length rows.now) sorted.groups sorted.firsts.items) }
{
    let mut begun: BTreeMap<&[u64], u32> = BTreeMap::new(alloc);
    let mut sorted = Sorted::new(alloc);
    for row in 0..rows.rows() {
        let first = equals_first(rows, row);
        let next = sorted.firsts.len() as u32;
        let group = group_with(&mut begun, rows.row_words(row), first, next)?;
        sorted.put(group, row as u32)?;
    }
    Ok(sorted)
}

// Returns whether the row is equal to the first row and isn't that row itself.
fn equals_first(rows: &AnswerRows, row: usize) -> bool
    requires { row < length rows.now }
    ensures { IsTrue result ↔ (0 < row) × (row_at rows.now 0 ≡ row_at rows.now row) }
{
    row > 0 && rows.same_rows(0, row)
}

// Returns group 0 if `first` is set, that is, the words are those of the first row. Otherwise returns the group noted
// for the words; if none is noted, notes `next` and returns it.
fn group_with<'a>(
    begun: &mut BTreeMap<&'a [u64], u32>,
    words: &'a [u64],
    first: bool,
    next: u32,
) -> Result<u32, AllocError>
    ensures group { IfOk result (λ group. group ≡ (if first then 0 else unwrap_or (get words_order begun.old words.entry) next)) }
    ensures noted { OnOk result ((q : Bor (List ℕ)) → get words_order begun.new q ≡ (if not first && (is_none (get words_order begun.old words.entry) && is_eq (words_order words.entry q)) then Some next else get words_order begun.old q)) }
{
    if first {
        return Ok(0);
    }
    if let Some(group) = begun.get(&words) {
        return Ok(*group);
    }
    begun.insert(words, next)?;
    Ok(next)
}
