//! What each line of a partial log says of an entry: of a full one its bits, of another one at most one bit.

ghost use Rattle.std.specs.Prelude.{◌≡◌, ◌<◌, ◌*◌, [], ◌∷◌, length, nat_lt, IfOk, OnOk};
ghost use Rattle.std.specs.List.{list_all};
ghost use Rattle.net_model.specs.Rows.{row_at};
ghost use Rattle.dict_rows.specs.Dictionary.{IsShaped};
ghost use Rattle.ranked_diag.specs.Seen.{is_seen, differs, differing_bits};
ghost use Rattle.ranked_diag.specs.PartialLog.{ArePartial};
ghost use Rattle.ranked_diag.specs.Mismatches.{seen_difference, seen_part, part_width};
ghost use Rattle.ranked_diag.specs.SeenWords.{AreSeenBefore, IsSeenToo, AreWordsOf};

use crate::partial::{Partial, Seen};
use crate::seen_words::SeenWords;
use dict_rows::{Dict, DictKind};
use net_model::AnswerRows;
use std::alloc::{AllocError, Global};

/// Returns the bits of an entry that the partial log gives, by words.
pub(crate) fn observed_words(
    alloc: Global,
    dict: &Dict,
    partial: &Partial,
) -> Result<SeenWords, AllocError>
    requires shaped { IsShaped dict.now }
    requires partial { ArePartial dict.now.patterns dict.now.positions partial.now }
    ensures { IfOk result (AreWordsOf dict.now partial.now) }
{
    let mut words = SeenWords::new(alloc);
    for at in 0..partial.len() {
        let (pattern, seen) = partial.line(at);
        see_line(&mut words, dict, pattern, seen)?;
    }
    Ok(words)
}

// Adds what a line says of an entry, after all that was added before.
fn see_line(
    words: &mut SeenWords,
    dict: &Dict,
    pattern: u32,
    seen: &[Seen],
) -> Result<(), AllocError>
    requires shaped { IsShaped dict.now }
    requires pattern { pattern < dict.now.patterns }
    requires wide { length seen.now ≡ dict.now.positions }
    requires before { AreSeenBefore (pattern * part_width dict.now.kind dict.now.positions) words.old }
    ensures { OnOk result (IsSeenToo words.old words.new (pattern * part_width dict.now.kind dict.now.positions) (seen_part dict.now.kind dict.now.baselines (pattern, seen.now))) }
{
    let pattern = pattern as usize;
    match dict.kind {
        DictKind::Full => words.see(pattern * dict.positions as usize, seen),
        DictKind::PassFail | DictKind::SameDiff => {
            let bit = difference(&dict.baselines, pattern, seen);
            words.see_one(pattern, bit)
        }
    }
}

// Returns `One` if some bit that was seen differs from the row, `Zero` if all bits were seen and none differs, and else
// `Unseen`.
fn difference(rows: &AnswerRows, row: usize, seen: &[Seen]) -> Seen
    requires row { row < length rows.now }
    requires wide { length (row_at rows.now row) ≡ length seen.now }
    ensures { result ≡ seen_difference (row_at rows.now row) seen.now }
{
    if some_differs(rows, row, seen) {
        return Seen::One;
    }
    if are_seen(seen) {
        return Seen::Zero;
    }
    Seen::Unseen
}

// Returns whether some bit that was seen differs from the row.
fn some_differs(rows: &AnswerRows, row: usize, seen: &[Seen]) -> bool
    requires row { row < length rows.now }
    requires wide { length (row_at rows.now row) ≡ length seen.now }
    ensures { result ≡ nat_lt 0 (differing_bits seen.now (row_at rows.now row)) }
{
    for (at, one) in seen.iter().enumerate() {
        if is_other(*one, rows.get(row, at)) {
            return true;
        }
    }
    false
}

// Returns whether a bit was seen and isn't `bit`.
fn is_other(seen: Seen, bit: bool) -> bool
    ensures { result ≡ differs seen bit }
{
    match seen {
        Seen::Zero => bit,
        Seen::One => !bit,
        Seen::Unseen => false,
    }
}

fn are_seen(seen: &[Seen]) -> bool
    ensures { result ≡ list_all is_seen seen.now }
{
    for one in seen {
        if !was_seen(*one) {
            return false;
        }
    }
    true
}

fn was_seen(seen: Seen) -> bool
    ensures { result ≡ is_seen seen }
{
    match seen {
        Seen::Zero | Seen::One => true,
        Seen::Unseen => false,
    }
}
