//! The mismatches of all fault numbers: a count for each entry, and from it one for each number.

ghost use Rattle.std.specs.Prelude.{◌≡◌, ◌<◌, ◌^◌, All, length, map, slice_index, IfOk};
ghost use Rattle.dict_rows.specs.Dictionary.{IsGroupedDict, IsShaped};
ghost use Rattle.ranked_diag.specs.PartialLog.{ArePartial};
ghost use Rattle.ranked_diag.specs.Mismatches.{mismatch_counts};
ghost use Rattle.ranked_diag.specs.SeenWords.{seen_mismatches, AreSeenBefore};

use crate::observing::observed_words;
use crate::partial::Partial;
use crate::ranks::Counts;
use crate::seen_words::SeenWords;
use dict_rows::Dict;
use net_model::AnswerRows;
use std::alloc::{AllocError, Global};

/// Returns for each fault number how many bits of its entry differ from what the partial log says of them.
pub fn mismatches(alloc: Global, dict: &Dict, partial: &Partial) -> Result<Counts, AllocError>
    requires grouped { IsGroupedDict dict.now }
    requires shaped { IsShaped dict.now }
    requires partial { ArePartial dict.now.patterns dict.now.positions partial.now }
    ensures { IfOk result (λ counts. counts ≡ mismatch_counts dict.now partial.now) }
{
    let words = observed_words(alloc, dict, partial)?;
    let counts = entry_counts(alloc, &dict.entries, &words)?;
    number_counts(alloc, dict.groups.as_slice(), counts.as_slice())
}

// Returns the count of each entry.
fn entry_counts(
    alloc: Global,
    entries: &AnswerRows,
    words: &SeenWords,
) -> Result<Vec<u64>, AllocError>
    requires { All (λ row. AreSeenBefore (length row) words.now) entries.now }
    ensures { IfOk result (λ counts. counts.items ≡ map (seen_mismatches words.now) entries.now) }
{
    let rows = entries.rows();
    // A width is a `usize`, so no count is above it.
    let _width = entries.width();
    let mut counts = Vec::with_capacity(alloc, rows)?;
    for row in 0..rows {
        counts.push(words.count(entries, row))?;
    }
    Ok(counts)
}

// Returns the count of each number, which is that of its group.
fn number_counts(alloc: Global, groups: &[u32], counts: &[u64]) -> Result<Counts, AllocError>
    requires { All (λ group. group < length counts.now) groups.now }
    ensures { IfOk result (λ numbered. numbered ≡ map (slice_index counts.now) groups.now) }
{
    let mut numbered = Counts::with_room(alloc, groups.len())?;
    for group in groups {
        numbered.push(counts[*group as usize])?;
    }
    Ok(numbered)
}
