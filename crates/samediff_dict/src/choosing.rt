//! The first two steps of the choice: the best candidate pattern by pattern, then a comparison with the fault-free
//! answers.

ghost use Rattle.std.specs.Prelude.{◌≡◌, ◌<◌, Bool, List, length, slice_index_or, nat_lt, IfOk};
ghost use Rattle.net_model.specs.ClassTable.{class_count};
ghost use Rattle.dict_rows.specs.Entries.{free_baselines};
ghost use Rattle.samediff_dict.specs.Chosen.{pairs_apart, greedy_baselines, better_baselines, chosen_baselines};
ghost use Rattle.samediff_dict.specs.Numbered.{HaveCandidates, HasBaselines, baselines_at};
ghost use Rattle.samediff_dict.specs.Choice.{IsChoice, IsChosen};
ghost use Rattle.samediff_dict.specs.PlaceGroups.{IsFirstMost, gain_at};
ghost use Rattle.samediff_dict.specs.Partition.{IsListed, IsPartition, TogetherAt, are_together};
ghost use Rattle.samediff_dict.specs.declared.numbering.Candidates.{Candidates};

use crate::numbering::Candidates;
use crate::partition::Partition;
use class_refine::Classes;
use std::alloc::{AllocError, Global};

/// Returns the numbers of the baselines that the three steps choose among the candidates of each pattern.
pub(crate) fn choose_numbers(
    alloc: Global,
    classes: &Classes,
    patterns: &[Candidates],
) -> Result<Vec<u32>, AllocError>
    ghost rows: { List (List (List Bool)) }
    requires { HaveCandidates classes.now rows patterns.now }
    ensures { IfOk result (λ chosen. HasBaselines classes.now rows chosen.items (chosen_baselines classes.now rows)) }
{
    let choice = BaselineChoice {
        classes,
        count: classes.count(),
        patterns,
    };
    choice.chosen(alloc)
}

/// What the baselines are chosen from: the classes, their `count`, and for each pattern its candidates, with the one
/// that each class answers.
#[derive(Clone, Copy)]
pub(crate) struct BaselineChoice<'a> {
    pub(crate) classes: &'a Classes,
    pub(crate) count: u32,
    pub(crate) patterns: &'a [Candidates],
}

impl BaselineChoice<'_> {
    fn chosen(&self, alloc: Global) -> Result<Vec<u32>, AllocError>
        ghost rows: { List (List (List Bool)) }
        requires { IsChoice rows self.now }
        ensures { IfOk result (λ chosen. HasBaselines self.now.classes.now rows chosen.items (chosen_baselines self.now.classes.now rows)) }
    {
        let mut chosen = self.better(alloc)?;
        self.improve(alloc, chosen.as_mut_slice())?;
        Ok(chosen)
    }

    // Chooses, pattern by pattern, the first candidate that adds most pairs.
    fn greedy(&self, alloc: Global) -> Result<Vec<u32>, AllocError>
        ghost rows: { List (List (List Bool)) }
        requires { IsChoice rows self.now }
        ensures { IfOk result (λ chosen. HasBaselines self.now.classes.now rows chosen.items (greedy_baselines self.now.classes.now rows)) }
    {
        let mut before = Partition::whole(alloc, self.count)?;
        let mut chosen = Vec::with_capacity(alloc, self.patterns.len())?;
        for pattern in 0..self.patterns.len() {
            let best = self.cut_most(alloc, pattern, &mut before)?;
            chosen.push(best)?;
        }
        Ok(chosen)
    }

    // Cuts the groups by the first candidate of the pattern that tells most pairs apart, and returns its number.
    fn cut_most(
        &self,
        alloc: Global,
        pattern: usize,
        before: &mut Partition,
    ) -> Result<u32, AllocError>
        ghost rows: { List (List (List Bool)) }
        requires choice { IsChoice rows self.now }
        requires pattern { pattern < length rows }
        requires listed { IsListed (class_count self.now.classes.now) before.old }
        ensures most { IfOk result (λ best. (c : Candidates) → IsFirstMost (gain_at (are_together before.old) (slice_index_or self.now.patterns.now pattern c).numbers) (slice_index_or self.now.patterns.now pattern c).count best) }
        ensures cut { IfOk result (λ best. (c : Candidates) → IsPartition (class_count self.now.classes.now) (TogetherAt before.old (slice_index_or self.now.patterns.now pattern c).numbers best) before.new) }
    {
        let candidates = &self.patterns[pattern];
        let numbers = &candidates.numbers;
        let best = before.first_most(alloc, numbers, candidates.count)?;
        *before = before.cut(alloc, numbers, best)?;
        Ok(best)
    }

    // Returns the numbers of the fault-free answers.
    fn fault_free(&self, alloc: Global) -> Result<Vec<u32>, AllocError>
        ghost rows: { List (List (List Bool)) }
        requires { IsChoice rows self.now }
        ensures { IfOk result (λ chosen. HasBaselines self.now.classes.now rows chosen.items (free_baselines rows)) }
    {
        let class = self.classes.class_of(0) as usize;
        let mut chosen = Vec::with_capacity(alloc, self.patterns.len())?;
        for pattern in 0..self.patterns.len() {
            let candidates = &self.patterns[pattern];
            chosen.push(candidates.numbers.get(class))?;
        }
        Ok(chosen)
    }

    // Returns how many pairs of classes the baselines keep apart.
    fn apart(&self, alloc: Global, chosen: &[u32]) -> Result<u64, AllocError>
        ghost rows: { List (List (List Bool)) }
        requires choice { IsChoice rows self.now }
        requires chosen { IsChosen rows self.now chosen.now }
        ensures { IfOk result (λ apart. apart ≡ pairs_apart self.now.classes.now rows (baselines_at self.now.classes.now rows chosen.now)) }
    {
        let mut told = Partition::whole(alloc, self.count)?;
        for pattern in 0..chosen.len() {
            let candidates = &self.patterns[pattern];
            told = told.cut(alloc, &candidates.numbers, chosen[pattern])?;
        }
        told.apart(alloc, self.count)
    }

    // Returns the fault-free baselines if they keep more pairs apart than those of the first step, and else the latter.
    fn better(&self, alloc: Global) -> Result<Vec<u32>, AllocError>
        ghost rows: { List (List (List Bool)) }
        requires { IsChoice rows self.now }
        ensures { IfOk result (λ chosen. HasBaselines self.now.classes.now rows chosen.items (better_baselines self.now.classes.now rows)) }
    {
        let greedy = self.greedy(alloc)?;
        let free = self.fault_free(alloc)?;
        if self.keep_more(alloc, greedy.as_slice(), free.as_slice())? {
            return Ok(free);
        }
        Ok(greedy)
    }

    // Returns whether `other` keeps more pairs apart than `chosen`.
    fn keep_more(&self, alloc: Global, chosen: &[u32], other: &[u32]) -> Result<bool, AllocError>
        ghost rows: { List (List (List Bool)) }
        requires choice { IsChoice rows self.now }
        requires chosen { IsChosen rows self.now chosen.now }
        requires other { IsChosen rows self.now other.now }
        ensures { IfOk result (λ more. more ≡ nat_lt (pairs_apart self.now.classes.now rows (baselines_at self.now.classes.now rows chosen.now)) (pairs_apart self.now.classes.now rows (baselines_at self.now.classes.now rows other.now))) }
    {
        let fewest = self.apart(alloc, chosen)?;
        let most = self.apart(alloc, other)?;
        Ok(fewest < most)
    }
}
