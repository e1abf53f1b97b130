//! The gains of the candidates of all patterns.

ghost use Rattle.std.specs.Prelude.{◌≡◌, ◌+◌, ◌<◌, ◌^◌, [], IfOk, OnOk, length, map, replicate, slice_index_or, slice_set};
ghost use Rattle.samediff_dict.specs.PlaceGroups.{AreBelow};
ghost use Rattle.samediff_dict.specs.Partition.{IsListed};
ghost use Rattle.samediff_dict.specs.Moved.{AreGainsAfter, AreGainsBefore};
ghost use Rattle.samediff_dict.specs.GainTable.{KeepsRowsOutside};

use crate::moved::Move;
use crate::numbering::Candidates;
use crate::numbers::SparseNumbers;
use crate::partition::Partition;
use std::alloc::{AllocError, Global};
use std::marker::Model;

/// For each pattern how many pairs of classes each of its candidates tells apart.
#[derive(Drop)]
pub(crate) struct GainTable {
    rows: Vec<Vec<u64>>,
}

impl Model for GainTable {
    ghost use Rattle.std.specs.Prelude.{ℕ, List, map};

    ghost Value = { List (List ℕ) };

    ghost view = { λ table. map (λ row. row.items) table.rows.items };
}

impl GainTable {
    /// Returns a table with a 0 for each candidate of each pattern.
    pub(crate) fn none(alloc: Global, patterns: &[Candidates]) -> Result<GainTable, AllocError>
        ensures { IfOk result (λ table. table ≡ map (λ candidates. replicate candidates.count 0) patterns.now) }
    {
        let mut rows = Vec::with_capacity(alloc, patterns.len())?;
        for pattern in 0..patterns.len() {
            let count = patterns[pattern].count as usize;
            rows.push(vec![in alloc; 0u64; count]?)?;
        }
        Ok(GainTable { rows })
    }

    /// Returns the gains of the pattern's candidates.
    pub(crate) fn row(&self, pattern: usize) -> &[u64]
        requires { pattern < length self.now }
        ensures { result.now ≡ slice_index_or self.now pattern [] }
    {
        self.rows[pattern].as_slice()
    }

    /// Replaces the gains of the pattern's candidates.
    pub(crate) fn set(&mut self, pattern: usize, gains: Vec<u64>)
        requires { pattern < length self.old }
        ensures { self.new ≡ slice_set self.old pattern gains.items }
    {
        self.rows[pattern] = gains;
    }

    /// Repairs the gains of the pattern's candidates after the replacement `step` at another pattern. `part` has the
    /// pairs of classes that the replacement may put together or split.
    pub(crate) fn repair(
        &mut self,
        alloc: Global,
        pattern: usize,
        part: &Partition,
        step: Move,
        answers: &SparseNumbers,
    ) -> Result<(), AllocError>
        requires pattern { pattern < length self.old }
        requires listed { IsListed (length answers.now) part.now }
        requires numbers { length step.numbers.now ≡ length answers.now }
        requires few { length answers.now < 2 ^ 32 }
        requires known { AreBelow answers.now (length (slice_index_or self.old pattern [])) }
        requires gains { AreGainsBefore part.now step.numbers.now step.old step.new answers.now (slice_index_or self.old pattern []) }
        ensures gains { OnOk result (AreGainsAfter part.now step.entry.numbers.now step.entry.old step.entry.new answers.now (slice_index_or self.old pattern []) (slice_index_or self.new pattern [])) }
        ensures others { OnOk result (KeepsRowsOutside pattern (pattern + 1) self.old self.new) }
    {
        part.repair(alloc, step, answers, self.rows[pattern].as_mut_slice())
    }
}
