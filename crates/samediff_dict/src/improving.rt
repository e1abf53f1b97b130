//! The third step of the choice: single replacements, as long as one keeps more pairs apart.

ghost use Rattle.std.specs.Prelude.{◌≡◌, ◌<◌, Bool, List, length, slice_set, IfOk, OnOk, None, MatchOption};
ghost use Rattle.samediff_dict.specs.Chosen.{better_baselines, improvement, chosen_baselines};
ghost use Rattle.samediff_dict.specs.Numbered.{HasBaselines, baselines_at};
ghost use Rattle.samediff_dict.specs.Copied.{AreEntries};
ghost use Rattle.samediff_dict.specs.Choice.{IsChoice, IsChosen, IsFirstBetter};
ghost use Rattle.samediff_dict.specs.GainTable.{HaveGains, alike_but};

use crate::choosing::BaselineChoice;
use crate::descending::Descent;
use crate::differing::{class_entries, put_chosen};
use crate::gain_table::GainTable;
use crate::gains::place_above;
use crate::moved::Move;
use net_model::AnswerRows;
use std::alloc::{AllocError, Global};

/// A candidate, by its number `answer`, in place of the baseline of a pattern.
#[derive(Clone, Copy)]
pub(crate) struct Replacement {
    pub(crate) pattern: usize,
    pub(crate) answer: u32,
}

impl BaselineChoice<'_> {
    /// Replaces single baselines, each time by the first replacement that keeps more pairs apart, until there is none.
    pub(crate) fn improve(&self, alloc: Global, chosen: &mut [u32]) -> Result<(), AllocError>
        ghost rows: { List (List (List Bool)) }
        requires choice { IsChoice rows self.now }
        requires better { HasBaselines self.now.classes.now rows chosen.old (better_baselines self.now.classes.now rows) }
        ensures { OnOk result (HasBaselines self.now.classes.now rows chosen.new (chosen_baselines self.now.classes.now rows)) }
    {
        let mut entries = class_entries(alloc, self.patterns, chosen, self.count)?;
        let mut table = self.counted(alloc, chosen, &entries)?;
        self.replace_all(alloc, chosen, &mut entries, &mut table)
    }

    // Returns the gains of the candidates of all patterns.
    fn counted(
        &self,
        alloc: Global,
        chosen: &[u32],
        entries: &AnswerRows,
    ) -> Result<GainTable, AllocError>
        ghost rows: { List (List (List Bool)) }
        requires choice { IsChoice rows self.now }
        requires chosen { IsChosen rows self.now chosen.now }
        requires entries { AreEntries self.now.count self.now.patterns.now chosen.now entries.now }
        ensures { IfOk result (HaveGains self.now.patterns.now (alike_but self.now.patterns.now chosen.now)) }
    {
        let mut table = GainTable::none(alloc, self.patterns)?;
        let descent = Descent {
            count: self.count,
            patterns: self.patterns,
            chosen,
            entries,
            out: self.patterns.len(),
            step: None,
        };
        descent.run(alloc, &mut table)?;
        Ok(table)
    }

    // As `improve`, given the entries of the classes and the gains of the candidates.
    fn replace_all(
        &self,
        alloc: Global,
        chosen: &mut [u32],
        entries: &mut AnswerRows,
        table: &mut GainTable,
    ) -> Result<(), AllocError>
        ghost rows: { List (List (List Bool)) }
        requires choice { IsChoice rows self.now }
        requires better { HasBaselines self.now.classes.now rows chosen.old (better_baselines self.now.classes.now rows) }
        requires entries { AreEntries self.now.count self.now.patterns.now chosen.old entries.old }
        requires gains { HaveGains self.now.patterns.now (alike_but self.now.patterns.now chosen.old) table.old }
        ensures { OnOk result (HasBaselines self.now.classes.now rows chosen.new (chosen_baselines self.now.classes.now rows)) }
    {
        'replacing: loop {
            let Some(better) = self.improvement(chosen, table) else {
                return Ok(());
            };
            self.repair(alloc, chosen, entries, better, table)?;
            put_chosen(
                self.patterns,
                chosen,
                better.pattern,
                better.answer,
                self.count,
                entries,
            );
            chosen[better.pattern] = better.answer;
        }
    }

    // Returns the first replacement that keeps more pairs apart, or none if there is none.
    fn improvement(&self, chosen: &[u32], table: &GainTable) -> Option<Replacement>
        ghost rows: { List (List (List Bool)) }
        requires choice { IsChoice rows self.now }
        requires chosen { IsChosen rows self.now chosen.now }
        requires gains { HaveGains self.now.patterns.now (alike_but self.now.patterns.now chosen.now) table.now }
        ensures { MatchOption result (improvement self.now.classes.now rows (baselines_at self.now.classes.now rows chosen.now) ≡ None) (IsFirstBetter rows self.now chosen.now) }
    {
        for pattern in 0..chosen.len() {
            let current = chosen[pattern] as usize;
            if let Some(place) = place_above(table.row(pattern), current) {
                let answer = place as u32;
                return Some(Replacement { pattern, answer });
            }
        }
        None
    }

    // Repairs the gains after the replacement `better`.
    fn repair(
        &self,
        alloc: Global,
        chosen: &[u32],
        entries: &AnswerRows,
        better: Replacement,
        table: &mut GainTable,
    ) -> Result<(), AllocError>
        ghost rows: { List (List (List Bool)) }
        requires choice { IsChoice rows self.now }
        requires chosen { IsChosen rows self.now chosen.now }
        requires entries { AreEntries self.now.count self.now.patterns.now chosen.now entries.now }
        requires pattern { better.pattern < length chosen.now }
        requires gains { HaveGains self.now.patterns.now (alike_but self.now.patterns.now chosen.now) table.old }
        ensures { OnOk result (HaveGains self.now.patterns.now (alike_but self.now.patterns.now (slice_set chosen.now better.pattern better.answer)) table.new) }
    {
        let step = Move {
            numbers: &self.patterns[better.pattern].numbers,
            old: chosen[better.pattern],
            new: better.answer,
        };
        let descent = Descent {
            count: self.count,
            patterns: self.patterns,
            chosen,
            entries,
            out: better.pattern,
            step: Some(step),
        };
        descent.run(alloc, table)
    }
}
