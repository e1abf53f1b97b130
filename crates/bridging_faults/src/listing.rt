//! `bridges`: gathers what is known of each line, chooses failing lines of the log, and searches for the bridges that
//! explain the failing patterns.

ghost use Rattle.std.specs.Prelude.{◌≡◌, ◌<◌, ◌^◌, List, length, IfOk};
ghost use Rattle.net_model.specs.Circuit.{line_count};
ghost use Rattle.dict_rows.specs.AnswerTable.{Answers};
ghost use Rattle.table_dicts.specs.Setting.{AreAnswersAt};
ghost use Rattle.ranked_diag.specs.PartialLog.{Line};
ghost use Rattle.suspect_scores.specs.Marks.{IsLogged, IsMarked};
ghost use Rattle.bridging_faults.specs.Found.{AreListed};
ghost use Rattle.bridging_faults.specs.LineRows.{HaveShape, AreLineRows};

use crate::choosing::{chosen_lines, failing_lines};
use crate::line_rows::LineRows;
use crate::scored::Bridges;
use crate::searching::{Sought, search};
use crate::simulating::{passing_lines, simulate};
use net_model::AnswerRows;
use std::alloc::{AllocError, Global};
use suspect_scores::Logged;
use table_dicts::Setting;

/// Returns the bridges without a loop that explain some failing pattern of the partial log and leave at most `within`
/// of them unexplained: the best `most` of these, best first, and the number of all and of the exact ones.
pub fn bridges(
    alloc: Global,
    setting: &Setting,
    logged: &Logged,
    most: u32,
    within: u32,
) -> Result<Bridges, AllocError>
    requires { IsMarked setting.now logged.now }
    ensures { IfOk result (λ list. (lines : List Line) (table : Answers) → IsLogged setting.now lines logged.now → AreAnswersAt setting.now table → AreListed setting.now.subject.now setting.now.patterns.now table lines within most list) }
{
    let rows = line_rows(alloc, setting, logged)?;
    let chosen = chosen_lines(alloc, &rows, within)?;
    let failing = failing_lines(&rows.free);
    let sought = Sought {
        rows,
        chosen,
        within,
        failing,
    };
    let best = search(alloc, setting.subject.circuit(), &sought, most as usize)?;
    Ok(Bridges::of(best.listed, best.found, best.exact))
}

// Gathers what is known of each line of the circuit at each line of the log.
fn line_rows(alloc: Global, setting: &Setting, logged: &Logged) -> Result<LineRows, AllocError>
    requires { IsMarked setting.now logged.now }
    ensures shape { IfOk result HaveShape }
    ensures lines { IfOk result (λ rows. length rows.good ≡ line_count setting.now.subject.now) }
    ensures logged { IfOk result (λ rows. (lines : List Line) → IsLogged setting.now lines logged.now → length rows.free ≡ length lines) }
    ensures few { IfOk result (λ rows. length rows.free < 2 ^ 32) }
    ensures rows { IfOk result (λ rows. (lines : List Line) → IsLogged setting.now lines logged.now → AreLineRows setting.now.subject.now setting.now.patterns.now lines rows) }
{
    let lines = setting.subject.circuit().lines() as usize;
    let free = passing_lines(alloc, logged)?;
    let mut good = AnswerRows::zeros(alloc, lines, logged.patterns.len())?;
    let mut turned = AnswerRows::zeros(alloc, lines, logged.patterns.len())?;
    simulate(alloc, setting, logged, &mut good, &mut turned)?;
    Ok(LineRows { good, turned, free })
}
