//! Classes that together explain the failing patterns of a log.

ghost use Rattle.std.specs.Prelude.{List, IfOk};
ghost use Rattle.dict_rows.specs.AnswerTable.{Answers};
ghost use Rattle.table_dicts.specs.Setting.{IsScored, AreAnswersAt};
ghost use Rattle.ranked_diag.specs.PartialLog.{Line};
ghost use Rattle.suspect_scores.specs.Covering.{IsCover};
ghost use Rattle.suspect_scores.specs.Marks.{IsLogged, IsMarked};

use crate::choices::Cover;
use crate::choosing::choose;
use crate::explaining::explained_rows;
use crate::logged::Logged;
use std::alloc::{AllocError, Global};
use table_dicts::{Setting, representatives};

/// Returns classes that together explain the failing patterns of a partial log, each by its lowest number. Each is the
/// lowest of the numbers that explain most of the patterns that are left, until no class explains any of these.
pub fn cover(alloc: Global, setting: &Setting, logged: &Logged) -> Result<Cover, AllocError>
    requires setting { IsScored setting.now }
    requires answered { IsMarked setting.now logged.now }
    ensures { IfOk result (λ choices. (lines : List Line) (table : Answers) → IsLogged setting.now lines logged.now → AreAnswersAt setting.now table → IsCover setting.now.classes.now table lines choices) }
{
    let lowest = representatives(alloc, setting.classes)?;
    let numbers = lowest.as_slice();
    let rows = explained_rows(alloc, setting, logged, numbers)?;
    let choices = choose(alloc, numbers, &rows, logged.patterns.len())?;
    Ok(Cover::of(choices))
}
