//! Which lines of a log are failing, because an observed bit differs from what number 0 answers, and how many are.

ghost use Rattle.std.specs.Prelude.{◌≡◌, ◌<◌, List, length, nat_lt, if◌then◌else◌};
ghost use Rattle.net_model.specs.Answer.{bit_at};
ghost use Rattle.net_model.specs.Rows.{row_at};
ghost use Rattle.dict_rows.specs.AnswerTable.{Answers};
ghost use Rattle.table_dicts.specs.declared.setting.Setting.{Setting};
ghost use Rattle.table_dicts.specs.Setting.{AreAnswersAt};
ghost use Rattle.ranked_diag.specs.PartialLog.{Line};
ghost use Rattle.suspect_scores.specs.Marks.{IsLogged};
ghost use Rattle.suspect_scores.specs.Scores.{failing};
ghost use Rattle.suspect_scores.specs.Scored.{count_to, row_bits};

use crate::logged::Logged;
use net_model::AnswerRows;

/// Returns how many patterns of a partial log are failing: in how many lines an observed bit differs from what number 0
/// answers.
pub fn count_failing(logged: &Logged) -> usize
    ensures { (setting : Setting) (lines : List Line) (table : Answers) → IsLogged setting lines logged.now → AreAnswersAt setting table → result ≡ length (failing table lines) }
{
    count_rows(&logged.marks.wrong)
}

/// Returns whether a line of a log is failing.
pub fn is_failing(logged: &Logged, line: usize) -> bool
    requires { line < length logged.now.marks.wrong }
    ensures { result ≡ nat_lt 0 (row_bits (row_at logged.now.marks.wrong line)) }
{
    count_bits(&logged.marks.wrong, line) > 0
}

// Returns how many rows have a bit that is set.
fn count_rows(rows: &AnswerRows) -> usize
    ensures { result ≡ count_to (λ row. nat_lt 0 (row_bits (row_at rows.now row))) (length rows.now) }
{
    let mut count = 0;
    for row in 0..rows.rows() {
        count += as_one(count_bits(rows, row) > 0);
    }
    count
}

// Returns how many bits of a row are set.
fn count_bits(rows: &AnswerRows, row: usize) -> usize
    requires { row < length rows.now }
    ensures { result ≡ row_bits (row_at rows.now row) }
{
    let mut count = 0;
    for at in 0..rows.width() {
        count += as_one(rows.get(row, at));
    }
    count
}

fn as_one(bit: bool) -> usize
    ensures { result ≡ (if bit then 1 else 0) }
{
    usize::from(bit)
}
