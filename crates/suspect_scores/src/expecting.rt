//! The log that a chip without a fault gives: a line for each pattern, from the answers of number 0.

ghost use Rattle.std.specs.Prelude.{◌≡◌, ◌<◌, ◌++◌, ◌∷◌, [], length, IfOk, OnOk};
ghost use Rattle.std.specs.String.{string_bytes};
ghost use Rattle.net_model.specs.Ascii.{line_feed};
ghost use Rattle.dict_rows.specs.AnswerTable.{Answers, answer_to};
ghost use Rattle.dict_rows.specs.Entries.{answers_of};
ghost use Rattle.table_dicts.specs.Setting.{IsScored, AreAnswersAt};
ghost use Rattle.diagnose.specs.Lines.{lines_from};
ghost use Rattle.diagnose.specs.LogText.{log_line};
ghost use Rattle.suspect_scores.specs.Expected.{expected_text};

use std::alloc::{AllocError, Global};
use table_dicts::{AnswerTable, Setting, number_answers_at};
use text_fields::push_bits;

/// Returns the log that a chip without a fault gives to the patterns: for each in order its number, a blank and the
/// answer's bits.
pub fn expected_log(alloc: Global, setting: &Setting) -> Result<Vec<u8>, AllocError>
    requires { IsScored setting.now }
    ensures { IfOk result (λ text. (table : Answers) → AreAnswersAt setting.now table → text.items ≡ expected_text table) }
{
    let patterns = setting.patterns.as_slice();
    let free = number_answers_at(alloc, setting.subject, patterns, &[0])?;
    log_text(alloc, &free)
}

fn log_text(alloc: Global, free: &AnswerTable) -> Result<Vec<u8>, AllocError>
    requires { 0 < free.now.numbers }
    ensures { IfOk result (λ text. text.items ≡ lines_from log_line 0 (answers_of free.now.rows 0)) }
{
    let mut text = String::new(alloc);
    for pattern in 0..free.patterns() {
        push_line(&mut text, free, pattern)?;
    }
    Ok(text.into_bytes())
}

fn push_line(text: &mut String, free: &AnswerTable, pattern: u32) -> Result<(), AllocError>
    requires pattern { pattern < length free.now.rows }
    requires some { 0 < free.now.numbers }
    ensures { OnOk result (string_bytes text.new ≡ string_bytes text.old ++ (log_line pattern (answer_to free.now pattern 0) ++ line_feed ∷ [])) }
{
    write!(text, "{pattern} ")?;
    push_bits(text, free.positions() as usize, |position| {
        free.get(pattern, 0, position as u32)
    })?;
    text.push('\n')
}
