//! The patterns of a log, and what it says of them.

ghost use Rattle.std.specs.Prelude.{◌≡◌, ◌<◌, length, All, IfOk};
ghost use Rattle.table_dicts.specs.Setting.{IsScored};
ghost use Rattle.ranked_diag.specs.PartialLog.{ArePartial};
ghost use Rattle.suspect_scores.specs.Marks.{IsLogged, logged_vectors};

use crate::columns::LogColumns;
use crate::marks::LogMarks;
use net_model::Vector;
use ranked_diag::Partial;
use std::alloc::{AllocError, Global};
use table_dicts::{Setting, number_answers_at};

/// The pattern of each line of a log, and its marks by line and by position.
#[derive(Debug, Drop)]
pub struct Logged {
    pub patterns: Vec<Vector>,
    pub marks: LogMarks,
    pub columns: LogColumns,
}

impl Logged {
    /// Returns the patterns and the marks of a partial log.
    pub fn new(alloc: Global, setting: &Setting, partial: &Partial) -> Result<Logged, AllocError>
        requires setting { IsScored setting.now }
        requires partial { ArePartial (length setting.now.patterns.now) (length setting.now.subject.now.positions) partial.now }
        ensures { IfOk result (IsLogged setting.now partial.now) }
    {
        let patterns = logged_patterns(alloc, setting.patterns.as_slice(), partial)?;
        let logged = patterns.as_slice();
        let free = number_answers_at(alloc, setting.subject, logged, &[0])?;
        let marks = LogMarks::new(alloc, &free, partial)?;
        let positions = setting.subject.circuit().positions().len() as u32;
        let columns = LogColumns::of(alloc, &marks, patterns.len(), positions)?;
        Ok(Logged {
            patterns,
            marks,
            columns,
        })
    }
}

// Returns the pattern of each line.
fn logged_patterns(
    alloc: Global,
    patterns: &[Vector],
    partial: &Partial,
) -> Result<Vec<Vector>, AllocError>
    requires { All (λ line. line.0 < length patterns.now) partial.now }
    ensures { IfOk result (λ logged. logged.items ≡ logged_vectors patterns.now partial.now) }
{
    let mut logged = Vec::with_capacity(alloc, partial.len())?;
    for at in 0..partial.len() {
        let (pattern, _seen) = partial.line(at);
        logged.push(patterns[pattern as usize].copy()?)?;
    }
    Ok(logged)
}
