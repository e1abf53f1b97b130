//! Why a result file is refused.

use evidence_rules::Refusal;
use thiserror::Error;

/// Which rule a line breaks.
#[derive(Clone, Copy, Debug, PartialEq, Eq)]
pub enum ResultKind {
    /// The line is no record's spelling, or the file's last line has no LF.
    Syntax,
    /// The numbers aren't those of the circuit, or a budget is above its limit.
    Head,
    /// The record isn't allowed at this place, or the file ends before its end line.
    Order,
    /// The pattern has a wrong number of bits, or splits no class.
    Pattern,
    /// The member isn't the next one, or the partner isn't its representative.
    Member,
    /// The roots of the fault collapse are different for a proof by collapse, or the same for another one.
    Roots,
    /// The tree or the log isn't right.
    Evidence(Refusal),
    /// The class or the member isn't the one that the patterns and marks give.
    Table,
    /// The line goes beyond the limit of bytes.
    TooLong,
}

/// The rule that is broken, and the number of the line that breaks it, counted from 1.
#[derive(Clone, Copy, Debug, PartialEq, Eq, Error)]
#[error("line {line} breaks a rule")]
pub struct ResultFault {
    pub kind: ResultKind,
    pub line: u64,
}
