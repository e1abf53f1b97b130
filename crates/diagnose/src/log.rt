//! Tester logs.

ghost use Rattle.std.specs.Prelude.{◌≡◌, ◌≢◌, ◌<◌, ◌≤◌, ◌*◌, ◌^◌, ℕ, Bool, List, [], length, slice_index_or, slice_set, IfOk, IfErr, MatchOption, MatchResult};
ghost use Rattle.diagnose.specs.declared.fault.LogKind.TheVariants as log_kind;
ghost use Rattle.text_fields.specs.Fields.{digit_bits};
ghost use Rattle.diagnose.specs.Lines.{text_limit, TellsLogFault};
ghost use Rattle.diagnose.specs.LogText.{log_line, BeginsWithLine, HasNoLine, IsLog, TesterLogRefused, LogRestRefused, IsRightLogLine};

use crate::fault::{LogFault, LogKind};
use crate::lines::check_size;
use dict_rows::{Dict, write_row};
use net_model::AnswerRows;
use std::alloc::Global;
use text_fields::{cut, digits_of, number_of_bytes};

// A line of a log, and what is after it.
#[derive(Clone, Copy)]
struct LogLine<'a> {
    pattern: u32,
    digits: &'a [u8],
    rest: &'a [u8],
}

/// Returns the observed answers of a tester's log, a row for each pattern of the dictionary with a bit for each
/// position. Memory aside, returns `At` with a kind and a line exactly if the text isn't a log for these patterns and
/// positions: it is longer than `TEXT_LIMIT` bytes, or this is its first line that breaks a rule.
pub fn read_log(alloc: Global, dict: &Dict, bytes: &[u8]) -> Result<AnswerRows, LogFault>
    ensures read { IfOk result (λ observed. IsLog dict.now.patterns dict.now.positions bytes.now observed) }
    ensures refused { IfErr result (TellsLogFault (TesterLogRefused dict.now.patterns dict.now.positions bytes.now)) }
{
    check_size(bytes)?;
    read_lines(alloc, dict.patterns, dict.positions, bytes)
}

fn read_lines(
    alloc: Global,
    patterns: u32,
    positions: u32,
    bytes: &[u8],
) -> Result<AnswerRows, LogFault>
    requires { length bytes.now ≤ text_limit }
    ensures read { IfOk result (λ observed. IsLog patterns positions bytes.now observed) }
    ensures refused { IfErr result (TellsLogFault (TesterLogRefused patterns positions bytes.now)) }
{
    let mut observed = AnswerRows::zeros(alloc, patterns as usize, positions as usize)?;
    let mut rest = bytes;
    for pattern in 0..patterns {
        let line = match right_line(positions, pattern, patterns, rest) {
            Ok(line) => line,
            Err(kind) => return Err(LogFault::At(kind, pattern as u64 + 1)),
        };
        write_digits(&mut observed, pattern as usize, line.digits);
        rest = line.rest;
    }
    match check_end(rest) {
        Ok(()) => Ok(observed),
        Err(kind) => Err(LogFault::At(kind, patterns as u64 + 1)),
    }
}

// Returns the line of `pattern`, one of `patterns`, with which `rest` begins, or the rule that is broken there.
fn right_line<'a>(
    positions: u32,
    pattern: u32,
    patterns: u32,
    rest: &'a [u8],
) -> Result<LogLine<'a>, LogKind>
    requires { pattern < patterns }
    ensures { MatchResult result (λ line. IsRightLogLine positions pattern rest.now line.digits.now line.rest.now) (LogRestRefused patterns positions pattern rest.now) }
{
    if rest.is_empty() {
        return Err(LogKind::Missing);
    }
    let Some(line) = first_line(rest) else {
        return Err(LogKind::Syntax);
    };
    if line.pattern != pattern {
        return Err(LogKind::Order);
    }
    if line.digits.len() != positions as usize {
        return Err(LogKind::Width);
    }
    Ok(line)
}

// Refuses anything after the lines of all patterns.
fn check_end(rest: &[u8]) -> Result<(), LogKind>
    ensures { (patterns positions : ℕ) → MatchResult result (λ _. rest.now ≡ []) (LogRestRefused patterns positions patterns rest.now) }
{
    if rest.is_empty() {
        return Ok(());
    }
    match first_line(rest) {
        None => Err(LogKind::Syntax),
        Some(_) => Err(LogKind::Order),
    }
}

// Returns the line that a text begins with, or none if it begins with no line of a log.
fn first_line(text: &[u8]) -> Option<LogLine<'_>>
    ensures { MatchOption result (HasNoLine text.now) (λ line. BeginsWithLine text.now line.pattern (digit_bits line.digits.now) line.rest.now) }
{
    let (line, rest) = cut(text, b'\n')?;
    let (pattern, digits) = fields_of(line)?;
    Some(LogLine {
        pattern,
        digits,
        rest,
    })
}

// Returns the pattern and the digits that a line spells.
fn fields_of(line: &[u8]) -> Option<(u32, &[u8])>
    ensures { MatchOption result ((pattern : ℕ) (bits : List Bool) → pattern < 2 ^ 32 → log_line pattern bits ≢ line.now) (λ fields. (fields.0 < 2 ^ 32) × (log_line fields.0 (digit_bits fields.1.now) ≡ line.now)) }
{
    let (number, field) = cut(line, b' ')?;
    let pattern = number_of_bytes(number)?;
    let digits = digits_of(field)?;
    Some((pattern, digits))
}

fn write_digits(observed: &mut AnswerRows, row: usize, digits: &[u8])
    requires row { row < length observed.old }
    requires width { length (slice_index_or observed.old row []) ≡ length digits.now }
    ensures { observed.new ≡ slice_set observed.old row (digit_bits digits.now) }
{
    write_row(observed, row, |at| digits[at] == b'1');
}
