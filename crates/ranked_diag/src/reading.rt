//! Partial logs read from text.

ghost use Rattle.std.specs.Prelude.{◌≤◌, length, IfOk, IfErr};
ghost use Rattle.diagnose.specs.Lines.{text_limit, TellsLogFault};
ghost use Rattle.ranked_diag.specs.PartialLog.{IsPartialLog, PartialRefused};

use crate::line::{right_line, seen_of};
use crate::partial::Partial;
use diagnose::{LogFault, check_size};
use dict_rows::Dict;
use std::alloc::Global;

/// Returns the lines of a partial log for a dictionary. Memory aside, returns `At` with a kind and a line exactly if
/// the text isn't a partial log for the dictionary's patterns and positions: it is longer than `diagnose::TEXT_LIMIT`
/// bytes, or this is its first line that breaks a rule. The kind is `Syntax`, `Order`, `Width` or `TooLong`.
pub fn read_partial(alloc: Global, dict: &Dict, bytes: &[u8]) -> Result<Partial, LogFault>
    ensures read { IfOk result (IsPartialLog dict.now.patterns dict.now.positions bytes.now) }
    ensures refused { IfErr result (TellsLogFault (PartialRefused dict.now.patterns dict.now.positions bytes.now)) }
{
    read_partial_of(alloc, dict.patterns, dict.positions, bytes)
}

/// Returns the lines of a partial log for the given numbers of patterns and positions, with the errors of
/// `read_partial`.
pub fn read_partial_of(
    alloc: Global,
    patterns: u32,
    positions: u32,
    bytes: &[u8],
) -> Result<Partial, LogFault>
    ensures read { IfOk result (IsPartialLog patterns positions bytes.now) }
    ensures refused { IfErr result (TellsLogFault (PartialRefused patterns positions bytes.now)) }
{
    check_size(bytes)?;
    read_lines(alloc, patterns, positions, bytes)
}

fn read_lines(
    alloc: Global,
    patterns: u32,
    positions: u32,
    bytes: &[u8],
) -> Result<Partial, LogFault>
    requires { length bytes.now ≤ text_limit }
    ensures read { IfOk result (IsPartialLog patterns positions bytes.now) }
    ensures refused { IfErr result (TellsLogFault (PartialRefused patterns positions bytes.now)) }
{
    let mut partial = Partial::new(alloc);
    let mut rest = bytes;
    let mut least = 0;
    let mut number: u64 = 1;
    while !rest.is_empty() {
        let line = match right_line(patterns, positions, least, rest) {
            Ok(line) => line,
            Err(kind) => return Err(LogFault::At(kind, number)),
        };
        let seen = seen_of(alloc, line.digits)?;
        partial.push(line.pattern, seen)?;
        rest = line.rest;
        least = line.pattern + 1;
        number += 1;
    }
    Ok(partial)
}
