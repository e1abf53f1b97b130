//! `read`: the statements of a netlist's text, or the first rule that it breaks.
ghost use Rattle.std.specs.Prelude.{◌≡◌, ◌<◌, None, IfOk, OnOk, IfErr, count_by, ◌==◌, length};
ghost use Rattle.net_model.specs.Ascii.{line_feed};
ghost use Rattle.text_fields.specs.Fields.{Text};
ghost use Rattle.bench_reader.specs.Drivers.{driver_fault, AreNumbered};
ghost use Rattle.bench_reader.specs.Parsed.{IsParsed};
ghost use Rattle.bench_reader.specs.Reading.{place_of, IsNetlist};
ghost use Rattle.bench_reader.specs.Stops.{IsTextFault};

use crate::drivers::check_drivers;
use crate::fault::{NetFault, NetKind, Place};
use crate::parsed::Parsed;
use crate::parsing::parse;
use crate::statement::Statements;
use std::alloc::Global;

/// The maximum number of bytes of a netlist.
pub const NETLIST_LIMIT: u64 = 16_777_216;

/// Reads a netlist: statements in the `.bench` format of Brglez and Fujiwara (1985), with comments from `#` to the end
/// of a line. Returns `At` exactly if the text breaks a rule, with the first one that it breaks and the byte where: a
/// text of more than `NETLIST_LIMIT` bytes; then, from left to right, the rules of bytes, words and statements; then a
/// name that is driven twice; then a used name that nothing drives. Returns `NoMemory` if memory is missing, and never
/// `Loop`.
pub fn read(alloc: Global, bytes: &[u8]) -> Result<Statements, NetFault>
    ensures ok { IfOk result (IsNetlist bytes.now) }
    ensures refused { IfErr result (IsTextFault bytes.now) }
{
    let parsed = parse_short(alloc, bytes)?;
    judge(alloc, &parsed)?;
    Ok(Statements {
        statements: parsed.statements,
        names: parsed.names,
    })
}

// Refuses the statements of a text if a name is driven twice, or used and not driven.
fn judge(alloc: Global, parsed: &Parsed) -> Result<(), NetFault>
    requires { AreNumbered (length parsed.now.names) parsed.now.statements }
    ensures ok { OnOk result (driver_fault parsed.now.statements ≡ None) }
    ensures refused { IfErr result (λ fault. (text : Text) → IsParsed text parsed.now → IsTextFault text fault) }
{
    match check_drivers(alloc, parsed)? {
        Some((kind, place)) => Err(NetFault::At(kind, place)),
        None => Ok(()),
    }
}

// Returns the statements of a text, which is refused if it is too long.
fn parse_short(alloc: Global, bytes: &[u8]) -> Result<Parsed, NetFault>
    ensures ok { IfOk result (IsParsed bytes.now) }
    ensures refused { IfErr result (IsTextFault bytes.now) }
{
    if bytes.len() as u64 > NETLIST_LIMIT {
        return Err(NetFault::At(NetKind::TooLong, limit_place(bytes)));
    }
    parse(alloc, bytes)
}

// Returns the place of the first byte after the limit.
fn limit_place(bytes: &[u8]) -> Place
    requires { NETLIST_LIMIT < length bytes.now }
    ensures { result ≡ place_of bytes.now NETLIST_LIMIT }
{
    Place {
        byte: NETLIST_LIMIT as u32,
        line: feeds(&bytes[..NETLIST_LIMIT as usize]) as u32 + 1,
    }
}

// Returns the number of bytes that are LF.
fn feeds(bytes: &[u8]) -> usize
    ensures { result ≡ count_by (λ b. b == line_feed) bytes.now }
{
    bytes.iter().filter(|byte| **byte == b'\n').count()
}
