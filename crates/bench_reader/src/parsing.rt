//! The statements of a whole text.
ghost use Rattle.std.specs.Prelude.{◌≡◌, ◌≤◌, [], length, IfOk, OnOk, IfErr};
ghost use Rattle.bench_reader.specs.declared.reading.TheConstants.{NETLIST_LIMIT};
ghost use Rattle.bench_reader.specs.Names.{texts_in};
ghost use Rattle.bench_reader.specs.Parsed.{IsParsed};
ghost use Rattle.bench_reader.specs.Stops.{IsGrammarFault};

use crate::fault::{NetFault, Place};
use crate::numbers::statement;
use crate::parsed::Parsed;
use crate::scanner::{LexemeKind, next_lexeme};
use crate::shape::statement_at;
use crate::statement::Statement;
use indexmap::IndexSet;
use std::alloc::Global;

/// Reads a text as statements, or returns the first rule of the grammar that it breaks.
pub(crate) fn parse(alloc: Global, bytes: &[u8]) -> Result<Parsed, NetFault>
    requires { length bytes.now ≤ NETLIST_LIMIT }
    ensures ok { IfOk result (IsParsed bytes.now) }
    ensures refused { IfErr result (IsGrammarFault bytes.now) }
{
    let mut statements = Vec::new(alloc);
    let mut names = IndexSet::new(alloc);
    add_statements(alloc, bytes, &mut statements, &mut names)?;
    let names = names.into_iter().collect(alloc)?;
    Ok(Parsed { statements, names })
}

// Reads all statements of a text, and their names, into `statements` and `names`.
fn add_statements(
    alloc: Global,
    bytes: &[u8],
    statements: &mut Vec<Statement>,
    names: &mut IndexSet<Vec<u8>>,
) -> Result<(), NetFault>
    requires short { length bytes.now ≤ NETLIST_LIMIT }
    requires no_statements { statements.old.items ≡ [] }
    requires no_names { texts_in names.old ≡ [] }
    ensures ok { OnOk result (IsParsed bytes.now (record { statements = statements.new.items; names = texts_in names.new })) }
    ensures refused { IfErr result (IsGrammarFault bytes.now) }
{
    let mut place = Place { byte: 0, line: 1 };
    'statements: loop {
        let first = next_lexeme(bytes, place);
        match first.kind {
            LexemeKind::End => return Ok(()),
            _ => {}
        }
        let (shape, behind) = statement_at(alloc, bytes, first)?;
        let next = statement(alloc, names, bytes, shape)?;
        statements.push(next)?;
        place = behind;
    }
}
