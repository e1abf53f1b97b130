//! Records read from lines of text.

ghost use Rattle.std.specs.Prelude.{◌≡◌, ◌≢◌, ◌==◌, ℕ, [], ◌∷◌, codes, decimal, map, IfOk, IsErrOf, MatchOption};
ghost use Rattle.std.specs.List.{slice_split};
ghost use Rattle.net_model.specs.Ascii.{space};
ghost use Rattle.result_records.specs.declared.fault.RecordFault.TheVariants as record_fault;
ghost use Rattle.text_fields.specs.Fields.{IsNumber};
ghost use Rattle.result_records.specs.Spelling.{spelling, fields, HasSpelling, IsNoSpelling};
ghost use Rattle.result_records.specs.Reading.{Reads};

use crate::evidence::read_proof;
use crate::fault::RecordFault;
use crate::record::{Budgets, Evidence, Record};
use crate::words::{bits_of, mark_of};
use std::alloc::{AllocError, Global};
use text_fields::number_of;

/// Returns the record that the line spells; the line is given without its LF. Memory aside, returns `Syntax` exactly if
/// the line is the spelling of no record that can be written.
pub fn read_record(alloc: Global, line: &[u8]) -> Result<Record, RecordFault>
    ensures read { IfOk result (λ r. HasSpelling r × (spelling r ≡ line.now)) }
    ensures refused { IsErrOf result record_fault.Syntax → IsNoSpelling line.now }
{
    let Ok(text) = str::from_utf8(line) else {
        return Err(RecordFault::Syntax);
    };
    read_fields(alloc, fields_of(alloc, text)?.as_slice())
}

// Returns the parts of the text between its blanks.
fn fields_of<'a>(alloc: Global, text: &'a str) -> Result<Vec<&'a str>, AllocError>
    ensures { IfOk result (λ parts. map (λ f. f.now) parts.items ≡ slice_split (λ b. b == space) text.now) }
{
    text.split(' ').collect(alloc)
}

// Returns the record that these fields spell.
fn read_fields(alloc: Global, parts: &[&str]) -> Result<Record, RecordFault>
    ensures { Reads HasSpelling fields (map (λ f. f.now) parts.now) result }
{
    let Some((word, rest)) = parts.split_first() else {
        return Err(RecordFault::Syntax);
    };
    match *word {
        "diatest" => read_head(rest),
        "budget" => read_budget(rest),
        "pattern" => read_pattern(alloc, rest),
        "same" => read_same(alloc, rest),
        "class" => read_class(rest),
        "member" => read_member(rest),
        "end" => read_end(rest),
        _ => Err(RecordFault::Syntax),
    }
}

fn read_head(rest: &[&str]) -> Result<Record, RecordFault>
    ensures { Reads HasSpelling fields (codes "diatest" ∷ map (λ f. f.now) rest.now) result }
{
    let ["1", rest @ ..] = rest else {
        return Err(RecordFault::Syntax);
    };
    match three_numbers(rest) {
        Some((sources, positions, numbers)) => Ok(Record::Head(sources, positions, numbers)),
        None => Err(RecordFault::Syntax),
    }
}

fn read_pattern(alloc: Global, rest: &[&str]) -> Result<Record, RecordFault>
    ensures { Reads HasSpelling fields (codes "pattern" ∷ map (λ f. f.now) rest.now) result }
{
    let [bits] = rest else {
        return Err(RecordFault::Syntax);
    };
    Ok(Record::Pattern(bits_of(alloc, bits)?))
}

fn read_budget(rest: &[&str]) -> Result<Record, RecordFault>
    ensures { Reads HasSpelling fields (codes "budget" ∷ map (λ f. f.now) rest.now) result }
{
    match three_numbers(rest) {
        Some((blocks, cubes, conflicts)) => Ok(Record::Budget(Budgets {
            blocks,
            cubes,
            conflicts,
        })),
        None => Err(RecordFault::Syntax),
    }
}

fn read_same(alloc: Global, rest: &[&str]) -> Result<Record, RecordFault>
    ensures { Reads HasSpelling fields (codes "same" ∷ map (λ f. f.now) rest.now) result }
{
    let [member, partner, proof @ ..] = rest else {
        return Err(RecordFault::Syntax);
    };
    let Some((member, partner)) = two_numbers(member, partner) else {
        return Err(RecordFault::Syntax);
    };
    Ok(Record::Same(Evidence {
        member,
        partner,
        proof: read_proof(alloc, proof)?,
    }))
}

fn read_class(rest: &[&str]) -> Result<Record, RecordFault>
    ensures { Reads HasSpelling fields (codes "class" ∷ map (λ f. f.now) rest.now) result }
{
    let [number, parent, pattern] = rest else {
        return Err(RecordFault::Syntax);
    };
    let Some(number) = number_of(number) else {
        return Err(RecordFault::Syntax);
    };
    if *parent == "-" && *pattern == "-" {
        return Ok(Record::Class(number, None));
    }
    match two_numbers(parent, pattern) {
        Some(birth) => Ok(Record::Class(number, Some(birth))),
        None => Err(RecordFault::Syntax),
    }
}

fn read_member(rest: &[&str]) -> Result<Record, RecordFault>
    ensures { Reads HasSpelling fields (codes "member" ∷ map (λ f. f.now) rest.now) result }
{
    let [number, class, mark] = rest else {
        return Err(RecordFault::Syntax);
    };
    match (two_numbers(number, class), mark_of(mark)) {
        (Some((number, class)), Some(mark)) => Ok(Record::Member(number, class, mark)),
        _ => Err(RecordFault::Syntax),
    }
}

fn read_end(rest: &[&str]) -> Result<Record, RecordFault>
    ensures { Reads HasSpelling fields (codes "end" ∷ map (λ f. f.now) rest.now) result }
{
    if rest.is_empty() {
        Ok(Record::End)
    } else {
        Err(RecordFault::Syntax)
    }
}

// Returns the numbers that the fields spell, if there are exactly three fields and each spells one.
fn three_numbers(parts: &[&str]) -> Option<(u32, u32, u32)>
    ensures { MatchOption result ((a b c : ℕ) → IsNumber a → IsNumber b → IsNumber c → decimal a ∷ decimal b ∷ decimal c ∷ [] ≢ map (λ f. f.now) parts.now)
        (λ n. IsNumber n.0 × IsNumber n.1 × IsNumber n.2 × (decimal n.0 ∷ decimal n.1 ∷ decimal n.2 ∷ [] ≡ map (λ f. f.now) parts.now)) }
{
    let [first, second, third] = parts else {
        return None;
    };
    let (first, second) = two_numbers(first, second)?;
    Some((first, second, number_of(third)?))
}

// Returns the numbers that the two fields spell, if each spells one.
fn two_numbers(first: &str, second: &str) -> Option<(u32, u32)>
    ensures { MatchOption result ((a b : ℕ) → IsNumber a → IsNumber b → decimal a ≡ first.now → decimal b ≢ second.now)
        (λ n. IsNumber n.0 × IsNumber n.1 × (decimal n.0 ≡ first.now) × (decimal n.1 ≡ second.now)) }
{
    Some((number_of(first)?, number_of(second)?))
}
