//! The text of what is left of a result.

ghost use Rattle.std.specs.Prelude.{◌≡◌, ◌∷◌, ◌++◌, ◌<◌, ◌^◌, ◌==◌, if◌then◌else◌, [], List, None, Option, length, map, zip, All, IfOk, OnOk};
ghost use Rattle.std.specs.Option.{option_to_list};
ghost use Rattle.std.specs.String.{string_bytes};
ghost use Rattle.net_model.specs.Circuit.{IsCircuit};
ghost use Rattle.net_model.specs.ClassTable.{class_at, representative};
ghost use Rattle.result_records.specs.Spelling.{text_of};
ghost use Rattle.result_file.specs.Meaning.{class_records, member_records};
ghost use Rattle.result_records.specs.Marks.{evidence_in};
ghost use Rattle.result_records.specs.declared.record.Evidence.{Evidence};
ghost use Rattle.result_records.specs.declared.record.Record.{Record};
ghost use Rattle.result_records.specs.declared.record.Record.TheVariants.{Head, Budget, Pattern, Same, End};
ghost use Rattle.compact_tests.specs.Keeping.{vectors_at};
ghost use Rattle.compact_tests.specs.ThinResult.{marks_in, needed_evidence};
ghost use Rattle.compact_tests.specs.Stated.{IsReadable, AreEvidenceLines, IsEvidenceLine};

use crate::lines::{Span, read_stated};
use class_refine::Classes;
use net_model::{Circuit, Vector};
use result_file::{
    Budgets, Mark, Record, push_classes, push_head, push_line, push_members, push_pattern,
};
use std::alloc::{AllocError, Global};

/// Returns the first two lines and those of the patterns at these places. `numbers` is the number of the circuit's
/// faults.
pub(crate) fn first_lines(
    alloc: Global,
    circuit: &Circuit,
    numbers: u32,
    budgets: Budgets,
    patterns: &[Vector],
    places: &[usize],
) -> Result<Vec<u8>, AllocError>
    requires { All (λ place. place < length patterns.now) places.now }
    ensures circuit { IsCircuit circuit.now }
    ensures lines { IfOk result (λ text. text.items ≡ text_of (Head circuit.now.sources (length circuit.now.positions) numbers ∷ Budget budgets ∷ map Pattern (vectors_at patterns.now places.now))) }
{
    circuit.stands();
    let mut lines = String::new(alloc);
    push_head(&mut lines, circuit, numbers, budgets)?;
    for place in places {
        push_pattern(&mut lines, &patterns[*place])?;
    }
    Ok(lines.into_bytes())
}

/// Appends the needed evidence, the lines of the classes and of the numbers, and the end. Evidence and marks are those
/// that `bytes`, a result with `numbers` numbers, states; `classes` are the new classes.
pub(crate) fn push_numbers(
    text: &mut Vec<u8>,
    alloc: Global,
    bytes: &[u8],
    classes: &Classes,
    numbers: u32,
) -> Result<(), AllocError>
    requires numbers { numbers ≡ length classes.now.class_of }
    requires stated { (records : List Record) × IsReadable bytes.now numbers records × (length (marks_in records) ≡ numbers) }
    ensures { OnOk result ((records : List Record) → IsReadable bytes.now numbers records → text.new.items ≡ text.old.items ++ text_of (map Same (needed_evidence classes.now (evidence_in records))) ++ text_of (class_records classes.now.births ++ member_records (zip classes.now.class_of (marks_in records)) ++ End ∷ [])) }
{
    let stated = read_stated(alloc, bytes, numbers)?;
    push_evidence(text, bytes, classes, stated.evidence.as_slice())?;
    let last = last_lines(alloc, classes, stated.marks.as_slice())?;
    text.extend_from_slice(last.as_bytes())?;
    Ok(())
}

// Appends the evidence of the numbers that aren't representatives. `lines` has for each number the line of `bytes` with
// its evidence, if there is one.
fn push_evidence(
    text: &mut Vec<u8>,
    bytes: &[u8],
    classes: &Classes,
    lines: &[Option<Span>],
) -> Result<(), AllocError>
    requires count { length lines.now ≡ length classes.now.class_of }
    requires few { length lines.now < 2 ^ 32 }
    requires lines { (evidence : List Evidence) × AreEvidenceLines bytes.now evidence lines.now }
    ensures { OnOk result ((evidence : List Evidence) → AreEvidenceLines bytes.now evidence lines.now → text.new.items ≡ text.old.items ++ text_of (map Same (needed_evidence classes.now evidence))) }
{
    for (number, line) in lines.iter().enumerate() {
        push_needed(text, bytes, classes, number as u32, *line)?;
    }
    Ok(())
}

// Appends the evidence of the number if there is some and the number isn't a representative.
fn push_needed(
    text: &mut Vec<u8>,
    bytes: &[u8],
    classes: &Classes,
    number: u32,
    line: Option<Span>,
) -> Result<(), AllocError>
    requires number { number < length classes.now.class_of }
    requires line { (e : Option Evidence) × IsEvidenceLine bytes.now e line }
    ensures { OnOk result ((e : Option Evidence) → IsEvidenceLine bytes.now e line → text.new.items ≡ text.old.items ++ text_of (map Same (option_to_list (if representative classes.now (class_at classes.now number) == number then None else e)))) }
{
    if classes.representative(classes.class_of(number)) == number {
        return Ok(());
    }
    match line {
        Some(span) => {
            text.extend_from_slice(&bytes[span.start..span.end])?;
            Ok(())
        }
        None => Ok(()),
    }
}

// Returns the lines of the classes and of the numbers, and the end.
fn last_lines(alloc: Global, classes: &Classes, marks: &[Mark]) -> Result<String, AllocError>
    requires whole { length marks.now ≡ length classes.now.class_of }
    requires few { length marks.now < 2 ^ 32 }
    ensures { IfOk result (λ text. string_bytes text ≡ text_of (class_records classes.now.births ++ member_records (zip classes.now.class_of marks.now) ++ End ∷ [])) }
{
    let mut text = String::new(alloc);
    push_classes(&mut text, classes)?;
    push_members(&mut text, classes, marks)?;
    push_line(&mut text, &Record::End)?;
    Ok(text)
}
