//! Names that are driven twice, or used and not driven.
ghost use Rattle.std.specs.Prelude.{◌≡◌, ◌<◌, None, false, length, filter_map, flat_map, replicate, All, IfOk};
ghost use Rattle.bench_reader.specs.Drivers.{driven_word, used_words, repeated_word, driver_fault, AreNumbered, AreMarksOfWords, unmarked};

use crate::fault::{NetKind, Place};
use crate::parsed::Parsed;
use crate::statement::{Statement, Word};
use std::alloc::{AllocError, Global};

// Returns the first word that drives a name again, or else the first use of a name that nothing drives, with the rule
// and the place.
pub(crate) fn check_drivers(
    alloc: Global,
    parsed: &Parsed,
) -> Result<Option<(NetKind, Place)>, AllocError>
    requires { AreNumbered (length parsed.now.names) parsed.now.statements }
    ensures { IfOk result (λ found. found ≡ driver_fault parsed.now.statements) }
{
    let statements = parsed.statements.as_slice();
    let driven = driven_words(alloc, statements)?;
    let mut marks = vec![in alloc; false; parsed.names.len()]?;
    Ok(fault_of(marks.as_mut_slice(), driven.as_slice(), statements))
}

// Returns what is wrong with the drivers of names, with `marks` as a mark for each name.
fn fault_of(
    marks: &mut [bool],
    driven: &[Word],
    statements: &[Statement],
) -> Option<(NetKind, Place)>
    requires clear { marks.old ≡ replicate (length marks.old) false }
    requires driven { driven.now ≡ filter_map driven_word statements.now }
    requires numbered { AreNumbered (length marks.old) statements.now }
    ensures { result ≡ driver_fault statements.now }
{
    if let Some(word) = mark_words(marks, driven) {
        return Some((NetKind::DrivenTwice, word.place));
    }
    let word = first_unmarked(marks, statements)?;
    Some((NetKind::Undriven, word.place))
}

// Returns the words that are driven, in order.
fn driven_words(alloc: Global, statements: &[Statement]) -> Result<Vec<Word>, AllocError>
    ensures { IfOk result (λ words. words.items ≡ filter_map driven_word statements.now) }
{
    statements.iter().filter_map(driven_word).collect(alloc)
}

fn driven_word(statement: &Statement) -> Option<Word>
    ensures { result ≡ driven_word statement.now }
{
    match statement {
        Statement::Input(word) | Statement::Drive(word, _, _) | Statement::Flop(word, _) => {
            Some(*word)
        }
        Statement::Output(_) => None,
    }
}

// Marks the numbers of words. Stops at the first word whose number is already marked, and returns it.
fn mark_words(marks: &mut [bool], words: &[Word]) -> Option<Word>
    requires clear { marks.old ≡ replicate (length marks.old) false }
    requires numbered { All (λ word. word.name < length marks.old) words.now }
    ensures repeated { result ≡ repeated_word words.now }
    ensures marked { result ≡ None → AreMarksOfWords (length marks.old) words.now marks.new }
{
    for word in words {
        if marks[word.name as usize] {
            return Some(*word);
        }
        marks[word.name as usize] = true;
    }
    None
}

// Returns the first use of a name that isn't marked.
fn first_unmarked(marks: &[bool], statements: &[Statement]) -> Option<Word>
    requires { All (λ statement. All (λ word. word.name < length marks.now) (used_words statement)) statements.now }
    ensures { result ≡ unmarked marks.now (flat_map used_words statements.now) }
{
    for statement in statements {
        if let Some(word) = unmarked_use(marks, statement) {
            return Some(word);
        }
    }
    None
}

fn unmarked_use(marks: &[bool], statement: &Statement) -> Option<Word>
    requires { All (λ word. word.name < length marks.now) (used_words statement.now) }
    ensures { result ≡ unmarked marks.now (used_words statement.now) }
{
    match statement {
        Statement::Input(_) => None,
        Statement::Drive(_, _, pins) => unmarked_word(marks, pins.as_slice()),
        Statement::Output(word) | Statement::Flop(_, word) => unmarked_word(marks, &[*word]),
    }
}

fn unmarked_word(marks: &[bool], words: &[Word]) -> Option<Word>
    requires { All (λ word. word.name < length marks.now) words.now }
    ensures { result ≡ unmarked marks.now words.now }
{
    words
        .iter()
        .copied()
        .find(|word| !marks[word.name as usize])
}
