//! The first two lines, and those of classes and of members, from a table and marks.

ghost use Rattle.std.specs.Prelude.{◌≡◌, ◌++◌, ◌∷◌, ◌<◌, ◌^◌, ℕ, [], OnOk, OnErr, length, take, zip};
ghost use Rattle.std.specs.String.{string_bytes};
ghost use Rattle.result_records.specs.Spelling.{text_of};
ghost use Rattle.result_file.specs.Meaning.{class_records, member_records};
ghost use Rattle.result_records.specs.declared.record.Record.TheVariants.{Head, Budget};

use class_refine::Classes;
use net_model::Circuit;
use result_records::{Budgets, Mark, Record, push_line};
use std::alloc::AllocError;

/// Appends the first two lines of a result. `numbers` is the number of the circuit's faults. After an error the first
/// line may have been appended.
pub fn push_head(
    text: &mut String,
    circuit: &Circuit,
    numbers: u32,
    budgets: Budgets,
) -> Result<(), AllocError>
    ensures { OnOk result (string_bytes text.new ≡ string_bytes text.old ++ text_of (Head circuit.now.sources (length circuit.now.positions) numbers ∷ Budget budgets ∷ [])) }
{
    let positions = circuit.positions().len() as u32;
    push_line(text, &Record::Head(circuit.sources(), positions, numbers))?;
    push_line(text, &Record::Budget(budgets))?;
    Ok(())
}

/// Appends a line for each class of the table. After an error the lines of some of the first classes have been
/// appended.
pub fn push_classes(text: &mut String, classes: &Classes) -> Result<(), AllocError>
    ensures ok { OnOk result (string_bytes text.new ≡ string_bytes text.old ++ text_of (class_records classes.now.births)) }

    ensures err { OnErr result ((count : ℕ) × (string_bytes text.new ≡ string_bytes text.old ++ text_of (take count (class_records classes.now.births)))) }
{
    for class in 0..classes.count() {
        push_line(text, &Record::Class(class, classes.born(class)))?;
    }
    Ok(())
}

/// Appends a line for each number, with its class in the table and its mark in the list. After an error the lines of
/// some of the first numbers have been appended.
pub fn push_members(text: &mut String, classes: &Classes, marks: &[Mark]) -> Result<(), AllocError>
    requires whole { length marks.now ≡ length classes.now.class_of }
    requires few { length marks.now < 2 ^ 32 }
    ensures ok { OnOk result (string_bytes text.new ≡ string_bytes text.old ++ text_of (member_records (zip classes.now.class_of marks.now))) }

    ensures err { OnErr result ((count : ℕ) × (string_bytes text.new ≡ string_bytes text.old ++ text_of (take count (member_records (zip classes.now.class_of marks.now))))) }
{
    for (number, mark) in marks.iter().enumerate() {
        let number = number as u32;
        push_line(
            text,
            &Record::Member(number, classes.class_of(number), *mark),
        )?;
    }
    Ok(())
}
