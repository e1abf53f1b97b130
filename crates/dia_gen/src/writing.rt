//! The lines of the result: patterns, classes and members.

ghost use Rattle.std.specs.Prelude.{◌≡◌, ◌∷◌, ◌<◌, ◌-◌, [], map, length, slice_index_or};
ghost use Rattle.net_model.specs.ClassTable.{number_range};
ghost use Rattle.result_file.specs.Meaning.{class_records, member_records};
ghost use Rattle.result_records.specs.Spelling.{text_of};
ghost use Rattle.result_records.specs.declared.record.Record.TheVariants.{Pattern};
ghost use Rattle.member_marks.specs.Given.{AreAllMarked};
ghost use Rattle.dia_gen.specs.Marked.{member_for};
ghost use Rattle.dia_gen.specs.Writing.{Gathers};

use crate::gathered::Gathered;
use class_refine::Classes;
use diag_shelf::{Shelf, ShelfFault};
use member_marks::Marks;
use net_model::Vector;
use result_file::Record;

pub(crate) fn write_last<S: Shelf>(
    gathered: &mut Gathered,
    shelf: &mut S,
    vectors: &[Vector],
) -> Result<(), ShelfFault>
    requires { 0 < length vectors.now }
    ensures { Gathers (text_of (Pattern (slice_index_or vectors.now (length vectors.now - 1) []) ∷ [])) result gathered.old gathered.new (S.state shelf.old) (S.state shelf.new) }
{
    gathered.add_pattern(shelf, &vectors[vectors.len() - 1])
}

pub(crate) fn write_patterns<S: Shelf>(
    gathered: &mut Gathered,
    shelf: &mut S,
    patterns: &[Vector],
) -> Result<(), ShelfFault>
    ensures { Gathers (text_of (map Pattern patterns.now)) result gathered.old gathered.new (S.state shelf.old) (S.state shelf.new) }
{
    for pattern in patterns {
        gathered.add_pattern(shelf, pattern)?;
    }
    Ok(())
}

pub(crate) fn write_classes<S: Shelf>(
    gathered: &mut Gathered,
    shelf: &mut S,
    classes: &Classes,
) -> Result<(), ShelfFault>
    ensures { Gathers (text_of (class_records classes.now.births)) result gathered.old gathered.new (S.state shelf.old) (S.state shelf.new) }
{
    for class in 0..classes.count() {
        gathered.add_line(shelf, Record::Class(class, classes.born(class)))?;
    }
    Ok(())
}

pub(crate) fn write_members<S: Shelf>(
    gathered: &mut Gathered,
    shelf: &mut S,
    classes: &Classes,
    marks: &Marks,
    numbers: u32,
) -> Result<(), ShelfFault>
    requires numbers { numbers ≡ length classes.now.class_of }
    requires whole { length marks.now ≡ length classes.now.class_of }
    requires marked { AreAllMarked classes.now marks.now }
    ensures { Gathers (text_of (member_records (map (member_for classes.now marks.now) (number_range classes.now)))) result gathered.old gathered.new (S.state shelf.old) (S.state shelf.new) }
{
    for number in 0..numbers {
        let mark = marks.of(classes, number).unwrap();
        gathered.add_line(
            shelf,
            Record::Member(number, classes.class_of(number), mark),
        )?;
    }
    Ok(())
}
