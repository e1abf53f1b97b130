//! Three small tables, worked out by hand.

ghost use Rattle.std.specs.Prelude.{◌≡◌, length, IfOk};
ghost use Rattle.net_model.specs.ClassTable.{first_table};

use class_refine::{Classes, Leaver};
use net_model::AnswerRows;
use std::alloc::Global;
use std::test::Fail;

// The numbers and places at which rows of answers are 1, and how many classes these rows add.
type Cut = (&'static [(usize, usize)], u32);

// Returns whether each of these rows adds as many classes as it should.
fn are_added(
    alloc: Global,
    classes: &mut Classes,
    numbers: u32,
    width: usize,
    cuts: &[Cut],
) -> Result<bool, Fail>
    requires { length classes.old.class_of ≡ numbers }
    ensures { length classes.new.class_of ≡ numbers }
{
    for (ones, added) in cuts {
        if added_by(alloc, classes, numbers, width, *ones)? != *added {
            return Ok(false);
        }
    }
    Ok(true)
}

// Returns how many classes are added by the rows that are 1 at these numbers and places.
fn added_by(
    alloc: Global,
    classes: &mut Classes,
    numbers: u32,
    width: usize,
    ones: &[(usize, usize)],
) -> Result<u32, Fail>
    requires { length classes.old.class_of ≡ numbers }
    ensures { length classes.new.class_of ≡ numbers }
{
    let rows = rows_with(alloc, numbers as usize, width, ones)?;
    Ok(classes.refine(&rows)?)
}

// Returns rows of answers that are 1 at these numbers and places, and 0 elsewhere.
fn rows_with(
    alloc: Global,
    numbers: usize,
    width: usize,
    ones: &[(usize, usize)],
) -> Result<AnswerRows, Fail>
    ensures { IfOk result (λ rows. length rows ≡ numbers) }
{
    let mut rows = AnswerRows::zeros(alloc, numbers, width)?;
    for (number, at) in ones {
        if *number >= numbers || *at >= width {
            return Err(Fail::new("there is no such answer"));
        }
        rows.set(*number, *at, true);
    }
    Ok(rows)
}

// The faults of an AND of two sources at the vectors 00, 10, 01 and 11, and at 10 again: the free circuit, each source
// at 0 and at 1, and the gate at 0 and at 1.
static CUTS_OF_AND: [Cut; 5] = [
    (&[(6, 0)], 1),
    (&[(4, 0), (6, 0)], 1),
    (&[(2, 0), (6, 0)], 1),
    (&[(0, 0), (2, 0), (4, 0), (6, 0)], 1),
    (&[(4, 0), (6, 0)], 0),
];

#[test]
fn classes_of_an_and(rt: HostRuntime) -> Result<(), Fail> {
    let mut classes = Classes::new(rt.alloc(), 7)?;
    assert!(rt; are_added(rt.alloc(), &mut classes, 7, 1, &CUTS_OF_AND)?);
    assert!(rt; are_of_and(&classes));
    Ok(())
}

// Returns whether these are the classes of the faults of an AND.
fn are_of_and(classes: &Classes) -> bool
    requires { length classes.now.class_of ≡ 7 }
{
    classes.count() == 5
        && classes.patterns() == 4
        && classes.class_of(6) == 1
        && classes.class_of(4) == 2
        && classes.class_of(2) == 3
        && classes.members(4) == [1, 3, 5].as_slice()
        && classes.representative(4) == 1
        && classes.born(4) == Some((0, 3))
        && classes.born(0) == None
        && classes.named(0, 4) == 3
        && classes.named(3, 2) == 1
}

// Two pieces leave class 0 at one pattern, and one leaves class 1 at the next: new numbers go by class and then by
// lowest member.
static CUTS_BY_CLASS: [Cut; 2] = [(&[(3, 0), (4, 1), (5, 0)], 2), (&[(5, 0), (2, 0)], 2)];

#[test]
fn new_numbers_go_by_class(rt: HostRuntime) -> Result<(), Fail> {
    let mut classes = Classes::new(rt.alloc(), 6)?;
    assert!(rt; are_added(rt.alloc(), &mut classes, 6, 2, &CUTS_BY_CLASS)?);
    let numbered = classes.count() == 5 && classes.class_of(2) == 3 && classes.class_of(5) == 4;
    assert!(rt; numbered && classes.born(4) == Some((1, 1)));
    Ok(())
}

// Numbers 1 and 3 leave class 0 with one answer, and 2 with another. Returns how many classes are added.
fn added_by_leavers(classes: &mut Classes) -> Result<u32, Fail>
    requires { classes.old ≡ first_table 5 }
    ensures { length classes.new.class_of ≡ 5 }
{
    let leavers = [
        Leaver {
            number: 1,
            start: 0,
            end: 1,
        },
        Leaver {
            number: 2,
            start: 1,
            end: 1,
        },
        Leaver {
            number: 3,
            start: 1,
            end: 2,
        },
    ];
    let positions = [7, 7];
    Ok(classes.part(leavers.as_slice(), positions.as_slice())?)
}

#[test]
fn leavers_of_one_answer_stay_together(rt: HostRuntime) -> Result<(), Fail> {
    let mut classes = Classes::new(rt.alloc(), 5)?;
    assert!(rt; added_by_leavers(&mut classes)? == 2);
    let numbered = classes.class_of(3) == 1 && classes.class_of(2) == 2 && classes.class_of(4) == 0;
    assert!(rt; numbered && classes.count() == 3 && classes.patterns() == 1);
    Ok(())
}
