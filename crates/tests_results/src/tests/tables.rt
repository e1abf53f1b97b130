//! The lines of a table's classes, and of its numbers with their marks.

ghost use Rattle.std.specs.Prelude.{◌≡◌, length, IfOk};

use class_refine::Classes;
use net_model::AnswerRows;
use result_file::{Mark, push_classes, push_members};
use std::alloc::{AllocError, Global};
use std::test::Fail;

// Returns the classes of three numbers, the last one with another answer than the others.
fn classes_of_three(alloc: Global) -> Result<Classes, AllocError>
    ensures { IfOk result (λ classes. length classes.class_of ≡ 3) }
{
    let mut classes = Classes::new(alloc, 3)?;
    let mut answers = AnswerRows::zeros(alloc, 3, 1)?;
    answers.set(2, 0, true);
    classes.refine(&answers)?;
    Ok(classes)
}

#[test]
fn classes_and_members_are_lines(rt: HostRuntime) -> Result<(), Fail> {
    let classes = classes_of_three(rt.alloc())?;
    let mut text = String::new(rt.alloc());
    push_classes(&mut text, &classes)?;
    push_members(&mut text, &classes, &[Mark::Rep, Mark::Equal, Mark::Rep])?;
    assert_eq!(rt;
        text.as_str(),
        "class 0 - -\nclass 1 0 0\nmember 0 0 rep\nmember 1 0 equal\nmember 2 1 rep\n"
    );
    Ok(())
}
