//! The numbers of the answers to a vector as rows of bits: those of classes, and those of the members of classes.
//! Groups are cut by them.

ghost use Rattle.std.specs.Prelude.{◌≡◌, ◌<◌, ℕ, length, All, AllPairs, IfOk, OnOk};
ghost use Rattle.net_model.specs.Rows.{row_at};
ghost use Rattle.net_model.specs.ClassTable.{class_count};
ghost use Rattle.class_refine.specs.Fields.{IsWhole};
ghost use Rattle.answer_numbers.specs.AnswerNumbers.{numbered_vectors};
ghost use Rattle.compact_tests.specs.Sharing.{ListsSharing, shared_groups};
ghost use Rattle.compact_tests.specs.Numbered.{AreNumberRows, HasParted, AreClassRows, AreMemberRows, AreWritten};

use crate::sharing::is_group;
use answer_numbers::AnswerNumbers;
use class_refine::Classes;
use net_model::AnswerRows;
use std::alloc::{AllocError, Global};

/// The number of bits of an answer's number.
pub(crate) const WIDTH: usize = 32;

/// Cuts each group by the answers of the leads to the vector of a lane. `listed` are the numbers that the leads have in
/// the groups, by place, among them each number that isn't alone in its group. `shared` are the groups of two numbers
/// or more, and `count` is the count of all numbers.
pub(crate) fn part(
    alloc: Global,
    groups: &mut Classes,
    shared: &[u32],
    numbers: &AnswerNumbers,
    listed: &[u32],
    count: usize,
    lane: u32,
) -> Result<(), AllocError>
    requires leads { length listed.now ≡ length numbers.now.leads }
    requires listed { ListsSharing groups.old listed.now }
    requires whole { IsWhole groups.old }
    requires shared { shared.now ≡ shared_groups groups.old }
    requires count { count ≡ length groups.old.class_of }
    requires lane { lane < length (numbered_vectors numbers.now) }
    ensures parted { OnOk result (HasParted numbers.now lane listed.now groups.old groups.new) }
    ensures numbers { length groups.new.class_of ≡ length groups.old.class_of }
{
    let rows = number_rows(alloc, groups, numbers, listed, count, lane)?;
    groups.refine_in(shared, &rows)?;
    Ok(())
}

// Returns a row of bits for each of `count` numbers. The row of a listed number that isn't alone in its group has the
// number of its lead's answer to the vector of the lane.
fn number_rows(
    alloc: Global,
    groups: &Classes,
    numbers: &AnswerNumbers,
    listed: &[u32],
    count: usize,
    lane: u32,
) -> Result<AnswerRows, AllocError>
    requires leads { length listed.now ≡ length numbers.now.leads }
    requires count { count ≡ length groups.now.class_of }
    requires within { All (λ number. number < count) listed.now }
    requires ascend { AllPairs (λ x y. x < y) listed.now }
    requires lane { lane < length (numbered_vectors numbers.now) }
    ensures { IfOk result (AreNumberRows numbers.now lane groups.now listed.now count (length listed.now)) }
{
    let mut rows = AnswerRows::zeros(alloc, count, WIDTH)?;
    for (place, own) in listed.iter().enumerate() {
        if is_group(groups, groups.class_of(*own)) {
            let number = numbers.number(lane, place);
            rows.set_word(*own as usize, 0, u64::from(number));
        }
    }
    Ok(rows)
}

/// Writes into the row of each number of the listed classes the number of the answer of its class's lead to the vector
/// of a lane.
pub(crate) fn number_members(
    rows: &mut AnswerRows,
    classes: &Classes,
    numbers: &AnswerNumbers,
    listed: &[u32],
    lane: u32,
)
    requires rows { AreClassRows classes.now rows.old }
    requires leads { length listed.now ≡ length numbers.now.leads }
    requires within { All (λ class. class < class_count classes.now) listed.now }
    requires ascend { AllPairs (λ x y. x < y) listed.now }
    requires lane { lane < length (numbered_vectors numbers.now) }
    ensures { AreMemberRows numbers.now lane classes.now listed.now (length listed.now) rows.new }
{
    for (place, class) in listed.iter().enumerate() {
        let number = numbers.number(lane, place);
        write_rows(rows, classes.members(*class), number);
    }
}

// Writes the bits of `number` into the rows of the members.
fn write_rows(rows: &mut AnswerRows, members: &[u32], number: u32)
    requires within { All (λ member. member < length rows.old) members.now }
    requires widths { (row : ℕ) → row < length rows.old → length (row_at rows.old row) ≡ 32 }
    ensures { AreWritten rows.old rows.new members.now (length members.now) number }
{
    for member in members {
        rows.set_word(*member as usize, 0, u64::from(number));
    }
}
