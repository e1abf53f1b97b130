//! Tests of groups of equal rows, and of the first row that comes again.

ghost use Rattle.std.specs.Prelude.{◌<◌, ◌^◌, length};

use crate::tests::spelled::{push_rows, rows_of, rows_with};
use net_model::AnswerRows;
use std::alloc::{AllocError, Global};
use std::test::Fail;
use table_dicts::{first_repeat, group_rows};

// Returns whether rows have these groups and `firsts` first rows.
fn have_groups(
    alloc: Global,
    rows: &AnswerRows,
    groups: &[u32],
    firsts: usize,
) -> Result<bool, AllocError>
    requires { length rows.now < 2 ^ 32 }
{
    let grouped = group_rows(alloc, rows)?;
    Ok(grouped.groups.as_slice() == groups && grouped.entries.rows() == firsts)
}

// Returns whether rows have these groups, `firsts` first rows, and this first row that comes again.
fn are_grouped(
    alloc: Global,
    rows: &AnswerRows,
    groups: &[u32],
    firsts: usize,
    repeat: Option<u32>,
) -> Result<bool, Fail> {
    if rows.rows() > 1000 {
        return Err(Fail::new("there are too many rows"));
    }
    Ok(have_groups(alloc, rows, groups, firsts)? && first_repeat(alloc, rows)? == repeat)
}

// The width of rows, the rows, their groups, how many first rows there are, and the first row that comes again.
type Grouping = (
    usize,
    &'static [&'static str],
    &'static [u32],
    usize,
    Option<u32>,
);

const GROUPED: &[Grouping] = &[
    (2, &[], &[], 0, None),
    (2, &["01"], &[0], 1, None),
    (2, &["01", "10", "11"], &[0, 1, 2], 3, None),
    (2, &["01", "01"], &[0, 0], 1, Some(1)),
    (2, &["01", "10", "10", "01"], &[0, 1, 1, 0], 2, Some(2)),
    (
        2,
        &["00", "11", "01", "11", "00", "10"],
        &[0, 1, 2, 1, 0, 3],
        4,
        Some(3),
    ),
    (0, &["", "", ""], &[0, 0, 0], 1, Some(1)),
];

fn holds(alloc: Global, case: &Grouping) -> Result<bool, Fail> {
    let (width, texts, groups, firsts, repeat) = *case;
    let rows = rows_of(alloc, width, texts)?;
    are_grouped(alloc, &rows, groups, firsts, repeat)
}

#[test]
fn groups_of_rows(rt: HostRuntime) -> Result<(), Fail> {
    for (at, case) in GROUPED.iter().enumerate() {
        assert!(rt; holds(rt.alloc(), case)?, "case {at}");
    }
    Ok(())
}

// Rows of 130 bits, three words, that differ only in their second or third word.
#[test]
fn groups_of_long_rows(rt: HostRuntime) -> Result<(), Fail> {
    let ones = [(0, 64), (1, 129), (2, 64), (3, 127), (4, 129)];
    let rows = rows_with(rt.alloc(), 6, 130, &ones)?;
    let groups = [0, 1, 0, 2, 1, 3];
    assert!(rt; are_grouped(rt.alloc(), &rows, &groups, 4, Some(2))?);
    Ok(())
}

// Returns the entries of rows, each with a blank after it.
fn entries_text(alloc: Global, rows: &AnswerRows) -> Result<String, Fail> {
    if rows.rows() > 1000 {
        return Err(Fail::new("there are too many rows"));
    }
    let mut text = String::new(alloc);
    push_grouped(alloc, rows, &mut text)?;
    Ok(text)
}

fn push_grouped(alloc: Global, rows: &AnswerRows, text: &mut String) -> Result<(), AllocError>
    requires { length rows.now < 2 ^ 32 }
{
    let grouped = group_rows(alloc, rows)?;
    push_rows(text, &grouped.entries)
}

#[test]
fn entries_are_first_rows(rt: HostRuntime) -> Result<(), Fail> {
    let rows = rows_of(rt.alloc(), 3, &["011", "100", "011", "001"])?;
    let text = entries_text(rt.alloc(), &rows)?;
    assert!(rt; text.as_str() == "011 100 001 ");
    Ok(())
}
