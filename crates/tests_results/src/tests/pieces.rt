//! Lines out of pieces.

use result_file::Lines;
use std::test::Fail;

// Returns whether the next line is this one.
fn next_is(lines: &mut Lines, wanted: &str) -> Result<bool, Fail> {
    let line = lines.take_line()?.ok_or("a line")?;
    Ok(line.as_slice() == wanted.as_bytes())
}

// Returns whether there is no next line yet.
fn no_next(lines: &mut Lines) -> Result<bool, Fail> {
    Ok(lines.take_line()?.is_none())
}

fn comes_in_pieces(lines: &mut Lines) -> Result<bool, Fail> {
    lines.feed(b"cla")?;
    lines.feed(b"ss 0")?;
    let none = no_next(lines)?;
    lines.feed(b" - -\nme")?;
    Ok(none && next_is(lines, "class 0 - -")? && lines.rest() == b"me".as_slice())
}

#[test]
fn a_line_comes_in_pieces(rt: HostRuntime) -> Result<(), Fail> {
    let mut lines = Lines::new(rt.alloc());
    assert!(rt; comes_in_pieces(&mut lines)?);
    Ok(())
}

fn ends_at_line_feeds(lines: &mut Lines) -> Result<bool, Fail> {
    lines.feed(b"end\n\nx\n")?;
    Ok(
        next_is(lines, "end")?
            && next_is(lines, "")?
            && next_is(lines, "x")?
            && no_next(lines)?
            && lines.rest().is_empty(),
    )
}

#[test]
fn a_piece_has_lines_and_ends_at_its_line_feed(rt: HostRuntime) -> Result<(), Fail> {
    let mut lines = Lines::new(rt.alloc());
    assert!(rt; ends_at_line_feeds(&mut lines)?);
    Ok(())
}

// Returns whether no line comes while a million bytes are fed one by one.
fn waits(lines: &mut Lines) -> Result<bool, Fail> {
    for _ in 0..1_000_000 {
        lines.feed(b"0")?;
        if !no_next(lines)? {
            return Ok(false);
        }
    }
    Ok(true)
}

// Returns how long the next line is.
fn next_length(lines: &mut Lines) -> Result<usize, Fail> {
    let line = lines.take_line()?.ok_or("a line")?;
    Ok(line.len())
}

fn comes_by_bytes(lines: &mut Lines) -> Result<bool, Fail> {
    let none = waits(lines)?;
    lines.feed(b"\n")?;
    Ok(none && next_length(lines)? == 1_000_000)
}

// Code that goes over all that it holds for each piece would look at 500,000 million bytes here.
#[test]
fn a_long_line_comes_byte_by_byte(rt: HostRuntime) -> Result<(), Fail> {
    let mut lines = Lines::new(rt.alloc());
    assert!(rt; comes_by_bytes(&mut lines)?);
    Ok(())
}

// Returns whether a million lines come, and no more.
fn gives_a_million(lines: &mut Lines) -> Result<bool, Fail> {
    for _ in 0..1_000_000 {
        if no_next(lines)? {
            return Ok(false);
        }
    }
    no_next(lines)
}

fn take_a_million(lines: &mut Lines, piece: &[u8]) -> Result<bool, Fail> {
    lines.feed(piece)?;
    gives_a_million(lines)
}

// Code that moves all that it holds for each line would move 500,000 million bytes here.
#[test]
fn many_lines_come_at_once(rt: HostRuntime) -> Result<(), Fail> {
    let piece = vec![in rt.alloc(); b'\n'; 1_000_000]?;
    let mut lines = Lines::new(rt.alloc());
    assert!(rt; take_a_million(&mut lines, &piece)?);
    Ok(())
}
