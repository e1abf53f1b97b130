//! Pieces, chosen calls that fail, and files that are absent.

use diag_shelf::{MemoryShelf, Shelf, ShelfFault, SureShelf, print_all, read_all, write_all};
use std::alloc::Global;
use std::test::Fail;

// Returns whether reading file `a` of a shelf up to a limit gives these bytes.
fn is_read<S: Shelf>(
    alloc: Global,
    shelf: &mut S,
    limit: u64,
    wanted: &[u8],
) -> Result<bool, Fail> {
    let bytes = read_all(alloc, shelf, "a", limit)?;
    Ok(bytes.as_slice() == wanted)
}

// Returns whether a shelf has two texts after they were written and printed.
fn is_told(shelf: &mut SureShelf) -> Result<bool, Fail> {
    shelf.create_file("b")?;
    write_all(shelf, b"12345678")?;
    print_all(shelf, b"done\n")?;
    Ok(
        shelf.file("b") == Some(b"12345678".as_slice())
            && shelf.console() == b"done\n".as_slice()
            && shelf.file("c") == None,
    )
}

fn keeps_the_whole(alloc: Global, shelf: &mut SureShelf) -> Result<bool, Fail> {
    shelf.put_file("a", b"diatest")?;
    Ok(
        is_read(alloc, shelf, 100, b"diatest")?
            && is_read(alloc, shelf, 4, b"diate")?
            && is_told(shelf)?,
    )
}

#[test]
fn pieces_make_the_whole(rt: HostRuntime) -> Result<(), Fail> {
    let mut shelf = SureShelf::new(rt.alloc(), 3);
    assert!(rt; keeps_the_whole(rt.alloc(), &mut shelf)?);
    Ok(())
}

// Returns whether call number 4 of a shelf fails, which is the second write of a file, and what was written before it
// stays.
fn fails_once(alloc: Global, shelf: &mut MemoryShelf) -> Result<bool, Fail> {
    shelf.put_file("a", b"")?;
    let empty = is_read(alloc, shelf, 100, b"")?;
    shelf.create_file("b")?;
    let written = write_all(shelf, b"diatest");
    Ok(
        empty
            && written == Err(ShelfFault::Failed)
            && shelf.file("b") == Some(b"dia".as_slice())
            && shelf.console().is_empty(),
    )
}

#[test]
fn chosen_calls_fail(rt: HostRuntime) -> Result<(), Fail> {
    let failing = [4].to_vec(rt.alloc())?;
    let mut shelf = MemoryShelf::new(rt.alloc(), 3, failing);
    assert!(rt; fails_once(rt.alloc(), &mut shelf)?);
    Ok(())
}

// Returns whether a file that is absent can't be opened, and nothing can be read or written without an opened or
// created file.
fn lacks_all(shelf: &mut SureShelf) -> bool {
    shelf.open_file("a") == Err(ShelfFault::Failed)
        && shelf.read(&mut [0u8; 2]) == Err(ShelfFault::Failed)
        && shelf.write(b"a") == Err(ShelfFault::Failed)
}

#[test]
fn what_is_absent_fails(rt: HostRuntime) -> Result<(), Fail> {
    let mut shelf = SureShelf::new(rt.alloc(), 1);
    assert!(rt; lacks_all(&mut shelf));
    Ok(())
}
