//! Logs and lists of vectors that have more bytes than they may, and that no memory of the shelf holds.

use crate::tests::runs::strings;
use crate::tests::texts::{AND, ONE};
use dia_runs::run;
use diag_shelf::{MemoryShelf, Shelf, ShelfFault};
use std::alloc::Global;
use std::test::Fail;

// The files of a shelf in memory, and one more, `l`, that has one byte again and again, without an end.
struct EndlessShelf {
    below: MemoryShelf,
    byte: u8,
    endless: bool,
}

// As for `Left`.
impl Drop for EndlessShelf {
    fn drop(self) {
        let EndlessShelf {
            below: _,
            byte: _,
            endless: _,
        } = self;
    }
}

impl Shelf for EndlessShelf {
    ghost use Rattle.diag_shelf.specs.Memory.{memory_state};
    ghost use Rattle.tests_runs.specs.Untold.{untold};

    ghost state = { λ s. untold (memory_state s.below) };

    ghost sure_tells = { λ s h. h };

    fn open_file(&mut self, name: &str) -> Result<(), ShelfFault> {
        self.endless = name == "l";
        if self.endless {
            return Ok(());
        }
        self.below.open_file(name)
    }

    fn read(&mut self, piece: &mut [u8]) -> Result<usize, ShelfFault> {
        if self.endless {
            piece.fill(self.byte);
            return Ok(piece.len());
        }
        self.below.read(piece)
    }

    fn create_file(&mut self, name: &str) -> Result<(), ShelfFault> {
        self.below.create_file(name)
    }

    fn write(&mut self, piece: &[u8]) -> Result<usize, ShelfFault> {
        self.below.write(piece)
    }

    fn print(&mut self, piece: &[u8]) -> Result<usize, ShelfFault> {
        self.below.print(piece)
    }
}

// A run's words, the other file that it reads, the byte of the endless one, and what is printed.
type Case = (
    &'static [&'static str],
    &'static str,
    &'static [u8],
    u8,
    &'static [u8],
);

static CASES: [Case; 2] = [
    (
        &["diagnose", "d", "l"],
        "d",
        ONE,
        b'0',
        b"log: TooLong at line 1\n",
    ),
    (
        &["sim", "n", "l"],
        "n",
        AND,
        b'\n',
        b"log: TooLong at line 1073741825\n",
    ),
];

// Whether the run refuses the endless file.
fn is_refused(alloc: Global, case: &Case) -> Result<bool, Fail> {
    let (words, name, bytes, byte, console) = *case;
    let words = strings(alloc, words)?;
    let mut below = MemoryShelf::new(alloc, 4096, Vec::new(alloc));
    below.put_file(name, bytes)?;
    let mut shelf = EndlessShelf {
        below,
        byte,
        endless: false,
    };
    let status = run(alloc, &words, &mut shelf);
    Ok(status == 6 && shelf.below.console() == console)
}

#[test]
fn texts_without_an_end(rt: HostRuntime) -> Result<(), Fail> {
    for (at, case) in CASES.iter().enumerate() {
        assert!(rt; is_refused(rt.alloc(), case)?, "case {at}");
    }
    Ok(())
}
