//! `RealShelf`: files of the system and standard output.
ghost use Rattle.std.specs.Prelude.{◌≡◌, ◌≤◌, ◌<◌, None, IfOk, IfSome};
ghost use Rattle.diag_shelf.specs.Calls.{Rose};

use diag_shelf::{Shelf, ShelfFault};
use std::io::{Read, Write};
use std::rt::Files;
use std::{fs, io};

/// A shelf of real files and standard output. It tells no contents, so that only what `Shelf` says of counts holds for
/// it. Each call returns `Failed` if the system returns an error, a device takes none of a piece, or no file is opened
/// or created, though no clause says so; its count rises each time.
#[derive(Drop)]
pub struct RealShelf<'a, R: Files + Print> {
    rt: &'a R,
    opened: Option<R::File>,
    written: Option<R::File>,
    read_faults: u64,
    write_faults: u64,
}

impl<'a, R: Files + Print> RealShelf<'a, R> {
    /// Returns a shelf that has failed in no call, with no file opened or created.
    pub fn new(rt: &'a R) -> RealShelf<'a, R>
        ensures opened { result.opened ≡ None }
        ensures written { result.written ≡ None }
        ensures reads { result.read_faults ≡ 0 }
        ensures writes { result.write_faults ≡ 0 }
    {
        RealShelf {
            rt,
            opened: None,
            written: None,
            read_faults: 0,
            write_faults: 0,
        }
    }
}

// Raises the count of a call that failed, up to the counter's last value.
fn failed(count: &mut u64) -> ShelfFault
    ensures rose { Rose count.old count.new }
    ensures later { count.old ≤ count.new }
    ensures fault { result ≡ ShelfFault.Failed }
{
    *count = count.saturating_add(1);
    ShelfFault::Failed
}

// Returns how many bytes were taken, or none if the device failed. A device that takes none of a piece has failed.
fn taken(answer: io::Result<usize>, offered: usize) -> Option<usize>
    requires { IfOk answer (λ count. count ≤ offered) }
    ensures bound { IfSome result (λ count. count ≤ offered) }
    ensures moves { IfSome result (λ count. 0 < offered → 0 < count) }
{
    match answer {
        Ok(0) if offered > 0 => None,
        Ok(count) => Some(count),
        Err(_) => None,
    }
}

impl<'a, R: Files + Print> Shelf for RealShelf<'a, R> {
    ghost use Rattle.real_shelf.specs.Real.{silent};

    ghost state = { λ s. silent s.read_faults s.write_faults };

    ghost sure_tells = { λ s h. h };

    fn open_file(&mut self, name: &str) -> Result<(), ShelfFault> {
        let Ok(file) = fs::open(self.rt, name) else {
            return Err(failed(&mut self.read_faults));
        };
        self.opened = Some(file);
        Ok(())
    }

    fn read(&mut self, piece: &mut [u8]) -> Result<usize, ShelfFault> {
        match &mut self.opened {
            Some(file) => match file.read(piece) {
                Ok(count) => Ok(count),
                Err(_) => Err(failed(&mut self.read_faults)),
            },
            None => Err(failed(&mut self.read_faults)),
        }
    }

    fn create_file(&mut self, name: &str) -> Result<(), ShelfFault> {
        let Ok(file) = fs::create(self.rt, name) else {
            return Err(failed(&mut self.write_faults));
        };
        self.written = Some(file);
        Ok(())
    }

    fn write(&mut self, piece: &[u8]) -> Result<usize, ShelfFault> {
        match &mut self.written {
            Some(file) => match taken(file.write(piece), piece.len()) {
                Some(count) => Ok(count),
                None => Err(failed(&mut self.write_faults)),
            },
            None => Err(failed(&mut self.write_faults)),
        }
    }

    fn print(&mut self, piece: &[u8]) -> Result<usize, ShelfFault> {
        match taken(io::writer(self.rt).write(piece), piece.len()) {
            Some(count) => Ok(count),
            None => Err(failed(&mut self.write_faults)),
        }
    }
}
