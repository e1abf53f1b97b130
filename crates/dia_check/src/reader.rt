//! The reader of pieces of the file, and of the lines in them.

ghost use Rattle.std.specs.Prelude.{◌≡◌, ◌≤◌, ◌++◌, [], min, length, IfOk, OnOk, IsErrOf};
ghost use Rattle.result_file.specs.declared.fault.ResultFault.{ResultFault};
ghost use Rattle.text_fields.specs.Fields.{Text};
ghost use Rattle.result_file.specs.Accepted.{IsAcceptedText};
ghost use Rattle.dia_check.specs.Reader.{IsReading, IsRefusedEnd, HasOpen, HasReading, TakesPiece};

use crate::answer::FileFault;
use crate::checker::Checker;
use crate::stop::{Judged, Stop};
use fault_collapse::Subject;
use result_file::{Checked, Lines, ResultFault, ResultKind};
use result_records::RESULT_LIMIT;
use std::alloc::{AllocError, Global};

// The checker of the lines so far, the bytes after them, the number of bytes still allowed, and the first line that
// breaks a rule. Nothing after that line is looked at.
pub(crate) struct Reader<'a> {
    pub checker: Checker<'a>,
    pub lines: Lines,
    pub room: u64,
    pub refused: Option<ResultFault>,
}

// Written by hand so that a drop of a reader is one step in the proof of each function that drops one.
impl Drop for Reader<'_> {
    fn drop(self) {
        let Reader {
            checker: _,
            lines: _,
            room: _,
            refused: _,
        } = self;
    }
}

impl<'a> Reader<'a> {
    // Returns a reader before the first byte.
    pub(crate) fn start(alloc: Global, subject: &'a Subject<'a>) -> Result<Reader<'a>, AllocError>
        ensures { IfOk result (IsReading subject.now []) }
    {
        Ok(Reader {
            checker: Checker::start(alloc, subject)?,
            lines: Lines::new(alloc),
            room: RESULT_LIMIT,
            refused: None,
        })
    }

    // Reads a piece that comes after all read before.
    pub(crate) fn feed(
        &mut self,
        alloc: Global,
        subject: &Subject,
        piece: &[u8],
    ) -> Result<(), AllocError>
        requires { HasReading subject.now self.old }
        ensures { OnOk result ((fed : Text) → IsReading subject.now fed self.old → IsReading subject.now (fed ++ piece.now) self.new) }
    {
        if self.refused.is_some() {
            return Ok(());
        }
        match self.take_piece(alloc, subject, piece) {
            Ok(()) => Ok(()),
            Err(Stop::Refused(fault)) => {
                self.refused = Some(fault);
                Ok(())
            }
            Err(Stop::NoMemory) => Err(AllocError),
        }
    }

    // Judges the lines of a piece, up to the limit of bytes.
    fn take_piece(&mut self, alloc: Global, subject: &Subject, piece: &[u8]) -> Judged
        requires { HasOpen subject.now self.old }
        ensures { TakesPiece subject.now self.old self.new piece.now result }
    {
        let inside = self.inside(piece.len());
        self.lines.feed(&piece[..inside])?;
        self.room -= inside as u64;
        while let Some(line) = self.lines.take_line()? {
            self.checker.judge_line(alloc, subject, &line)?;
        }
        if inside < piece.len() {
            self.checker.flush(subject)?;
            return Err(self.checker.refused(ResultKind::TooLong));
        }
        Ok(())
    }

    // Returns how many of `count` bytes are within the limit.
    fn inside(&self, count: usize) -> usize
        ensures { result ≡ min count self.now.room }
    {
        if count as u64 <= self.room {
            count
        } else {
            self.room as usize
        }
    }

    // Returns what was read as the whole of a file, or why it is refused.
    pub(crate) fn finish(self, alloc: Global, subject: &Subject) -> Result<Checked, FileFault>
        requires { HasReading subject.now self }
        ensures valid { IfOk result (λ checked. (fed : Text) → IsReading subject.now fed self.entry → (length fed ≤ RESULT_LIMIT) × IsAcceptedText subject.now fed checked) }
        ensures refused { (fault : ResultFault) → IsErrOf result (FileFault.Result fault) → (fed : Text) → IsReading subject.now fed self.entry → IsRefusedEnd subject.now fed fault }
        ensures never { ¬ (IsErrOf result FileFault.Failed) }
    {
        let Reader {
            mut checker,
            lines,
            room: _,
            refused,
        } = self;
        if let Some(fault) = refused {
            return Err(FileFault::Result(fault));
        }
        match checker.end(subject, lines.rest()) {
            Ok(()) => Ok(checker.into_checked(alloc)?),
            Err(Stop::Refused(fault)) => Err(FileFault::Result(fault)),
            Err(Stop::NoMemory) => Err(FileFault::NoMemory),
        }
    }
}
