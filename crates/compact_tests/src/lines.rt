//! What the lines of a result state of its numbers: their marks, and the place of the last evidence that names each.

ghost use Rattle.std.specs.Prelude.{◌≡◌, ◌<◌, ◌≤◌, ℕ, List, [], ◌∷◌, length, slice_index, slice_range, All, IfOk, OnOk};
ghost use Rattle.net_model.specs.Ascii.{line_feed};
ghost use Rattle.result_records.specs.Spelling.{spelling};
ghost use Rattle.result_records.specs.Marks.{evidence_in};
ghost use Rattle.result_records.specs.Held.{IsFirstFrom};
ghost use Rattle.result_records.specs.declared.record.Record.{Record};
ghost use Rattle.compact_tests.specs.Stated.{IsReadable, IsReadableLine, IsStated, NotesLine, TakesRecord};

use result_file::{Mark, Record, RecordFault, read_record, record_is_spelled_once};
use std::alloc::{AllocError, Global};

const LF: u8 = b'\n';

/// The mark of each number, and the last line of evidence that names it, if there is one.
#[derive(Drop)]
pub(crate) struct Stated {
    pub(crate) marks: Vec<Mark>,
    pub(crate) evidence: Vec<Option<Span>>,
}

/// A line of the text with its LF, from byte `start` up to `end`, which isn't included.
#[derive(Clone, Copy)]
pub(crate) struct Span {
    pub(crate) start: usize,
    pub(crate) end: usize,
}

/// Returns what the lines of a text state of `numbers` numbers.
pub(crate) fn read_stated(alloc: Global, bytes: &[u8], numbers: u32) -> Result<Stated, AllocError>
    requires { (records : List Record) × IsReadable bytes.now numbers records }
    ensures { IfOk result (λ stated. (records : List Record) → IsReadable bytes.now numbers records → IsStated bytes.now numbers records stated) }
{
    record_is_spelled_once();
    let mut stated = Stated {
        marks: Vec::new(alloc),
        evidence: vec![in alloc; None; numbers as usize]?,
    };
    let mut start = 0;
    while start < bytes.len() {
        let end = line_end(bytes, start);
        stated.note(alloc, bytes, start, end)?;
        start = end + 1;
    }
    Ok(stated)
}

// Returns the place of the first LF at or after `start`.
fn line_end(bytes: &[u8], start: usize) -> usize
    requires { (end : ℕ) × IsFirstFrom bytes.now start end }
    ensures { IsFirstFrom bytes.now start result }
{
    let mut end = start;
    while bytes[end] != LF {
        end += 1;
    }
    end
}

impl Stated {
    // Notes the line from `start` up to its LF at `end`.
    fn note(
        &mut self,
        alloc: Global,
        bytes: &[u8],
        start: usize,
        end: usize,
    ) -> Result<(), AllocError>
        requires start { start ≤ end }
        requires end { end < length bytes.now }
        requires line { (r : Record) × IsReadableLine (length self.old.evidence.items) r × (spelling r ≡ slice_range bytes.now start end) }
        requires here { slice_index bytes.now end ≡ line_feed }
        ensures { OnOk result (NotesLine bytes.now start end self.old self.new) }
    {
        record_is_spelled_once();
        let r = match read_record(alloc, &bytes[start..end]) {
            Ok(r) => r,
            Err(RecordFault::Syntax) => unreachable!(),
            Err(RecordFault::NoMemory) => return Err(AllocError),
        };
        let line = Span {
            start,
            end: end + 1,
        };
        self.take(r, line)
    }

    // Notes a record and the place of its line.
    fn take(&mut self, r: Record, line: Span) -> Result<(), AllocError>
        requires { All (λ e. e.member < length self.old.evidence.items) (evidence_in (r ∷ [])) }
        ensures { OnOk result (TakesRecord r line self.old self.new) }
    {
        match r {
            Record::Same(evidence) => {
                self.evidence[evidence.member as usize] = Some(line);
                Ok(())
            }
            Record::Member(_, _, mark) => {
                self.marks.push(mark)?;
                Ok(())
            }
            Record::Head(_, _, _) => Ok(()),
            Record::Budget(_) => Ok(()),
            Record::Pattern(_) => Ok(()),
            Record::Class(_, _) => Ok(()),
            Record::End => Ok(()),
        }
    }
}
