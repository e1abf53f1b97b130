//! Reads and judges a netlist.

ghost use Rattle.std.specs.Prelude.{◌≡◌, ◌++◌, ℕ, List, IfOk, IfErr, OnOk, Some, flat_map, length};
ghost use Rattle.net_model.specs.Circuit.{line_count};
ghost use Rattle.run_steps.specs.declared.ending.FileKind.TheVariants as kind;
ghost use Rattle.run_steps.specs.Texts.{after_blank, loop_text};
ghost use Rattle.run_steps.specs.Netlists.{IsDesign, IsRefused};
ghost use Rattle.run_steps.specs.Steps.{fault_text, WasAccepted, IsOver};

use crate::ending::{FileKind, RunFault};
use crate::reads::{BytesFault, read_judged};
use crate::texts::{loop_start, refusal_text};
use bench_reader::{NetFault, Place, read};
use diag_shelf::Shelf;
use net_model::{Design, Names};
use scan_cut::cut;
use std::alloc::{AllocError, Global};

/// Reads and judges the netlist `bench`, and returns its cut. Returns `Refused(Netlist)` only if the file was read and
/// refused; then the console gained the text of the refusal, and the file was read to its end, or to one byte past the
/// limit of its kind. Returns `ReadFailed` only if the count of read faults rose, on a sure shelf only if no file has
/// the name; then nothing was printed. Returns `WriteFailed` only if the file was refused, its text couldn't be
/// printed, and the count of write faults rose; then a beginning of the text was printed. Returns `NoMemory` if memory
/// is missing; then nothing was done but to read, or the file was refused and a beginning of its text printed. After an
/// error no file was created or changed. What is said of files and of the console holds on a shelf that tells them.
pub fn read_design<S: Shelf>(alloc: Global, shelf: &mut S, bench: &str) -> Result<Design, RunFault>
    ensures named { IfOk result (λ design. length design.names ≡ line_count design.circuit) }
    ensures ok { IfOk result (λ design. WasAccepted bench.now kind.Netlist IsDesign design (S.state shelf.old) (S.state shelf.new)) }
    ensures err { IfErr result (λ why. IsOver bench.now kind.Netlist IsRefused why (S.state shelf.old) (S.state shelf.new)) }
{
    read_judged(
        alloc,
        shelf,
        bench,
        FileKind::Netlist,
        |bytes| judge_netlist(alloc, bytes),
    )
}

/// Returns the cut of the netlist that `bytes` spell. Returns a fault that has a text only if `bytes` are refused with
/// that text, and `NoMemory` if memory is missing.
pub fn judge_netlist(alloc: Global, bytes: &[u8]) -> Result<Design, NetFault>
    ensures named { IfOk result (λ design. length design.names ≡ line_count design.circuit) }
    ensures ok { IfOk result (IsDesign bytes.now) }
    ensures refused { IfErr result (λ fault. (text : List ℕ) → fault_text fault ≡ Some text → IsRefused bytes.now text) }
{
    let statements = read(alloc, bytes)?;
    cut(alloc, &statements)
}

impl BytesFault for NetFault {
    ghost said = { fault_text };

    fn text(self, alloc: Global) -> Result<Vec<u8>, AllocError> {
        match self {
            NetFault::At(kind, place) => Ok(refusal_text(alloc, kind, place)?.into_bytes()),
            NetFault::Loop(place, names) => loop_text(alloc, place, &names),
            NetFault::NoMemory => Err(AllocError),
        }
    }
}

// Returns what the console says of a loop.
#[tactic(auto, unfolding(crate::specs::Texts::loop_text))]
fn loop_text(alloc: Global, place: Place, names: &Names) -> Result<Vec<u8>, AllocError>
    ensures { IfOk result (λ text. text.items ≡ loop_text place names.now) }
{
    let mut text = loop_start(alloc, place)?.into_bytes();
    push_names(&mut text, names)?;
    text.push(b'\n')?;
    Ok(text)
}

// Appends a blank and the name, for each name in turn.
fn push_names(text: &mut Vec<u8>, names: &Names) -> Result<(), AllocError>
    ensures { OnOk result (text.new.items ≡ text.old.items ++ flat_map after_blank names.now) }
{
    for number in 0..names.len() {
        text.push(b' ')?;
        text.extend_from_slice(names.text(number))?;
    }
    Ok(())
}
