//! Notes of where the answers with a head turned differ from the fault-free ones.

ghost use Rattle.std.specs.Prelude.{◌≡◌, ◌≤◌, ◌<◌, ◌↔◌, ◌++◌, ℕ, List, [], true, false, All, IfOk, IsSome, OnOk, length, slice_index, slice_range};
ghost use Rattle.net_model.specs.Answer.{bit_at};
ghost use Rattle.fault_heads.specs.Turned.{IsHeadOf};
ghost use Rattle.kept_vectors.specs.Notes.{AreAscending, AreNotesAt, AreNotedAlike, IsSpanIn, IsShownAs, noted_in, lane_positions};
ghost use Rattle.word_sim.specs.GoodSim.{vectors_of};

use crate::apart::any_lane;
use fault_heads::Head;
use fault_sim::FaultSim;
use std::alloc::AllocError;
use word_sim::{GoodSim, LANES, Lanes};

// A position at which the answers with a head turned differ from the fault-free ones, and in which lanes.
#[derive(Clone, Copy, Debug)]
pub(crate) struct Note {
    pub(crate) position: u32,
    pub(crate) lanes: Lanes,
}

// The part of the notes that is a head's, from `start` to before `end`, and the lanes in which the head shows at all.
#[derive(Clone, Copy, Debug)]
pub(crate) struct Shown {
    pub(crate) start: usize,
    pub(crate) end: usize,
    pub(crate) any: Lanes,
}

// Simulates `head` turned in the lanes `needed`, and notes where it shows.
pub(crate) fn show_head(
    sim: &mut FaultSim,
    good: &GoodSim,
    head: Head,
    needed: Lanes,
    notes: &mut Vec<Note>,
) -> Result<Shown, AllocError>
    requires ran { IsSome good.now.ran }
    requires few { length (vectors_of good.now) ≤ LANES }
    requires head { IsHeadOf good.now.circuit head }
    requires circuit { sim.old.circuit ≡ good.now.circuit }
    ensures circuit { sim.new.circuit ≡ good.now.circuit }
    ensures more { OnOk result ((more : List Note) × (notes.new.items ≡ notes.old.items ++ more)) }
    ensures shown { IfOk result (IsShownAs good.now head needed notes.new.items) }
{
    let start = notes.len();
    sim.flip(good, head, needed);
    note_differences(sim, notes)?;
    let end = notes.len();
    Ok(shown_in(notes.as_slice(), start, end))
}

// Returns the part of the notes from `start` to before `end`, with the lanes in which it shows.
fn shown_in(notes: &[Note], start: usize, end: usize) -> Shown
    requires low { start ≤ end }
    requires high { end ≤ length notes.now }
    requires ascend { AreAscending (slice_range notes.now start end) }
    ensures start { result.start ≡ start }
    ensures end { result.end ≡ end }
    ensures any { (lane : ℕ) → lane < LANES → (bit_at result.any lane ≡ false) ↔ AreNotedAlike lane (slice_range notes.now start end) [] }
{
    let any = any_lane(&notes[start..end], 0);
    Shown { start, end, any }
}

// Adds a note for each position at which the answers differ in some lane.
fn note_differences(sim: &FaultSim, notes: &mut Vec<Note>) -> Result<(), AllocError>
    ensures { OnOk result ((more : List Note) × (notes.new.items ≡ notes.old.items ++ more) × AreNotesAt sim.now more) }
{
    for position in sim.differing_positions() {
        notes.push(Note {
            position: *position,
            lanes: sim.differs(*position),
        })?;
    }
    Ok(())
}

// Returns the notes of a head.
pub(crate) fn notes_in(notes: &[Note], shown: Shown) -> &[Note]
    requires { IsSpanIn notes.now shown }
    ensures { result.now ≡ noted_in notes.now shown }
{
    &notes[shown.start..shown.end]
}

// Adds the positions at which the answer differs in `lane`.
pub(crate) fn add_positions(
    notes: &[Note],
    lane: u32,
    positions: &mut Vec<u32>,
) -> Result<(), AllocError>
    requires { lane < LANES }
    ensures { OnOk result (positions.new.items ≡ positions.old.items ++ lane_positions notes.now lane) }
{
    for note in notes {
        if note.lanes.get(lane) {
            positions.push(note.position)?;
        }
    }
    Ok(())
}

// Returns true only if all numbers of `group` have one root.
pub(crate) fn have_one_root(roots: &[u32], group: &[u32]) -> bool
    requires { All (λ number. number < length roots.now) group.now }
    ensures { result ≡ true → (k : ℕ) → k < length group.now → slice_index roots.now (slice_index group.now k) ≡ slice_index roots.now (slice_index group.now 0) }
{
    if group.len() < 2 {
        return true;
    }
    for number in group {
        if roots[*number as usize] != roots[group[0] as usize] {
            return false;
        }
    }
    true
}
