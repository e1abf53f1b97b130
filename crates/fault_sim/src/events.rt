//! Event-driven simulation of a turned line: only gates that read a changed line are evaluated, in an order of the
//! circuit.

ghost use Rattle.std.specs.Prelude.{◌≡◌, ◌≢◌, ℕ, ◌+◌, ◌<◌, ◌≤◌, ◌^◌, ◌⊎◌, true, false, [], length, All, AllPairs, slice_index, slice_index_or};
ghost use Rattle.net_model.specs.Circuit.{line_count, Feeds};
ghost use Rattle.net_model.specs.Wiring.{IsWiring};
ghost use Rattle.event_queue.specs.Pending.{is_pending, IsEmpty};
ghost use Rattle.fault_heads.specs.Turned.{IsLive, IsFalsePast};
ghost use Rattle.fault_sim.specs.Rows.{IsFalse, AreFalseBut, IsTrueSomewhere};
ghost use Rattle.fault_sim.specs.TurnedLines.{IsSettled};
ghost use Rattle.fault_sim.specs.Events.{AreOthersSettled, StaySettled, AreFalsePast, IsUnderway, IsSameRow, row_shown};

use crate::rows::Rows;
use crate::turned::line_change;
use event_queue::NumberQueue;
use net_model::{Circuit, Wiring};
use word_sim::{GoodSim, Lanes};

/// Turns `line` in `lanes` and settles all other lines. No line is turned before the call. The line itself is never
/// evaluated.
pub(crate) fn turn_line(
    good: &GoodSim,
    live: Lanes,
    line: u32,
    lanes: Lanes,
    queue: &mut NumberQueue,
    rows: &mut Rows,
)
    requires live { IsLive good.now live }
    requires line { line < line_count good.now.circuit }
    requires past { IsFalsePast good.now lanes }
    requires width { length rows.old.rows ≡ line_count good.now.circuit }
    requires clear { AreFalseBut [] rows.old.rows }
    requires listed { rows.old.listed ≡ [] }
    requires room { length good.now.circuit.gates < rows.old.room }
    requires queue { length good.now.circuit.gates ≤ length queue.old }
    requires none { IsEmpty queue.old }
    ensures width { length rows.new.rows ≡ line_count good.now.circuit }
    ensures room { rows.new.room ≡ rows.old.room }
    ensures queue { length good.now.circuit.gates ≤ length queue.new }
    ensures none { IsEmpty queue.new }
    ensures turned { slice_index_or rows.new.rows line [] ≡ lanes }
    ensures settled { AreOthersSettled good.now line rows.new.rows }
    ensures past { AreFalsePast good.now rows.new.rows }
{
    let wiring = good.circuit().wiring();
    let order = wiring.order();
    rows.set(line, lanes);
    queue.wake(wiring.readers(line));
    let mut from = 0;
    while let Some(place) = queue.take_lowest(from) {
        settle(wiring, good, live, order[place as usize], queue, rows);
        from = place + 1;
    }
}

// Gives a gate's line its bits. If they change, its readers wait from now on.
fn settle(
    wiring: &Wiring,
    good: &GoodSim,
    live: Lanes,
    line: u32,
    queue: &mut NumberQueue,
    rows: &mut Rows,
)
    requires wiring { IsWiring good.now.circuit wiring.now }
    requires live { IsLive good.now live }
    requires gate { good.now.circuit.sources ≤ line }
    requires line { line < line_count good.now.circuit }
    requires room { length rows.old.listed < rows.old.room }
    requires underway { IsUnderway good.now wiring.now.order queue.old rows.old.rows }
    ensures room { rows.new.room ≡ rows.old.room }
    ensures listed { length rows.new.listed ≤ length rows.old.listed + 1 }
    ensures waiting { (place : ℕ) → is_pending queue.old place ≡ true → is_pending queue.new place ≡ true }
    ensures pending { (place : ℕ) → is_pending queue.new place ≡ true → is_pending queue.old place ≡ true ⊎ ((place < length wiring.now.order) × Feeds good.now.circuit line (slice_index wiring.now.order place)) }
    ensures others { (other : ℕ) → other ≢ line → slice_index_or rows.new.rows other [] ≡ slice_index_or rows.old.rows other [] }
    ensures settled { IsSettled good.now rows.new.rows line }
    ensures stay { StaySettled good.now wiring.now.order line queue.new rows.old.rows rows.new.rows }
    ensures underway { IsUnderway good.now wiring.now.order queue.new rows.new.rows }
{
    let row = line_change(good, live, rows.as_slice(), line);
    if !rows.row(line).xor(row).any() {
        return;
    }
    rows.set(line, row);
    queue.wake(wiring.readers(line));
}

/// Marks each position that shows a changed line.
pub(crate) fn mark_positions(circuit: &Circuit, lines: &Rows, marks: &mut NumberQueue)
    requires width { length lines.now.rows ≡ line_count circuit.now }
    requires room { length circuit.now.positions ≤ length marks.old }
    requires none { IsEmpty marks.old }
    ensures room { length marks.new ≡ length marks.old }
    ensures within { (position : ℕ) → is_pending marks.new position ≡ true → position < length circuit.now.positions }
    ensures others { (position : ℕ) → position < length circuit.now.positions → is_pending marks.new position ≡ false → IsFalse (row_shown circuit.now.positions lines.now.rows position) }
{
    let wiring = circuit.wiring();
    for line in lines.listed() {
        marks.wake(wiring.showing(*line));
    }
}

/// Gives each marked position, in ascending order, the row of the line that it shows, and clears the marks.
pub(crate) fn show_positions(
    shown: &[u32],
    lines: &[Lanes],
    marks: &mut NumberQueue,
    positions: &mut Rows,
)
    requires inside { All (λ line. line < length lines.now) shown.now }
    requires few { length shown.now < 2 ^ 32 }
    requires whole { length positions.old.rows ≡ length shown.now }
    requires clear { AreFalseBut [] positions.old.rows }
    requires listed { positions.old.listed ≡ [] }
    requires room { length shown.now ≤ positions.old.room }
    requires within { (position : ℕ) → is_pending marks.old position ≡ true → position < length shown.now }
    requires others { (position : ℕ) → position < length shown.now → is_pending marks.old position ≡ false → IsFalse (row_shown shown.now lines.now position) }
    ensures marks { length marks.new ≡ length marks.old }
    ensures none { IsEmpty marks.new }
    ensures whole { length positions.new.rows ≡ length positions.old.rows }
    ensures room { positions.new.room ≡ positions.old.room }
    ensures some { All (λ at. IsTrueSomewhere (slice_index_or positions.new.rows at [])) positions.new.listed }
    ensures ascending { AllPairs ◌<◌ positions.new.listed }
    ensures shown { (position : ℕ) → position < length shown.now → IsSameRow (slice_index_or positions.new.rows position []) (row_shown shown.now lines.now position) }
{
    let mut from = 0;
    while let Some(at) = marks.take_lowest(from) {
        let row = lines[shown[at as usize] as usize];
        if row.any() {
            positions.set(at, row);
        }
        from = at + 1;
    }
}
