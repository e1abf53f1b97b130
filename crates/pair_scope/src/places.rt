//! All lines of a circuit in an evaluation order, the place of each, and which lines are made to wait.

ghost use Rattle.std.specs.Prelude.{◌≡◌, ◌≢◌, ◌<◌, ◌+◌, ◌^◌, ◌++◌, ℕ, All, Contains, IfOk, length, slice_index};
ghost use Rattle.std.specs.List.{range_with_len};
ghost use Rattle.net_model.specs.Circuit.{line_count};
ghost use Rattle.net_model.specs.Fault.{IsFaultOf};
ghost use Rattle.event_queue.specs.Pending.{is_pending};
ghost use Rattle.pair_scope.specs.Places.{ArePlaced, AreWokenFrom, AreWokenBack, HasBegun, from_end};

use event_queue::NumberQueue;
use net_model::{Circuit, Fault, Wiring, first_changed};
use std::alloc::{AllocError, Global};

/// The lines of a circuit, first the sources and then the gates in an evaluation order, and the place of each line
/// among them.
#[derive(Debug, Drop)]
pub(crate) struct LinePlaces<'a> {
    pub(crate) circuit: &'a Circuit,
    pub(crate) wiring: &'a Wiring,
    pub(crate) lines: Vec<u32>,
    pub(crate) places: Vec<u32>,
}

impl<'a> LinePlaces<'a> {
    /// Returns the lines of `circuit` with their places.
    pub(crate) fn of(alloc: Global, circuit: &'a Circuit) -> Result<LinePlaces<'a>, AllocError>
        ensures circuit { IfOk result (λ places. places.circuit.now ≡ circuit.now) }
        ensures placed { IfOk result ArePlaced }
    {
        let wiring = circuit.wiring();
        let lines = ordered_lines(alloc, circuit.sources(), wiring.order())?;
        let places = places_of(alloc, lines.as_slice())?;
        Ok(LinePlaces {
            circuit,
            wiring,
            lines,
            places,
        })
    }

    /// Makes the first line that `fault` changes wait in `queue`, if it changes one.
    pub(crate) fn begin(&self, fault: Fault, queue: &mut NumberQueue)
        requires placed { ArePlaced self.now }
        requires fault { IsFaultOf self.now.circuit.now fault }
        requires room { length queue.old ≡ line_count self.now.circuit.now }
        ensures room { length queue.new ≡ length queue.old }
        ensures begun { HasBegun fault self.now.lines.items self.now.places.items queue.old queue.new }
    {
        if let Some(line) = first_changed(fault) {
            queue.insert(self.places[line as usize]);
        }
    }

    /// Makes the gates that read `line` wait in `queue`.
    pub(crate) fn wake_readers(&self, line: u32, queue: &mut NumberQueue)
        requires placed { ArePlaced self.now }
        requires line { line < line_count self.now.circuit.now }
        requires room { length queue.old ≡ line_count self.now.circuit.now }
        ensures room { length queue.new ≡ length queue.old }
        ensures woken { AreWokenFrom self.now.circuit.now line self.now.lines.items self.now.places.items queue.old queue.new }
    {
        let sources = self.circuit.sources();
        for reader in self.wiring.readers(line) {
            queue.insert(sources + *reader);
        }
    }

    /// Returns the line at a place that is counted from the end.
    pub(crate) fn line_back(&self, place: u32) -> u32
        requires { place < length self.now.lines.items }
        ensures { result ≡ slice_index self.now.lines.items (from_end (length self.now.lines.items) place) }
    {
        self.lines[self.lines.len() - 1 - place as usize]
    }

    /// Returns the place of `line`, counted from the end.
    pub(crate) fn place_back(&self, line: u32) -> u32
        requires placed { ArePlaced self.now }
        requires line { line < line_count self.now.circuit.now }
        ensures { result ≡ from_end (line_count self.now.circuit.now) (slice_index self.now.places.items line) }
    {
        self.lines.len() as u32 - 1 - self.places[line as usize]
    }

    /// Makes each of `lines` wait in `queue`, at its place counted from the end.
    pub(crate) fn wake_back(&self, lines: &[u32], queue: &mut NumberQueue)
        requires placed { ArePlaced self.now }
        requires lines { All (λ line. line < line_count self.now.circuit.now) lines.now }
        requires room { length queue.old ≡ line_count self.now.circuit.now }
        ensures room { length queue.new ≡ length queue.old }
        ensures woken { AreWokenBack (Contains lines.now) (line_count self.now.circuit.now) self.now.places.items queue.old queue.new }
    {
        for line in lines {
            queue.insert(self.place_back(*line));
        }
    }
}

// Returns the sources ascending, and after them the gates in `order`.
fn ordered_lines(alloc: Global, sources: u32, order: &[u32]) -> Result<Vec<u32>, AllocError>
    requires { sources + length order.now < 2 ^ 32 }
    ensures { IfOk result (λ lines. lines.items ≡ range_with_len 0 sources ++ order.now) }
{
    let mut lines = Vec::with_capacity(alloc, sources as usize + order.len())?;
    for source in 0..sources {
        lines.push_reserved(source);
    }
    lines.extend_from_slice(order)?;
    Ok(lines)
}

// Returns for each line its place in `lines`.
fn places_of(alloc: Global, lines: &[u32]) -> Result<Vec<u32>, AllocError>
    requires few { length lines.now < 2 ^ 32 }
    requires inside { All (λ line. line < length lines.now) lines.now }
    requires distinct { (j k : ℕ) → j < k → k < length lines.now → slice_index lines.now j ≢ slice_index lines.now k }
    ensures whole { IfOk result (λ places. length places.items ≡ length lines.now) }
    ensures each { IfOk result (λ places. (place : ℕ) → place < length lines.now → slice_index places.items (slice_index lines.now place) ≡ place) }
{
    let mut places = vec![in alloc; 0; lines.len()]?;
    for (place, line) in lines.iter().enumerate() {
        places[*line as usize] = place as u32;
    }
    Ok(places)
}
