//! The order of evaluation, made by a queue of ready gates, or the walk along a loop.

ghost use Rattle.std.specs.Prelude.{◌≡◌, ◌≤◌, ◌<◌, ◌+◌, ◌^◌, ℕ, not, false, [], length, drop, find, IfOk, OnOk, All};
ghost use Rattle.std.specs.List.{range_with_len};
ghost use Rattle.net_model.specs.Circuit.{FitsTogether, Reaches, line_count, pins_of};
ghost use Rattle.net_model.specs.LoopWalk.{IsLoopWalk};
ghost use Rattle.net_model.specs.Topological.{parts_circuit, count_of, AreReaders, open_pins, waits_at, AreReady, IsTold, IsQueue, is_placed, IsRest, AreVisits};

use crate::gate::{Gate, Pins};
use crate::users::Users;
use std::alloc::{AllocError, Global};

// The parts from which a circuit is built.
#[derive(Drop)]
pub(crate) struct Parts {
    pub(crate) sources: u32,
    pub(crate) gates: Vec<Gate>,
    pub(crate) positions: Vec<u32>,
}

// The gates in an order of evaluation, as far as it goes, and for each line the number of open pins of its gate. A pin
// is open if it reads a gate whose readers haven't been told yet.
#[derive(Drop)]
pub(crate) struct Queue {
    pub(crate) waits: Vec<u32>,
    pub(crate) order: Vec<u32>,
}

impl Queue {
    // Closes one pin of each of `readers`, and adds each gate that then has no open pin to the order.
    fn tell(&mut self, readers: &[u32]) -> Result<(), AllocError>
        requires ready { AreReady self.old.waits.items self.old.order.items }
        requires enough { (line : ℕ) → count_of line readers.now ≤ waits_at self.old.waits.items line }
        ensures { OnOk result (IsTold readers.now self.old.waits.items self.new.waits.items self.old.order.items self.new.order.items) }
    {
        for reader in readers {
            let waits = self.waits[*reader as usize] - 1;
            self.waits[*reader as usize] = waits;
            if waits == 0 {
                self.order.push(*reader)?;
            }
        }
        Ok(())
    }
}

// Orders the gates topologically (Kahn 1962): the order is itself the queue of the gates whose readers are still to be
// told.
pub(crate) fn sorted(alloc: Global, parts: &Parts, readers: &Users) -> Result<Queue, AllocError>
    requires fits { FitsTogether (parts_circuit parts.now) }
    requires readers { AreReaders (parts_circuit parts.now) readers.now }
    ensures { IfOk result (λ queue. IsQueue (parts_circuit parts.now) queue.order.items queue.waits.items queue.order.items) }
{
    let mut queue = ready_gates(alloc, parts)?;
    let mut head = 0;
    while head < queue.order.len() {
        let line = queue.order[head];
        queue.tell(readers.at(line as usize))?;
        head += 1;
    }
    Ok(queue)
}

// Returns the gates that read each line.
pub(crate) fn readers_of(alloc: Global, parts: &Parts) -> Result<Users, AllocError>
    requires { FitsTogether (parts_circuit parts.now) }
    ensures { IfOk result (λ readers. AreReaders (parts_circuit parts.now) readers) }
{
    let lines = parts.sources + parts.gates.len() as u32;
    let mut readers = Users::none(alloc, lines as usize)?;
    for line in parts.sources..lines {
        readers.add_all(line, pins_of(parts, line))?;
    }
    Ok(readers)
}

// Returns the queue at the start: the open pins, and the gates that read sources alone.
fn ready_gates(alloc: Global, parts: &Parts) -> Result<Queue, AllocError>
    requires { FitsTogether (parts_circuit parts.now) }
    ensures { IfOk result (λ queue. IsQueue (parts_circuit parts.now) [] queue.waits.items queue.order.items) }
{
    let mut waits = vec![in alloc; 0; parts.sources as usize]?;
    let mut order = Vec::new(alloc);
    for line in parts.sources..parts.sources + parts.gates.len() as u32 {
        let pins = gate_count(parts.sources, pins_of(parts, line));
        waits.push(pins)?;
        if pins == 0 {
            order.push(line)?;
        }
    }
    Ok(Queue { waits, order })
}

// Returns how many of `lines` are gates.
fn gate_count(sources: u32, lines: &[u32]) -> u32
    requires { length lines.now < 2 ^ 32 }
    ensures { result ≡ open_pins sources [] lines.now }
{
    lines.iter().filter(|line| **line >= sources).count() as u32
}

// Returns the lines that the gate of `line` reads.
fn pins_of(parts: &Parts, line: u32) -> &[u32]
    requires fits { FitsTogether (parts_circuit parts.now) }
    requires from { parts.now.sources ≤ line }
    requires below { line < line_count (parts_circuit parts.now) }
    ensures value { result.now ≡ pins_of (parts_circuit parts.now) line }
    ensures inside { All (λ pin. pin < line_count (parts_circuit parts.now)) result.now }
{
    parts.gates[(line - parts.sources) as usize].pins.as_slice()
}

// Returns the first of `lines` that isn't placed.
fn first_left(lines: &[u32], waits: &[u32]) -> Option<u32>
    requires { All (λ line. line < length waits.now) lines.now }
    ensures { result ≡ find (λ line. not (is_placed waits.now line)) lines.now }
{
    lines
        .iter()
        .copied()
        .find(|line| waits[*line as usize] != 0)
}

// Returns the walk along a loop, if some gate isn't placed.
pub(crate) fn walk(alloc: Global, parts: &Parts, waits: &[u32]) -> Result<Pins, AllocError>
    requires fits { FitsTogether (parts_circuit parts.now) }
    requires rest { IsRest (parts_circuit parts.now) waits.now }
    requires some { (line : ℕ) × (line < line_count (parts_circuit parts.now)) × (is_placed waits.now line ≡ false) }
    ensures walk { IfOk result (λ walk. IsLoopWalk (parts_circuit parts.now) walk) }
    ensures reaching { IfOk result (λ walk. All (λ line. Reaches (parts_circuit parts.now) line line) walk) }
{
    let visits = visited_lines(alloc, parts, waits)?;
    pins_from(alloc, visits.lines.as_slice(), visits.back as usize)
}

// The gates that the walk visits before one comes a second time, and the place of that one among them.
#[derive(Drop)]
struct FirstVisits {
    lines: Vec<u32>,
    back: u32,
}

fn visited_lines(alloc: Global, parts: &Parts, waits: &[u32]) -> Result<FirstVisits, AllocError>
    requires fits { FitsTogether (parts_circuit parts.now) }
    requires rest { IsRest (parts_circuit parts.now) waits.now }
    requires some { (line : ℕ) × (line < line_count (parts_circuit parts.now)) × (is_placed waits.now line ≡ false) }
    ensures { IfOk result (λ visits. AreVisits (parts_circuit parts.now) visits.lines.items visits.back) }
{
    let gates = numbers_from(alloc, parts.sources, parts.gates.len())?;
    let none = parts.sources + parts.gates.len() as u32;
    let mut seen = vec![in alloc; none; none as usize]?;
    let mut lines = Vec::new(alloc);
    let mut line = first_left(gates.as_slice(), waits).unwrap_or(0);
    'visits: loop {
        let back = seen[line as usize];
        if back != none {
            return Ok(FirstVisits { lines, back });
        }
        seen[line as usize] = lines.len() as u32;
        lines.push(line)?;
        line = first_left(pins_of(parts, line), waits).unwrap_or(0);
    }
}

// Returns the lines starting at place `start`.
fn pins_from(alloc: Global, lines: &[u32], start: usize) -> Result<Pins, AllocError>
    requires { start ≤ length lines.now }
    ensures { IfOk result (λ pins. pins ≡ drop start lines.now) }
{
    let mut pins = Pins::new(alloc);
    for line in &lines[start..] {
        pins.push(*line)?;
    }
    Ok(pins)
}

// Returns `count` numbers, starting at `first`.
fn numbers_from(alloc: Global, first: u32, count: usize) -> Result<Vec<u32>, AllocError>
    requires { first + count < 2 ^ 32 }
    ensures { IfOk result (λ numbers. numbers.items ≡ range_with_len first count) }
{
    let mut numbers = Vec::new(alloc);
    for number in first..first + count as u32 {
        numbers.push(number)?;
    }
    Ok(numbers)
}
