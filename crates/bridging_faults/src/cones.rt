//! `LineCones`: the lines that a line leads to, and those that lead to it, in space that is reused from line to line.

ghost use Rattle.std.specs.Prelude.{◌≡◌, ◌<◌, ◌⊎◌, ◌==◌, ℕ, All, IfOk, length};
ghost use Rattle.std.specs.List.{list_any};
ghost use Rattle.net_model.specs.Circuit.{line_count};
ghost use Rattle.net_model.specs.Answer.{bit_at};
ghost use Rattle.net_model.specs.Scope.{leads_to};
ghost use Rattle.fault_list.specs.Scope.{AreMarksOfTest, MarksLines};
ghost use Rattle.bridging_faults.specs.Cones.{HaveLineMarks, AreConesOf};

use net_model::Circuit;
use std::alloc::{AllocError, Global};

/// The fan-out cone and the fan-in cone of a line of a circuit, in space that is reused from line to line. The line is
/// in both.
#[derive(Drop)]
pub(crate) struct LineCones<'a> {
    pub(crate) circuit: &'a Circuit,
    /// Marks the lines that the line leads to.
    pub(crate) fan_out: Vec<bool>,
    /// Marks the lines that lead to it.
    pub(crate) fan_in: Vec<bool>,
}

impl<'a> LineCones<'a> {
    /// Returns space for the cones of a line.
    pub(crate) fn new(alloc: Global, circuit: &'a Circuit) -> Result<LineCones<'a>, AllocError>
        ensures circuit { IfOk result (λ cones. cones.circuit.now ≡ circuit.now) }
        ensures room { IfOk result HaveLineMarks }
    {
        let lines = circuit.lines() as usize;
        Ok(LineCones {
            circuit,
            fan_out: vec![in alloc; false; lines]?,
            fan_in: vec![in alloc; false; lines]?,
        })
    }

    /// Replaces the cones with those of `line`. Takes no memory.
    pub(crate) fn show(&mut self, line: u32)
        requires line { line < line_count self.old.circuit.now }
        requires room { HaveLineMarks self.old }
        ensures circuit { self.new.circuit.now ≡ self.old.circuit.now }
        ensures cones { AreConesOf line self.new }
    {
        mark_fan_out(self.circuit, line, &mut self.fan_out);
        mark_fan_in(self.circuit, line, &mut self.fan_in);
    }

    /// Returns whether `from` is `to` or leads to it. One of the two is `line`, whose cones are shown.
    pub(crate) fn leads(&self, line: u32, from: u32, to: u32) -> bool
        requires cones { AreConesOf line self.now }
        requires one { (line ≡ from) ⊎ (line ≡ to) }
        requires from { from < line_count self.now.circuit.now }
        requires to { to < line_count self.now.circuit.now }
        ensures { result ≡ leads_to self.now.circuit.now from to }
    {
        if from == line {
            self.fan_out[to as usize]
        } else {
            self.fan_in[from as usize]
        }
    }
}

// Marks exactly the lines that `from` leads to, by going through the gates in order.
fn mark_fan_out(circuit: &Circuit, from: u32, marks: &mut Vec<bool>)
    requires { length marks.old.items ≡ line_count circuit.now }
    ensures { AreMarksOfTest (leads_to circuit.now from) (line_count circuit.now) marks.new.items }
{
    mark_alone(from, marks);
    for line in circuit.order() {
        let pins = circuit.gate(*line).pins.as_slice();
        let is_led_to = from == *line || is_any_marked(marks.as_slice(), pins);
        marks[*line as usize] = is_led_to;
    }
}

// Marks exactly the lines that lead to `to`, by going through the gates in reverse order.
fn mark_fan_in(circuit: &Circuit, to: u32, marks: &mut Vec<bool>)
    requires to { to < line_count circuit.now }
    requires whole { length marks.old.items ≡ line_count circuit.now }
    ensures { AreMarksOfTest (λ from. leads_to circuit.now from to) (line_count circuit.now) marks.new.items }
{
    mark_alone(to, marks);
    let order = circuit.order();
    for i in (0..order.len()).rev() {
        let line = order[i];
        if marks[line as usize] {
            mark_lines(marks, circuit.gate(line).pins.as_slice());
        }
    }
}

// Marks exactly `line`.
fn mark_alone(line: u32, marks: &mut Vec<bool>)
    ensures { AreMarksOfTest (λ other. line == other) (length marks.old.items) marks.new.items }
{
    for other in 0..marks.len() {
        marks[other] = line as usize == other;
    }
}

// Marks `lines` too, and keeps the other marks.
fn mark_lines(marks: &mut Vec<bool>, lines: &[u32])
    requires { All (λ line. line < length marks.old.items) lines.now }
    ensures { MarksLines lines.now marks.old.items marks.new.items }
{
    for line in lines {
        marks[*line as usize] = true;
    }
}

fn is_any_marked(marks: &[bool], lines: &[u32]) -> bool
    requires { All (λ line. line < length marks.now) lines.now }
    ensures { result ≡ list_any (bit_at marks.now) lines.now }
{
    lines.iter().any(|line| marks[*line as usize])
}
