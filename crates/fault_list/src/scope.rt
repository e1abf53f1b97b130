//! The scope of a pair of faults: what either of them can change, and what that depends on.

ghost use Rattle.std.specs.Prelude.{◌≡◌, ◌<◌, ◌||◌, All, IfOk, is_some, length};
ghost use Rattle.std.specs.List.{list_any};
ghost use Rattle.net_model.specs.Answer.{bit_at};
ghost use Rattle.net_model.specs.Circuit.{line_count};
ghost use Rattle.net_model.specs.Fault.{stuck_position};
ghost use Rattle.net_model.specs.Scope.{is_split, is_relevant, is_reached};
ghost use Rattle.fault_list.specs.Scope.{AreMarksOfTest, AreReachedMarked, IsScopeOf, MarksLines, is_first_changed, begins_at};

use net_model::{Circuit, Fault, Site};
use std::alloc::{AllocError, Global};
use std::marker::Model;

/// What a pair of faults can change. A line is split if one of the faults reaches it. A position is reached if it shows
/// a split line or is the site of one of the faults. The lines of reached positions are relevant, and so are all lines
/// that lead to them. The program has scopes from `pair_scope`, which keeps its space from pair to pair; this one is
/// for tests and for callers from outside.
#[derive(Debug, Drop)]
pub struct Scope {
    split: Vec<bool>,
    relevant: Vec<bool>,
    reached: Vec<bool>,
}

impl Model for Scope {
    ghost use Rattle.fault_list.specs.Scope as spec;

    ghost Value = { spec.Scope };

    ghost view = { λ s. spec.scope_with s.split.items s.relevant.items s.reached.items };
}

impl Scope {
    /// Returns the scope of two faults of a circuit.
    pub fn of(alloc: Global, circuit: &Circuit, f: &Fault, g: &Fault) -> Result<Scope, AllocError>
        ensures { IfOk result (IsScopeOf circuit.now f.now g.now) }
    {
        let split = split_lines(alloc, circuit, f, g)?;
        let reached = reached_positions(alloc, circuit, f, g, split.as_slice())?;
        let relevant = relevant_lines(alloc, circuit, f, g, reached.as_slice())?;
        Ok(Scope {
            split,
            relevant,
            reached,
        })
    }

    /// Returns whether a line is split.
    pub fn split(&self, line: u32) -> bool
        requires { line < length self.now.split }
        ensures { result ≡ bit_at self.now.split line }
    {
        self.split[line as usize]
    }

    /// Returns whether a line is relevant.
    pub fn relevant(&self, line: u32) -> bool
        requires { line < length self.now.relevant }
        ensures { result ≡ bit_at self.now.relevant line }
    {
        self.relevant[line as usize]
    }

    /// Returns whether a position is reached.
    pub fn reached(&self, position: u32) -> bool
        requires { position < length self.now.reached }
        ensures { result ≡ bit_at self.now.reached position }
    {
        self.reached[position as usize]
    }
}

// Returns which lines are split, found from the sources onward.
fn split_lines(
    alloc: Global,
    circuit: &Circuit,
    f: &Fault,
    g: &Fault,
) -> Result<Vec<bool>, AllocError>
    ensures { IfOk result (λ marks. AreMarksOfTest (is_split circuit.now f.now g.now) (line_count circuit.now) marks.items) }
{
    let mut marks = first_lines(alloc, circuit, f, g)?;
    for line in circuit.order() {
        let pins = circuit.gate(*line).pins.as_slice();
        let split = begins_at(f, g, *line) || is_any_marked(marks.as_slice(), pins);
        marks[*line as usize] = split;
    }
    Ok(marks)
}

// Returns which lines are the first that one of the faults can change.
fn first_lines(
    alloc: Global,
    circuit: &Circuit,
    f: &Fault,
    g: &Fault,
) -> Result<Vec<bool>, AllocError>
    ensures { IfOk result (λ marks. AreMarksOfTest (begins_at f.now g.now) (line_count circuit.now) marks.items) }
{
    let mut marks = Vec::with_capacity(alloc, circuit.lines() as usize)?;
    for line in 0..circuit.lines() {
        marks.push_reserved(begins_at(f, g, line));
    }
    Ok(marks)
}

// Returns which positions are reached.
fn reached_positions(
    alloc: Global,
    circuit: &Circuit,
    f: &Fault,
    g: &Fault,
    split: &[bool],
) -> Result<Vec<bool>, AllocError>
    requires { AreMarksOfTest (is_split circuit.now f.now g.now) (line_count circuit.now) split.now }
    ensures { IfOk result (λ marks. AreMarksOfTest (is_reached circuit.now f.now g.now) (length circuit.now.positions) marks.items) }
{
    let mut marks = Vec::new(alloc);
    for (at, line) in circuit.positions().iter().enumerate() {
        let reached = split[*line as usize] || is_site(f, g, at as u32);
        marks.push(reached)?;
    }
    Ok(marks)
}

// Returns which lines are relevant, found from the reached positions back.
fn relevant_lines(
    alloc: Global,
    circuit: &Circuit,
    f: &Fault,
    g: &Fault,
    reached: &[bool],
) -> Result<Vec<bool>, AllocError>
    requires { AreMarksOfTest (is_reached circuit.now f.now g.now) (length circuit.now.positions) reached.now }
    ensures { IfOk result (λ marks. AreMarksOfTest (is_relevant circuit.now f.now g.now) (line_count circuit.now) marks.items) }
{
    let mut marks = shown_lines(alloc, circuit, reached)?;
    let order = circuit.order();
    for i in (0..order.len()).rev() {
        let line = order[i];
        if marks[line as usize] {
            mark_lines(&mut marks, circuit.gate(line).pins.as_slice());
        }
    }
    Ok(marks)
}

// Returns which lines are those of reached positions.
fn shown_lines(alloc: Global, circuit: &Circuit, reached: &[bool]) -> Result<Vec<bool>, AllocError>
    requires { length reached.now ≡ length circuit.now.positions }
    ensures { IfOk result (λ marks. AreReachedMarked circuit.now.positions reached.now (line_count circuit.now) marks.items) }
{
    let mut marks = vec![in alloc; false; circuit.lines() as usize]?;
    for (at, line) in circuit.positions().iter().enumerate() {
        if reached[at] {
            marks[*line as usize] = true;
        }
    }
    Ok(marks)
}

fn mark_lines(marks: &mut Vec<bool>, lines: &[u32])
    requires { All (λ line. line < length marks.old.items) lines.now }
    ensures { MarksLines lines.now marks.old.items marks.new.items }
{
    for line in lines {
        marks[*line as usize] = true;
    }
}

fn is_any_marked(marks: &[bool], lines: &[u32]) -> bool
    requires { All (λ line. line < length marks.now) lines.now }
    ensures { result ≡ list_any (bit_at marks.now) lines.now }
{
    lines.iter().any(|line| marks[*line as usize])
}

// Returns whether a line is the first that one of the faults can change.
fn begins_at(f: &Fault, g: &Fault, line: u32) -> bool
    ensures { result ≡ begins_at f.now g.now line }
{
    is_first_changed(f, line) || is_first_changed(g, line)
}

fn is_first_changed(fault: &Fault, line: u32) -> bool
    ensures { result ≡ is_first_changed fault.now line }
{
    match *fault {
        Fault::Stuck(Site::Stem(at), _) | Fault::Stuck(Site::Pin(at, _), _) => at == line,
        _ => false,
    }
}

// Returns whether a position is the site of one of the faults.
fn is_site(f: &Fault, g: &Fault, position: u32) -> bool
    ensures { result ≡ (is_some (stuck_position f.now position) || is_some (stuck_position g.now position)) }
{
    is_stuck(f, position) || is_stuck(g, position)
}

fn is_stuck(fault: &Fault, position: u32) -> bool
    ensures { result ≡ is_some (stuck_position fault.now position) }
{
    match *fault {
        Fault::Stuck(Site::Position(at), _) => at == position,
        _ => false,
    }
}
