//! `Heads`: for each line the head at the end of its way.

ghost use Rattle.std.specs.Prelude.{◌≡◌, ◌↔◌, ℕ, ◌<◌, length, slice_get, IfOk, IfSome, None, Some};
ghost use Rattle.net_model.specs.Fault.{IsFaultOf};
ghost use Rattle.net_model.specs.Circuit.{line_count};
ghost use Rattle.fault_heads.specs.Turned.{IsFalsePast, IsHeadOf, TurnsHead};
ghost use Rattle.fault_heads.specs.Ways.{IsWay, IsWayEnd, AreWays};
ghost use Rattle.fault_heads.specs.HeadsFields.{IsDestination, AreDestinations};

use crate::destination::{GatePin, destinations};
use crate::head::{Head, Turn};
use crate::pins::value_with_pin;
use crate::turns::{difference, first_turn};
use net_model::{Circuit, Fault};
use std::alloc::{AllocError, Global};
use std::marker::Model;
use word_sim::{GoodSim, Lanes};

/// For each line the head at the end of its way, and in which vectors of a block turning the line turns this head. If a
/// line's only destination is a pin of a gate, its way goes on with the gate's line. Every other line is the end of its
/// own way.
#[derive(Debug)]
pub struct Heads<'a> {
    circuit: &'a Circuit,
    destinations: Vec<Option<GatePin>>,
    ways: Vec<Turn>,
}

// Written by hand, since the proof of each function that drops heads then has one step for it; a derived drop takes a
// step for each vector in them.
impl Drop for Heads<'_> {
    fn drop(self) {
        let Heads {
            circuit: _,
            destinations: _,
            ways: _,
        } = self;
    }
}

impl<'a> Model for Heads<'a> {
    ghost use Rattle.fault_heads.specs.Ways as spec;
    ghost use Rattle.fault_heads.specs.HeadsFields.{AreHeadsFields};

    ghost Value = { spec.Heads };

    ghost view = { λ h. record { circuit = h.circuit.now; ways = h.ways.items } };

    ghost invariant = { AreHeadsFields };
}

impl<'a> Heads<'a> {
    /// Returns the heads of the lines of `circuit`. No way is found yet.
    pub fn new(alloc: Global, circuit: &'a Circuit) -> Result<Heads<'a>, AllocError>
        ensures { IfOk result (λ heads. heads.circuit ≡ circuit.now) }
    {
        let destinations = destinations(alloc, circuit)?;
        let unfound = Turn {
            head: Head::Line(0),
            lanes: Lanes::all(false),
        };
        Ok(Heads {
            circuit,
            destinations,
            ways: vec![in alloc; unfound; circuit.lines() as usize]?,
        })
    }

    /// Finds in which vectors of the block that `good` ran last each line turns the head at the end of its way
    /// (critical path tracing inside fanout-free regions). For each line only the gate that its way goes on with is
    /// evaluated, once. It takes no memory.
    pub fn run(&mut self, good: &GoodSim)
        requires circuit { good.now.circuit ≡ self.old.circuit }
        ensures circuit { self.new.circuit ≡ self.old.circuit }
        ensures ways { AreWays good.now self.new.ways }
    {
        find_ways(good, self.destinations.as_slice(), &mut self.ways);
    }

    /// Returns what `fault` turns at the end of its way, and in which of the vectors for which the ways were found.
    /// Returns none exactly for `Fault::Free`.
    pub fn turn(&self, good: &GoodSim, fault: Fault) -> Option<Turn>
        requires circuit { good.now.circuit ≡ self.now.circuit }
        requires ways { AreWays good.now self.now.ways }
        requires fault { IsFaultOf good.now.circuit fault }
        ensures none { result ≡ None ↔ fault ≡ Fault.Free }
        ensures head { IfSome result (λ turn. IsHeadOf good.now.circuit turn.head) }
        ensures end { IfSome result (λ turn. IsWayEnd good.now.circuit turn.head) }
        ensures turns { IfSome result (λ turn. TurnsHead good.now fault turn.head turn.lanes) }
        ensures past { IfSome result (λ turn. IsFalsePast good.now turn.lanes) }
    {
        let first = first_turn(good, fault)?;
        match first.head {
            Head::Line(line) => {
                let way = self.ways[line as usize];
                Some(Turn {
                    head: way.head,
                    lanes: first.lanes.and(way.lanes),
                })
            }
            Head::Position(_) => Some(first),
        }
    }
}

// Finds the ways of all lines: that of a gate before those of the lines that it reads, and those of the sources last.
fn find_ways(good: &GoodSim, destinations: &[Option<GatePin>], ways: &mut [Turn])
    requires destinations { AreDestinations good.now.circuit destinations.now }
    requires whole { length ways.old ≡ line_count good.now.circuit }
    ensures { AreWays good.now ways.new }
{
    let order = good.circuit().order();
    for i in (0..order.len()).rev() {
        let line = order[i];
        ways[line as usize] = way(good, line, destinations[line as usize], ways);
    }
    for line in 0..good.circuit().sources() {
        ways[line as usize] = way(good, line, destinations[line as usize], ways);
    }
}

// Returns the way of a line, by the way of its only destination if it has one.
fn way(good: &GoodSim, line: u32, destination: Option<GatePin>, ways: &[Turn]) -> Turn
    requires line { line < line_count good.now.circuit }
    requires destination { IsDestination good.now.circuit line destination }
    requires whole { length ways.now ≡ line_count good.now.circuit }
    requires onward { (at : GatePin) (next : Turn) → destination ≡ Some at → slice_get ways.now at.gate ≡ Some next → IsWay good.now at.gate next }
    ensures { IsWay good.now line result }
{
    let Some(at) = destination else {
        return Turn {
            head: Head::Line(line),
            lanes: good.live(),
        };
    };
    let next = ways[at.gate as usize];
    let turned = value_with_pin(good, at.gate, at.pin, good.lanes(line).not());
    Turn {
        head: next.head,
        lanes: difference(good, at.gate, turned).and(next.lanes),
    }
}
