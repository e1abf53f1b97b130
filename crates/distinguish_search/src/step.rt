//! One step of a walk back: from an open line to an open line that its gate reads.

ghost use Rattle.std.specs.Prelude.{◌≡◌, ◌<◌, ◌≤◌, length};
ghost use Rattle.net_model.specs.Circuit.{Feeds, pins_of};
ghost use Rattle.distinguish_search.specs.Open.{IsLineOpen};
ghost use Rattle.distinguish_search.specs.Asked.{passing_bit, asked_bit};

use crate::rule::{Rule, Weight};
use net_model::{Kind, Operation};
use pair_sets::{PairSet, PairSim};

/// A line, and the bit that is asked of it.
#[derive(Clone, Copy)]
pub(crate) struct Objective {
    pub(crate) line: u32,
    pub(crate) bit: bool,
}

/// Returns an open line that the gate of the line of `from` reads, and the bit to ask of it.
pub(crate) fn step_back(sim: &PairSim, rule: Rule, from: Objective) -> Objective
    requires gate { sim.now.circuit.sources ≤ from.line }
    requires open { IsLineOpen sim.now.circuit sim.now.f sim.now.g sim.now.cube from.line }
    ensures feeds { Feeds sim.now.circuit result.line from.line }
    ensures open { IsLineOpen sim.now.circuit sim.now.f sim.now.g sim.now.cube result.line }
{
    let Objective { line, bit } = from;
    let kind = sim.circuit().gate(line).kind;
    let bit = asked_bit(sim.pairs(line), passing_bit(kind, bit), bit) != kind.inverts();
    match kind.operation() {
        Operation::Folded(_) => Objective {
            line: open_pin(sim, rule, kind, line, bit),
            bit,
        },
        Operation::Chosen => chosen_pin(sim, rule, line, bit),
    }
}

// Steps back from a multiplexer: through its first pin if that sees several pairs, else through the data pin that it
// selects if that does, else through another pin that does.
fn chosen_pin(sim: &PairSim, rule: Rule, line: u32, bit: bool) -> Objective
    requires gate { sim.now.circuit.sources ≤ line }
    requires open { IsLineOpen sim.now.circuit sim.now.f sim.now.g sim.now.cube line }
    requires three { length (pins_of sim.now.circuit line) ≡ 3 }
    ensures feeds { Feeds sim.now.circuit result.line line }
    ensures open { IsLineOpen sim.now.circuit sim.now.f sim.now.g sim.now.cube result.line }
{
    let pins = sim.circuit().gate(line).pins.as_slice();
    let select = sim.pin_pairs(line, 0, pins[0]);
    if select.has_several() {
        let low = sim.pin_pairs(line, 1, pins[1]);
        return Objective {
            line: pins[0],
            bit: !low.has(bit, bit),
        };
    }
    let shown = shown_pin(select);
    let data = sim.pin_pairs(line, shown, pins[shown as usize]);
    if data.has_several() {
        return Objective {
            line: pins[shown as usize],
            bit,
        };
    }
    Objective {
        line: open_pin(sim, rule, Kind::Mux, line, bit),
        bit,
    }
}

// Returns the data pin that a first pin with one pair selects.
fn shown_pin(select: PairSet) -> u32
    ensures { result < 3 }
{
    if select.has(true, true) { 2 } else { 1 }
}

// Returns a line that the gate of the open line `line` reads by a pin that sees two pairs or more: by the heaviest such
// pin by `rule`, and by the first of these if there are several.
fn open_pin(sim: &PairSim, rule: Rule, kind: Kind, line: u32, bit: bool) -> u32
    requires gate { sim.now.circuit.sources ≤ line }
    requires open { IsLineOpen sim.now.circuit sim.now.f sim.now.g sim.now.cube line }
    ensures feeds { Feeds sim.now.circuit result line }
    ensures open { IsLineOpen sim.now.circuit sim.now.f sim.now.g sim.now.cube result }
{
    let pins = sim.circuit().gate(line).pins.as_slice();
    let mut found = None;
    let mut most = Weight::least();
    for (pin, read) in pins.iter().enumerate() {
        let pairs = sim.pin_pairs(line, pin as u32, *read);
        if pairs.has_several() {
            let weight = rule.weight(kind, *read, pairs, bit);
            if found.is_none() | weight.is_heavier(most) {
                found = Some(*read);
                most = weight;
            }
        }
    }
    match found {
        Some(read) => read,
        None => unreachable!(),
    }
}

/// Returns the bit to ask of a line with `pairs`: if it has exactly one equal pair, the opposite of that pair's bit;
/// else `bit` if it has only equal pairs, and else `passing`.
pub(crate) fn asked_bit(pairs: PairSet, passing: bool, bit: bool) -> bool
    ensures { result ≡ asked_bit pairs passing bit }
{
    let zero = pairs.has(false, false);
    if zero != pairs.has(true, true) {
        return zero;
    }
    if pairs.only_equal() { bit } else { passing }
}

// Returns the bit that a gate of kind `kind` has if it lets a difference at a pin pass, or `bit` if its kind has no
// such bit.
fn passing_bit(kind: Kind, bit: bool) -> bool
    ensures { result ≡ passing_bit kind bit }
{
    match kind {
        Kind::And | Kind::Nor => true,
        Kind::Or | Kind::Nand => false,
        Kind::Xor | Kind::Xnor | Kind::Not | Kind::Buff | Kind::Mux | Kind::Const0 | Kind::Const1 =>
            bit,
    }
}
