//! Two faults of a circuit, and the pairs of values that they give pins, lines and positions. Stuck values at the pins
//! and the stem of a gate are looked up only if one of the faults begins at the gate's line.

ghost use Rattle.std.specs.Prelude.{◌≡◌, ◌<◌, ◌≤◌, ◌^◌, [], All, IsTrue, length};
ghost use Rattle.net_model.specs.declared.operation.Operation.TheVariants.{Folded, Chosen};
ghost use Rattle.net_model.specs.Circuit.{line_count};
ghost use Rattle.net_model.specs.Fault.{stuck_pin, stuck_stem};
ghost use Rattle.net_model.specs.Gate.{takes_pins};
ghost use Rattle.fault_list.specs.Scope.{begins_at, is_first_changed};
ghost use Rattle.pair_sets.specs.Cube.{Cube};
ghost use Rattle.pair_sets.specs.PairSet.{forced_pairs, gate_pairs, operation_pairs};
ghost use Rattle.pair_sets.specs.CubeState.{set_at, seen_pairs, line_pairs, position_pairs};

use crate::pair_set::PairSet;
use net_model::{
    Circuit, Fault, Fold, Gate, Operation, first_changed, stuck_pin, stuck_position, stuck_stem,
};

/// Two faults and their circuit.
#[derive(Clone, Copy, Debug)]
pub(crate) struct FaultPair<'a> {
    pub(crate) circuit: &'a Circuit,
    pub(crate) f: Fault,
    pub(crate) g: Fault,
}

impl<'a> FaultPair<'a> {
    /// Returns `pairs` with the value at which each fault sticks the stem of `line`, if it does, put in that fault's
    /// place.
    pub(crate) fn stem_pairs(&self, line: u32, pairs: PairSet) -> PairSet
        ensures { result ≡ forced_pairs (stuck_stem self.now.f line) (stuck_stem self.now.g line) pairs }
    {
        pairs.forced(stuck_stem(self.f, line), stuck_stem(self.g, line))
    }

    /// Returns the pairs that pin `pin` of the gate of `line` sees of line `read`.
    pub(crate) fn pin_pairs(&self, sets: &[PairSet], line: u32, pin: u32, read: u32) -> PairSet
        requires { read < length sets.now }
        ensures { result ≡ forced_pairs (stuck_pin self.now.f line pin) (stuck_pin self.now.g line pin) (set_at sets.now read) }
    {
        sets[read as usize].forced(stuck_pin(self.f, line, pin), stuck_pin(self.g, line, pin))
    }

    /// Returns the pairs that observed position `at` shows.
    pub(crate) fn position_pairs(&self, sets: &[PairSet], at: u32) -> PairSet
        requires width { length sets.now ≡ line_count self.now.circuit.now }
        requires position { at < length self.now.circuit.now.positions }
        ensures { result ≡ position_pairs self.now.circuit.now self.now.f self.now.g sets.now at }
    {
        let line = self.circuit.positions()[at as usize];
        sets[line as usize].forced(stuck_position(self.f, at), stuck_position(self.g, at))
    }

    /// Returns the pairs of a line that a gate drives.
    pub(crate) fn line_pairs(&self, sets: &[PairSet], line: u32) -> PairSet
        requires gate { self.now.circuit.now.sources ≤ line }
        requires line { line < line_count self.now.circuit.now }
        requires width { length sets.now ≡ line_count self.now.circuit.now }
        ensures { (cube : Cube) → result ≡ line_pairs self.now.circuit.now self.now.f self.now.g cube sets.now line }
    {
        let begins = self.begins_at(line);
        let pairs = self.gate_pairs(sets, line, self.circuit.gate(line), begins);
        if begins {
            self.stem_pairs(line, pairs)
        } else {
            pairs
        }
    }

    /// Returns the pairs of a line if all sources are free.
    pub(crate) fn free_line_pairs(&self, sets: &[PairSet], line: u32) -> PairSet
        requires line { line < line_count self.now.circuit.now }
        requires width { length sets.now ≡ line_count self.now.circuit.now }
        ensures { result ≡ line_pairs self.now.circuit.now self.now.f self.now.g [] sets.now line }
    {
        if line < self.circuit.sources() {
            self.stem_pairs(line, PairSet::free())
        } else {
            self.line_pairs(sets, line)
        }
    }

    // Returns whether one of the faults sticks the stem of `line` or a pin of its gate.
    #[inline]
    fn begins_at(&self, line: u32) -> bool
        ensures { result ≡ begins_at self.now.f self.now.g line }
    {
        is_first_changed(self.f, line) || is_first_changed(self.g, line)
    }

    // As `pin_pairs`; `begins` is whether a fault begins at `line`.
    #[inline]
    fn seen_pairs(&self, sets: &[PairSet], line: u32, pin: u32, read: u32, begins: bool) -> PairSet
        requires read { read < length sets.now }
        requires begins { begins ≡ begins_at self.now.f self.now.g line }
        ensures { result ≡ forced_pairs (stuck_pin self.now.f line pin) (stuck_pin self.now.g line pin) (set_at sets.now read) }
    {
        if begins {
            self.pin_pairs(sets, line, pin, read)
        } else {
            sets[read as usize]
        }
    }

    // Returns the pairs that `gate`, the gate of `line`, gives for what its pins see.
    fn gate_pairs(&self, sets: &[PairSet], line: u32, gate: &Gate, begins: bool) -> PairSet
        requires inside { All (λ pin. pin < length sets.now) gate.now.pins }
        requires few { length gate.now.pins < 2 ^ 32 }
        requires arity { IsTrue (takes_pins gate.now.kind (length gate.now.pins)) }
        requires begins { begins ≡ begins_at self.now.f self.now.g line }
        ensures { result ≡ gate_pairs gate.now.kind (seen_pairs self.now.f self.now.g sets.now line gate.now.pins) }
    {
        let pins = gate.pins.as_slice();
        let pairs = match gate.kind.operation() {
            Operation::Folded(fold) => self.folded(sets, line, pins, fold, begins),
            Operation::Chosen => self.chosen(sets, line, pins, begins),
        };
        if gate.kind.inverts() {
            pairs.not()
        } else {
            pairs
        }
    }

    // Returns the pairs of a fold of what `pins` see.
    #[inline]
    fn folded(&self, sets: &[PairSet], line: u32, pins: &[u32], fold: Fold, begins: bool) -> PairSet
        requires inside { All (λ pin. pin < length sets.now) pins.now }
        requires few { length pins.now < 2 ^ 32 }
        requires begins { begins ≡ begins_at self.now.f self.now.g line }
        ensures { result ≡ operation_pairs (Folded fold) (seen_pairs self.now.f self.now.g sets.now line pins.now) }
    {
        let mut pairs = PairSet::unit(fold);
        for k in (0..pins.len()).rev() {
            pairs = self
                .seen_pairs(sets, line, k as u32, pins[k], begins)
                .step(fold, pairs);
        }
        pairs
    }

    // Returns the pairs of the choice that the first of three pins makes between the other two.
    fn chosen(&self, sets: &[PairSet], line: u32, pins: &[u32], begins: bool) -> PairSet
        requires inside { All (λ pin. pin < length sets.now) pins.now }
        requires three { length pins.now ≡ 3 }
        requires begins { begins ≡ begins_at self.now.f self.now.g line }
        ensures { result ≡ operation_pairs Chosen (seen_pairs self.now.f self.now.g sets.now line pins.now) }
    {
        let select = self.seen_pairs(sets, line, 0, pins[0], begins);
        let low = self.seen_pairs(sets, line, 1, pins[1], begins);
        let high = self.seen_pairs(sets, line, 2, pins[2], begins);
        select.chosen(low, high)
    }
}

// Returns whether `line` is the first line that `fault` can change.
#[inline]
fn is_first_changed(fault: Fault, line: u32) -> bool
    ensures { result ≡ is_first_changed fault line }
{
    match first_changed(fault) {
        Some(from) => from == line,
        None => false,
    }
}
