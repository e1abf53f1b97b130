//! `Side`, one of the two copies of the circuit.

/// A side of a pair of faults: the copy of the circuit under the first fault, or the one under the second.
#[derive(Clone, Copy, Debug)]
pub enum Side {
    First,
    Second,
}
