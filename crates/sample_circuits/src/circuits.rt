//! Circuits of a few gates.

use crate::building::CircuitParts;
use net_model::Kind;

/// Line 2 is the AND of the sources, and is observed.
pub const AND_OF_TWO: CircuitParts<'static> = CircuitParts {
    sources: 2,
    gates: &[(Kind::And, &[0, 1])],
    positions: &[2],
};

/// Line 1 is the NOT of the source, and line 2 the OR of both, which is observed.
pub const NOT_AND_OR: CircuitParts<'static> = CircuitParts {
    sources: 1,
    gates: &[(Kind::Not, &[0]), (Kind::Or, &[0, 1])],
    positions: &[2],
};

/// Line 1 is the constant 1, and line 2 the AND of it and the source, which is observed.
pub const WITH_CONSTANT: CircuitParts<'static> = CircuitParts {
    sources: 1,
    gates: &[(Kind::Const1, &[]), (Kind::And, &[0, 1])],
    positions: &[2],
};

/// Line 1 buffers the source, and is observed.
pub const BUFFER: CircuitParts<'static> = CircuitParts {
    sources: 1,
    gates: &[(Kind::Buff, &[0])],
    positions: &[1],
};

/// The source is observed twice.
pub const SHOWN_TWICE: CircuitParts<'static> = CircuitParts {
    sources: 1,
    gates: &[],
    positions: &[0, 0],
};

/// Line 2 is a multiplexer whose data pins both read source 1, and is observed.
pub const SAME_DATA: CircuitParts<'static> = CircuitParts {
    sources: 2,
    gates: &[(Kind::Mux, &[0, 1, 1])],
    positions: &[2],
};

/// Line 3 is a multiplexer between the constants 0 and 1, and is observed.
pub const BETWEEN_CONSTANTS: CircuitParts<'static> = CircuitParts {
    sources: 1,
    gates: &[
        (Kind::Const0, &[]),
        (Kind::Const1, &[]),
        (Kind::Mux, &[0, 1, 2]),
    ],
    positions: &[3],
};

/// Line 1 is the XOR of the source with itself, and is observed.
pub const XOR_OF_ONE: CircuitParts<'static> = CircuitParts {
    sources: 1,
    gates: &[(Kind::Xor, &[0, 0])],
    positions: &[1],
};
