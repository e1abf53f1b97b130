//! Laws of heads: each function has an empty body, and its contract is the law.

ghost use Rattle.fault_heads.specs.Laws.{StemTurnsLine, PinTurnsGate, PositionTurnsItself, LineTurnsGate};

/// The fault of a stem answers as its line turned if the line has another bit, and else as no fault.
pub fn stem_turns_line()
    ensures { StemTurnsLine }
{}

/// The fault of a pin answers as its gate's line turned if the gate gives another bit with the pin stuck, and else as
/// no fault.
pub fn pin_turns_gate()
    ensures { PinTurnsGate }
{}

/// The fault of a position answers as the position turned if its line has another bit, and else as no fault.
pub fn position_turns_itself()
    ensures { PositionTurnsItself }
{}

/// If a line's only destination is a pin, the line turned answers as no fault, unless the pin's gate gives another bit
/// with the pin turned; then it answers as the gate's line turned.
pub fn line_turns_gate()
    ensures { LineTurnsGate }
{}
