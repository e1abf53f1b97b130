//! What faults turn at their own places and at the ends of their ways.

ghost use Rattle.std.specs.Prelude.{◌≡◌, IfOk};
ghost use Rattle.fault_heads.specs.Ways.{AreWays};

use fault_heads::{Head, Heads, Turn, first_turn};
use net_model::Fault::{self, Free, Stuck};
use net_model::Kind;
use net_model::Site::{Pin, Position, Stem};
use sample_circuits::{CircuitParts, circuit, stands};
use std::alloc::{AllocError, Global};
use std::test::Fail;
use word_sim::{Block, GoodSim, Stream};

// The sources a, b and c; 3 is the NAND of a and b, 4 the OR of that and of c, and 5 the inverse of c. The OR is shown,
// and then the inverse.
const BRANCHED: CircuitParts<'static> = CircuitParts {
    sources: 3,
    gates: &[
        (Kind::Nand, &[0, 1]),
        (Kind::Or, &[3, 2]),
        (Kind::Not, &[2]),
    ],
    positions: &[4, 5],
};

// The sources s, a and b; 3 is the constant 1, 4 is b if s is 1 and else a, and 5 is the XOR of the constant and of
// that.
// Shown are s, the chosen bit and the XOR.
const CHOICE: CircuitParts<'static> = CircuitParts {
    sources: 3,
    gates: &[
        (Kind::Const1, &[]),
        (Kind::Mux, &[0, 1, 2]),
        (Kind::Xor, &[3, 4]),
    ],
    positions: &[0, 4, 5],
};

// The sources a, b and c; no gate reads c. 3 is the AND of a, a and b, and 4 its inverse, which is shown.
const TWICE: CircuitParts<'static> = CircuitParts {
    sources: 3,
    gates: &[(Kind::And, &[0, 0, 1]), (Kind::Not, &[3])],
    positions: &[4],
};

// What a fault turns, and in which of the first eight lanes: at its own place, and at the end of its way.
struct Case {
    fault: Fault,
    own: (Head, &'static [u8; 8]),
    end: (Head, &'static [u8; 8]),
}

// Returns a block of the vectors 000, 100, 010, 110, 001, 101, 011 and 111, and these again and again.
fn counted_vectors(alloc: Global) -> Result<Block, AllocError>
    ensures { IfOk result (λ block. block.sources ≡ 3) }
{
    let mut block = Block::new(alloc, 3)?;
    Stream::new(3).fill(1, &mut block);
    Ok(block)
}

// Returns the first fault of these cases, if any, that turns another head or turns it in other lanes.
fn first_wrong(alloc: Global, parts: CircuitParts, cases: &[Case]) -> Result<Option<Fault>, Fail>
    requires { parts.sources ≡ 3 }
{
    let circuit = circuit(alloc, parts)?;
    let block = counted_vectors(alloc)?;
    let mut good = GoodSim::new(alloc, &circuit)?;
    let mut heads = Heads::new(alloc, &circuit)?;
    heads.run(&good);
    good.run(&block);
    heads.run(&good);
    for case in cases {
        if !turns_so(&good, &heads, case) {
            return Ok(Some(case.fault));
        }
    }
    Ok(None)
}

// Returns whether a case's fault turns the heads of the case in their lanes, and `Free` turns none.
fn turns_so(good: &GoodSim, heads: &Heads, case: &Case) -> bool
    requires circuit { good.now.circuit ≡ heads.now.circuit }
    requires ways { AreWays good.now heads.now.ways }
{
    if !stands(good.circuit(), case.fault) {
        return false;
    }
    let none = first_turn(good, Free).is_none() && heads.turn(good, Free).is_none();
    let own = first_turn(good, case.fault);
    let end = heads.turn(good, case.fault);
    none && is_turn(own, case.own.0, case.own.1) && is_turn(end, case.end.0, case.end.1)
}

// Returns whether there is a turn, of `head`, and of the first eight lanes it has those of `lanes`.
fn is_turn(turn: Option<Turn>, head: Head, lanes: &[u8; 8]) -> bool {
    let Some(turn) = turn else {
        return false;
    };
    for (lane, digit) in lanes.iter().enumerate() {
        if turn.lanes.get(lane as u32) != (*digit == b'1') {
            return false;
        }
    }
    turn.head == head
}

// If a is turned, it turns the NAND if b is 1, and the NAND turns the OR if c is 0. A stuck value does so if the line
// has the other one.
const BRANCHED_CASES: &[Case] = &[
    Case {
        fault: Stuck(Stem(0), true),
        own: (Head::Line(0), b"10101010"),
        end: (Head::Line(4), b"00100000"),
    },
    Case {
        fault: Stuck(Stem(0), false),
        own: (Head::Line(0), b"01010101"),
        end: (Head::Line(4), b"00010000"),
    },
    Case {
        fault: Stuck(Stem(3), false),
        own: (Head::Line(3), b"11101110"),
        end: (Head::Line(4), b"11100000"),
    },
    Case {
        fault: Stuck(Stem(2), true),
        own: (Head::Line(2), b"11110000"),
        end: (Head::Line(2), b"11110000"),
    },
    Case {
        fault: Stuck(Pin(4, 1), true),
        own: (Head::Line(4), b"00010000"),
        end: (Head::Line(4), b"00010000"),
    },
    Case {
        fault: Stuck(Pin(3, 1), true),
        own: (Head::Line(3), b"01000100"),
        end: (Head::Line(4), b"01000000"),
    },
    Case {
        fault: Stuck(Pin(5, 0), false),
        own: (Head::Line(5), b"00001111"),
        end: (Head::Line(5), b"00001111"),
    },
    Case {
        fault: Stuck(Position(1), false),
        own: (Head::Position(1), b"11110000"),
        end: (Head::Position(1), b"11110000"),
    },
];

#[test]
fn branched_turns(rt: HostRuntime) -> Result<(), Fail> {
    assert_eq!(rt; first_wrong(rt.alloc(), BRANCHED, BRANCHED_CASES)?, None);
    Ok(())
}

// A select that is shown, a data pin that is chosen if s is 0, and a constant that the XOR passes on in every lane.
const CHOICE_CASES: &[Case] = &[
    Case {
        fault: Stuck(Stem(0), false),
        own: (Head::Line(0), b"01010101"),
        end: (Head::Line(0), b"01010101"),
    },
    Case {
        fault: Stuck(Stem(1), true),
        own: (Head::Line(1), b"11001100"),
        end: (Head::Line(4), b"10001000"),
    },
    Case {
        fault: Stuck(Stem(2), false),
        own: (Head::Line(2), b"00001111"),
        end: (Head::Line(4), b"00000101"),
    },
    Case {
        fault: Stuck(Pin(4, 0), true),
        own: (Head::Line(4), b"00101000"),
        end: (Head::Line(4), b"00101000"),
    },
    Case {
        fault: Stuck(Stem(3), false),
        own: (Head::Line(3), b"11111111"),
        end: (Head::Line(5), b"11111111"),
    },
    Case {
        fault: Stuck(Stem(3), true),
        own: (Head::Line(3), b"00000000"),
        end: (Head::Line(5), b"00000000"),
    },
];

#[test]
fn choice_turns(rt: HostRuntime) -> Result<(), Fail> {
    assert_eq!(rt; first_wrong(rt.alloc(), CHOICE, CHOICE_CASES)?, None);
    Ok(())
}

// A line that one gate reads twice, one of its pins, a line with one destination, and a line that nothing uses.
const TWICE_CASES: &[Case] = &[
    Case {
        fault: Stuck(Stem(0), true),
        own: (Head::Line(0), b"10101010"),
        end: (Head::Line(0), b"10101010"),
    },
    Case {
        fault: Stuck(Pin(3, 1), false),
        own: (Head::Line(3), b"00010001"),
        end: (Head::Line(4), b"00010001"),
    },
    Case {
        fault: Stuck(Stem(1), true),
        own: (Head::Line(1), b"11001100"),
        end: (Head::Line(4), b"01000100"),
    },
    Case {
        fault: Stuck(Stem(2), true),
        own: (Head::Line(2), b"11110000"),
        end: (Head::Line(2), b"11110000"),
    },
];

#[test]
fn twice_turns(rt: HostRuntime) -> Result<(), Fail> {
    assert_eq!(rt; first_wrong(rt.alloc(), TWICE, TWICE_CASES)?, None);
    Ok(())
}
