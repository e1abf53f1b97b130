//! Circuits from tables of gates.

ghost use Rattle.std.specs.Prelude.{◌≡◌, ◌<◌, ◌↔◌, ℕ, List, Err, map, All, IfOk, IsErrOf, IsTrue};
ghost use Rattle.net_model.specs.Gate.{takes_pins};
ghost use Rattle.net_model.specs.Circuit.{FitsTogether, IsCircuit, circuit_with};
ghost use Rattle.net_model.specs.LoopWalk.{IsLoopWalk};
ghost use Rattle.sample_circuits.specs.Described.{described_gate, circuit_of};

use net_model::{BuildFault, Circuit, Gate, Kind, Pins};
use std::alloc::{AllocError, Global};

// The lines, positions and pins of a circuit are fewer than this together.
const LIMIT: usize = 67_108_864;

/// The parts of a circuit: how many sources it has, each gate's kind with the lines that it reads, and the observed
/// lines.
#[derive(Clone, Copy, Debug)]
pub struct CircuitParts<'a> {
    pub sources: u32,
    pub gates: &'a [(Kind, &'a [u32])],
    pub positions: &'a [u32],
}

/// Why there is no circuit of the parts.
#[derive(Debug, Drop)]
pub enum PartsFault {
    /// The parts don't fit together.
    Unfit,
    /// They fit together, but the gates form a loop, or memory is missing.
    Unbuilt(BuildFault),
}

impl From<AllocError> for PartsFault {
    ghost use Rattle.net_model.specs.declared.circuit.BuildFault.TheVariants.{NoMemory};
    ghost use Rattle.sample_circuits.specs.declared.building.PartsFault.TheVariants.{Unbuilt};

    ghost from_gives = { λ _ fault. fault ≡ Unbuilt NoMemory };

    fn from(_error: AllocError) -> PartsFault {
        PartsFault::Unbuilt(BuildFault::NoMemory)
    }
}

/// Returns the circuit of the parts. Returns `Unfit` only if the parts don't fit together, and `Unbuilt` with a loop
/// only if its lines are those of a loop of the gates.
pub fn circuit(alloc: Global, parts: CircuitParts) -> Result<Circuit, PartsFault>
    ensures parts { IfOk result (λ circuit. circuit ≡ circuit_of parts.entry) }
    ensures circuit { IfOk result (λ circuit. IsCircuit circuit) }
    ensures unfit { IsErrOf result PartsFault.Unfit → ¬ FitsTogether (circuit_of parts.entry) }
    ensures looped { (walk : List ℕ) → IsErrOf result (PartsFault.Unbuilt (BuildFault.Loop walk)) → IsLoopWalk (circuit_of parts.entry) walk }
{
    let gates = gates_of(alloc, parts.gates)?;
    if !fit(parts.sources, gates.as_slice(), parts.positions) {
        return Err(PartsFault::Unfit);
    }
    let positions = Vec::from_slice(alloc, parts.positions)?;
    match Circuit::build(alloc, parts.sources, gates, positions) {
        Ok(circuit) => Ok(circuit),
        Err(fault) => Err(PartsFault::Unbuilt(fault)),
    }
}

// Returns gates of these kinds, each over its lines.
fn gates_of(alloc: Global, gates: &[(Kind, &[u32])]) -> Result<Vec<Gate>, AllocError>
    ensures { IfOk result (λ made. made.items ≡ map described_gate gates.now) }
{
    let mut made = Vec::new(alloc);
    for (kind, lines) in gates {
        made.push(gate(alloc, *kind, lines)?)?;
    }
    Ok(made)
}

/// Returns a gate of this kind that reads these lines.
pub fn gate(alloc: Global, kind: Kind, lines: &[u32]) -> Result<Gate, AllocError>
    ensures kind { IfOk result (λ gate. gate.kind ≡ kind) }
    ensures pins { IfOk result (λ gate. gate.pins ≡ lines.now) }
{
    let mut pins = Pins::new(alloc);
    for line in lines {
        pins.push(*line)?;
    }
    Ok(Gate { kind, pins })
}

/// Returns whether a gate of this kind takes `pins` pins.
pub fn takes(kind: Kind, pins: usize) -> bool
    ensures { result ≡ takes_pins kind pins }
{
    let (least, most) = match kind {
        Kind::Const0 | Kind::Const1 => (0, 0),
        Kind::Not | Kind::Buff => (1, 1),
        Kind::Mux => (3, 3),
        Kind::And | Kind::Nand | Kind::Or | Kind::Nor | Kind::Xor | Kind::Xnor => (1, usize::MAX),
    };
    least <= pins && pins <= most
}

/// Returns whether all lines are below `count`.
pub fn all_below(lines: &[u32], count: usize) -> bool
    ensures { IsTrue result ↔ All (λ line. line < count) lines.now }
{
    lines.iter().all(|line| (*line as usize) < count)
}

// Whether the parts fit together, so that a circuit can be built of them.
fn fit(sources: u32, gates: &[Gate], positions: &[u32]) -> bool
    ensures { IsTrue result ↔ FitsTogether (circuit_with sources gates.now positions.now) }
{
    let lines = sources as usize + gates.len();
    let mut items = lines;
    for gate in gates {
        let pins = gate.pins.as_slice();
        if items >= LIMIT || !takes(gate.kind, pins.len()) || !all_below(pins, lines) {
            return false;
        }
        items += pins.len();
    }
    items < LIMIT && positions.len() < LIMIT - items && all_below(positions, lines)
}
