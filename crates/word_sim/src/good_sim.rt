//! The simulator of a circuit without a fault, for all vectors of a block at once (parallel-pattern simulation).

ghost use Rattle.std.specs.Prelude.{◌≡◌, ℕ, ◌<◌, ◌≤◌, [], Some, None, length, slice_index_or, nat_lt, take, IfOk};
ghost use Rattle.net_model.specs.declared.fault.Fault.TheVariants.{Free};
ghost use Rattle.net_model.specs.Circuit.{line_count};
ghost use Rattle.net_model.specs.Answer.{bit_at, Agrees};
ghost use Rattle.word_sim.specs.BlockFields.{column};
ghost use Rattle.word_sim.specs.GoodSim.{IsGoodBit, good_sim_with, vectors_of};

use crate::block::Block;
use crate::gate_lanes::gate_lanes;
use crate::lanes::{LANES, Lanes};
use net_model::Circuit;
use std::alloc::{AllocError, Global};
use std::marker::Model;

/// The bits of all lines of a circuit without a fault, a lane for each vector of the block that was run last.
#[derive(Debug, Drop)]
pub struct GoodSim<'a> {
    circuit: &'a Circuit,
    rows: Vec<Lanes>,
    live: Option<u32>,
}

impl<'a> Model for GoodSim<'a> {
    ghost use Rattle.word_sim.specs.GoodSim as spec;

    ghost Value = { spec.GoodSim };

    ghost use Rattle.word_sim.specs.GoodSimFields.{good_sim_of, AreGoodSimFields};

    ghost view = { good_sim_of };

    ghost invariant = { AreGoodSimFields };
}

impl<'a> GoodSim<'a> {
    /// Returns a simulator of `circuit` that has run no block.
    pub fn new(alloc: Global, circuit: &'a Circuit) -> Result<GoodSim<'a>, AllocError>
        ensures { IfOk result (λ sim. sim ≡ good_sim_with circuit.now None) }
    {
        let rows = vec![in alloc; Lanes::all(false); circuit.lines() as usize]?;
        Ok(GoodSim {
            circuit,
            rows,
            live: None,
        })
    }

    #[inline]
    pub fn circuit(&self) -> &'a Circuit
        ensures { result.now ≡ self.now.circuit }
    {
        self.circuit
    }

    /// Evaluates the circuit without a fault at the vectors of `block`.
    pub fn run(&mut self, block: &Block)
        requires { block.now.sources ≡ self.old.circuit.sources }
        ensures { self.new ≡ good_sim_with self.old.circuit (Some block.now.vectors) }
    {
        place(block, &mut self.rows);
        evaluate(self.circuit, &mut self.rows);
        self.live = Some(block.live());
    }

    /// Returns the bit of `line` at the vector of `lane`.
    pub fn bit(&self, line: u32, lane: u32) -> bool
        requires line { line < line_count self.now.circuit }
        requires lane { lane < length (vectors_of self.now) }
        ensures { IsGoodBit self.now line lane result }
    {
        self.rows[line as usize].get(lane)
    }

    /// Returns the bit of `line` in each lane. Nothing is said of lanes without a vector.
    pub fn lanes(&self, line: u32) -> Lanes
        requires { line < line_count self.now.circuit }
        ensures { (lane : ℕ) → lane < length (vectors_of self.now) → IsGoodBit self.now line lane (bit_at result lane) }
    {
        self.rows[line as usize]
    }

    /// Returns 1 in each lane that has a vector of the block that was run last, and 0 in all others.
    pub fn live(&self) -> Lanes
        ensures lanes { (lane : ℕ) → lane < LANES → bit_at result lane ≡ nat_lt lane (length (vectors_of self.now)) }
        ensures few { length (vectors_of self.now) ≤ LANES }
    {
        Lanes::first(self.live.unwrap_or(0))
    }
}

// Copies the rows of the block's sources into the first rows.
fn place(block: &Block, rows: &mut [Lanes])
    requires { block.now.sources ≤ length rows.old }
    ensures { (lane : ℕ) → lane < length block.now.vectors → column (take block.now.sources rows.new) lane ≡ slice_index_or block.now.vectors lane [] }
{
    for source in 0..block.sources() {
        rows[source as usize] = block.row(source);
    }
}

// Sets the row of each gate to its value. The rows of the sources are set already.
fn evaluate(circuit: &Circuit, rows: &mut [Lanes])
    requires { length rows.old ≡ line_count circuit.now }
    ensures sources { take circuit.now.sources rows.new ≡ take circuit.now.sources rows.old }
    ensures agrees { (lane : ℕ) → lane < LANES → Agrees circuit.now Free (column (take circuit.now.sources rows.old) lane) (column rows.new lane) }
{
    for line in circuit.order() {
        rows[*line as usize] = gate_lanes(circuit.gate(*line), rows);
    }
}
