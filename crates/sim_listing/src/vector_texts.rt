//! The texts of vectors, one at a time.

ghost use Rattle.std.specs.Prelude.{◌≡◌, ◌↔◌, ◌+◌, ◌-◌, ◌<◌, ◌≤◌, ◌&&◌, All, IfOk, OnOk, IsTrue, length, nat_le, nat_lt, slice_range};
ghost use Rattle.std.specs.String.{string_bytes};
ghost use Rattle.sim_listing.specs.LaneAnswers.{AreEqualRoots};
ghost use Rattle.sim_listing.specs.SimText.{IsSimTextFrom};
ghost use Rattle.sim_listing.specs.VectorTexts.{texts_before, HaveSameVectors, HasSimulated};

use crate::lines::LaneAnswers;
use crate::roots::RootPlaces;
use answer_numbers::AnswerNumbers;
use fault_collapse::Subject;
use net_model::Vector;
use std::alloc::{AllocError, Global};
use std::marker::Model;
use table_dicts::fill_block;
use word_sim::{Block, LANES};

/// What a circuit answers to vectors, as texts that are made one at a time. If a vector isn't among those that were
/// simulated last, it is simulated together with the vectors after it, at most as many as there are lanes.
#[derive(Debug, Drop)]
pub struct VectorTexts<'a> {
    numbers: AnswerNumbers<'a>,
    places: &'a [u32],
    vectors: &'a [Vector],
    block: Block,
    // the number of the first of the vectors that were simulated last, and how many these are
    first: usize,
    count: u32,
}

impl<'a> Model for VectorTexts<'a> {
    ghost use Rattle.sim_listing.specs.VectorTexts as spec;
    ghost use Rattle.sim_listing.specs.VectorTextsFields.{vector_texts_of, AreVectorTextsFields};

    ghost Value = { spec.VectorTexts };

    ghost view = { vector_texts_of };

    ghost invariant = { AreVectorTextsFields };
}

impl<'a> VectorTexts<'a> {
    /// Returns the texts of these vectors, with none simulated yet. `roots` has the roots of the circuit's faults.
    pub fn new(
        alloc: Global,
        subject: &'a Subject<'a>,
        roots: &'a RootPlaces,
        vectors: &'a [Vector],
    ) -> Result<VectorTexts<'a>, AllocError>
        requires roots { AreEqualRoots subject.now roots.now.roots.items roots.now.places.items }
        requires widths { All (λ v. length v ≡ subject.now.sources) vectors.now }
        ensures { IfOk result (λ texts. texts ≡ texts_before subject.now vectors.now) }
    {
        let circuit = subject.circuit();
        let leads = roots.roots.as_slice();
        let places = roots.places.as_slice();
        let numbers = AnswerNumbers::new(alloc, circuit, subject.listed(), leads)?;
        let block = Block::new(alloc, circuit.sources())?;
        Ok(VectorTexts {
            numbers,
            places,
            vectors,
            block,
            first: 0,
            count: 0,
        })
    }

    /// Returns the lines of the vector with this number. After an error the circuit and the vectors are the same, and
    /// `text` may be called again.
    pub fn text(&mut self, alloc: Global, number: usize) -> Result<String, AllocError>
        requires { number < length self.old.vectors }
        ensures same { HaveSameVectors self.old self.new }
        ensures text { IfOk result (λ text. IsSimTextFrom self.old.circuit number (slice_range self.old.vectors number (number + 1)) (string_bytes text)) }
    {
        self.reach(alloc, number)?;
        let text = self.lane_text(alloc, number)?;
        Ok(text)
    }

    // Simulates the vector with this number if it isn't among those that were simulated last.
    fn reach(&mut self, alloc: Global, number: usize) -> Result<(), AllocError>
        requires { number < length self.old.vectors }
        ensures same { HaveSameVectors self.old self.new }
        ensures reached { OnOk result (HasSimulated self.new number) }
    {
        if !self.has(number) {
            self.simulate(alloc, number)?;
        }
        Ok(())
    }

    // Returns whether the vector with this number is among those that were simulated last.
    fn has(&self, number: usize) -> bool
        ensures { IsTrue result ↔ HasSimulated self.now number }
    {
        is_among(self.first, self.count, number)
    }

    // Simulates the vectors that begin at this number, at most as many as there are lanes.
    fn simulate(&mut self, alloc: Global, number: usize) -> Result<(), AllocError>
        requires { number < length self.old.vectors }
        ensures same { HaveSameVectors self.old self.new }
        ensures reached { OnOk result (HasSimulated self.new number) }
    {
        self.first = number;
        self.count = 0;
        let count = fill_from(&mut self.block, self.vectors, number);
        self.numbers.number_block(alloc, &self.block)?;
        self.count = count;
        Ok(())
    }

    // Returns the lines of a vector that was simulated.
    fn lane_text(&self, alloc: Global, number: usize) -> Result<String, AllocError>
        requires { HasSimulated self.now number }
        ensures { IfOk result (λ text. IsSimTextFrom self.now.circuit number (slice_range self.now.vectors number (number + 1)) (string_bytes text)) }
    {
        let own = LaneAnswers {
            numbers: &self.numbers,
            places: self.places,
            lane: lane_of(self.first, self.count, number),
        };
        let mut text = String::new(alloc);
        own.push_vector(alloc, &mut text, number)?;
        Ok(text)
    }
}

// Returns whether `number` is one of `count` numbers that begin at `first`.
fn is_among(first: usize, count: u32, number: usize) -> bool
    ensures { result ≡ (nat_le first number && nat_lt (number - first) count) }
{
    first <= number && number - first < count as usize
}

// Fills the block with the vectors that begin at `first`, at most as many as there are lanes, and returns how many they
// are.
fn fill_from(block: &mut Block, vectors: &[Vector], first: usize) -> u32
    requires widths { All (λ v. length v ≡ block.old.sources) vectors.now }
    requires first { first < length vectors.now }
    ensures sources { block.new.sources ≡ block.old.sources }
    ensures vectors { block.new.vectors ≡ slice_range vectors.now first (first + result) }
    ensures within { first + result ≤ length vectors.now }
    ensures some { 0 < result }
{
    let count = (vectors.len() - first).min(LANES as usize);
    fill_block(block, vectors, first, first + count);
    count as u32
}

// Returns the lane of a number among `count` numbers that begin at `first`.
fn lane_of(first: usize, count: u32, number: usize) -> u32
    requires from { first ≤ number }
    requires below { number < first + count }
    ensures { result ≡ number - first }
{
    (number - first) as u32
}
