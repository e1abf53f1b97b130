//! `Keeper`: the vectors that are kept for a circuit, of those that come one after another.

ghost use Rattle.std.specs.Prelude.{◌≡◌, ◌≤◌, ◌<◌, ℕ, List, Bool, [], ◌∷◌, All, Contains, IfOk, OnOk, OnErr, IsTrue, length, slice_index_or};
ghost use Rattle.net_model.specs.FaultList.{fault_count};
ghost use Rattle.net_model.specs.PatternRows.{SplitsClass};
ghost use Rattle.kept_vectors.specs.Cube.{IsOfCube};
ghost use Rattle.kept_vectors.specs.Keeper.{keeper_with, IsKeeper, SeparatesMember};
ghost use Rattle.kept_vectors.specs.Kept.{nothing_kept, Keeps, KeepsFirst, KeepsRun};
ghost use Rattle.word_sim.specs.Block.{block_with};
ghost use Rattle.word_sim.specs.Stream.{stream};

use crate::cube::{Cube, fix_cubes};
use crate::scan::{Kept, Scan};
use class_refine::Classes;
use fault_collapse::Subject;
use net_model::Vector;
use std::alloc::{AllocError, Global};
use std::marker::Model;
use word_sim::{Block, LANES, Stream, stream_continues};

/// The vectors that are kept for a circuit, and the classes of fault numbers that they tell apart. Vectors come one
/// after another, and each that splits a class of those kept before it is kept. A block of vectors of cubes is looked
/// at first, which simulates it once; then a vector of it is kept for one number after another.
#[derive(Debug)]
pub struct Keeper<'a> {
    scan: Scan<'a>,
    kept: Kept,
    // After the blocks that were drawn from it.
    stream: Stream,
    // Whether the scan's block is looked at.
    stands: bool,
}

// Written by hand, since the proof of each function that drops a keeper then has one step for it; a derived drop takes
// a step for each vector in it.
impl Drop for Keeper<'_> {
    fn drop(self) {
        let Keeper {
            scan: _,
            kept: _,
            stream: _,
            stands: _,
        } = self;
    }
}

impl<'a> Model for Keeper<'a> {
    ghost use Rattle.kept_vectors.specs.KeeperFields.{keeper_of, AreKeeperFields};
    ghost use Rattle.kept_vectors.specs.Keeper as spec;

    ghost Value = { spec.Keeper };

    ghost invariant = { AreKeeperFields };

    ghost view = { keeper_of };
}

impl<'a> Keeper<'a> {
    /// Returns a keeper for the circuit of `subject` that has kept nothing.
    pub fn new(alloc: Global, subject: &'a Subject<'a>) -> Result<Keeper<'a>, AllocError>
        ensures { IfOk result (λ keeper. keeper ≡ keeper_with subject.now (nothing_kept (fault_count subject.now))) }
    {
        let classes = Classes::new(alloc, subject.numbers())?;
        let scan = Scan::new(alloc, subject)?;
        let vectors = Vec::new(alloc);
        let stream = Stream::new(subject.circuit().sources());
        Ok(Keeper {
            scan,
            kept: Kept { vectors, classes },
            stream,
            stands: false,
        })
    }

    /// Keeps each vector of the first `blocks` blocks of the stream that splits a class. After an error it is as if
    /// only some of the first vectors of these blocks had come, and not all: each of them that splits a class is kept
    /// after the old ones, and the circuit is as before. Afterwards no block is looked at.
    pub fn keep_stream(&mut self, blocks: u32) -> Result<(), AllocError>
        ensures circuit { self.new.circuit ≡ self.old.circuit }
        ensures looked { self.new.looked ≡ [] }
        ensures ok { OnOk result (Keeps self.old.circuit (stream self.old.circuit.sources blocks) self.old.kept self.new.kept) }
        ensures err { OnErr result (KeepsFirst self.old.circuit (stream self.old.circuit.sources blocks) self.old.kept self.new.kept) }
    {
        stream_continues();
        self.stands = false;
        let mut stream = Stream::new(self.scan.block.sources());
        let mut left = blocks;
        while left > 0 {
            self.scan.block.clear();
            left -= stream.fill(left, &mut self.scan.block);
            self.scan.keep_block(&mut self.kept)?;
        }
        self.stream = stream;
        Ok(())
    }

    /// Keeps each vector of the list that splits a class. After an error it is as if only some of the first vectors of
    /// the list had come, and not all: each of them that splits a class is kept after the old ones, and the circuit is
    /// as before. Afterwards no block is looked at.
    pub fn keep_list(&mut self, vectors: &[Vector]) -> Result<(), AllocError>
        requires { All (λ v. length v ≡ self.old.circuit.sources) vectors.now }
        ensures circuit { self.new.circuit ≡ self.old.circuit }
        ensures looked { self.new.looked ≡ [] }
        ensures ok { OnOk result (Keeps self.old.circuit vectors.now self.old.kept self.new.kept) }
        ensures err { OnErr result (KeepsFirst self.old.circuit vectors.now self.old.kept self.new.kept) }
    {
        self.stands = false;
        let mut first = 0;
        while first < vectors.len() {
            let end = first + (vectors.len() - first).min(LANES as usize);
            fill(&mut self.scan.block, &vectors[first..end]);
            self.scan.keep_block(&mut self.kept)?;
            first = end;
        }
        Ok(())
    }

    /// Keeps `v` if it splits a class. After an error circuit and kept vectors are as before. Afterwards no block is
    /// looked at.
    pub fn keep(&mut self, v: &Vector) -> Result<(), AllocError>
        requires { length v.now ≡ self.old.circuit.sources }
        ensures circuit { self.new.circuit ≡ self.old.circuit }
        ensures looked { self.new.looked ≡ [] }
        ensures ok { OnOk result (Keeps self.old.circuit (v.now ∷ []) self.old.kept self.new.kept) }
        ensures err { OnErr result (self.new.kept ≡ self.old.kept) }
    {
        self.stands = false;
        self.scan.block.clear();
        self.scan.block.push(v);
        self.scan.keep_block(&mut self.kept)
    }

    /// Looks at a block of vectors of `cubes`, one cube or more: the free sources have the bits of the next blocks of
    /// the stream, and the cubes have equal shares of the lanes; if there are more cubes than lanes, the first ones
    /// have a lane each. Lanes that are left over stay as in the stream. What is kept stays, also after an error, but
    /// then no block is looked at.
    pub fn look(&mut self, cubes: &[Cube]) -> Result<(), AllocError>
        requires some { 0 < length cubes.now }
        requires widths { All (λ cube. length cube ≡ self.old.circuit.sources) cubes.now }
        ensures circuit { self.new.circuit ≡ self.old.circuit }
        ensures kept { self.new.kept ≡ self.old.kept }
        ensures looked { OnOk result ((v : List Bool) × Contains self.new.looked v × IsOfCube (slice_index_or cubes.now 0 []) v) }
        ensures err { OnErr result (self.new.looked ≡ []) }
    {
        self.stands = false;
        self.scan.block.clear();
        self.stream.fill(LANES / 64, &mut self.scan.block);
        fix_cubes(&mut self.scan.block, cubes);
        self.scan.look(&self.kept.classes)?;
        self.stands = true;
        Ok(())
    }

    /// Keeps a vector of the block that is looked at, if one separates number `member` from the representative of its
    /// class: of those that do, the one at which the most roots of collapse answer otherwise than the representatives
    /// of their classes. Returns whether one does; if it returns false, nothing has changed. The block is still looked
    /// at. After an error nothing has changed.
    pub fn keep_apart(&mut self, member: u32) -> Result<bool, AllocError>
        requires { member < fault_count self.old.circuit }
        ensures circuit { self.new.circuit ≡ self.old.circuit }
        ensures looked { self.new.looked ≡ self.old.looked }
        ensures apart { IfOk result (λ apart. IsTrue apart → (v : List Bool) × Contains self.old.looked v × SeparatesMember self.old.circuit self.old.kept.table member v × Keeps self.old.circuit (v ∷ []) self.old.kept self.new.kept) }
        ensures same { IfOk result (λ apart. ¬ IsTrue apart → self.new.kept ≡ self.old.kept) }
        ensures none { IfOk result (λ apart. ¬ IsTrue apart → (v : List Bool) → Contains self.old.looked v → SeparatesMember self.old.circuit self.old.kept.table member v → ⊥) }
        ensures err { OnErr result (self.new.kept ≡ self.old.kept) }
    {
        if !self.stands {
            return Ok(false);
        }
        self.scan.keep_apart(&mut self.kept, member)
    }

    /// Keeps the vectors of a run, at most `LANES`, one after another, until one splits no class of those before it,
    /// and returns how many are kept after the old ones. These are fewer than all exactly if there is such a vector:
    /// then they are the vectors before the first such one. After an error some of the first vectors are kept after the
    /// old ones, and not all; the circuit is as before. Afterwards no block is looked at.
    pub fn keep_run(&mut self, vectors: &[Vector]) -> Result<usize, AllocError>
        requires few { length vectors.now ≤ LANES }
        requires widths { All (λ v. length v ≡ self.old.circuit.sources) vectors.now }
        ensures circuit { self.new.circuit ≡ self.old.circuit }
        ensures looked { self.new.looked ≡ [] }
        ensures ok { IfOk result (λ count. KeepsRun self.old.circuit vectors.now count self.old.kept self.new.kept) }
        ensures stops { IfOk result (λ count. count < length vectors.now → ¬ SplitsClass self.old.circuit self.new.kept.vectors (slice_index_or vectors.now count [])) }
        ensures err { OnErr result ((count : ℕ) × (count < length vectors.now) × KeepsRun self.old.circuit vectors.now count self.old.kept self.new.kept) }
    {
        self.stands = false;
        fill(&mut self.scan.block, vectors);
        let count = self.scan.judge(&mut self.kept, true)?;
        Ok(count as usize)
    }

    /// Returns the kept vectors.
    pub fn vectors(&self) -> &[Vector]
        ensures value { result.now ≡ self.now.kept.vectors }
        ensures keeper { IsKeeper self.now }
    {
        self.kept.vectors.as_slice()
    }

    /// Returns the classes of fault numbers that the kept vectors tell apart.
    pub fn classes(&self) -> &Classes
        ensures value { result.now ≡ self.now.kept.table }
        ensures keeper { IsKeeper self.now }
    {
        &self.kept.classes
    }

    /// Returns the kept vectors, and the classes of fault numbers that they tell apart.
    pub fn into_kept(self) -> (Vec<Vector>, Classes)
        ensures vectors { result.0.items ≡ self.entry.kept.vectors }
        ensures classes { result.1 ≡ self.entry.kept.table }
        ensures keeper { IsKeeper self.entry }
    {
        let Keeper {
            scan: _,
            kept,
            stream: _,
            stands: _,
        } = self;
        kept.into_parts()
    }
}

// Puts `vectors` into `block`, in place of those that it has.
fn fill(block: &mut Block, vectors: &[Vector])
    requires few { length vectors.now ≤ LANES }
    requires widths { All (λ v. length v ≡ block.old.sources) vectors.now }
    ensures { block.new ≡ block_with block.old.sources vectors.now }
{
    block.clear();
    for v in vectors {
        block.push(v);
    }
}
