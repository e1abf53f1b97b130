//! The stream of vectors.

ghost use Rattle.std.specs.Prelude.{◌≡◌, ◌≢◌, ℕ, ◌+◌, ◌*◌, ◌/◌, ◌%◌, ◌<◌, ◌≤◌, min, [], length, map, nat_lt, ◌&&◌, slice_index, if◌then◌else◌};
ghost use Rattle.std.specs.List.{range_with_len};
ghost use Rattle.rand_xoshiro.specs.SplitMix64.{mix_u64};
ghost use Rattle.word_sim.specs.Stream.{state_after, word_number, stream_vector};
ghost use Rattle.word_sim.specs.StreamState.{stream_at, IsAfter};
ghost use Rattle.word_sim.specs.Block.{block_with};
ghost use Rattle.word_sim.specs.BlockFields.{column};

use crate::block::Block;
use crate::lanes::{LANES, Lanes};
use rand_core::SeedableRng;
use rand_core::utils::NextWord;
use rand_xoshiro::SplitMix64;
use std::marker::Model;

// In the first block bit t of word j is bit j of t.
const COUNTING: [u64; 6] = [
    0xaaaa_aaaa_aaaa_aaaa,
    0xcccc_cccc_cccc_cccc,
    0xf0f0_f0f0_f0f0_f0f0,
    0xff00_ff00_ff00_ff00,
    0xffff_0000_ffff_0000,
    0xffff_ffff_0000_0000,
];

/// The stream of vectors, in blocks of 64. In the first block the first six sources count: each has its own binary
/// digit of the vector's number. All other words are those of the generator SplitMix64 (Steele, Lea and Flood, 2014)
/// with the seed 0, by block and then source.
#[derive(Debug, Drop)]
pub struct Stream {
    rng: SplitMix64,
    sources: u32,
    // Whether the next block is the first one.
    first: bool,
}

impl Model for Stream {
    ghost use Rattle.word_sim.specs.StreamState.{StreamState};

    ghost Value = { StreamState };

    ghost use Rattle.word_sim.specs.StreamFields.{stream_of};

    ghost view = { stream_of };
}

impl Stream {
    /// Returns the stream of vectors for `sources` sources, at its first block.
    pub fn new(sources: u32) -> Stream
        ensures { result ≡ stream_at sources 0 }
    {
        Stream {
            rng: SplitMix64::seed_from_u64(0),
            sources,
            first: true,
        }
    }

    /// Puts the vectors of the next blocks of the stream into `block`, which is empty, and returns how many blocks
    /// these are: `left`, but at most `LANES / 64`.
    pub fn fill(&mut self, left: u32, block: &mut Block) -> u32
        requires left { 1 ≤ left }
        requires empty { block.old.vectors ≡ [] }
        requires sources { block.old.sources ≡ self.old.sources }
        ensures count { result ≡ min left (LANES / 64) }
        ensures stream { (sources done : ℕ) → self.old ≡ stream_at sources done → self.new ≡ stream_at sources (done + result) }
        ensures sources { block.new.sources ≡ self.old.sources }
        ensures block { (sources done : ℕ) → self.old ≡ stream_at sources done → block.new ≡ block_with sources (map (stream_vector sources) (range_with_len (64 * done) (64 * result))) }
    {
        let filled = left.min(LANES / 64);
        draw_blocks(&mut self.rng, self.first, filled, &mut block.rows);
        self.first = false;
        block.live = 64 * filled;
        filled
    }
}

// Writes the next `count` blocks of the stream, each into the lanes of one word.
fn draw_blocks(rng: &mut SplitMix64, first: bool, count: u32, rows: &mut [Lanes])
    requires { count ≤ LANES / 64 }
    ensures state { (done : ℕ) → IsAfter (length rows.old) done first rng.old → rng.new ≡ state_after (word_number (length rows.old) (done + count) 0) }
    ensures rows { (done lane : ℕ) → IsAfter (length rows.old) done first rng.old → lane < 64 * count → column rows.new lane ≡ stream_vector (length rows.old) (64 * done + lane) }
{
    for at in 0..count {
        draw(rng, first && at == 0, at, rows);
    }
}

// Writes the next block of the stream into the lanes of word `at`.
fn draw(rng: &mut SplitMix64, first: bool, at: u32, rows: &mut [Lanes])
    requires { at < LANES / 64 }
    ensures state { (done : ℕ) → IsAfter (length rows.old) done first rng.old → rng.new ≡ state_after (word_number (length rows.old) (done + 1) 0) }
    ensures rows { (done lane : ℕ) → IsAfter (length rows.old) done first rng.old → lane < LANES → lane / 64 ≡ at → column rows.new lane ≡ stream_vector (length rows.old) (64 * done + lane % 64) }
    ensures others { (lane : ℕ) → lane < LANES → lane / 64 ≢ at → column rows.new lane ≡ column rows.old lane }
{
    for source in 0..rows.len() {
        rows[source] = rows[source].with_word(at, source_word(rng, first, source));
    }
}

// Returns the word of `source` in the next block of the stream, which is the first block if `first` is true.
fn source_word(rng: &mut SplitMix64, first: bool, source: usize) -> u64
    ensures word { result ≡ (if first && nat_lt source 6 then slice_index COUNTING source else (mix_u64 rng.old).0) }
    ensures state { rng.new ≡ (if first && nat_lt source 6 then rng.old else (mix_u64 rng.old).1) }
{
    if first && source < COUNTING.len() {
        COUNTING[source]
    } else {
        rng.next_word()
    }
}
