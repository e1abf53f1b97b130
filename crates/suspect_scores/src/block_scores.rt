//! What the injected number adds to its score by the lines of a block, which of 64 lines it explains, and which of them
//! its answers fit.

ghost use Rattle.std.specs.Prelude.{◌≡◌, ℕ, ◌+◌, ◌-◌, ◌*◌, ◌<◌, ◌≤◌, ◌^◌, ◌&&◌, Bool, length, nat_lt, min};
ghost use Rattle.std.specs.List.{range_with_len};
ghost use Rattle.net_model.specs.Rows.{bit_of};
ghost use Rattle.suspect_scores.specs.Scored.{does_explain, meets_all};
ghost use Rattle.suspect_scores.specs.Columns.{AreColumnRows, IsBitCount, AreSame, is_changed_lane, is_same_lane, lane_score, AreLaneScores, suspect_to, DoSumsFit, HasSums, HasBlockMore, CanAddBlock};

use crate::bit_count::BitCount;
use crate::columns::LogColumns;
use crate::scoring::LineScore;
use crate::suspect::Suspect;
use fault_sim::FaultSim;
use net_model::{AnswerRows, low_bits, word_at};
use word_sim::LANES;

/// In which of 64 lanes the line is failing and explained, and the sums of the lines' scores.
#[derive(Clone, Copy)]
struct LaneScores {
    explained: u64,
    sums: LineScore,
}

/// Adds the scores of the lines of a block to a suspect. Line `first` is that of lane 0, and the block has `count`
/// lines.
pub(crate) fn add_block(
    suspect: &mut Suspect,
    columns: &LogColumns,
    sim: &FaultSim,
    first: u32,
    count: u32,
)
    requires columns { AreColumnRows (length sim.now.circuit.positions) columns.now }
    requires count { count ≤ LANES }
    requires past { AreSame sim.now count LANES }
    requires fits { CanAddBlock count (length sim.now.circuit.positions) suspect.old }
    ensures { HasBlockMore (lane_score columns.now sim.now first) count suspect.old suspect.new }
{
    let block = block_score(suspect.number, columns, sim, first, count);
    add(suspect, block);
}

/// Returns in which of the 64 lanes of word `word` the line is failing and explained. Line `first` is that of lane 0.
/// Lane `count` and those after it have a 0.
pub(crate) fn explained_word(
    columns: &LogColumns,
    sim: &FaultSim,
    first: u32,
    count: u32,
    word: u32,
) -> u64
    requires columns { AreColumnRows (length sim.now.circuit.positions) columns.now }
    requires word { word * 64 < LANES }
    requires past { AreSame sim.now count LANES }
    ensures { (k : ℕ) → k < 64 → bit_of result k ≡ (nat_lt (word * 64 + k) count && does_explain (lane_score columns.now sim.now first (word * 64 + k))) }
{
    score_lanes(columns, sim, first, word, lanes_in(count, word)).explained
}

/// Returns in which of the 64 lanes of word `word` the answers have every observed bit of the line. Line `first` is
/// that of lane 0. Lane `count` and those after it have a 0.
pub fn fitting_word(columns: &LogColumns, sim: &FaultSim, first: u32, count: u32, word: u32) -> u64
    requires columns { AreColumnRows (length sim.now.circuit.positions) columns.now }
    requires word { word * 64 < LANES }
    requires past { AreSame sim.now count LANES }
    ensures { (k : ℕ) → k < 64 → bit_of result k ≡ (nat_lt (word * 64 + k) count && meets_all (lane_score columns.now sim.now first (word * 64 + k))) }
{
    let line = first as usize + word as usize * 64;
    let lanes = lanes_in(count, word);
    let missed = unchanged_bits(columns, sim, line, word, lanes);
    let false_alarm = changed_bits(&columns.right, sim, line, word);
    low_bits(!missed.some & !false_alarm.some, lanes as usize)
}

// Returns the score of the lines of a block alone.
fn block_score(number: u32, columns: &LogColumns, sim: &FaultSim, first: u32, count: u32) -> Suspect
    requires columns { AreColumnRows (length sim.now.circuit.positions) columns.now }
    requires count { count ≤ LANES }
    requires past { AreSame sim.now count LANES }
    requires fits { count * length sim.now.circuit.positions < 2 ^ 64 }
    ensures { result ≡ suspect_to (lane_score columns.now sim.now first) number count }
{
    let mut block = Suspect {
        number,
        explained: 0,
        hit_bits: 0,
        missed_bits: 0,
        false_bits: 0,
    };
    for word in 0..count.div_ceil(64) {
        let more = score_lanes(columns, sim, first, word, lanes_in(count, word));
        let more = Suspect {
            number,
            explained: more.explained.count_ones(),
            hit_bits: more.sums.hit_bits,
            missed_bits: more.sums.missed_bits,
            false_bits: more.sums.false_bits,
        };
        add(&mut block, more);
    }
    block
}

// Adds the sums of `more`.
fn add(suspect: &mut Suspect, more: Suspect)
    requires { DoSumsFit suspect.old more }
    ensures { HasSums suspect.old more suspect.new }
{
    suspect.explained += more.explained;
    suspect.hit_bits += more.hit_bits;
    suspect.missed_bits += more.missed_bits;
    suspect.false_bits += more.false_bits;
}

// Returns how many of the 64 lanes of a word are among the first `count` lanes.
fn lanes_in(count: u32, word: u32) -> u32
    requires { word * 64 < LANES }
    ensures { result ≡ min (count - word * 64) 64 }
{
    count.saturating_sub(word * 64).min(64)
}

// Returns the scores of the lines of the first `lanes` lanes of a word.
fn score_lanes(
    columns: &LogColumns,
    sim: &FaultSim,
    first: u32,
    word: u32,
    lanes: u32,
) -> LaneScores
    requires columns { AreColumnRows (length sim.now.circuit.positions) columns.now }
    requires word { word * 64 < LANES }
    requires lanes { lanes ≤ 64 }
    requires past { AreSame sim.now (word * 64 + lanes) (word * 64 + 64) }
    ensures { AreLaneScores (lane_score columns.now sim.now first) (word * 64) lanes result }
{
    let line = first as usize + word as usize * 64;
    let hit = changed_bits(&columns.wrong, sim, line, word);
    let missed = unchanged_bits(columns, sim, line, word, lanes);
    let false_alarm = changed_bits(&columns.right, sim, line, word);
    LaneScores {
        explained: hit.some & !missed.some & !false_alarm.some,
        sums: LineScore {
            hit_bits: hit.bits,
            missed_bits: missed.bits,
            false_bits: false_alarm.bits,
        },
    }
}

// Counts, over all positions and 64 lines starting at `line`, the set bits of `rows` at which the answer differs in the
// line's lane of the word.
fn changed_bits(rows: &AnswerRows, sim: &FaultSim, line: usize, word: u32) -> BitCount
    requires rows { length rows.now ≡ length sim.now.circuit.positions }
    requires word { word * 64 < LANES }
    ensures { IsBitCount (is_changed_lane rows.now sim.now line (word * 64)) (range_with_len 0 (length sim.now.circuit.positions)) result }
{
    let mut counted = BitCount::new();
    for position in sim.differing_positions() {
        let bits = word_at(rows.row_words(*position as usize), line);
        counted.add(bits & sim.differs(*position).word(word));
    }
    counted
}

// Counts, over all positions and 64 lines starting at `line`, the wrong bits at which the answer doesn't differ in the
// line's lane, of the first `lanes` lanes of the word.
fn unchanged_bits(
    columns: &LogColumns,
    sim: &FaultSim,
    line: usize,
    word: u32,
    lanes: u32,
) -> BitCount
    requires columns { AreColumnRows (length sim.now.circuit.positions) columns.now }
    requires word { word * 64 < LANES }
    ensures { IsBitCount (is_same_lane columns.now.wrong sim.now line (word * 64) lanes) (range_with_len 0 (length sim.now.circuit.positions)) result }
{
    let mut counted = BitCount::new();
    for position in columns.wrong_positions.iter() {
        let bits = word_at(columns.wrong.row_words(*position as usize), line);
        let unchanged = bits & !sim.differs(*position).word(word);
        counted.add(low_bits(unchanged, lanes as usize));
    }
    counted
}
