//! In which lanes two numbers answer differently, by their notes.

ghost use Rattle.std.specs.Prelude.{◌≡◌, ◌≤◌, ◌<◌, ◌↔◌, ℕ, [], true, false, length, drop};
ghost use Rattle.net_model.specs.Answer.{bit_at};
ghost use Rattle.kept_vectors.specs.Notes.{AreAscending, AreNotedAlike};

use crate::notes::Note;
use word_sim::{LANES, Lanes};

// Returns 1 in each lane in which the two lists note different positions, and 0 in the others.
pub(crate) fn apart(one: &[Note], other: &[Note]) -> Lanes
    requires one { AreAscending one.now }
    requires other { AreAscending other.now }
    ensures { (lane : ℕ) → lane < LANES → (bit_at result lane ≡ false) ↔ AreNotedAlike lane one.now other.now }
{
    let (mut at, mut by) = (0, 0);
    let mut lanes = Lanes::all(false);
    while at < one.len() && by < other.len() {
        let (left, right) = (one[at], other[by]);
        if left.position < right.position {
            lanes = lanes.or(left.lanes);
            at += 1;
        } else if right.position < left.position {
            lanes = lanes.or(right.lanes);
            by += 1;
        } else {
            lanes = lanes.or(left.lanes.xor(right.lanes));
            at += 1;
            by += 1;
        }
    }
    lanes.or(any_lane(one, at)).or(any_lane(other, by))
}

// Returns 1 in each lane that a note has, starting at place `from`, and 0 in the others.
pub(crate) fn any_lane(notes: &[Note], from: usize) -> Lanes
    requires from { from ≤ length notes.now }
    requires ascend { AreAscending notes.now }
    ensures { (lane : ℕ) → lane < LANES → (bit_at result lane ≡ false) ↔ AreNotedAlike lane (drop from notes.now) [] }
{
    let mut lanes = Lanes::all(false);
    for at in from..notes.len() {
        lanes = lanes.or(notes[at].lanes);
    }
    lanes
}

// Returns the first lane that has 1, starting at `from`, if one below `live` has, else `live` or more.
pub(crate) fn first_lane(lanes: Lanes, from: u32, live: u32) -> u32
    requires { live ≤ LANES }
    ensures found { result < live → bit_at lanes result ≡ true }
    ensures from { from ≤ result }
    ensures before { (lane : ℕ) → from ≤ lane → lane < result → lane < live → bit_at lanes lane ≡ false }
{
    let mut lane = from;
    while lane < live {
        let word = lanes.word(lane / 64) >> (lane % 64);
        if word != 0 {
            return lane + word.trailing_zeros();
        }
        lane = (lane / 64 + 1) * 64;
    }
    lane
}
