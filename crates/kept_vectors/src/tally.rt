//! How many units answer otherwise than the representatives of their classes, lane by lane.

ghost use Rattle.std.specs.Prelude.{◌≡◌, ◌<◌, ℕ, true, IsTrue};
ghost use Rattle.net_model.specs.Answer.{bit_at};

use crate::apart::first_lane;
use std::alloc::{AllocError, Global};
use word_sim::{LANES, Lanes};

// The binary digits of a count: there are fewer than 2^27 fault numbers.
const DIGITS: usize = 27;

// A count for each lane: its binary digits, the lowest first.
#[derive(Debug, Drop)]
pub(crate) struct Tally {
    digits: Vec<Lanes>,
}

impl Tally {
    pub(crate) fn new(alloc: Global) -> Result<Tally, AllocError> {
        let digits = vec![in alloc; Lanes::all(false); DIGITS]?;
        Ok(Tally { digits })
    }

    pub(crate) fn clear(&mut self) {
        for at in 0..self.digits.len() {
            self.digits[at] = Lanes::all(false);
        }
    }

    // Counts one more in each of `lanes`.
    pub(crate) fn add(&mut self, lanes: Lanes) {
        let mut carry = lanes;
        for at in 0..self.digits.len() {
            if !carry.any() {
                return;
            }
            let digit = self.digits[at];
            self.digits[at] = digit.xor(carry);
            carry = digit.and(carry);
        }
    }

    // Returns the lane of `lanes` with the highest count, the lowest if there are several.
    pub(crate) fn fullest(&self, lanes: Lanes) -> u32
        requires { (lane : ℕ) × (lane < LANES) × IsTrue (bit_at lanes lane) }
        ensures within { result < LANES }
        ensures has { bit_at lanes result ≡ true }
    {
        let mut fullest = first_lane(lanes, 0, LANES);
        let mut most = 0;
        for lane in fullest..LANES {
            let count = if lanes.get(lane) { self.count(lane) } else { 0 };
            if count > most {
                fullest = lane;
                most = count;
            }
        }
        fullest
    }

    fn count(&self, lane: u32) -> u32
        requires { lane < LANES }
    {
        let mut count: u32 = 0;
        for at in (0..self.digits.len()).rev() {
            count = count.wrapping_mul(2);
            if self.digits[at].get(lane) {
                count = count.wrapping_add(1);
            }
        }
        count
    }
}
