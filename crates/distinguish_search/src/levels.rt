//! How far the lines of a circuit are from its sources.

ghost use Rattle.std.specs.Prelude.{◌≡◌, ◌<◌, All, IfOk, length};
ghost use Rattle.distinguish_search.specs.Levels.{AreLevels, highest_level, level_at};

use net_model::Circuit;
use std::alloc::{AllocError, Global};
use std::marker::Model;

/// The level of each line of a circuit: 0 for a source, and for a gate one more than the highest level of its pins.
/// They are computed once for a circuit, and serve every search in it.
#[derive(Debug, Drop)]
pub struct Levels {
    levels: Vec<u32>,
}

impl Model for Levels {
    ghost use Rattle.std.specs.Prelude.{List, ℕ};

    ghost Value = { List ℕ };

    ghost view = { λ s. s.levels.items };
}

impl Levels {
    /// Returns the levels of the lines of `circuit`.
    pub fn new(alloc: Global, circuit: &Circuit) -> Result<Levels, AllocError>
        ensures { IfOk result (AreLevels circuit.now) }
    {
        let mut levels = vec![in alloc; 0; circuit.lines() as usize]?;
        for line in circuit.order() {
            let pins = circuit.gate(*line).pins.as_slice();
            levels[*line as usize] = highest_level(levels.as_slice(), pins) + 1;
        }
        Ok(Levels { levels })
    }

    /// Returns the level of `line`, or 0 if it is no line of the circuit.
    pub(crate) fn level(&self, line: u32) -> u32
        ensures { result ≡ level_at self.now line }
    {
        match self.levels.get(line as usize) {
            Some(level) => *level,
            None => 0,
        }
    }
}

// Returns the highest level of `lines`, or 0 if there are none.
fn highest_level(levels: &[u32], lines: &[u32]) -> u32
    requires { All (λ line. line < length levels.now) lines.now }
    ensures { result ≡ highest_level levels.now lines.now }
{
    let mut highest = 0;
    for line in lines {
        highest = highest.max(levels[*line as usize]);
    }
    highest
}
