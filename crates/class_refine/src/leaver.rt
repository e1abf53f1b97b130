//! Numbers that leave their classes.

ghost use Rattle.std.specs.Prelude.{◌≡◌, ◌≤◌, length};
ghost use Rattle.class_refine.specs.Leavers.{told};

/// A number that leaves its class. The part of a list of positions from `start` to before `end` tells its answer.
#[derive(Clone, Copy, Debug)]
pub struct Leaver {
    pub number: u32,
    pub start: usize,
    pub end: usize,
}

impl Leaver {
    /// Returns the part of `positions` that tells the answer.
    pub(crate) fn told(self, positions: &[u32]) -> &[u32]
        requires part { self.start ≤ self.end }
        requires within { self.end ≤ length positions.now }
        ensures { result.now ≡ told positions.now self }
    {
        &positions[self.start..self.end]
    }
}
