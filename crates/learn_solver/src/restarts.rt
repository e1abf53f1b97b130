//! When the search restarts: after Luby's intervals (Luby, Sinclair and Zuckerman 1993).

/// Luby's sequence of intervals, in hundreds of conflicts, and the number of conflicts that are left of the present
/// interval.
#[derive(Clone, Copy)]
pub(crate) struct Restarts {
    turn: u32,
    length: u32,
    left: u32,
}

impl Restarts {
    pub(crate) fn new() -> Restarts {
        Restarts {
            turn: 1,
            length: 1,
            left: 100,
        }
    }

    /// Counts a conflict, and returns whether a restart is due.
    pub(crate) fn is_due(&mut self) -> bool {
        if self.left > 1 {
            self.left -= 1;
            return false;
        }
        // Knuth's step: the length doubles until it is the lowest bit of the turn
        if self.turn & self.turn.wrapping_neg() == self.length {
            self.turn = self.turn.saturating_add(1);
            self.length = 1;
        } else {
            self.length = self.length.saturating_mul(2);
        }
        self.left = self.length.saturating_mul(100);
        true
    }
}
