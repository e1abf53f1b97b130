//! The counts of lines, classes and members, and the budgets that the lines so far have stated.

ghost use Rattle.std.specs.Prelude.{◌≡◌, ◌<◌, ◌≤◌, ◌+◌, ◌^◌, ◌↔◌, IsTrue};
ghost use Rattle.dia_check.specs.Progress.{no_progress, with_member};

use member_marks::MarkCounts;
use result_file::{Budgets, Mark};

// The counts of lines, class lines and member lines, of members marked equal and left open, the budgets, and whether
// the end line has come.
#[derive(Clone, Copy)]
pub(crate) struct Progress {
    pub lines: u64,
    pub budgets: Budgets,
    pub classes: u32,
    pub members: u32,
    pub marked: MarkCounts,
    pub ended: bool,
}

const NO_BUDGETS: Budgets = Budgets {
    blocks: 0,
    cubes: 0,
    conflicts: 0,
};

impl Progress {
    // Returns the progress before the first line.
    pub(crate) fn none() -> Progress
        ensures { result ≡ no_progress }
    {
        Progress {
            lines: 0,
            budgets: NO_BUDGETS,
            classes: 0,
            members: 0,
            marked: MarkCounts::none(),
            ended: false,
        }
    }

    // Returns whether patterns and evidence may come next.
    pub(crate) fn is_body(&self) -> bool
        ensures { IsTrue result ↔ ((2 ≤ self.now.lines) × (self.now.classes ≡ 0)) }
    {
        self.lines >= 2 && self.classes == 0
    }

    // Counts one more member line with this mark.
    pub(crate) fn add_member(&mut self, mark: Mark)
        requires lines { self.old.lines + 1 < 2 ^ 64 }
        requires members { self.old.members + 1 < 2 ^ 32 }
        requires equal { self.old.marked.equal ≤ self.old.members }
        requires spent { self.old.marked.spent ≤ self.old.members }
        ensures { self.new ≡ with_member self.old mark }
    {
        self.lines += 1;
        self.members += 1;
        self.marked.count(mark);
    }
}
