//! How many members are marked equal, and how many are left open.

ghost use Rattle.std.specs.Prelude.{◌≡◌, ◌<◌, ◌+◌, ◌^◌};
ghost use Rattle.member_marks.specs.Counts.{none_counted, counted_with};

use result_records::Mark;

/// How many members are marked equal, and how many are left open.
#[derive(Clone, Copy, Debug)]
pub struct MarkCounts {
    pub equal: u32,
    pub spent: u32,
}

impl MarkCounts {
    /// Returns the counts of no numbers.
    pub fn none() -> MarkCounts
        ensures { result ≡ none_counted }
    {
        MarkCounts { equal: 0, spent: 0 }
    }

    /// Counts one more number, with the mark `mark`.
    pub fn count(&mut self, mark: Mark)
        requires equal { self.old.equal + 1 < 2 ^ 32 }
        requires spent { self.old.spent + 1 < 2 ^ 32 }
        ensures { self.new ≡ counted_with self.old mark }
    {
        match mark {
            Mark::Rep => {}
            Mark::Equal => self.equal += 1,
            Mark::Spent => self.spent += 1,
        }
    }
}
