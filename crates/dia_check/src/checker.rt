//! The checker of lines: the rule of each record, what the lines so far state, and the patterns that are waiting.

ghost use Rattle.std.specs.Prelude.{◌≡◌, ◌<◌, ◌+◌, ◌^◌, ◌↔◌, ◌++◌, ◌∷◌, [], ℕ, List, None, Contains, IfOk, OnOk, IsTrue, IsSome, length};
ghost use Rattle.net_model.specs.Ascii.{line_feed};
ghost use Rattle.net_model.specs.Circuit.{Circuit};
ghost use Rattle.member_marks.specs.Given.{given_mark, AreGiven};
ghost use Rattle.result_records.specs.declared.record.Record.{Record};
ghost use Rattle.result_records.specs.declared.record.Record.TheVariants.{Head, Budget, Pattern, Same, Class, Member, End};
ghost use Rattle.result_records.specs.Marks.{pattern_of, evidence_in};
ghost use Rattle.result_records.specs.Limits.{AreWithinLimits};
ghost use Rattle.result_file.specs.Lines.{NamesNext, IsRightClass, IsRightMember};
ghost use Rattle.text_fields.specs.Fields.{Text};
ghost use Rattle.result_records.specs.Spelling.{HasSpelling, spelling};
ghost use Rattle.dia_check.specs.Checker.{HasCheck, JudgesText, JudgesWaiting, JudgesEnd, IsChecker, IsCheckOf, IsJudgedWhole, NamesOpen, record_line};
ghost use Rattle.result_file.specs.Accepted.{IsAcceptedText};

use crate::evidence::{EvidenceChecker, has_right_roots};
use crate::progress::Progress;
use crate::stop::{Judged, Stop};
use evidence_rules::CheckFault;
use fault_collapse::Subject;
use kept_vectors::Keeper;
use member_marks::{Marks, mark_of};
use net_model::{Vector, Vectors};
use result_file::{
    Budgets, Checked, Evidence, Mark, Record, RecordFault, ResultFault, ResultKind, Summary,
    read_record,
};
use result_records::{BLOCKS_LIMIT, CONFLICTS_LIMIT, CUBES_LIMIT};
use std::alloc::{AllocError, Global};
use word_sim::LANES;

// What the lines so far have stated: the patterns with their classes, the marks, the number `from` below which each
// number is a representative or marked, and the counts. Also the checker of evidence, and the waiting patterns, which
// are judged a block at a time.
pub(crate) struct Checker<'a> {
    pub keeper: Keeper<'a>,
    pub marks: Marks,
    pub from: u32,
    pub progress: Progress,
    pub evidence: EvidenceChecker<'a>,
    pub waiting: Vec<Vector>,
}

impl Drop for Checker<'_> {
    fn drop(self) {
        let Checker {
            keeper: _,
            marks: _,
            from: _,
            progress: _,
            evidence: _,
            waiting: _,
        } = self;
    }
}

impl<'a> Checker<'a> {
    // Returns a checker before the first line.
    pub(crate) fn start(alloc: Global, subject: &'a Subject<'a>) -> Result<Checker<'a>, AllocError>
        ensures { IfOk result (IsCheckOf subject.now []) }
    {
        Ok(Checker {
            keeper: Keeper::new(alloc, subject)?,
            marks: Marks::none(alloc, subject.numbers())?,
            from: 0,
            progress: Progress::none(),
            evidence: EvidenceChecker::new(alloc, subject.circuit())?,
            waiting: Vec::new(alloc),
        })
    }

    // Judges a line. A line that isn't a record is refused.
    pub(crate) fn judge_line(&mut self, alloc: Global, subject: &Subject, line: &[u8]) -> Judged
        requires check { HasCheck subject.now self.old }
        requires one { ¬ Contains line.now line_feed }
        ensures { JudgesText subject.now self.old self.new (line.now ++ line_feed ∷ []) result }
    {
        match read_record(alloc, line) {
            Ok(record) => {
                self.make_way(subject, &record)?;
                self.judge_record(subject, record)
            }
            Err(RecordFault::Syntax) => {
                self.flush(subject)?;
                Err(self.refused(ResultKind::Syntax))
            }
            Err(RecordFault::NoMemory) => Err(Stop::NoMemory),
        }
    }

    // Judges the line of a record. Patterns are waiting only if the record is a pattern too.
    fn judge_record(&mut self, subject: &Subject, entry: Record) -> Judged
        requires check { HasCheck subject.now self.old }
        requires room { length self.old.waiting.items < LANES }
        requires none { pattern_of entry ≡ None → self.old.waiting.items ≡ [] }
        requires spelled { HasSpelling entry }
        requires one { ¬ Contains (spelling entry) line_feed }
        ensures { JudgesText subject.now self.old self.new (record_line entry) result }
    {
        match entry {
            Record::Head(sources, positions, numbers) => {
                self.judge_head(subject, sources, positions, numbers)
            }
            Record::Budget(budgets) => self.judge_budget(subject, budgets),
            Record::Pattern(v) => self.judge_pattern(subject, v),
            Record::Same(evidence) => self.judge_evidence(subject, &evidence),
            Record::Class(number, birth) => self.judge_class(subject, number, birth),
            Record::Member(number, class, mark) => self.judge_member(subject, number, class, mark),
            Record::End => self.judge_end(subject),
        }
    }

    // Judges the waiting patterns, unless the record is a pattern that can wait after them.
    fn make_way(&mut self, subject: &Subject, entry: &Record) -> Judged
        requires check { HasCheck subject.now self.old }
        ensures judged { JudgesWaiting subject.now self.old self.new result }
        ensures room { OnOk result (length self.new.waiting.items < LANES) }
        ensures none { OnOk result (pattern_of entry.now ≡ None → self.new.waiting.items ≡ []) }
    {
        let can_wait = matches!(entry, Record::Pattern(_));
        if can_wait && self.waiting.len() < LANES as usize {
            return Ok(());
        }
        self.flush(subject)
    }

    // Judges the waiting patterns.
    pub(crate) fn flush(&mut self, subject: &Subject) -> Judged
        requires check { HasCheck subject.now self.old }
        ensures judged { JudgesWaiting subject.now self.old self.new result }
        ensures none { OnOk result (self.new.waiting.items ≡ []) }
    {
        if self.waiting.is_empty() {
            return Ok(());
        }
        let kept = self.keeper.keep_run(self.waiting.as_slice())?;
        self.progress.lines += kept as u64;
        if kept < self.waiting.len() {
            return Err(self.refused(ResultKind::Pattern));
        }
        self.waiting.clear();
        self.from = 0;
        Ok(())
    }

    // Returns the refusal of the next line for a broken rule of this kind.
    pub(crate) fn refused(&self, kind: ResultKind) -> Stop
        requires { self.now.progress.lines + 1 < 2 ^ 64 }
        ensures { result ≡ Stop.Refused (record { kind = kind; line = self.now.progress.lines + 1 }) }
    {
        Stop::Refused(ResultFault {
            kind,
            line: self.progress.lines + 1,
        })
    }

    // Adds a pattern to the waiting ones, or refuses it if its place or width is wrong.
    fn judge_pattern(&mut self, subject: &Subject, v: Vector) -> Judged
        requires check { HasCheck subject.now self.old }
        requires room { length self.old.waiting.items < LANES }
        requires one { ¬ Contains (spelling (Pattern v)) line_feed }
        ensures { JudgesText subject.now self.old self.new (record_line (Pattern v)) result }
    {
        if v.len() != subject.circuit().sources() as usize {
            self.flush(subject)?;
            if !self.progress.is_body() {
                return Err(self.refused(ResultKind::Order));
            }
            return Err(self.refused(ResultKind::Pattern));
        }
        if !self.progress.is_body() {
            return Err(self.refused(ResultKind::Order));
        }
        self.waiting.reserve(1)?;
        self.waiting.push_reserved(v);
        Ok(())
    }

    fn judge_head(
        &mut self,
        subject: &Subject,
        sources: u32,
        positions: u32,
        numbers: u32,
    ) -> Judged
        requires check { HasCheck subject.now self.old }
        requires none { self.old.waiting.items ≡ [] }
        requires spelled { HasSpelling (Head sources positions numbers) }
        requires one { ¬ Contains (spelling (Head sources positions numbers)) line_feed }
        ensures { JudgesText subject.now self.old self.new (record_line (Head sources positions numbers)) result }
    {
        if self.progress.lines != 0 {
            return Err(self.refused(ResultKind::Order));
        }
        if !subject.has_sizes(sources, positions, numbers) {
            return Err(self.refused(ResultKind::Head));
        }
        self.progress.lines += 1;
        Ok(())
    }

    fn judge_budget(&mut self, subject: &Subject, budgets: Budgets) -> Judged
        requires check { HasCheck subject.now self.old }
        requires none { self.old.waiting.items ≡ [] }
        requires spelled { HasSpelling (Budget budgets) }
        requires one { ¬ Contains (spelling (Budget budgets)) line_feed }
        ensures { JudgesText subject.now self.old self.new (record_line (Budget budgets)) result }
    {
        if self.progress.lines != 1 {
            return Err(self.refused(ResultKind::Order));
        }
        if !are_within_limits(budgets) {
            return Err(self.refused(ResultKind::Head));
        }
        self.progress.budgets = budgets;
        self.progress.lines += 1;
        Ok(())
    }

    fn judge_evidence(&mut self, subject: &Subject, evidence: &Evidence) -> Judged
        requires check { HasCheck subject.now self.old }
        requires none { self.old.waiting.items ≡ [] }
        requires spelled { HasSpelling (Same evidence.now) }
        requires one { ¬ Contains (spelling (Same evidence.now)) line_feed }
        ensures { JudgesText subject.now self.old self.new (record_line (Same evidence.now)) result }
    {
        if !self.progress.is_body() {
            return Err(self.refused(ResultKind::Order));
        }
        if !self.names_next(evidence) {
            return Err(self.refused(ResultKind::Member));
        }
        if !has_right_roots(subject, evidence) {
            return Err(self.refused(ResultKind::Roots));
        }
        let budgets = self.progress.budgets;
        match self.evidence.check(subject, budgets, evidence) {
            Ok(()) => {
                let mark = mark_of(&evidence.proof);
                self.marks.give(evidence.member, evidence.partner, mark);
                self.from = evidence.member + 1;
                self.progress.lines += 1;
                Ok(())
            }
            Err(CheckFault::Refused(refusal)) => Err(self.refused(ResultKind::Evidence(refusal))),
            Err(CheckFault::NoMemory) => Err(Stop::NoMemory),
        }
    }

    // Returns whether the evidence names the lowest number that is neither a representative nor marked, with its
    // representative.
    fn names_next(&self, evidence: &Evidence) -> bool
        requires whole { length self.now.marks ≡ length self.now.keeper.kept.table.class_of }
        requires begun { (n : ℕ) → n < self.now.from → IsSome (given_mark self.now.keeper.kept.table self.now.marks n) }
        ensures right { IsTrue result → NamesOpen self.now.keeper.kept.table self.now.marks evidence.now }
        ensures wrong { ¬ IsTrue result → (seen : List Record) → AreGiven self.now.keeper.kept.table (evidence_in seen) self.now.marks → ¬ NamesNext self.now.keeper.kept.table seen evidence.now }
    {
        let classes = self.keeper.classes();
        let Some(member) = self.marks.next_open(classes, self.from) else {
            return false;
        };
        let lead = classes.representative(classes.class_of(member));
        evidence.member == member && evidence.partner == lead
    }

    fn judge_class(&mut self, subject: &Subject, number: u32, birth: Option<(u32, u32)>) -> Judged
        requires check { HasCheck subject.now self.old }
        requires none { self.old.waiting.items ≡ [] }
        requires spelled { HasSpelling (Class number birth) }
        requires one { ¬ Contains (spelling (Class number birth)) line_feed }
        ensures { JudgesText subject.now self.old self.new (record_line (Class number birth)) result }
    {
        if self.progress.lines < 2 || self.progress.members != 0 {
            return Err(self.refused(ResultKind::Order));
        }
        if !self.is_next_class(number, birth) {
            return Err(self.refused(ResultKind::Table));
        }
        self.progress.lines += 1;
        self.progress.classes += 1;
        Ok(())
    }

    // Returns whether this is the next class, with this birth, and each number is a representative or marked.
    fn is_next_class(&self, number: u32, birth: Option<(u32, u32)>) -> bool
        requires whole { length self.now.marks ≡ length self.now.keeper.kept.table.class_of }
        requires begun { (n : ℕ) → n < self.now.from → IsSome (given_mark self.now.keeper.kept.table self.now.marks n) }
        ensures { (c : Circuit) (seen : List Record) → IsChecker c seen self.now → IsTrue result ↔ IsRightClass self.now.keeper.kept.table seen number birth }
    {
        let classes = self.keeper.classes();
        if number != self.progress.classes || number >= classes.count() {
            return false;
        }
        if classes.born(number) != birth {
            return false;
        }
        if number > 0 {
            return true;
        }
        self.marks.next_open(classes, self.from).is_none()
    }

    fn judge_member(&mut self, subject: &Subject, number: u32, class: u32, mark: Mark) -> Judged
        requires check { HasCheck subject.now self.old }
        requires none { self.old.waiting.items ≡ [] }
        requires spelled { HasSpelling (Member number class mark) }
        requires one { ¬ Contains (spelling (Member number class mark)) line_feed }
        ensures { JudgesText subject.now self.old self.new (record_line (Member number class mark)) result }
    {
        if self.progress.classes != self.keeper.classes().count() || self.progress.ended {
            return Err(self.refused(ResultKind::Order));
        }
        if !self.is_next_member(subject.numbers(), number, class, mark) {
            return Err(self.refused(ResultKind::Table));
        }
        self.progress.add_member(mark);
        Ok(())
    }

    // Returns whether this is the next number, in this class and with this mark.
    fn is_next_member(&self, numbers: u32, number: u32, class: u32, mark: Mark) -> bool
        requires numbers { numbers ≡ length self.now.keeper.kept.table.class_of }
        requires whole { length self.now.marks ≡ length self.now.keeper.kept.table.class_of }
        ensures { (c : Circuit) (seen : List Record) → IsChecker c seen self.now → IsTrue result ↔ IsRightMember self.now.keeper.kept.table seen number class mark }
    {
        let classes = self.keeper.classes();
        if number != self.progress.members || number >= numbers {
            return false;
        }
        if class != classes.class_of(number) {
            return false;
        }
        self.marks.of(classes, number) == Some(mark)
    }

    fn judge_end(&mut self, subject: &Subject) -> Judged
        requires check { HasCheck subject.now self.old }
        requires none { self.old.waiting.items ≡ [] }
        requires spelled { HasSpelling (End) }
        requires one { ¬ Contains (spelling (End)) line_feed }
        ensures { JudgesText subject.now self.old self.new (record_line (End)) result }
    {
        if self.progress.classes != self.keeper.classes().count()
            || self.progress.members != subject.numbers()
            || self.progress.ended
        {
            return Err(self.refused(ResultKind::Order));
        }
        self.progress.ended = true;
        self.progress.lines += 1;
        Ok(())
    }

    // Judges the end of the file: the end line must have come, and no bytes after it.
    pub(crate) fn end(&mut self, subject: &Subject, rest: &[u8]) -> Judged
        requires check { HasCheck subject.now self.old }
        requires one { ¬ Contains rest.now line_feed }
        ensures { JudgesEnd subject.now self.old self.new rest.now result }
    {
        self.flush(subject)?;
        if !rest.is_empty() {
            return Err(self.refused(ResultKind::Syntax));
        }
        if !self.progress.ended {
            return Err(self.refused(ResultKind::Order));
        }
        Ok(())
    }

    // Returns what the lines state.
    pub(crate) fn into_checked(self, alloc: Global) -> Result<Checked, AllocError>
        ensures { IfOk result (λ checked. (c : Circuit) (text : Text) → IsJudgedWhole c text self.entry → IsAcceptedText c text checked) }
    {
        let Checker {
            keeper,
            marks: _,
            from: _,
            progress,
            evidence: _,
            waiting: _,
        } = self;
        let (vectors, classes) = keeper.into_kept();
        let summary = Summary {
            numbers: progress.members,
            patterns: classes.patterns(),
            classes: progress.classes,
            equal: progress.marked.equal,
            spent: progress.marked.spent,
        };
        Ok(Checked {
            summary,
            budgets: progress.budgets,
            patterns: listed(alloc, vectors)?,
            classes,
        })
    }
}

// Returns the vectors as a list of their own.
fn listed(alloc: Global, vectors: Vec<Vector>) -> Result<Vectors, AllocError>
    ensures { IfOk result (λ listed. listed ≡ vectors.items) }
{
    let mut listed = Vectors::new(alloc);
    for v in vectors.into_iter() {
        listed.push(v)?;
    }
    Ok(listed)
}

fn are_within_limits(budgets: Budgets) -> bool
    ensures { IsTrue result ↔ AreWithinLimits budgets }
{
    budgets.blocks <= BLOCKS_LIMIT
        && budgets.cubes <= CUBES_LIMIT
        && budgets.conflicts <= CONFLICTS_LIMIT
}
