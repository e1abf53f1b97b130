//! What the units of each class with more than one unit turn, what their heads show, and in which lanes two numbers
//! answer differently.

ghost use Rattle.std.specs.Prelude.{◌≡◌, ◌≤◌, ◌<◌, ◌+◌, ◌^◌, ◌↔◌, ◌++◌, ℕ, List, [], ◌∷◌, true, false, length, All, Contains, IfOk, OnOk, IsSome, slice_index};
ghost use Rattle.net_model.specs.Answer.{bit_at};
ghost use Rattle.net_model.specs.Circuit.{IsCircuit, line_count};
ghost use Rattle.net_model.specs.FaultList.{faults, fault_count};
ghost use Rattle.class_refine.specs.Fields.{IsWhole};
ghost use Rattle.word_sim.specs.GoodSim.{vectors_of};
ghost use Rattle.fault_heads.specs.Turned.{IsHeadOf};
ghost use Rattle.fault_heads.specs.Ways.{AreWays};
ghost use Rattle.kept_vectors.specs.Units.{AreTogether};
ghost use Rattle.kept_vectors.specs.Notes.{Noted, place_of, head_at, row_of, turn_of, turn_notes, lane_notes, number_notes, noted_by, HasNotes, IsTurnShown, HasRunBlock, AreRootsOf, AreOf, IsNumberAsked, IsUnitAsked, AreAskedLater, IsGroupKnown, AreNotedAlike, AreKnown, AreAsked, IsPlaceNoted};

use crate::apart::apart;
use crate::notes::{Note, Shown, have_one_root, notes_in, show_head};
use crate::units::Units;
use class_refine::Classes;
use fault_collapse::Subject;
use fault_heads::{Head, Heads, Turn};
use fault_list::FaultList;
use fault_sim::FaultSim;
use net_model::Circuit;
use std::alloc::{AllocError, Global};
use word_sim::{GoodSim, LANES, Lanes};

// What was noted of the answers of numbers to the vectors of a block. The places of heads are the lines and then the
// positions. `numbers` are the units that were asked, and `turns` has what each of these turns. For each place `needs`
// has the lanes in which its head is needed, and `shown` what the head shows. A number answers as its unit.
#[derive(Debug)]
pub(crate) struct Differences<'a> {
    pub(crate) lines: u32,
    pub(crate) heads: Heads<'a>,
    pub(crate) sim: FaultSim<'a>,
    pub(crate) notes: Vec<Note>,
    pub(crate) shown: Vec<Shown>,
    pub(crate) needs: Vec<Lanes>,
    pub(crate) turns: Vec<Option<Turn>>,
    pub(crate) numbers: Vec<u32>,
    pub(crate) units: Units<'a>,
}

// As for `Keeper`.
impl Drop for Differences<'_> {
    fn drop(self) {
        let Differences {
            lines: _,
            heads: _,
            sim: _,
            notes: _,
            shown: _,
            needs: _,
            turns: _,
            numbers: _,
            units: _,
        } = self;
    }
}

// Returns the lanes in which a head is turned, no lane without a turn.
fn row(turn: &Option<Turn>) -> Lanes
    ensures { (lane : ℕ) → lane < LANES → bit_at result lane ≡ bit_at (row_of turn.now) lane }
{
    match turn {
        Some(turn) => turn.lanes,
        None => Lanes::all(false),
    }
}

// Returns the place of a head in a circuit with `lines` lines.
fn place(lines: u32, head: Head) -> usize
    ensures { result ≡ place_of lines head }
{
    match head {
        Head::Line(line) => line as usize,
        Head::Position(at) => lines as usize + at as usize,
    }
}

// Returns the head of `place`.
fn head_of(circuit: &Circuit, place: usize) -> Head
    requires { place < line_count circuit.now + length circuit.now.positions }
    ensures value { result ≡ head_at (line_count circuit.now) place }
    ensures stands { IsHeadOf circuit.now result }
{
    let lines = circuit.lines() as usize;
    if place < lines {
        Head::Line(place as u32)
    } else {
        Head::Position((place - lines) as u32)
    }
}

impl<'a> Differences<'a> {
    pub(crate) fn new(
        alloc: Global,
        subject: &'a Subject<'a>,
    ) -> Result<Differences<'a>, AllocError>
        ensures { IfOk result (AreOf subject.now) }
    {
        let circuit = subject.circuit();
        let roots = subject.forest().roots();
        let numbers = subject.numbers();
        let lines = circuit.lines();
        let heads = lines as usize + circuit.positions().len();
        let none = Lanes::all(false);
        let nothing = Shown {
            start: 0,
            end: 0,
            any: none,
        };
        // What is dropped after an error is proved for each `?`, so the large ones come late, and after them what can't
        // fail.
        Ok(Differences {
            lines,
            needs: vec![in alloc; none; heads]?,
            shown: vec![in alloc; nothing; heads]?,
            turns: vec![in alloc; None; numbers as usize]?,
            units: Units::new(alloc, roots, numbers)?,
            heads: Heads::new(alloc, circuit)?,
            sim: FaultSim::new(alloc, circuit)?,
            notes: Vec::new(alloc),
            numbers: Vec::new(alloc),
        })
    }

    // Returns what the unit of `number` turns.
    fn turn_of(&self, number: u32) -> &Option<Turn>
        requires { HasNotes (noted_by self.now) number }
        ensures { result.now ≡ turn_of (noted_by self.now) number }
    {
        &self.turns[self.units.of(number) as usize]
    }

    // Returns the notes of the head that is turned.
    fn turn_notes(&self, turn: &Option<Turn>) -> &[Note]
        requires { IsTurnShown (noted_by self.now) turn.now }
        ensures { result.now ≡ turn_notes (noted_by self.now) turn.now }
    {
        match turn {
            Some(turn) => notes_in(
                self.notes.as_slice(),
                self.shown[place(self.lines, turn.head)],
            ),
            None => &[],
        }
    }

    // Returns the notes of `number` in `lane`.
    pub(crate) fn notes_at(&self, number: u32, lane: u32) -> &[Note]
        requires lane { lane < LANES }
        requires noted { HasNotes (noted_by self.now) number }
        ensures { result.now ≡ number_notes (noted_by self.now) number lane }
    {
        let turn = self.turn_of(number);
        if !row(turn).get(lane) {
            return &[];
        }
        self.turn_notes(turn)
    }

    // Returns the lanes in which a head is turned and shows.
    fn lanes_of(&self, turn: &Option<Turn>) -> Lanes
        requires { IsTurnShown (noted_by self.now) turn.now }
        ensures turned { (lane : ℕ) → lane < LANES → bit_at result lane ≡ true → bit_at (row_of turn.now) lane ≡ true }
        ensures shows { (lane : ℕ) → lane < LANES → (bit_at result lane ≡ false) ↔ AreNotedAlike lane (lane_notes (noted_by self.now) turn.now lane) [] }
    {
        match turn {
            Some(turn) => turn.lanes.and(self.shown[place(self.lines, turn.head)].any),
            None => Lanes::all(false),
        }
    }

    // Returns in which lanes two numbers answer differently: those in which one of them shows and the other doesn't,
    // and those in which both do and their heads show differently.
    pub(crate) fn apart(&self, one: u32, other: u32) -> Lanes
        requires one { HasNotes (noted_by self.now) one }
        requires other { HasNotes (noted_by self.now) other }
        ensures { (lane : ℕ) → lane < LANES → (bit_at result lane ≡ false) ↔ AreNotedAlike lane (number_notes (noted_by self.now) one lane) (number_notes (noted_by self.now) other lane) }
    {
        let (first, second) = (self.turn_of(one), self.turn_of(other));
        let (left, right) = (self.lanes_of(first), self.lanes_of(second));
        let (alone, both) = (left.xor(right), left.and(right));
        if !both.any() || have_one_head(first, second) {
            return alone;
        }
        let told = apart(self.turn_notes(first), self.turn_notes(second));
        alone.or(both.and(told))
    }

    // Notes the answers of all units of classes with more than one unit.
    pub(crate) fn note_classes(
        &mut self,
        listed: &FaultList,
        good: &GoodSim,
        classes: &Classes,
    ) -> Result<(), AllocError>
        requires run { HasRunBlock good.now listed.now }
        requires of { AreOf good.now.circuit self.old }
        requires whole { IsWhole classes.now }
        requires numbers { length classes.now.class_of ≡ fault_count good.now.circuit }
        requires together { AreTogether self.old.units.roots.now classes.now }
        ensures of { AreOf good.now.circuit self.new }
        ensures units { self.new.units.roots.now ≡ self.old.units.roots.now }
        ensures asked { OnOk result (AreAsked good.now (noted_by self.new) classes.now self.new.numbers.items) }
    {
        self.heads.run(good);
        self.ask_classes(listed, good, classes)?;
        self.show_heads(good)
    }

    // Asks for all units of classes with more than one unit.
    fn ask_classes(
        &mut self,
        listed: &FaultList,
        good: &GoodSim,
        classes: &Classes,
    ) -> Result<(), AllocError>
        requires run { HasRunBlock good.now listed.now }
        requires of { AreOf good.now.circuit self.old }
        requires ways { AreWays good.now self.old.heads.ways }
        requires whole { IsWhole classes.now }
        requires numbers { length classes.now.class_of ≡ fault_count good.now.circuit }
        requires together { AreTogether self.old.units.roots.now classes.now }
        ensures of { AreOf good.now.circuit self.new }
        ensures units { self.new.units.roots.now ≡ self.old.units.roots.now }
        ensures asked { OnOk result (AreKnown good.now self.new.units.roots.now (IsUnitAsked good.now self.new) classes.now self.new.numbers.items) }
    {
        self.numbers.clear();
        need_nothing(&mut self.needs);
        for class in 0..classes.count() {
            self.ask_class(listed, good, classes.members(class))?;
        }
        Ok(())
    }

    // Asks for the units of `group` if it has more than one unit.
    fn ask_class(
        &mut self,
        listed: &FaultList,
        good: &GoodSim,
        group: &[u32],
    ) -> Result<(), AllocError>
        requires run { HasRunBlock good.now listed.now }
        requires inside { All (λ number. number < fault_count good.now.circuit) group.now }
        requires of { AreOf good.now.circuit self.old }
        requires ways { AreWays good.now self.old.heads.ways }
        requires units { (n : ℕ) → Contains group.now n → Contains group.now (slice_index self.old.units.roots.now n) }
        ensures of { AreOf good.now.circuit self.new }
        ensures units { self.new.units.roots.now ≡ self.old.units.roots.now }
        ensures ways { AreWays good.now self.new.heads.ways }
        ensures later { OnOk result (AreAskedLater good.now self.old self.new) }
        ensures asked { OnOk result (IsGroupKnown good.now self.new.units.roots.now (IsUnitAsked good.now self.new) group.now self.old.numbers.items self.new.numbers.items) }
    {
        if have_one_root(self.units.roots, group) {
            return Ok(());
        }
        for number in group {
            if self.units.has(*number) {
                self.ask(listed, good, *number)?;
            }
        }
        Ok(())
    }

    // Asks for a unit: its head is needed in the lanes in which the unit turns it.
    fn ask(&mut self, listed: &FaultList, good: &GoodSim, number: u32) -> Result<(), AllocError>
        requires faults { listed.now ≡ faults good.now.circuit }
        requires number { number < fault_count good.now.circuit }
        requires of { AreOf good.now.circuit self.old }
        requires ways { AreWays good.now self.old.heads.ways }
        ensures of { AreOf good.now.circuit self.new }
        ensures units { self.new.units.roots.now ≡ self.old.units.roots.now }
        ensures ways { AreWays good.now self.new.heads.ways }
        ensures later { OnOk result (AreAskedLater good.now self.old self.new) }
        ensures asked { OnOk result (IsNumberAsked good.now self.new.needs.items self.new.turns.items number) }
        ensures numbers { OnOk result (self.new.numbers.items ≡ self.old.numbers.items ++ number ∷ []) }
    {
        self.numbers.push(number)?;
        let turn = self.heads.turn(good, listed.get(number));
        if let Some(turn) = &turn {
            let place = place(self.lines, turn.head);
            self.needs[place] = self.needs[place].or(turn.lanes);
        }
        self.turns[number as usize] = turn;
        Ok(())
    }

    // Simulates each head in the lanes in which it is needed, and notes where it shows.
    fn show_heads(&mut self, good: &GoodSim) -> Result<(), AllocError>
        requires circuit { IsCircuit good.now.circuit }
        requires ran { IsSome good.now.ran }
        requires few { length (vectors_of good.now) ≤ LANES }
        requires of { AreOf good.now.circuit self.old }
        ensures of { AreOf good.now.circuit self.new }
        ensures needs { self.new.needs.items ≡ self.old.needs.items }
        ensures places { OnOk result ((place : ℕ) → place < length self.old.needs.items → IsPlaceNoted good.now self.old.needs.items self.new.notes.items self.new.shown.items place) }
        ensures turns { self.new.turns.items ≡ self.old.turns.items }
        ensures numbers { self.new.numbers.items ≡ self.old.numbers.items }
        ensures units { self.new.units.roots.now ≡ self.old.units.roots.now }
    {
        self.notes.clear();
        for place in 0..self.needs.len() {
            self.show(good, place)?;
        }
        Ok(())
    }

    // Simulates the head of `place` in the lanes in which it is needed, and notes where it shows.
    fn show(&mut self, good: &GoodSim, place: usize) -> Result<(), AllocError>
        requires circuit { IsCircuit good.now.circuit }
        requires ran { IsSome good.now.ran }
        requires few { length (vectors_of good.now) ≤ LANES }
        requires of { AreOf good.now.circuit self.old }
        requires place { place < length self.old.needs.items }
        ensures of { AreOf good.now.circuit self.new }
        ensures needs { self.new.needs.items ≡ self.old.needs.items }
        ensures turns { self.new.turns.items ≡ self.old.turns.items }
        ensures numbers { self.new.numbers.items ≡ self.old.numbers.items }
        ensures units { self.new.units.roots.now ≡ self.old.units.roots.now }
        ensures later { OnOk result ((other : ℕ) → other < place → IsPlaceNoted good.now self.old.needs.items self.old.notes.items self.old.shown.items other → IsPlaceNoted good.now self.old.needs.items self.new.notes.items self.new.shown.items other) }
        ensures here { OnOk result (IsPlaceNoted good.now self.old.needs.items self.new.notes.items self.new.shown.items place) }
    {
        let needed = self.needs[place];
        let mut shown = Shown {
            start: 0,
            end: 0,
            any: Lanes::all(false),
        };
        if needed.any() {
            let head = head_of(good.circuit(), place);
            shown = show_head(&mut self.sim, good, head, needed, &mut self.notes)?;
        }
        self.shown[place] = shown;
        Ok(())
    }
}

fn need_nothing(needs: &mut [Lanes])
    ensures { length needs.new ≡ length needs.old }
{
    for place in 0..needs.len() {
        needs[place] = Lanes::all(false);
    }
}

// Returns whether both turn a head, and the same one.
fn have_one_head(one: &Option<Turn>, other: &Option<Turn>) -> bool
    ensures { result ≡ true → (noted : Noted) → turn_notes noted one.now ≡ turn_notes noted other.now }
{
    match (one, other) {
        (Some(one), Some(other)) => one.head == other.head,
        _ => false,
    }
}
