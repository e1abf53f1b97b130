//! The pieces into which a row of answers cuts the classes.

ghost use Rattle.std.specs.Prelude.{◌≡◌, ◌<◌, ◌≤◌, ◌==◌, ◌&&◌, ◌++◌, ℕ, List, [], ◌∷◌, if◌then◌else◌, unwrap_or, filter, length, Some, IfOk, OnOk};
ghost use Rattle.std.specs.BTreeMap.{get};
ghost use Rattle.std.specs.Option.{is_none};
ghost use Rattle.std.specs.Ordering.{is_eq};
ghost use Rattle.net_model.specs.ClassTable.{class_count, members, begins_class};
ghost use Rattle.class_refine.specs.CutIn.{AreClassesOf, AreAlikeElsewhere};
ghost use Rattle.class_refine.specs.Steps.{put_in, ArePieces, AreLeaving};

use crate::classes::Classes;
use crate::group::Group;
use net_model::AnswerRows;
use std::alloc::{AllocError, Global};
use std::collections::BTreeMap;

/// Pieces that leave their classes: the members of each, and the class that it leaves.
pub(crate) struct Pieces {
    pub(crate) groups: Vec<Group>,
    pub(crate) parents: Vec<u32>,
}

// As for `Classes`.
impl Drop for Pieces {
    fn drop(self) {
        let Pieces {
            groups: _,
            parents: _,
        } = self;
    }
}

impl Pieces {
    /// Puts the number `n` of `class` into the piece at `place`, or into a new piece after all others if `place` is
    /// their count.
    pub(crate) fn put(
        &mut self,
        alloc: Global,
        place: usize,
        class: u32,
        n: u32,
    ) -> Result<(), AllocError>
        requires { place ≤ length self.old.groups.items }
        ensures groups { OnOk result (self.new.groups.items ≡ put_in self.old.groups.items place n) }
        ensures parents { OnOk result (self.new.parents.items ≡ (if place == length self.old.groups.items then self.old.parents.items ++ class ∷ [] else self.old.parents.items)) }
    {
        if place < self.groups.len() {
            return self.groups[place].push(n);
        }
        self.groups.push(Group::of(alloc, n)?)?;
        self.parents.push(class)?;
        Ok(())
    }
}

impl Classes {
    /// Returns the pieces that leave their classes, by class and then by lowest member.
    pub(crate) fn pieces(&self, answers: &AnswerRows) -> Result<Pieces, AllocError>
        requires { length answers.now ≡ length self.now.class_of }
        ensures { IfOk result (λ pieces. AreLeaving self.now answers.now pieces.groups.items pieces.parents.items) }
    {
        let alloc = *self.class_of.allocator();
        let mut pieces = Pieces {
            groups: Vec::new(alloc),
            parents: Vec::new(alloc),
        };
        for class in 0..self.count() {
            self.add_pieces(alloc, answers, class, &mut pieces)?;
        }
        Ok(pieces)
    }

    /// Returns the pieces that leave their classes, by class and then by lowest member. They leave only classes in
    /// `classes`.
    pub(crate) fn pieces_in(
        &self,
        classes: &[u32],
        answers: &AnswerRows,
    ) -> Result<Pieces, AllocError>
        requires rows { length answers.now ≡ length self.now.class_of }
        requires classes { AreClassesOf self.now classes.now }
        requires elsewhere { AreAlikeElsewhere self.now answers.now classes.now }
        ensures { IfOk result (λ pieces. AreLeaving self.now answers.now pieces.groups.items pieces.parents.items) }
    {
        let alloc = *self.class_of.allocator();
        let mut pieces = Pieces {
            groups: Vec::new(alloc),
            parents: Vec::new(alloc),
        };
        for class in classes {
            self.add_pieces(alloc, answers, *class, &mut pieces)?;
        }
        Ok(pieces)
    }

    fn add_pieces(
        &self,
        alloc: Global,
        answers: &AnswerRows,
        class: u32,
        pieces: &mut Pieces,
    ) -> Result<(), AllocError>
        requires rows { length answers.now ≡ length self.now.class_of }
        requires class { class < class_count self.now }
        ensures { OnOk result ((lows : List ℕ) → ArePieces self.now answers.now lows pieces.old.groups.items pieces.old.parents.items → ArePieces self.now answers.now (lows ++ filter (begins_class self.now answers.now) (members self.now class)) pieces.new.groups.items pieces.new.parents.items) }
    {
        let mut cut = self.cut_class(alloc, answers, class)?;
        pieces.groups.append(&mut cut.groups)?;
        pieces.parents.append(&mut cut.parents)?;
        Ok(())
    }

    // Returns the pieces that leave `class`. A number that answers as the representative stays.
    fn cut_class(
        &self,
        alloc: Global,
        answers: &AnswerRows,
        class: u32,
    ) -> Result<Pieces, AllocError>
        requires rows { length answers.now ≡ length self.now.class_of }
        requires class { class < class_count self.now }
        ensures { IfOk result (λ pieces. ArePieces self.now answers.now (filter (begins_class self.now answers.now) (members self.now class)) pieces.groups.items pieces.parents.items) }
    {
        let lead = self.representative(class);
        let mut begun: BTreeMap<&[u64], usize> = BTreeMap::new(alloc);
        let mut pieces = Pieces {
            groups: Vec::new(alloc),
            parents: Vec::new(alloc),
        };
        for n in self.members(class) {
            if *n == lead || answers.same_rows(*n as usize, lead as usize) {
                continue;
            }
            let words = answers.row_words(*n as usize);
            let place = place_with(&mut begun, words, pieces.groups.len())?;
            pieces.put(alloc, place, class, *n)?;
        }
        Ok(pieces)
    }
}

/// Returns the place that is noted for `key`. If none is, notes and returns `next`.
pub(crate) fn place_with<K: Ord + Copy>(
    begun: &mut BTreeMap<K, usize>,
    key: K,
    next: usize,
) -> Result<usize, AllocError>
    ensures place { IfOk result (λ place. place ≡ unwrap_or (get K.cmp begun.old key) next) }
    ensures noted { OnOk result ((q : K) → get K.cmp begun.new q ≡ (if is_none (get K.cmp begun.old key) && is_eq (K.cmp key q) then Some next else get K.cmp begun.old q)) }
{
    if let Some(place) = begun.get(&key) {
        return Ok(*place);
    }
    begun.insert(key, next)?;
    Ok(next)
}
