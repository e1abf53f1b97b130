//! Rows of lanes that are cleared in time proportional to the number of rows that were set.

ghost use Rattle.std.specs.Prelude.{◌≡◌, ◌<◌, ◌≤◌, [], ◌∷◌, ◌++◌, length, slice_set, slice_index_or, All, IfOk};
ghost use Rattle.fault_sim.specs.Rows.{rows_with, AreFalseBut};

use std::alloc::{AllocError, Global};
use std::marker::Model;
use word_sim::Lanes;

/// A row of lanes for each number, false unless it was set.
#[derive(Debug, Drop)]
pub(crate) struct Rows {
    rows: Vec<Lanes>,
    listed: Vec<u32>,
}

impl Model for Rows {
    ghost use Rattle.fault_sim.specs.RowsFields.{rows_inside, AreRowsListed};
    ghost use Rattle.fault_sim.specs.Rows as spec;

    ghost Value = { spec.Rows };

    ghost view = { rows_inside };

    ghost invariant = { AreRowsListed };
}

impl Rows {
    /// Returns `count` rows, all false, with room to set `room` rows.
    pub(crate) fn new(alloc: Global, count: usize, room: usize) -> Result<Rows, AllocError>
        ensures count { IfOk result (λ rows. length rows.rows ≡ count) }
        ensures listed { IfOk result (λ rows. rows.listed ≡ []) }
        ensures clear { IfOk result (λ rows. AreFalseBut [] rows.rows) }
        ensures room { IfOk result (λ rows. room ≤ rows.room) }
    {
        let rows = vec![in alloc; Lanes::all(false); count]?;
        Ok(Rows {
            rows,
            listed: Vec::with_capacity(alloc, room)?,
        })
    }

    pub(crate) fn as_slice(&self) -> &[Lanes]
        ensures value { result.now ≡ self.now.rows }
        ensures others { AreFalseBut self.now.listed self.now.rows }
    {
        self.rows.as_slice()
    }

    pub(crate) fn row(&self, at: u32) -> Lanes
        requires { at < length self.now.rows }
        ensures { result ≡ slice_index_or self.now.rows at [] }
    {
        self.rows[at as usize]
    }

    /// Returns the numbers whose rows were set.
    pub(crate) fn listed(&self) -> &[u32]
        ensures value { result.now ≡ self.now.listed }
        ensures within { All (λ at. at < length self.now.rows) result.now }
        ensures others { AreFalseBut self.now.listed self.now.rows }
    {
        self.listed.as_slice()
    }

    pub(crate) fn set(&mut self, at: u32, row: Lanes)
        requires within { at < length self.old.rows }
        requires room { length self.old.listed < self.old.room }
        ensures { self.new ≡ rows_with (slice_set self.old.rows at row) (self.old.listed ++ at ∷ []) self.old.room }
    {
        self.rows[at as usize] = row;
        self.listed.push_reserved(at);
    }

    /// Makes all rows false again.
    pub(crate) fn clear(&mut self)
        ensures count { length self.new.rows ≡ length self.old.rows }
        ensures listed { self.new.listed ≡ [] }
        ensures clear { AreFalseBut [] self.new.rows }
        ensures room { self.new.room ≡ self.old.room }
    {
        while let Some(at) = self.listed.pop() {
            self.rows[at as usize] = Lanes::all(false);
        }
    }
}
