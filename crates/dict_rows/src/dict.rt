//! Fault dictionaries.

ghost use Rattle.std.specs.Prelude.{◌≡◌, ℕ, List, [], ◌∷◌, ◌++◌, length, IfOk, OnOk, OnErr};
ghost use Rattle.dict_rows.specs.Grouped.{IsGrouped};

use net_model::AnswerRows;
use std::alloc::{AllocError, Global};
use std::marker::Model;

/// The kind of a fault dictionary: pass/fail, full-response or same/different.
#[derive(Clone, Copy, Debug, PartialEq, Eq)]
pub enum DictKind {
    PassFail,
    Full,
    SameDiff,
}

/// A group number for each fault number.
#[derive(Debug, Drop)]
pub struct Groups {
    groups: Vec<u32>,
}

impl Groups {
    pub fn new(alloc: Global) -> Groups
        ensures { result ≡ [] }
    {
        Groups {
            groups: Vec::new(alloc),
        }
    }

    /// Returns no groups, with room for the given number of them.
    pub fn with_room(alloc: Global, groups: usize) -> Result<Groups, AllocError>
        ensures { IfOk result (λ groups. groups ≡ []) }
    {
        Ok(Groups {
            groups: Vec::with_capacity(alloc, groups)?,
        })
    }

    /// Appends the group of the next number. After an error nothing has changed.
    pub fn push(&mut self, group: u32) -> Result<(), AllocError>
        ensures ok { OnOk result (self.new ≡ self.old ++ group ∷ []) }
        ensures err { OnErr result (self.new ≡ self.old) }
    {
        self.groups.push(group)?;
        Ok(())
    }

    pub fn as_slice(&self) -> &[u32]
        ensures { result.now ≡ self.now }
    {
        self.groups.as_slice()
    }
}

impl Model for Groups {
    ghost Value = { List ℕ };

    ghost view = { λ g. g.groups.items };
}

/// A fault dictionary: the entry of a fault number is the row of its group. A full dictionary has no baselines; each
/// other kind has a baseline of `positions` bits for each pattern.
#[derive(Debug)]
pub struct Dict {
    pub kind: DictKind,
    pub positions: u32,
    pub patterns: u32,
    pub numbers: u32,
    pub baselines: AnswerRows,
    pub groups: Groups,
    pub entries: AnswerRows,
}

// Written by hand so that a drop of a dictionary is one step in the proof of each function that drops one. A derived
// one takes a step for each list in it.
impl Drop for Dict {
    fn drop(self) {
        let Dict {
            kind: _,
            positions: _,
            patterns: _,
            numbers: _,
            baselines: _,
            groups: _,
            entries: _,
        } = self;
    }
}

impl Dict {
    /// Returns the number of groups, which is that of the entry rows.
    pub fn group_count(&self) -> u32
        requires { IsGrouped self.now.numbers self.now.groups self.now.entries }
        ensures { result ≡ length self.now.entries }
    {
        let _numbers = self.numbers;
        self.entries.rows() as u32
    }
}
