//! The records of a result file.
use net_model::Vector;
use pair_miter::Log;
use pair_sets::Tree;

/// How many blocks of the stream, closed leaves of a tree and learned clauses of a log there may be.
#[derive(Clone, Copy, Debug, PartialEq, Eq)]
pub struct Budgets {
    pub blocks: u32,
    pub cubes: u32,
    pub conflicts: u32,
}

/// A representative; a member that is equal to it; or a member on which the budgets were spent.
#[derive(Clone, Copy, Debug, PartialEq, Eq)]
pub enum Mark {
    Rep,
    Equal,
    Spent,
}

/// What is known of a member and its representative. Both faults have the same root of the fault collapse
/// (`Collapse`). A tree of cubes, in none of which a vector separates them, covers all vectors (`Covered`). A log of
/// resolutions refutes that some vector separates them, after a tree with an open leaf (`Refuted`). Or such a tree
/// and a log of learned clauses have spent the budgets (`Spent`).
#[derive(Debug, Drop)]
pub enum Proof {
    Collapse,
    Covered(Tree),
    Refuted(Tree, Log),
    Spent(Tree, Log),
}

/// Evidence for a member of a class and the class's representative, the partner.
#[derive(Debug)]
pub struct Evidence {
    pub member: u32,
    pub partner: u32,
    pub proof: Proof,
}

// Written by hand, it is one step in the proof of each function that drops evidence or a record. A derived one is a
// step for each part of each proof.
impl Drop for Evidence {
    fn drop(self) {
        let Evidence {
            member: _,
            partner: _,
            proof: _,
        } = self;
    }
}

/// A line of a result file: the sources, positions and numbers (`Head`); the budgets; a pattern; evidence (`Same`); a
/// class with its parent and the pattern that cut it off, none for class 0; a number with its class and mark
/// (`Member`); or the end.
#[derive(Debug, Drop)]
pub enum Record {
    Head(u32, u32, u32),
    Budget(Budgets),
    Pattern(Vector),
    Same(Evidence),
    Class(u32, Option<(u32, u32)>),
    Member(u32, u32, Mark),
    End,
}
