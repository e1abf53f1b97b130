//! What an accepted file states.

use class_refine::Classes;
use net_model::Vectors;
use result_records::Budgets;

/// What a result amounts to: how many fault numbers, patterns and classes it has, and how many members are marked
/// equal to their representative or left open (the budgets are spent on them).
#[derive(Clone, Copy, Debug, PartialEq, Eq)]
pub struct Summary {
    pub numbers: u32,
    pub patterns: u32,
    pub classes: u32,
    pub equal: u32,
    pub spent: u32,
}

/// What a valid result states: its counts, its budgets and patterns, and the classes that the patterns tell apart.
#[derive(Debug, Drop)]
pub struct Checked {
    pub summary: Summary,
    pub budgets: Budgets,
    pub patterns: Vectors,
    pub classes: Classes,
}
