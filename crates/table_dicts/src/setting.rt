//! What a dictionary without a table of all answers is made from, and what a log is scored by.

ghost use Rattle.table_dicts.specs.Setting.{IsSetting, IsScored};

use class_refine::Classes;
use fault_collapse::Subject;
use net_model::Vectors;

/// A circuit with its faults, patterns, and the classes of these patterns. Logs can also be scored by other classes.
#[derive(Clone, Copy, Debug)]
pub struct Setting<'a> {
    pub subject: &'a Subject<'a>,
    pub patterns: &'a Vectors,
    pub classes: &'a Classes,
}

impl Setting<'_> {
    /// States that the classes of the patterns are of all the circuit's numbers, so that a log can be scored by them.
    /// Does nothing. A function whose proof needs this calls it.
    pub fn stands(&self)
        requires { IsSetting self.now }
        ensures { IsScored self.now }
    {}
}
