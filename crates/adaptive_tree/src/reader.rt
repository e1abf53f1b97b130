//! `Reader`: what is held of a plan while it is read, with the open asks and the answers of their branches.

ghost use Rattle.std.specs.Prelude.{◌≡◌, ◌<◌, [], OnOk};
ghost use Rattle.adaptive_tree.specs.Reading.{IsReadingPlan, HasBegun, is_node, is_branch, goes_on};

use crate::steps::Plan;
use std::alloc::{AllocError, Global};
use std::collections::BTreeSet;

/// An ask whose node isn't whole: its pattern, the number of branches that haven't begun, and the digits of the answers
/// of those that have.
#[derive(Drop)]
pub(crate) struct OpenAsk<'a> {
    pub(crate) pattern: u32,
    pub(crate) left: u32,
    pub(crate) answers: BTreeSet<&'a [u8]>,
}

/// What may come next.
#[derive(Clone, Copy)]
pub(crate) enum Next {
    Node,
    Branch,
    Nothing,
}

impl Next {
    pub(crate) fn is_node(self) -> bool
        ensures { result ≡ is_node self }
    {
        match self {
            Next::Node => true,
            Next::Branch | Next::Nothing => false,
        }
    }

    pub(crate) fn is_branch(self) -> bool
        ensures { result ≡ is_branch self }
    {
        match self {
            Next::Branch => true,
            Next::Node | Next::Nothing => false,
        }
    }
}

/// The plan so far, what may come next, the open asks, the innermost last, and the set of their patterns.
#[derive(Drop)]
pub(crate) struct Reader<'a> {
    pub(crate) plan: Plan,
    pub(crate) next: Next,
    pub(crate) open: Vec<OpenAsk<'a>>,
    pub(crate) asked: BTreeSet<u32>,
}

impl<'a> OpenAsk<'a> {
    /// Notes that one more branch has begun, for the answer of these digits.
    pub(crate) fn begin(&mut self, digits: &'a [u8]) -> Result<(), AllocError>
        requires { 0 < self.old.left }
        ensures { OnOk result (HasBegun self.old self.new digits.entry) }
    {
        self.answers.insert(digits)?;
        self.left -= 1;
        Ok(())
    }
}

impl<'a> Reader<'a> {
    /// Returns a reader for a plan that has no steps yet.
    pub(crate) fn new(alloc: Global, plan: Plan) -> Reader<'a>
        requires { plan.steps ≡ [] }
        ensures reading { IsReadingPlan result }
        ensures plan { result.plan ≡ plan }
    {
        Reader {
            plan,
            next: Next::Node,
            open: Vec::new(alloc),
            asked: BTreeSet::new(alloc),
        }
    }

    /// Returns whether the steps aren't a whole node yet.
    pub(crate) fn goes_on(&self) -> bool
        ensures { result ≡ goes_on self.now.next }
    {
        match self.next {
            Next::Node | Next::Branch => true,
            Next::Nothing => false,
        }
    }

    /// Returns the plan so far.
    pub(crate) fn into_plan(self) -> Plan
        ensures { result ≡ self.entry.plan }
    {
        self.plan
    }
}
