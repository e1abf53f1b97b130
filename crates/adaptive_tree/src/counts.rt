//! `Plan::asks` and `Plan::depth`: how many asks a plan has, in all and on one way.

ghost use Rattle.std.specs.Prelude.{◌≡◌, ◌<◌, ◌^◌};
ghost use Rattle.adaptive_tree.specs.PlanNode.{HasNode, ask_count, is_ask as is_ask_step, depth_of};
ghost use Rattle.adaptive_tree.specs.WellFormed.{IsWellFormed};

use crate::steps::{Plan, Step};

impl Plan {
    /// Returns the number of asks in the plan.
    pub fn asks(&self) -> u32
        requires formed { IsWellFormed self.now }
        requires few { ask_count self.now.steps < 2 ^ 32 }
        ensures { result ≡ ask_count self.now.steps }
    {
        let steps = self.steps.as_slice();
        let asks = steps.iter().filter(|step| is_ask(step)).count();
        asks as u32
    }

    /// Returns the greatest number of asks on one way down the plan.
    pub fn depth(&self) -> u32
        requires { IsWellFormed self.now }
        ensures { (root : HasNode self.now) → result ≡ depth_of root.node }
    {
        self.steps.most_open() as u32
    }
}

fn is_ask(step: &Step) -> bool
    ensures { result ≡ is_ask_step step.now }
{
    match step {
        Step::Ask(_, _) => true,
        Step::On(_) | Step::Class(_) => false,
    }
}
