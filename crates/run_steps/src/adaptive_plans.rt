//! Reads and judges an adaptive plan.

ghost use Rattle.std.specs.Prelude.{IfErr, IfOk};
ghost use Rattle.adaptive_tree.specs.WellFormed.{IsWellFormed};
ghost use Rattle.run_steps.specs.AdaptivePlans.{IsAdaptivePlanFile, IsRefusedPlan};
ghost use Rattle.run_steps.specs.declared.ending.FileKind.TheVariants as file;
ghost use Rattle.run_steps.specs.Steps.{adaptive_fault_text, WasAccepted, IsOver};

use crate::ending::{FileKind, RunFault};
use crate::reads::{BytesFault, read_judged};
use crate::texts::plan_fault_text;
use adaptive_tree::{Plan, PlanFault, read_plan};
use diag_shelf::Shelf;
use std::alloc::{AllocError, Global};

/// Reads and judges the adaptive plan `name`. Returns errors as `read_design` does, with `Refused(AdaptivePlan)` for a
/// plan that is refused.
pub fn read_adaptive_plan<S: Shelf>(
    alloc: Global,
    shelf: &mut S,
    name: &str,
) -> Result<Plan, RunFault>
    ensures formed { IfOk result IsWellFormed }
    ensures ok { IfOk result (λ plan. WasAccepted name.now file.AdaptivePlan IsAdaptivePlanFile plan (S.state shelf.old) (S.state shelf.new)) }
    ensures err { IfErr result (λ why. IsOver name.now file.AdaptivePlan IsRefusedPlan why (S.state shelf.old) (S.state shelf.new)) }
{
    read_judged(alloc, shelf, name, FileKind::AdaptivePlan, |bytes| {
        read_plan(alloc, bytes)
    })
}

impl BytesFault for PlanFault {
    ghost said = { adaptive_fault_text };

    fn text(self, alloc: Global) -> Result<Vec<u8>, AllocError> {
        match self {
            PlanFault::At(kind, line) => Ok(plan_fault_text(alloc, kind, line)?.into_bytes()),
            PlanFault::NoMemory => Err(AllocError),
        }
    }
}
