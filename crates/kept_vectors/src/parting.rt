//! The classes that lists of vectors make.

ghost use Rattle.std.specs.Prelude.{◌≡◌, ◌++◌, List, Bool, All, IfOk, length};
ghost use Rattle.net_model.specs.FaultList.{fault_count};
ghost use Rattle.kept_vectors.specs.Kept.{nothing_kept, Keeps};
ghost use Rattle.kept_vectors.specs.Laws.{IsPartedBy};

use crate::keeper::Keeper;
use crate::laws::kept_tell_as_much;
use class_refine::Classes;
use fault_collapse::Subject;
use net_model::Vector;
use std::alloc::{AllocError, Global};

/// Returns the classes of fault numbers that two lists of vectors tell apart together, `one` before `other`.
pub fn classes_of(
    alloc: Global,
    subject: &Subject,
    one: &[Vector],
    other: &[Vector],
) -> Result<Classes, AllocError>
    requires one { All (λ v. length v ≡ subject.now.sources) one.now }
    requires other { All (λ v. length v ≡ subject.now.sources) other.now }
    ensures keeps { IfOk result (λ t. (kept : List (List Bool)) × Keeps subject.now (one.now ++ other.now) (nothing_kept (fault_count subject.now)) (record { vectors = kept; table = t })) }
    ensures parted { IfOk result (IsPartedBy subject.now (one.now ++ other.now)) }
{
    kept_tell_as_much();
    let mut keeper = Keeper::new(alloc, subject)?;
    keeper.keep_list(one)?;
    keeper.keep_list(other)?;
    let (_vectors, classes) = keeper.into_kept();
    Ok(classes)
}
