//! The pairs of a circuit without faults.

ghost use Rattle.std.specs.Prelude.{[], IfOk};
ghost use Rattle.net_model.specs.declared.fault.Fault.TheVariants.{Free};
ghost use Rattle.pair_sets.specs.CubeState.{ArePairSets};

use crate::fault_pair::FaultPair;
use crate::pair_set::PairSet;
use net_model::{Circuit, Fault};
use std::alloc::{AllocError, Global};

/// Returns the pairs of each line without faults, under the cube of all vectors.
pub(crate) fn base_pairs(alloc: Global, circuit: &Circuit) -> Result<Vec<PairSet>, AllocError>
    ensures { IfOk result (λ sets. ArePairSets circuit.now Free Free [] sets.items) }
{
    let pair = FaultPair {
        circuit,
        f: Fault::Free,
        g: Fault::Free,
    };
    let mut sets = vec![in alloc; PairSet::free(); circuit.lines() as usize]?;
    for line in circuit.order() {
        let pairs = pair.line_pairs(sets.as_slice(), *line);
        sets[*line as usize] = pairs;
    }
    Ok(sets)
}
