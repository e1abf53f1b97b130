//! The root of each fault, from the successors.

ghost use Rattle.std.specs.Prelude.{◌≡◌, ◌<◌, ◌^◌, ℕ, IfOk, None, Some, length, slice_get, slice_index_or, slice_set};
ghost use Rattle.std.specs.List.{range_with_len};
ghost use Rattle.net_model.specs.Circuit.{line_count};
ghost use Rattle.net_model.specs.FaultList.{faults as faults_of};
ghost use Rattle.fault_collapse.specs.Forest.{AreRoots, AreSuccessors};
ghost use Rattle.fault_collapse.specs.Underway.{followed, AreOwnRoots, AreStemRoots};

use fault_list::FaultList;
use net_model::{Circuit, Fault, Site};
use std::alloc::{AllocError, Global};

// Returns the numbers of all faults' roots. A successor is at the stem of a gate, and the successor of that stem is at
// a later gate. So the roots of stems are found from the last gate back, and then each fault gets the root of its
// successor.
pub(crate) fn roots(
    alloc: Global,
    circuit: &Circuit,
    faults: &FaultList,
    successors: &[Option<u32>],
) -> Result<Vec<u32>, AllocError>
    requires faults { faults.now ≡ faults_of circuit.now }
    requires successors { AreSuccessors circuit.now successors.now }
    ensures { IfOk result (λ roots. AreRoots circuit.now roots.items) }
{
    let mut roots = own_numbers(alloc, faults.len())?;
    find_stem_roots(&mut roots, circuit, faults, successors);
    find_roots(&mut roots, circuit, successors);
    Ok(roots)
}

// Returns the numbers below `count`, each at its own place.
fn own_numbers(alloc: Global, count: u32) -> Result<Vec<u32>, AllocError>
    ensures { IfOk result (λ numbers. numbers.items ≡ range_with_len 0 count) }
{
    let mut numbers = Vec::with_capacity(alloc, count as usize)?;
    for number in 0..count {
        numbers.push(number)?;
    }
    Ok(numbers)
}

// Finds the roots of the stems of all gates.
fn find_stem_roots(
    roots: &mut Vec<u32>,
    circuit: &Circuit,
    faults: &FaultList,
    successors: &[Option<u32>],
)
    requires faults { faults.now ≡ faults_of circuit.now }
    requires successors { AreSuccessors circuit.now successors.now }
    requires own { AreOwnRoots circuit.now successors.now roots.old.items }
    ensures own { AreOwnRoots circuit.now successors.now roots.new.items }
    ensures stems { AreStemRoots circuit.now roots.new.items }
{
    let order = circuit.order();
    for i in (0..order.len()).rev() {
        let low = stem_number(circuit, faults, order[i], false);
        follow(roots, successors, low);
        let high = stem_number(circuit, faults, order[i], true);
        follow(roots, successors, high);
    }
}

// Finds all roots from those of the stems.
fn find_roots(roots: &mut Vec<u32>, circuit: &Circuit, successors: &[Option<u32>])
    requires successors { AreSuccessors circuit.now successors.now }
    requires own { AreOwnRoots circuit.now successors.now roots.old.items }
    requires stems { AreStemRoots circuit.now roots.old.items }
    requires few { length roots.old.items < 2 ^ 27 }
    ensures { AreRoots circuit.now roots.new.items }
{
    circuit.stands();
    for number in 0..roots.len() as u32 {
        follow(roots, successors, number);
    }
}

// Gives a number the root of its successor, if it has one.
fn follow(roots: &mut Vec<u32>, successors: &[Option<u32>], number: u32)
    requires inside { number < length roots.old.items }
    requires known { number < length successors.now }
    requires successor { (next : ℕ) → slice_index_or successors.now number None ≡ Some next → next < length roots.old.items }
    ensures { roots.new.items ≡ slice_set roots.old.items number (followed successors.now roots.old.items number) }
{
    if let Some(next) = successors[number as usize] {
        roots[number as usize] = roots[next as usize];
    }
}

// Returns the number of a line's stem stuck at a value.
fn stem_number(circuit: &Circuit, faults: &FaultList, line: u32, bit: bool) -> u32
    requires faults { faults.now ≡ faults_of circuit.now }
    requires line { line < line_count circuit.now }
    ensures { slice_get faults.now result ≡ Some (Fault.Stuck (Site.Stem line) bit) }
{
    faults
        .number_of(&Fault::Stuck(Site::Stem(line), bit))
        .unwrap()
}
