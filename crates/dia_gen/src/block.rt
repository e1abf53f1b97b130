//! The cubes of a block: that of the number whose turn it is, and those found for the next numbers that are still open.

ghost use Rattle.std.specs.Prelude.{◌≡◌, ◌<◌, All, OnOk, length};
ghost use Rattle.net_model.specs.Circuit.{IsCircuit};
ghost use Rattle.net_model.specs.FaultList.{fault_count};
ghost use Rattle.class_refine.specs.Fields.{IsWhole};
ghost use Rattle.dia_gen.specs.Settled.{IsSpaceFor, AreCubesFor, IsNarrowed};

use crate::ahead::Known;
use crate::pair::{PairSpace, find};
use crate::setting::GenerationSetting;
use class_refine::Classes;
use distinguish_search::Searched;
use kept_vectors::Cube;
use member_marks::Marks;
use std::alloc::{AllocError, Global};

// The most cubes that share the lanes of a block.
const CUBES: usize = 8;

// Searches cubes for the next open numbers that are the lowest with their roots, starting at `first`, at most as many
// as `setting.ahead()`. Adds the cubes found to `cubes`. What was found stays known.
pub(crate) fn add_ahead(
    alloc: Global,
    setting: &GenerationSetting,
    space: &mut PairSpace,
    classes: &Classes,
    marks: &Marks,
    first: u32,
    cubes: &mut Vec<Cube>,
) -> Result<(), AllocError>
    requires circuit { IsCircuit setting.now.circuit }
    requires whole { IsWhole classes.now }
    requires numbers { length classes.now.class_of ≡ fault_count setting.now.circuit }
    requires marks { length marks.now ≡ length classes.now.class_of }
    requires space { IsSpaceFor setting.now.circuit setting.now.budgets space.old }
    requires cubes { AreCubesFor setting.now.circuit cubes.old.items }
    ensures space { OnOk result (IsSpaceFor setting.now.circuit setting.now.budgets space.new) }
    ensures cubes { OnOk result (AreCubesFor setting.now.circuit cubes.new.items) }
    ensures narrowed { OnOk result (IsNarrowed cubes.old.items cubes.new.items) }
{
    let mut left = setting.ahead();
    for number in first..setting.numbers() {
        if left == 0 {
            return Ok(());
        }
        if space.ahead.is_lowest(number) && marks.of(classes, number).is_none() {
            let lead = classes.representative(classes.class_of(number));
            add_pair(alloc, setting, space, lead, number, cubes)?;
            left -= 1;
        }
    }
    Ok(())
}

// Searches a cube for the pair `lead` and `number`, and adds it to `cubes` if one is found. What was found stays known.
fn add_pair(
    alloc: Global,
    setting: &GenerationSetting,
    space: &mut PairSpace,
    lead: u32,
    number: u32,
    cubes: &mut Vec<Cube>,
) -> Result<(), AllocError>
    requires lead { lead < fault_count setting.now.circuit }
    requires number { number < fault_count setting.now.circuit }
    requires circuit { IsCircuit setting.now.circuit }
    requires space { IsSpaceFor setting.now.circuit setting.now.budgets space.old }
    requires cubes { AreCubesFor setting.now.circuit cubes.old.items }
    ensures space { OnOk result (IsSpaceFor setting.now.circuit setting.now.budgets space.new) }
    ensures cubes { OnOk result (AreCubesFor setting.now.circuit cubes.new.items) }
    ensures narrowed { OnOk result (IsNarrowed cubes.old.items cubes.new.items) }
{
    let found = find(alloc, setting, space, lead, number)?;
    if let Searched::Apart(cube) = &found {
        add_cube(alloc, cubes, cube.as_slice())?;
    }
    space.ahead.put(number, Known { lead, found });
    Ok(())
}

// Joins `cube` to the first of `cubes` that it doesn't contradict. If it contradicts all, appends it if there is room.
fn add_cube(alloc: Global, cubes: &mut Vec<Cube>, cube: &[Option<bool>]) -> Result<(), AllocError>
    requires some { 0 < length cubes.old.items }
    requires widths { All (λ other. length other ≡ length cube.now) cubes.old.items }
    ensures some { OnOk result (0 < length cubes.new.items) }
    ensures widths { OnOk result (All (λ other. length other ≡ length cube.now) cubes.new.items) }
    ensures narrowed { OnOk result (IsNarrowed cubes.old.items cubes.new.items) }
{
    for at in 0..cubes.len() {
        if cubes[at].join(cube) {
            return Ok(());
        }
    }
    if cubes.len() < CUBES {
        cubes.push(Cube::new(Vec::from_slice(alloc, cube)?))?;
    }
    Ok(())
}
