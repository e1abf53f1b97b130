//! The miter of a pair of faults, built into a pool of clauses.

ghost use Rattle.std.specs.Prelude.{◌≡◌, ◌+◌, ◌<◌, ◌^◌, [], length, IfOk, OnOk, OnErr};
ghost use Rattle.net_model.specs.Circuit.{IsCircuit};
ghost use Rattle.net_model.specs.Fault.{IsFaultOf};
ghost use Rattle.pair_miter.specs.declared.side.Side.TheVariants.{First};
ghost use Rattle.pair_miter.specs.Adds.{GrowsFor, WritesClauses};
ghost use Rattle.pair_miter.specs.Miter.{differences_part, lines_part, miter, tidy};
ghost use Rattle.pair_miter.specs.MiterView.{miter_with};
ghost use Rattle.pair_miter.specs.Variables.{difference_variable, first_helper, variable_count};

use crate::helpers::count_helpers;
use crate::miter::Miter;
use crate::numbering::Numbering;
use crate::space::MiterSpace;
use crate::writer::Writer;
use clause_pool::Pool;
use net_model::{Circuit, Fault};
use std::alloc::{AllocError, Global};

/// Builds the miter of faults `f` and `g` of `circuit`, and writes its clauses into the empty pool `pool`. After an
/// error the pool is empty. In both cases it has its old places, and grew only if they were too few for the miter, to
/// no more than the miter needs.
pub fn build<'a>(
    alloc: Global,
    circuit: &'a Circuit,
    f: &Fault,
    g: &Fault,
    pool: &mut Pool,
) -> Result<Miter<'a>, AllocError>
    requires empty { pool.old.clauses ≡ [] }
    requires first { IsFaultOf circuit.now f.now }
    requires second { IsFaultOf circuit.now g.now }
    ensures miter { IfOk result (λ built. built ≡ miter_with circuit.now f.now g.now) }
    ensures clauses { OnOk result (pool.new.clauses ≡ miter circuit.now f.now g.now) }
    ensures err { OnErr result (pool.new.clauses ≡ []) }
    ensures places { GrowsFor pool.old pool.new (miter circuit.now f.now g.now) }
{
    MiterSpace::new(alloc, circuit)?.build(f, g, pool)
}

/// Writes the clauses of the lines and of the differences into the empty pool. Returns the number of variables.
pub(crate) fn write_parts(
    alloc: Global,
    pool: &mut Pool,
    numbering: &Numbering,
) -> Result<u32, AllocError>
    requires { pool.old.clauses ≡ [] }
    ensures variables { IfOk result (λ variables. variables ≡ variable_count numbering.now.circuit numbering.now.f numbering.now.g) }
    ensures written { WritesClauses result pool.old pool.new (miter numbering.now.circuit numbering.now.f numbering.now.g) }
    ensures circuit { IsCircuit numbering.now.circuit }
{
    let first_difference = numbering.end() + count_helpers(numbering);
    let variables = first_difference - 1 + numbering.reached_positions().len() as u32;
    let mut writer = Writer::new(alloc, variables, numbering.end())?;
    write_lines(&mut writer, pool, numbering)?;
    write_differences(alloc, &mut writer, pool, numbering, first_difference)?;
    Ok(variables)
}

// Writes the clauses of all relevant lines.
fn write_lines(
    writer: &mut Writer,
    pool: &mut Pool,
    numbering: &Numbering,
) -> Result<(), AllocError>
    requires variables { writer.old.tidier ≡ variable_count numbering.now.circuit numbering.now.f numbering.now.g }
    requires helper { writer.old.helper ≡ first_helper numbering.now.circuit numbering.now.f numbering.now.g First 0 }
    ensures written { WritesClauses result pool.old pool.new (tidy (lines_part numbering.now.circuit numbering.now.f numbering.now.g)) }
    ensures variables { writer.new.tidier ≡ writer.old.tidier }
{
    for line in numbering.relevant_lines() {
        writer.write_line(pool, numbering, *line)?;
    }
    Ok(())
}

// Writes the clauses of all differences, and the clause that there is a difference.
fn write_differences(
    alloc: Global,
    writer: &mut Writer,
    pool: &mut Pool,
    numbering: &Numbering,
    first_difference: u32,
) -> Result<(), AllocError>
    requires variables { writer.old.tidier ≡ variable_count numbering.now.circuit numbering.now.f numbering.now.g }
    requires difference { first_difference ≡ difference_variable numbering.now.circuit numbering.now.f numbering.now.g 0 }
    ensures written { WritesClauses result pool.old pool.new (tidy (differences_part numbering.now.circuit numbering.now.f numbering.now.g)) }
    ensures variables { writer.new.tidier ≡ writer.old.tidier }
{
    let mut differences = Vec::new(alloc);
    let mut difference = first_difference;
    for position in numbering.reached_positions() {
        writer.write_difference(pool, numbering, *position, difference)?;
        differences.push(writer.tidier.literal(difference, true))?;
        difference += 1;
    }
    writer.tidier.write(pool, differences.as_slice())
}
