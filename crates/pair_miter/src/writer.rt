//! The clauses of lines and positions, written into a pool.

ghost use Rattle.std.specs.Prelude.{◌≡◌, ◌+◌, ◌<◌, ◌^◌, true, IfOk, OnOk, length};
ghost use Rattle.net_model.specs.Circuit.{line_count};
ghost use Rattle.net_model.specs.Fault.{stuck_stem};
ghost use Rattle.net_model.specs.Scope.{is_relevant, is_reached};
ghost use Rattle.pair_miter.specs.Adds.{WritesClauses};
ghost use Rattle.pair_miter.specs.Miter.{copy_clauses, line_clauses, difference_clauses, tidy};
ghost use Rattle.pair_miter.specs.Numbering.{HasCopy};
ghost use Rattle.pair_miter.specs.Variables.{first_helper, copy_helpers, line_helpers, difference_variable, variable_count};

use crate::helpers::copy_helpers;
use crate::numbering::Numbering;
use crate::operand::Operand;
use crate::reading::{read_pins, shown};
use crate::rows::write_gate;
use crate::side::Side;
use crate::tidier::Tidier;
use clause_pool::Pool;
use net_model::{Kind, stuck_stem};
use std::alloc::{AllocError, Global};

/// A writer of clauses, with the next helper.
#[derive(Drop)]
pub(crate) struct Writer {
    pub(crate) tidier: Tidier,
    pub(crate) helper: u32,
    operands: Vec<Operand>,
}

impl Writer {
    pub(crate) fn new(alloc: Global, variables: u32, helper: u32) -> Result<Writer, AllocError>
        requires { variables < 2 ^ 31 }
        ensures variables { IfOk result (λ writer. writer.tidier ≡ variables) }
        ensures helper { IfOk result (λ writer. writer.helper ≡ helper) }
    {
        Ok(Writer {
            tidier: Tidier::new(alloc, variables)?,
            helper,
            operands: Vec::new(alloc),
        })
    }

    /// Writes the clauses of a relevant line.
    pub(crate) fn write_line(
        &mut self,
        pool: &mut Pool,
        numbering: &Numbering,
        line: u32,
    ) -> Result<(), AllocError>
        requires variables { self.old.tidier ≡ variable_count numbering.now.circuit numbering.now.f numbering.now.g }
        requires line { line < line_count numbering.now.circuit }
        requires relevant { is_relevant numbering.now.circuit numbering.now.f numbering.now.g line ≡ true }
        requires helper { self.old.helper ≡ first_helper numbering.now.circuit numbering.now.f numbering.now.g Side.First line }
        ensures written { WritesClauses result pool.old pool.new (tidy (line_clauses numbering.now.circuit numbering.now.f numbering.now.g line)) }
        ensures helper { OnOk result (self.new.helper ≡ self.old.helper + line_helpers numbering.now.circuit numbering.now.f numbering.now.g line) }
        ensures variables { self.new.tidier ≡ self.old.tidier }
    {
        self.write_copy(pool, numbering, Side::First, line)?;
        if numbering.split(line) {
            self.write_copy(pool, numbering, Side::Second, line)?;
        }
        Ok(())
    }

    // Writes the clauses of a relevant line in copy `side`.
    fn write_copy(
        &mut self,
        pool: &mut Pool,
        numbering: &Numbering,
        side: Side,
        line: u32,
    ) -> Result<(), AllocError>
        requires variables { self.old.tidier ≡ variable_count numbering.now.circuit numbering.now.f numbering.now.g }
        requires line { line < line_count numbering.now.circuit }
        requires relevant { is_relevant numbering.now.circuit numbering.now.f numbering.now.g line ≡ true }
        requires copy { HasCopy numbering.now.circuit numbering.now.f numbering.now.g side line }
        requires helper { self.old.helper ≡ first_helper numbering.now.circuit numbering.now.f numbering.now.g side line }
        ensures written { WritesClauses result pool.old pool.new (tidy (copy_clauses numbering.now.circuit numbering.now.f numbering.now.g side line)) }
        ensures helper { OnOk result (self.new.helper ≡ self.old.helper + copy_helpers numbering.now.circuit numbering.now.f numbering.now.g side line) }
        ensures variables { self.new.tidier ≡ self.old.tidier }
    {
        if let Some(bit) = stuck_stem(numbering.fault(side), line) {
            let unit = self.tidier.literal(numbering.variable(side, line), bit);
            return self.tidier.write(pool, &[unit]);
        }
        let circuit = numbering.circuit();
        if line < circuit.sources() {
            return Ok(());
        }
        let gate = circuit.gate(line);
        let output = numbering.variable(side, line);
        read_pins(&mut self.operands, numbering, side, line, gate)?;
        write_gate(
            &mut self.tidier,
            pool,
            gate.kind,
            output,
            self.helper,
            self.operands.as_slice(),
        )?;
        self.helper += copy_helpers(numbering, side, line);
        Ok(())
    }

    /// Writes the clauses of the difference of a reached position.
    pub(crate) fn write_difference(
        &mut self,
        pool: &mut Pool,
        numbering: &Numbering,
        position: u32,
        difference: u32,
    ) -> Result<(), AllocError>
        requires position { position < length numbering.now.circuit.positions }
        requires reached { is_reached numbering.now.circuit numbering.now.f numbering.now.g position ≡ true }
        requires difference { difference ≡ difference_variable numbering.now.circuit numbering.now.f numbering.now.g position }
        requires variables { self.old.tidier ≡ variable_count numbering.now.circuit numbering.now.f numbering.now.g }
        ensures written { WritesClauses result pool.old pool.new (tidy (difference_clauses numbering.now.circuit numbering.now.f numbering.now.g position)) }
        ensures variables { self.new.tidier ≡ self.old.tidier }
    {
        let operands = [
            shown(numbering, Side::First, position),
            shown(numbering, Side::Second, position),
        ];
        write_gate(&mut self.tidier, pool, Kind::Xor, difference, 0, &operands)
    }
}
