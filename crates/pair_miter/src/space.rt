//! `MiterSpace`, the space of a circuit's miters, reused from pair to pair.

ghost use Rattle.std.specs.Prelude.{◌≡◌, [], IfOk, OnOk, OnErr};
ghost use Rattle.net_model.specs.Fault.{IsFaultOf};
ghost use Rattle.pair_miter.specs.Adds.{GrowsFor, WritesClauses};
ghost use Rattle.pair_miter.specs.Miter.{miter};
ghost use Rattle.pair_miter.specs.MiterView.{miter_with};

use crate::building::write_parts;
use crate::miter::Miter;
use crate::numbering::Numbering;
use clause_pool::Pool;
use net_model::{Circuit, Fault};
use std::alloc::{AllocError, Global};
use std::marker::Model;

/// The space in which the miters of pairs of a circuit's faults are built one after another. What a pair costs grows
/// with its scope.
#[derive(Debug, Drop)]
pub struct MiterSpace<'a> {
    pub(crate) alloc: Global,
    pub(crate) numbering: Numbering<'a>,
}

impl<'a> Model for MiterSpace<'a> {
    ghost use Rattle.net_model.specs.Circuit.{Circuit};

    ghost Value = { Circuit };

    ghost view = { λ a. a.numbering.circuit };
}

impl<'a> MiterSpace<'a> {
    /// Returns space for the miters of `circuit`.
    pub fn new(alloc: Global, circuit: &'a Circuit) -> Result<MiterSpace<'a>, AllocError>
        ensures { IfOk result (λ space. space ≡ circuit.now) }
    {
        let numbering = Numbering::new(alloc, circuit)?;
        Ok(MiterSpace { alloc, numbering })
    }

    /// Builds the miter of faults `f` and `g` of the circuit, and writes its clauses into the empty pool `pool`. After
    /// an error the pool is empty, and the space is gone. In both cases the pool has its old places, and grew only if
    /// they were too few for the miter, to no more than the miter needs.
    pub fn build(self, f: &Fault, g: &Fault, pool: &mut Pool) -> Result<Miter<'a>, AllocError>
        requires empty { pool.old.clauses ≡ [] }
        requires first { IsFaultOf self f.now }
        requires second { IsFaultOf self g.now }
        ensures miter { IfOk result (λ built. built ≡ miter_with self.entry f.now g.now) }
        ensures clauses { OnOk result (pool.new.clauses ≡ miter self.entry f.now g.now) }
        ensures err { OnErr result (pool.new.clauses ≡ []) }
        ensures places { GrowsFor pool.old pool.new (miter self.entry f.now g.now) }
    {
        let empty = pool.mark();
        let built = write_miter(self, *f, *g, pool);
        if built.is_err() {
            pool.release(empty);
        }
        built
    }
}

// Writes the clauses of a miter.
fn write_miter<'a>(
    space: MiterSpace<'a>,
    f: Fault,
    g: Fault,
    pool: &mut Pool,
) -> Result<Miter<'a>, AllocError>
    requires empty { pool.old.clauses ≡ [] }
    requires first { IsFaultOf space f }
    requires second { IsFaultOf space g }
    ensures miter { IfOk result (λ built. built ≡ miter_with space.entry f g) }
    ensures written { WritesClauses result pool.old pool.new (miter space.entry f g) }
{
    let MiterSpace {
        alloc,
        mut numbering,
    } = space;
    numbering.show(f, g);
    let variables = write_parts(alloc, pool, &numbering)?;
    Ok(Miter {
        alloc,
        numbering,
        variables,
        clauses: pool.len(),
    })
}
