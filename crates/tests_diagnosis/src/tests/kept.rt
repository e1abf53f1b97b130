//! Vectors that split classes of a circuit, and the classes of all of them.

ghost use Rattle.std.specs.Prelude.{◌≡◌, ◌<◌, ◌^◌, length, All, IfOk, OnOk};
ghost use Rattle.net_model.specs.PatternRows.{IsTableOf};

use class_refine::Classes;
use fault_collapse::Subject;
use kept_vectors::Keeper;
use net_model::{Circuit, Vector, Vectors};
use sample_circuits::bits;
use std::alloc::Global;
use std::test::Fail;

// Vectors that each split a class of those before them, and the classes of all of them.
#[derive(Drop)]
pub(crate) struct Kept {
    pub(crate) patterns: Vectors,
    pub(crate) classes: Classes,
}

// Returns what is kept of these vectors.
pub(crate) fn kept_of(alloc: Global, subject: &Subject, texts: &[&str]) -> Result<Kept, Fail>
    ensures widths { IfOk result (λ kept. All (λ v. length v ≡ subject.now.sources) kept.patterns) }
    ensures few { IfOk result (λ kept. length kept.patterns < 2 ^ 32) }
    ensures table { IfOk result (λ kept. IsTableOf subject.now kept.patterns kept.classes) }
{
    let mut keeper = Keeper::new(alloc, subject)?;
    keep_all(alloc, subject.circuit(), &mut keeper, texts)?;
    kept_by(alloc, keeper)
}

// Shows these vectors to a keeper of the circuit.
fn keep_all(
    alloc: Global,
    circuit: &Circuit,
    keeper: &mut Keeper,
    texts: &[&str],
) -> Result<(), Fail>
    requires { keeper.old.circuit ≡ circuit.now }
    ensures { OnOk result (keeper.new.circuit ≡ circuit.now) }
{
    for text in texts {
        keep_text(alloc, circuit, keeper, text)?;
    }
    Ok(())
}

fn keep_text(alloc: Global, circuit: &Circuit, keeper: &mut Keeper, text: &str) -> Result<(), Fail>
    requires { keeper.old.circuit ≡ circuit.now }
    ensures { OnOk result (keeper.new.circuit ≡ circuit.now) }
{
    let v = bits(alloc, text)?;
    keep_vector(circuit, keeper, &v)
}

fn keep_vector(circuit: &Circuit, keeper: &mut Keeper, v: &Vector) -> Result<(), Fail>
    requires { keeper.old.circuit ≡ circuit.now }
    ensures { OnOk result (keeper.new.circuit ≡ circuit.now) }
{
    if v.len() != circuit.sources() as usize {
        return Err(Fail::new("a vector has another width"));
    }
    keeper.keep(v)?;
    Ok(())
}

// Returns what a keeper has kept.
fn kept_by(alloc: Global, keeper: Keeper) -> Result<Kept, Fail>
    ensures widths { IfOk result (λ kept. All (λ v. length v ≡ keeper.entry.circuit.sources) kept.patterns) }
    ensures few { IfOk result (λ kept. length kept.patterns < 2 ^ 32) }
    ensures table { IfOk result (λ kept. IsTableOf keeper.entry.circuit kept.patterns kept.classes) }
{
    let (vectors, classes) = keeper.into_kept();
    let patterns = listed(alloc, vectors)?;
    Ok(Kept { patterns, classes })
}

// Returns these vectors as a list of at most 1,000.
fn listed(alloc: Global, vectors: Vec<Vector>) -> Result<Vectors, Fail>
    ensures list { IfOk result (λ list. list ≡ vectors.items) }
    ensures few { IfOk result (λ list. length list < 2 ^ 32) }
{
    if vectors.len() > 1000 {
        return Err(Fail::new("there are too many vectors"));
    }
    let mut list = Vectors::new(alloc);
    for v in vectors {
        list.push(v)?;
    }
    Ok(list)
}
