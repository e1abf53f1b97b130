//! The command `sim`: what a circuit answers to a list of vectors, without a fault and with each fault that makes a
//! difference.

ghost use Rattle.std.specs.Prelude.{◌≡◌, ◌+◌, ◌<◌, ℕ, Bool, List, All, length, slice_range, []};
ghost use Rattle.net_model.specs.Circuit.{IsCircuit};
ghost use Rattle.sim_listing.specs.SimText.{IsSimTextFrom, IsSimText};
ghost use Rattle.sim_listing.specs.VectorTexts.{HaveSameVectors};
ghost use Rattle.run_steps.specs.Ending.{done};
ghost use Rattle.run_steps.specs.Outcome.{said, IsPartOf};
ghost use Rattle.listing_commands.specs.Plans.{sim_plan};
ghost use Rattle.run_steps.specs.Plans.{says, with_vectors};
ghost use Rattle.run_steps.specs.Ran.{Ends, Follows, list_endings};

use diag_shelf::Shelf;
use fault_collapse::Subject;
use net_model::{Circuit, Vector};
use run_steps::{RunFault, read_design, read_list, say};
use sim_listing::{VectorTexts, root_places};
use std::alloc::Global;

/// Reads and judges the netlist `bench` and then the list of `vectors`, and prints what the netlist's circuit answers
/// to each vector, without a fault and with each fault that makes a difference. Returns errors as `list_faults` does.
pub fn simulate<S: Shelf>(
    alloc: Global,
    shelf: &mut S,
    bench: &str,
    vectors: &str,
) -> Result<(), RunFault>
    ensures { Follows (sim_plan bench.now vectors.now) list_endings [] result (S.state shelf.old) (S.state shelf.new) }
{
    let design = read_design(alloc, shelf, bench)?;
    simulate_list(alloc, shelf, &design.circuit, vectors)
}

// Reads and judges the list of vectors, and prints what the circuit answers to each.
fn simulate_list<S: Shelf>(
    alloc: Global,
    shelf: &mut S,
    circuit: &Circuit,
    vectors: &str,
) -> Result<(), RunFault>
    ensures { Follows (with_vectors vectors.now circuit.now (λ (list : List (List Bool)). says (IsSimText circuit.now list))) list_endings [] result (S.state shelf.old) (S.state shelf.new) }
{
    let vectors = read_list(alloc, shelf, circuit, vectors)?;
    print_simulation(alloc, shelf, circuit, vectors.as_slice())
}

// Prints the text of the simulation, vector after vector.
fn print_simulation<S: Shelf>(
    alloc: Global,
    shelf: &mut S,
    circuit: &Circuit,
    vectors: &[Vector],
) -> Result<(), RunFault>
    requires { All (λ v. length v ≡ circuit.now.sources) vectors.now }
    ensures { (text : List ℕ) × IsSimText circuit.now vectors.now text × Ends (said done text) (IsPartOf (said done text)) result (S.state shelf.old) (S.state shelf.new) }
{
    circuit.stands();
    let subject = Subject::new(alloc, circuit)?;
    let roots = root_places(alloc, &subject)?;
    let mut texts = VectorTexts::new(alloc, &subject, &roots, vectors)?;
    for number in 0..vectors.len() {
        print_vector(alloc, shelf, &mut texts, number)?;
    }
    Ok(())
}

// Prints the lines of the vector with this number.
fn print_vector<S: Shelf>(
    alloc: Global,
    shelf: &mut S,
    texts: &mut VectorTexts,
    number: usize,
) -> Result<(), RunFault>
    requires circuit { IsCircuit texts.old.circuit }
    requires number { number < length texts.old.vectors }
    ensures same { HaveSameVectors texts.old texts.new }
    ensures said { (text : List ℕ) × IsSimTextFrom texts.old.circuit number (slice_range texts.old.vectors number (number + 1)) text × Ends (said done text) (IsPartOf (said done text)) result (S.state shelf.old) (S.state shelf.new) }
{
    let text = texts.text(alloc, number)?;
    say(shelf, text.as_bytes())
}
