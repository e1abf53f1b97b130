//! The destinations of each line: the gate pins and observed positions that read it.

ghost use Rattle.std.specs.Prelude.{◌≡◌, ◌<◌, ◌^◌, All, IfOk, OnOk, length, map};
ghost use Rattle.net_model.specs.Circuit.{all_lines};
ghost use Rattle.net_model.specs.FaultList.{destinations};
ghost use Rattle.fault_list.specs.Destinations.{reader_site, AddsReaders};

use net_model::{Circuit, GrowingLists, Site};
use std::alloc::{AllocError, Global};

// Where lines are read: at the pins of the gate of a line, or at the observed positions.
#[derive(Clone, Copy)]
pub(crate) enum Readers {
    Gate(u32),
    Positions,
}

// Returns the destinations of each line, gate pins first.
pub(crate) fn destinations(
    alloc: Global,
    circuit: &Circuit,
) -> Result<GrowingLists<Site>, AllocError>
    ensures { IfOk result (λ found. found ≡ map (destinations circuit.now) (all_lines circuit.now)) }
{
    let mut found = GrowingLists::none(alloc, circuit.lines() as usize)?;
    for line in circuit.sources()..circuit.lines() {
        let pins = circuit.gate(line).pins.as_slice();
        add_readers(&mut found, Readers::Gate(line), pins)?;
    }
    add_readers(&mut found, Readers::Positions, circuit.positions())?;
    Ok(found)
}

// Adds each reader to the destinations of the line that it reads.
fn add_readers(
    found: &mut GrowingLists<Site>,
    readers: Readers,
    lines: &[u32],
) -> Result<(), AllocError>
    requires inside { All (λ line. line < length found.old) lines.now }
    requires few { length lines.now < 2 ^ 32 }
    ensures { OnOk result (AddsReaders (reader_site readers) lines.now found.old found.new) }
{
    for (place, line) in lines.iter().enumerate() {
        found.add(*line as usize, reader_site(readers, place as u32))?;
    }
    Ok(())
}

fn reader_site(readers: Readers, place: u32) -> Site
    ensures { result ≡ reader_site readers place }
{
    match readers {
        Readers::Gate(gate) => Site::Pin(gate, place),
        Readers::Positions => Site::Position(place),
    }
}
