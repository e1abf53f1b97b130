//! A table that finds the place of a site among the sites of a list. It has a row for the observed positions, and then
//! a row for each line, with its stem and the pins of its gate.

ghost use Rattle.std.specs.Prelude.{◌≡◌, ◌<◌, ◌+◌, ◌↔◌, ℕ, [], IfOk, OnOk, Some, flat_map, length, map, slice_get};
ghost use Rattle.std.specs.List.{range_with_len};
ghost use Rattle.net_model.specs.Circuit.{all_lines, line_count, pins_of};
ghost use Rattle.net_model.specs.FaultList.{sites_of_line};
ghost use Rattle.fault_list.specs.Slots.{site_row, site_row_start, slot_of, ArePlaces};

use net_model::{Circuit, Site};
use std::alloc::{AllocError, Global};

// Returns where each row starts, and where the last one ends.
pub(crate) fn starts(alloc: Global, circuit: &Circuit) -> Result<Vec<u32>, AllocError>
    ensures { IfOk result (λ found. found.items ≡ map (site_row_start circuit.now) (range_with_len 0 (line_count circuit.now + 2))) }
{
    let mut starts = Vec::with_capacity(alloc, circuit.lines() as usize + 2)?;
    add_starts(&mut starts, circuit)?;
    Ok(starts)
}

// Adds the starts to an empty vector.
fn add_starts(starts: &mut Vec<u32>, circuit: &Circuit) -> Result<(), AllocError>
    requires { starts.old.items ≡ [] }
    ensures { OnOk result (starts.new.items ≡ map (site_row_start circuit.now) (range_with_len 0 (line_count circuit.now + 2))) }
{
    let mut next = circuit.positions().len() as u32;
    starts.push(0)?;
    starts.push(next)?;
    for line in 0..circuit.lines() {
        next += 1 + pin_count(circuit, line);
        starts.push(next)?;
    }
    Ok(())
}

// Returns how many pins the gate of a line has, or 0 if no gate drives the line.
fn pin_count(circuit: &Circuit, line: u32) -> u32
    requires { line < line_count circuit.now }
    ensures { result ≡ length (pins_of circuit.now line) }
{
    if line < circuit.sources() {
        return 0;
    }
    circuit.gate(line).pins.as_slice().len() as u32
}

// Returns the table: at the slot of each site, its place in the list.
pub(crate) fn places(
    alloc: Global,
    circuit: &Circuit,
    starts: &[u32],
    sites: &[Site],
) -> Result<Vec<u32>, AllocError>
    requires starts { starts.now ≡ map (site_row_start circuit.now) (range_with_len 0 (line_count circuit.now + 2)) }
    requires sites { sites.now ≡ flat_map (sites_of_line circuit.now) (all_lines circuit.now) }
    ensures { IfOk result (λ found. ArePlaces starts.now found.items sites.now) }
{
    let slots = starts[circuit.lines() as usize + 1] as usize;
    let mut places = vec![in alloc; 0; slots]?;
    for (place, site) in sites.iter().enumerate() {
        if let Some(slot) = slot_of(starts, *site) {
            places[slot] = place as u32;
        }
    }
    Ok(places)
}

// Returns the place of a site in the list, if it is there.
pub(crate) fn place_of(starts: &[u32], places: &[u32], sites: &[Site], site: Site) -> Option<u32>
    requires { ArePlaces starts.now places.now sites.now }
    ensures { (place : ℕ) → (result ≡ Some place) ↔ (slice_get sites.now place ≡ Some site) }
{
    let slot = slot_of(starts, site)?;
    let place = *places.get(slot)?;
    let found = *sites.get(place as usize)?;
    (found == site).then_some(place)
}

// Returns the slot of a site, if the table has one.
fn slot_of(starts: &[u32], site: Site) -> Option<usize>
    ensures { result ≡ slot_of starts.now site }
{
    let (row, offset) = row_of(site);
    if row + 1 >= starts.len() {
        return None;
    }
    let slot = starts[row] as usize + offset;
    (slot < starts[row + 1] as usize).then_some(slot)
}

// Returns the row of a site, and its distance from the row's start.
fn row_of(site: Site) -> (usize, usize)
    ensures { result ≡ site_row site }
{
    match site {
        Site::Stem(line) => (line as usize + 1, 0),
        Site::Pin(gate, pin) => (gate as usize + 1, pin as usize + 1),
        Site::Position(at) => (0, at as usize),
    }
}
