//! `Wiring`: an order of the gates, and for each line the gates that read it and the positions that show it.

ghost use Rattle.std.specs.Prelude.{◌≡◌, ◌≢◌, ◌<◌, ◌^◌, ℕ, [], All, IfOk, length, slice_index, slice_index_or};
ghost use Rattle.net_model.specs.Circuit.{FitsTogether, line_count};
ghost use Rattle.net_model.specs.Order.{IsOrder};
ghost use Rattle.net_model.specs.Topological.{parts_circuit, count_of, pins_reading, AreReaders};
ghost use Rattle.net_model.specs.Wiring.{AreUsers, IsWiring, reads_at, shows_at};

use crate::lists::Lists;
use crate::topological::Parts;
use crate::users::Users;
use std::alloc::{AllocError, Global};
use std::marker::Model;

/// The gates of a circuit in an order, the gates that read each line, and the observed positions that show it.
#[derive(Debug, Drop)]
pub struct Wiring {
    order: Vec<u32>,
    readers: Lists,
    showing: Lists,
}

impl Model for Wiring {
    ghost use Rattle.net_model.specs.Wiring as spec;

    ghost Value = { spec.Wiring };

    ghost use Rattle.net_model.specs.WiringFields.{wiring_of};

    ghost view = { wiring_of };
}

impl Wiring {
    /// Returns all gates, each after the gates that it reads.
    pub fn order(&self) -> &[u32]
        ensures { result.now ≡ self.now.order }
    {
        self.order.as_slice()
    }

    /// Returns the places in the order of the gates that read `line`. A place may occur more than once.
    pub fn readers(&self, line: u32) -> &[u32]
        requires { line < length self.now.readers }
        ensures { result.now ≡ slice_index_or self.now.readers line [] }
    {
        self.readers.at(line)
    }

    /// Returns the observed positions that show `line`.
    pub fn showing(&self, line: u32) -> &[u32]
        requires { line < length self.now.showing }
        ensures { result.now ≡ slice_index_or self.now.showing line [] }
    {
        self.showing.at(line)
    }
}

// Returns the wiring of gates in `order`, given the readers of each line.
pub(crate) fn wiring_of(
    alloc: Global,
    parts: &Parts,
    order: Vec<u32>,
    readers: Users,
) -> Result<Wiring, AllocError>
    requires fits { FitsTogether (parts_circuit parts.now) }
    requires order { IsOrder (parts_circuit parts.now) order.items }
    requires distinct { (j k : ℕ) → j < k → k < length order.items → slice_index order.items j ≢ slice_index order.items k }
    requires readers { AreReaders (parts_circuit parts.now) readers }
    ensures { IfOk result (λ wiring. IsWiring (parts_circuit parts.now) wiring) }
{
    let readers = reader_places(alloc, parts, order.as_slice(), readers)?;
    let showing = showing_of(alloc, parts)?;
    Ok(Wiring {
        order,
        readers,
        showing,
    })
}

// Returns for each line the places in `order` of its `readers`.
fn reader_places(
    alloc: Global,
    parts: &Parts,
    order: &[u32],
    mut readers: Users,
) -> Result<Lists, AllocError>
    requires fits { FitsTogether (parts_circuit parts.now) }
    requires order { IsOrder (parts_circuit parts.now) order.now }
    requires distinct { (j k : ℕ) → j < k → k < length order.now → slice_index order.now j ≢ slice_index order.now k }
    requires readers { AreReaders (parts_circuit parts.now) readers }
    ensures users { IfOk result (λ places. AreUsers (length order.now) (reads_at (parts_circuit parts.now) order.now) places) }
    ensures whole { IfOk result (λ places. length places ≡ line_count (parts_circuit parts.now)) }
    ensures long { IfOk result (λ places. (line : ℕ) → line < line_count (parts_circuit parts.now) → length (slice_index_or places line []) ≡ pins_reading (parts_circuit parts.now) line) }
{
    let lines = parts.sources + parts.gates.len() as u32;
    let places = places_of(alloc, lines, order)?;
    readers.renumber(places.as_slice());
    Lists::of_users(alloc, &readers)
}

// Returns a table of places by line: for each line in `order` its place there.
fn places_of(alloc: Global, lines: u32, order: &[u32]) -> Result<Vec<u32>, AllocError>
    requires few { length order.now < 2 ^ 32 }
    requires inside { All (λ line. line < lines) order.now }
    requires distinct { (j k : ℕ) → j < k → k < length order.now → slice_index order.now j ≢ slice_index order.now k }
    ensures whole { IfOk result (λ places. length places.items ≡ lines) }
    ensures each { IfOk result (λ places. (place : ℕ) → place < length order.now → slice_index places.items (slice_index order.now place) ≡ place) }
{
    let mut places = vec![in alloc; 0; lines as usize]?;
    for (place, line) in order.iter().enumerate() {
        places[*line as usize] = place as u32;
    }
    Ok(places)
}

// Returns the observed positions that show each line.
fn showing_of(alloc: Global, parts: &Parts) -> Result<Lists, AllocError>
    requires { FitsTogether (parts_circuit parts.now) }
    ensures users { IfOk result (λ places. AreUsers (length parts.now.positions.items) (shows_at (parts_circuit parts.now)) places) }
    ensures whole { IfOk result (λ places. length places ≡ line_count (parts_circuit parts.now)) }
    ensures long { IfOk result (λ places. (line : ℕ) → length (slice_index_or places line []) ≡ count_of line parts.now.positions.items) }
{
    let lines = parts.sources + parts.gates.len() as u32;
    let mut users = Users::none(alloc, lines as usize)?;
    for (position, line) in parts.positions.iter().enumerate() {
        users.add(*line as usize, position as u32)?;
    }
    Lists::of_users(alloc, &users)
}
