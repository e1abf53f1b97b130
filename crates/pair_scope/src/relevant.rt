//! The lines that lead to reached positions, found from these positions back.

ghost use Rattle.std.specs.Prelude.{◌≡◌, ◌<◌, ℕ, All, length};
ghost use Rattle.net_model.specs.Circuit.{line_count, Feeds};
ghost use Rattle.event_queue.specs.Pending.{is_pending, IsEmpty};
ghost use Rattle.pair_scope.specs.Places.{ArePlaced, AreWokenBack, IsShownBy, leads_to_shown};

use crate::places::LinePlaces;
use event_queue::NumberQueue;

/// Inserts into `found`, which is empty before, each line that is, or leads to, the line of one of the positions
/// `reached`.
pub(crate) fn find_relevant(
    places: &LinePlaces,
    reached: &[u32],
    back: &mut NumberQueue,
    found: &mut NumberQueue,
)
    requires placed { ArePlaced places.now }
    requires reached { All (λ at. at < length places.now.circuit.now.positions) reached.now }
    requires room { length back.old ≡ line_count places.now.circuit.now }
    requires none { IsEmpty back.old }
    requires found_room { length found.old ≡ line_count places.now.circuit.now }
    requires none_found { IsEmpty found.old }
    ensures room { length back.new ≡ length back.old }
    ensures none { IsEmpty back.new }
    ensures found_room { length found.new ≡ length found.old }
    ensures found { (line : ℕ) → line < line_count places.now.circuit.now → is_pending found.new line ≡ leads_to_shown places.now.circuit.now reached.now line }
{
    wake_shown(places, reached, back);
    let mut from = 0;
    while let Some(place) = back.take_lowest(from) {
        let line = places.line_back(place);
        found.insert(line);
        wake_pins(places, line, back);
        from = place + 1;
    }
}

// Makes the lines of the positions `reached` wait.
fn wake_shown(places: &LinePlaces, reached: &[u32], back: &mut NumberQueue)
    requires placed { ArePlaced places.now }
    requires reached { All (λ at. at < length places.now.circuit.now.positions) reached.now }
    requires room { length back.old ≡ line_count places.now.circuit.now }
    ensures room { length back.new ≡ length back.old }
    ensures woken { AreWokenBack (IsShownBy places.now.circuit.now reached.now) (line_count places.now.circuit.now) places.now.places.items back.old back.new }
{
    let positions = places.circuit.positions();
    for at in reached {
        back.insert(places.place_back(positions[*at as usize]));
    }
}

// Makes the lines that the gate of `line` reads wait, if a gate drives it.
fn wake_pins(places: &LinePlaces, line: u32, back: &mut NumberQueue)
    requires placed { ArePlaced places.now }
    requires line { line < line_count places.now.circuit.now }
    requires room { length back.old ≡ line_count places.now.circuit.now }
    ensures room { length back.new ≡ length back.old }
    ensures woken { AreWokenBack (λ pin. Feeds places.now.circuit.now pin line) (line_count places.now.circuit.now) places.now.places.items back.old back.new }
{
    if line >= places.circuit.sources() {
        places.wake_back(places.circuit.gate(line).pins.as_slice(), back);
    }
}
