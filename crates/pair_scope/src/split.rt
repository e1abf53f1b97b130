//! The split lines, found forward from the first lines that the faults change.

ghost use Rattle.std.specs.Prelude.{◌≡◌, filter, length};
ghost use Rattle.net_model.specs.Circuit.{line_count};
ghost use Rattle.net_model.specs.Fault.{IsFaultOf};
ghost use Rattle.net_model.specs.Scope.{is_split};
ghost use Rattle.event_queue.specs.Pending.{IsEmpty};
ghost use Rattle.pair_scope.specs.Listed.{IsBlank, IsListed};
ghost use Rattle.pair_scope.specs.Places.{ArePlaced};

use crate::listed::Listed;
use crate::places::LinePlaces;
use event_queue::NumberQueue;
use net_model::Fault;

/// Marks the split lines in `split`, which is blank before, and lists them by their places.
pub(crate) fn list_split(
    places: &LinePlaces,
    f: Fault,
    g: Fault,
    queue: &mut NumberQueue,
    split: &mut Listed,
)
    requires placed { ArePlaced places.now }
    requires first { IsFaultOf places.now.circuit.now f }
    requires second { IsFaultOf places.now.circuit.now g }
    requires room { length queue.old ≡ line_count places.now.circuit.now }
    requires none { IsEmpty queue.old }
    requires blank { IsBlank (line_count places.now.circuit.now) split.old }
    ensures room { length queue.new ≡ length queue.old }
    ensures none { IsEmpty queue.new }
    ensures split { IsListed (line_count places.now.circuit.now) (is_split places.now.circuit.now f g) (filter (is_split places.now.circuit.now f g) places.now.lines.items) split.new }
{
    places.begin(f, queue);
    places.begin(g, queue);
    let mut from = 0;
    while let Some(place) = queue.take_lowest(from) {
        let line = places.lines[place as usize];
        split.push(line);
        places.wake_readers(line, queue);
        from = place + 1;
    }
}
