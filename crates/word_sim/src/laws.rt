//! Laws of the stream.

ghost use Rattle.word_sim.specs.Laws.{FirstBlockHasAll, StreamContinues};

/// With at most six sources the first block of the stream has every vector.
pub fn first_block_has_all()
    ensures { FirstBlockHasAll }
{}

/// The vectors of the first blocks of the stream and then those of the next blocks are the vectors of all these blocks.
pub fn stream_continues()
    ensures { StreamContinues }
{}
