//! Laws over the definitions: each function has an empty body, and its contract is the law.
ghost use Rattle.scan_cut.specs.Laws.{FewNumbers, OrderedHasNoLoop};

/// The cut of a netlist that was read has fewer than 2^26 fault numbers.
pub fn few_numbers()
    ensures { FewNumbers }
{}

/// If each gate reads only sources and what gates before it drive, the cut has no loop.
pub fn ordered_has_no_loop()
    ensures { OrderedHasNoLoop }
{}
