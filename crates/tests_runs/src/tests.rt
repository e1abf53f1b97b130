//! Each module tests the runs of a command or of several.

mod adapting;
mod calls;
mod checking;
mod compacting;
mod cuts;
mod dictionaries;
mod failing;
mod following;
mod generating;
mod kept;
mod listing;
mod long;
mod netlists;
mod rankings;
mod runs;
mod sims;
mod synths;
mod texts;
mod topping_up;
mod words;
