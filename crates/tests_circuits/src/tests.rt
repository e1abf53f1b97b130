//! The modules, by what they test.

mod collapsing;
mod cuts;
mod listing;
mod model;
mod queue;
mod scopes;
mod shelves;
mod texts;
