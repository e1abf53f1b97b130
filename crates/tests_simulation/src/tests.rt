//! The modules, by what they test.

mod cubes;
mod flipped;
mod found;
mod injected;
mod lanes;
mod named;
mod refined;
mod searches;
mod turned;
