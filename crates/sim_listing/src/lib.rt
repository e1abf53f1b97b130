//! The text of a simulation, one vector at a time.
#![tactic(auto)]

mod laws;
mod lines;
mod roots;
mod texts;
mod vector_texts;

pub use laws::{blocks_make_the_list, one_text_each};
pub use roots::{RootPlaces, root_places};
pub use vector_texts::VectorTexts;
