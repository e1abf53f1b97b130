//! Dictionary files of versions 1 and 2: dictionaries as bytes, and why bytes are refused.
#![tactic(auto)]

mod fault;
mod fields;
mod group_numbers;
mod head;
mod laws;
mod packing;
mod reading;
mod row_bytes;
mod writing;

pub use fault::{DictFault, DictVersion};
pub use laws::dictionary_is_read_once;
pub use reading::{DICTIONARY_LIMIT, decode};
pub use writing::encode;
