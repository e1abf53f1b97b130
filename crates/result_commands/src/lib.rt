//! The commands that make a result, check one, or leave out patterns of one, on any shelf.
#![tactic(auto)]

mod check;
mod compact;
mod faults;
mod generate;
mod laws;
mod synth;
mod texts;
mod topup;

pub use check::check_result;
pub use compact::compact_result;
pub use generate::generate_file;
pub use laws::{check_is_written_out, gen_is_written_out};
pub use synth::synthesize;
pub use topup::top_up_file;
