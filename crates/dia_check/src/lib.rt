//! The check of a result file: it reads the file in pieces, judges it line by line, and accepts it exactly if it is
//! valid.
#![tactic(auto)]

mod answer;
mod checker;
mod checking;
mod evidence;
mod in_memory;
mod progress;
mod reader;
mod stop;

pub use answer::FileFault;
pub use checking::{check, check_subject};
pub use in_memory::check_subject_text;
pub use result_file::Checked;
