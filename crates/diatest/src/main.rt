//! DIATEST, a generator of test patterns that distinguish single stuck-at faults.
#![tactic(auto)]

use dia_runs::run;
use real_shelf::RealShelf;
use run_steps::{RunFault, status_of};
use std::alloc::AllocError;
use std::env;
use std::io::ErrorKind;
use std::process::ExitCode;
use std::rt::Env;

// Returns the words after the program's name. If they can't be read for a reason other than missing memory, there are
// none.
fn words<R: Env + AllocGlobal>(rt: &R) -> Result<Vec<String>, AllocError> {
    let mut words = Vec::new(rt.alloc());
    match env::args(rt) {
        Ok(args) => {
            for word in args.skip(1) {
                words.push(word)?;
            }
            Ok(words)
        }
        Err(e) if e.kind() == ErrorKind::OutOfMemory => Err(AllocError),
        Err(_) => Ok(words),
    }
}

/// Exits with the status of `run`, or with 9 if memory is missing for the words.
fn main(rt: HostRuntime) -> ExitCode {
    let Ok(words) = words(&rt) else {
        return ExitCode::from(status_of(Err(RunFault::NoMemory)));
    };
    let mut shelf = RealShelf::new(&rt);
    ExitCode::from(run(rt.alloc(), &words, &mut shelf))
}
