//! The command `expect`: from the bytes of a netlist and a result to the log that a chip without a fault gives.

ghost use Rattle.std.specs.Prelude.{ℕ, List, IfOk, string_bytes, [], ◌∷◌};
ghost use Rattle.table_dicts.specs.Setting.{IsScored};
ghost use Rattle.listing_commands.specs.Applied.{IsExpectedAt};
ghost use Rattle.listing_commands.specs.Plans.{expect_plan};
ghost use Rattle.run_steps.specs.Plans.{makes_file, with_result};
ghost use Rattle.run_steps.specs.Ran.{Follows, result_endings};
ghost use Rattle.listing_commands.specs.Suspects.{IsExpectedLog};

use crate::texts::expected_counts_text;
use diag_shelf::Shelf;
use fault_collapse::Subject;
use run_steps::{RunFault, read_design, read_result, save, setting_of};
use std::alloc::{AllocError, Global};
use suspect_scores::{expected_log, expected_log_lists_nothing};
use table_dicts::Setting;

/// Reads and judges the netlist `bench` and then the result `results`, and writes the log that a chip without a fault
/// gives to the result's patterns to the file `output`, which may be that of the result. Returns errors as
/// `list_faults` does.
pub fn expect_log<S: Shelf>(
    alloc: Global,
    shelf: &mut S,
    bench: &str,
    results: &str,
    output: &str,
) -> Result<(), RunFault>
    ensures { Follows (expect_plan bench.now results.now output.now) result_endings (output.now ∷ []) result (S.state shelf.old) (S.state shelf.new) }
{
    let design = read_design(alloc, shelf, bench)?;
    let subject = Subject::new(alloc, &design.circuit)?;
    expect_for(alloc, shelf, &subject, results, output)
}

// Reads and judges the result for a circuit, and writes the log.
fn expect_for<S: Shelf>(
    alloc: Global,
    shelf: &mut S,
    subject: &Subject,
    results: &str,
    output: &str,
) -> Result<(), RunFault>
    ensures { Follows (with_result results.now subject.now (λ (file : List ℕ). makes_file output.now (IsExpectedLog subject.now file))) result_endings (output.now ∷ []) result (S.state shelf.old) (S.state shelf.new) }
{
    let checked = read_result(alloc, shelf, subject, results)?;
    let setting = setting_of(subject, &checked);
    let made = expected_of(alloc, &setting)?;
    save(shelf, output, &made.file, made.text.as_bytes())
}

/// A log, and what is printed of it.
#[derive(Drop)]
pub(crate) struct Expected {
    pub(crate) file: Vec<u8>,
    pub(crate) text: String,
}

/// Returns the log that a chip without a fault gives at `setting`, and what is printed of it.
pub(crate) fn expected_of(alloc: Global, setting: &Setting) -> Result<Expected, AllocError>
    requires { IsScored setting.now }
    ensures { IfOk result (λ made. IsExpectedAt setting.now.subject.now setting.now.patterns.now made.file.items (string_bytes made.text)) }
{
    // The proof learns from this call that the log is read back and lists nothing.
    expected_log_lists_nothing();
    let patterns = setting.patterns.as_slice().len() as u32;
    let positions = setting.subject.circuit().positions().len() as u32;
    let file = expected_log(alloc, setting)?;
    let text = expected_counts_text(alloc, patterns, positions)?;
    Ok(Expected { file, text })
}
