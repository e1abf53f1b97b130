//! Compaction of a valid result: `compact`, and `compact_subject` for a subject that is lent.

ghost use Rattle.std.specs.Prelude.{◌≡◌, IfOk};
ghost use Rattle.net_model.specs.FaultList.{faults as faults_of};
ghost use Rattle.result_file.specs.Accepted.{IsAcceptedText};
ghost use Rattle.compact_tests.specs.Compacted.{IsCompacted};
ghost use Rattle.compact_tests.specs.Thinning.{AreRemainingPlaces};

use crate::keeping::classes_at;
use crate::laws::thin_is_sound;
use crate::text::{first_lines, push_numbers};
use crate::thin::{Text, Thin};
use crate::thinning::needed_patterns;
use fault_collapse::Subject;
use fault_list::FaultList;
use net_model::Circuit;
use result_file::{Checked, Summary, valid_is_true};
use std::alloc::{AllocError, Global};

/// Returns what is left of a valid result without the patterns that its classes don't need. `checked` is what the check
/// of `bytes` returned. Returns an error only if memory is missing.
pub fn compact(
    alloc: Global,
    circuit: &Circuit,
    checked: &Checked,
    bytes: &[u8],
) -> Result<Thin, AllocError>
    requires { IsAcceptedText circuit.now bytes.now checked.now }
    ensures { IfOk result (IsCompacted circuit.now bytes.now) }
{
    let subject = Subject::new(alloc, circuit)?;
    compact_subject(alloc, &subject, checked, bytes)
}

/// Returns what is left of a valid result of the circuit of `subject`, as `compact` does for a circuit whose faults
/// aren't listed yet. Returns an error only if memory is missing.
pub fn compact_subject(
    alloc: Global,
    subject: &Subject,
    checked: &Checked,
    bytes: &[u8],
) -> Result<Thin, AllocError>
    requires { IsAcceptedText subject.now bytes.now checked.now }
    ensures { IfOk result (IsCompacted subject.now bytes.now) }
{
    let circuit = subject.circuit();
    let faults = subject.listed();
    let needed = needed_patterns(alloc, circuit, faults, checked)?;
    thin_with(alloc, circuit, faults, checked, bytes, needed.as_slice())
}

// Returns what is left of a result if the patterns at the places `needed` remain. `faults` is the list of the circuit's
// faults.
fn thin_with(
    alloc: Global,
    circuit: &Circuit,
    faults: &FaultList,
    checked: &Checked,
    bytes: &[u8],
    needed: &[usize],
) -> Result<Thin, AllocError>
    requires faults { faults.now ≡ faults_of circuit.now }
    requires accepted { IsAcceptedText circuit.now bytes.now checked.now }
    requires needed { AreRemainingPlaces circuit.now checked.now.patterns checked.now.classes needed.now }
    ensures { IfOk result (IsCompacted circuit.now bytes.now) }
{
    valid_is_true();
    thin_is_sound();
    let patterns = checked.patterns.as_slice();
    let numbers = faults.len();
    let mut text = first_lines(alloc, circuit, numbers, checked.budgets, patterns, needed)?;
    let classes = classes_at(alloc, circuit, faults, &checked.classes, patterns, needed)?;
    push_numbers(&mut text, alloc, bytes, &classes, numbers)?;
    let remain = classes.patterns();
    Ok(Thin {
        text: Text::new(text),
        summary: Summary {
            patterns: remain,
            ..checked.summary
        },
        dropped: checked.summary.patterns - remain,
    })
}
