//! Reads and judges a dictionary.

ghost use Rattle.std.specs.Prelude.{◌≡◌, IfErr, IfOk, option_map};
ghost use Rattle.dict_file.specs.Spelling.{HasDictSpelling};
ghost use Rattle.run_steps.specs.Dictionaries.{IsDictionaryFile, IsRefusedDictionary};
ghost use Rattle.run_steps.specs.declared.ending.FileKind.TheVariants as kind;
ghost use Rattle.run_steps.specs.Steps.{dictionary_fault_text, WasAccepted, IsOver};
ghost use Rattle.run_steps.specs.Texts.{dictionary_rule};

use crate::ending::{FileKind, RunFault};
use crate::reads::{BytesFault, read_judged};
use crate::texts::dictionary_text;
use diag_shelf::Shelf;
use dict_file::{DictFault, decode};
use std::alloc::{AllocError, Global};
use table_dicts::Dict;

/// Reads and judges the dictionary `name`. Returns errors as `read_design` does, with `Refused(Dictionary)` for a
/// dictionary that is refused.
pub fn read_dictionary<S: Shelf>(alloc: Global, shelf: &mut S, name: &str) -> Result<Dict, RunFault>
    ensures spelled { IfOk result HasDictSpelling }
    ensures ok { IfOk result (λ dict. WasAccepted name.now kind.Dictionary IsDictionaryFile dict (S.state shelf.old) (S.state shelf.new)) }
    ensures err { IfErr result (λ why. IsOver name.now kind.Dictionary IsRefusedDictionary why (S.state shelf.old) (S.state shelf.new)) }
{
    read_judged(alloc, shelf, name, FileKind::Dictionary, |bytes| {
        decode(alloc, bytes)
    })
}

impl BytesFault for DictFault {
    ghost said = { dictionary_fault_text };

    fn text(self, alloc: Global) -> Result<Vec<u8>, AllocError> {
        match rule_of(&self) {
            Some((rule, byte)) => Ok(dictionary_text(alloc, rule, byte)?.into_bytes()),
            None => Err(AllocError),
        }
    }
}

// Returns the rule that the dictionary breaks, and at which byte; none if memory is missing.
fn rule_of(fault: &DictFault) -> Option<(&'static str, u64)>
    ensures { option_map (λ rule. (rule.0.now, rule.1)) result ≡ dictionary_rule fault.now }
{
    match fault {
        DictFault::Magic => Some(("Magic", 0)),
        DictFault::Version => Some(("Version", 4)),
        DictFault::Kind => Some(("Kind", 6)),
        DictFault::Short(byte) => Some(("Short", *byte)),
        DictFault::Value(byte) => Some(("Value", *byte)),
        DictFault::Trailing(byte) => Some(("Trailing", *byte)),
        DictFault::TooLong(byte) => Some(("TooLong", *byte)),
        DictFault::NoMemory => None,
    }
}
