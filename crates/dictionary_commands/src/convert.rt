//! The command `convert`: a dictionary is written in version 2.

ghost use Rattle.std.specs.Prelude.{[], ◌∷◌};
ghost use Rattle.dictionary_commands.specs.Plans.{convert_plan};
ghost use Rattle.run_steps.specs.Ran.{Follows, dictionary_endings};

use crate::texts::groups_text;
use diag_shelf::Shelf;
use dict_file::{DictVersion, encode};
use run_steps::{RunFault, read_dictionary, save};
use std::alloc::Global;

/// Reads and judges the dictionary `old` of either version, writes it in version 2 to the file `new`, and prints its
/// counts. Returns errors as `make_dictionary` does.
pub fn convert_file<S: Shelf>(
    alloc: Global,
    shelf: &mut S,
    old: &str,
    new: &str,
) -> Result<(), RunFault>
    ensures { Follows (convert_plan old.now new.now) dictionary_endings (new.now ∷ []) result (S.state shelf.old) (S.state shelf.new) }
{
    let dict = read_dictionary(alloc, shelf, old)?;
    let file = encode(alloc, &dict, DictVersion::Two)?;
    let text = groups_text(alloc, dict.numbers, dict.patterns, dict.group_count())?;
    save(shelf, new, &file, text.as_bytes())
}
