//! Lines that are made and not yet written.

ghost use Rattle.std.specs.Prelude.{◌≡◌, ◌∷◌, [], OnOk, string_bytes};
ghost use Rattle.result_records.specs.Spelling.{text_of};
ghost use Rattle.result_records.specs.declared.record.Record.TheVariants.{Pattern};
ghost use Rattle.dia_gen.specs.Made.{head_lines};
ghost use Rattle.dia_gen.specs.Writing.{Gathers};

use crate::setting::GenerationSetting;
use diag_shelf::{Shelf, ShelfFault, write_all};
use net_model::Vector;
use result_file::{Record, push_head, push_line, push_pattern};
use std::alloc::Global;
use std::marker::Model;

// If at least this many bytes are waiting, they are written.
const PIECE: usize = 65_536;

// The waiting text.
pub(crate) struct Gathered {
    text: String,
}

// As for `Draft`.
impl Drop for Gathered {
    fn drop(self) {
        let Gathered { text: _ } = self;
    }
}

impl Model for Gathered {
    ghost use Rattle.std.specs.Prelude.{ℕ, List, string_bytes};

    ghost Value = { List ℕ };

    ghost view = { λ gathered. string_bytes gathered.text };
}

impl Gathered {
    pub(crate) fn new(alloc: Global) -> Gathered
        ensures { result ≡ [] }
    {
        Gathered {
            text: String::new(alloc),
        }
    }

    // Writes the waiting text.
    pub(crate) fn write_out<S: Shelf>(&mut self, shelf: &mut S) -> Result<(), ShelfFault>
        ensures gathers { Gathers [] result self.old self.new (S.state shelf.old) (S.state shelf.new) }
        ensures empty { OnOk result (self.new ≡ []) }
    {
        write_out(&mut self.text, shelf)
    }

    // Adds the first two lines.
    pub(crate) fn add_head<S: Shelf>(
        &mut self,
        shelf: &mut S,
        setting: &GenerationSetting,
    ) -> Result<(), ShelfFault>
        ensures { Gathers (text_of (head_lines setting.now.circuit setting.now.budgets)) result self.old self.new (S.state shelf.old) (S.state shelf.new) }
    {
        let numbers = setting.numbers();
        push_head(
            &mut self.text,
            setting.circuit(),
            numbers,
            setting.budgets(),
        )?;
        write_piece(&mut self.text, shelf)
    }

    // Adds the line of a record, and drops the record here so that no caller has to.
    pub(crate) fn add_line<S: Shelf>(
        &mut self,
        shelf: &mut S,
        line: Record,
    ) -> Result<(), ShelfFault>
        ensures { Gathers (text_of (line ∷ [])) result self.old self.new (S.state shelf.old) (S.state shelf.new) }
    {
        push_line(&mut self.text, &line)?;
        write_piece(&mut self.text, shelf)
    }

    pub(crate) fn add_pattern<S: Shelf>(
        &mut self,
        shelf: &mut S,
        v: &Vector,
    ) -> Result<(), ShelfFault>
        ensures { Gathers (text_of (Pattern v.now ∷ [])) result self.old self.new (S.state shelf.old) (S.state shelf.new) }
    {
        push_pattern(&mut self.text, v)?;
        write_piece(&mut self.text, shelf)
    }
}

// Writes the waiting text if it is long enough for a piece.
fn write_piece<S: Shelf>(text: &mut String, shelf: &mut S) -> Result<(), ShelfFault>
    ensures { Gathers [] result (string_bytes text.old) (string_bytes text.new) (S.state shelf.old) (S.state shelf.new) }
{
    if text.len() < PIECE {
        return Ok(());
    }
    write_out(text, shelf)
}

// Writes the waiting text.
fn write_out<S: Shelf>(text: &mut String, shelf: &mut S) -> Result<(), ShelfFault>
    ensures gathers { Gathers [] result (string_bytes text.old) (string_bytes text.new) (S.state shelf.old) (S.state shelf.new) }
    ensures empty { OnOk result (string_bytes text.new ≡ []) }
{
    write_all(shelf, text.as_bytes())?;
    text.clear();
    Ok(())
}
