//! What the lines of a plan say.

ghost use Rattle.std.specs.Prelude.{◌≡◌, ◌∷◌, ◌++◌, ℕ, Contains, MatchOption, codes};
ghost use Rattle.net_model.specs.Ascii.{space};
ghost use Rattle.text_fields.specs.Fields.{IsNumber};
ghost use Rattle.adaptive_tree.specs.Refusal.{HasNoPlanLine};
ghost use Rattle.adaptive_tree.specs.Forms.{IsFormOf, IsFirstForm, IsNoPlanLine, IsPairIn, pair_text};

use text_fields::{cut, digits_of, number_of_bytes};

/// What a line says. An answer is held as the digits of its bits.
#[derive(Clone, Copy)]
pub(crate) enum Form<'a> {
    Head(u32, u32, u32),
    Ask(u32, u32),
    On(&'a [u8]),
    Class(u32),
    End,
}

/// What a line says, and the text after it.
#[derive(Clone, Copy)]
pub(crate) struct FirstForm<'a> {
    pub(crate) form: Form<'a>,
    pub(crate) rest: &'a [u8],
}

/// Returns the line of a plan that a text begins with, if it begins with one.
pub(crate) fn first_form(text: &[u8]) -> Option<FirstForm<'_>>
    ensures { MatchOption result (HasNoPlanLine text.now) (λ line. IsFirstForm text.now line.form line.rest.now) }
{
    let (line, rest) = cut(text, b'\n')?;
    let form = form_of(line)?;
    Some(FirstForm { form, rest })
}

// Returns what a line, given without its LF, says if it is one of a plan.
fn form_of(line: &[u8]) -> Option<Form<'_>>
    ensures { MatchOption result (IsNoPlanLine line.now) (IsFormOf line.now) }
{
    if line == b"end".as_slice() {
        return Some(Form::End);
    }
    let (word, fields) = cut(line, b' ')?;
    form_with(word, fields)
}

// Returns what the line with this first word and these fields says if it is one of a plan.
fn form_with<'a>(word: &[u8], fields: &'a [u8]) -> Option<Form<'a>>
    requires { ¬ Contains word.now space }
    ensures { MatchOption result (IsNoPlanLine (word.now ++ space ∷ fields.now)) (IsFormOf (word.now ++ space ∷ fields.now)) }
{
    if word == b"on".as_slice() {
        return branch_of(fields);
    }
    if word == b"ask".as_slice() {
        return ask_of(fields);
    }
    if word == b"class".as_slice() {
        return class_of(fields);
    }
    if word == b"adapt".as_slice() {
        return head_of(fields);
    }
    None
}

// Returns what the fields of the first line say, which has the sizes.
fn head_of(fields: &[u8]) -> Option<Form<'_>>
    ensures { MatchOption result (IsNoPlanLine (codes "adapt" ++ space ∷ fields.now)) (IsFormOf (codes "adapt" ++ space ∷ fields.now)) }
{
    let (version, sizes) = cut(fields, b' ')?;
    if version != b"1".as_slice() {
        return None;
    }
    let (positions, counts) = cut(sizes, b' ')?;
    let positions = number_of_bytes(positions)?;
    let (patterns, classes) = pair_of(counts)?;
    Some(Form::Head(positions, patterns, classes))
}

fn ask_of(fields: &[u8]) -> Option<Form<'_>>
    ensures { MatchOption result (IsNoPlanLine (codes "ask" ++ space ∷ fields.now)) (IsFormOf (codes "ask" ++ space ∷ fields.now)) }
{
    let (pattern, branches) = pair_of(fields)?;
    Some(Form::Ask(pattern, branches))
}

fn branch_of(field: &[u8]) -> Option<Form<'_>>
    ensures { MatchOption result (IsNoPlanLine (codes "on" ++ space ∷ field.now)) (IsFormOf (codes "on" ++ space ∷ field.now)) }
{
    let digits = digits_of(field)?;
    Some(Form::On(digits))
}

fn class_of(field: &[u8]) -> Option<Form<'_>>
    ensures { MatchOption result (IsNoPlanLine (codes "class" ++ space ∷ field.now)) (IsFormOf (codes "class" ++ space ∷ field.now)) }
{
    let class = number_of_bytes(field)?;
    Some(Form::Class(class))
}

// Returns the two numbers that are spelled with a blank between them.
fn pair_of(fields: &[u8]) -> Option<(u32, u32)>
    ensures { MatchOption result ((m n : ℕ) → IsNumber m → IsNumber n → pair_text m n ≡ fields.now → ⊥) (λ pair. IsPairIn fields.now pair.0 pair.1) }
{
    let (first, second) = cut(fields, b' ')?;
    let first = number_of_bytes(first)?;
    let second = number_of_bytes(second)?;
    Some((first, second))
}
