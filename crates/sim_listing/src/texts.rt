//! The text of an answer, which the lines of all faults with this answer share.

ghost use Rattle.std.specs.Prelude.{◌≡◌, ◌<◌, ◌++◌, All, None, Some, IfOk, IfSome, OnOk, is_some, length, slice_index_or, slice_set};
ghost use Rattle.std.specs.String.{string_bytes};
ghost use Rattle.net_model.specs.BitText.{bits_text};

use net_model::Answer;
use std::alloc::{AllocError, Global};
use text_fields::push_bits;

/// Returns room for `count` texts, with none written.
pub(crate) fn no_texts(alloc: Global, count: u32) -> Result<Vec<Option<String>>, AllocError>
    ensures count { IfOk result (λ texts. length texts.items ≡ count) }
    ensures none { IfOk result (λ texts. All (λ text. text ≡ None) texts.items) }
{
    let mut texts = Vec::with_capacity(alloc, count as usize)?;
    for _at in 0..count {
        texts.push(None)?;
    }
    Ok(texts)
}

/// Returns the digits of an answer, or a dash if there are no positions.
pub(crate) fn answer_text(alloc: Global, answer: &Answer) -> Result<String, AllocError>
    ensures { IfOk result (λ text. string_bytes text ≡ bits_text answer.now) }
{
    let mut text = String::with_capacity(alloc, answer.len())?;
    push_bits(&mut text, answer.len(), |position| answer.get(position))?;
    Ok(text)
}

/// Returns whether there is a text at the place.
pub(crate) fn is_written(texts: &[Option<String>], place: u32) -> bool
    requires { place < length texts.now }
    ensures { result ≡ is_some (slice_index_or texts.now place None) }
{
    texts[place as usize].is_some()
}

pub(crate) fn put_text(texts: &mut Vec<Option<String>>, place: u32, own: String)
    requires { place < length texts.old.items }
    ensures { texts.new.items ≡ slice_set texts.old.items place (Some own) }
{
    texts[place as usize] = Some(own);
}

/// Appends the text if there is one.
pub(crate) fn push_written(text: &mut String, written: &Option<String>) -> Result<(), AllocError>
    ensures { OnOk result (IfSome written.now (λ own. string_bytes text.new ≡ string_bytes text.old ++ string_bytes own)) }
{
    match written {
        Some(own) => text.push_str(own.as_str()),
        None => Ok(()),
    }
}
