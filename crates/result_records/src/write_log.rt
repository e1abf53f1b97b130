//! Logs as fields of a line.

ghost use Rattle.std.specs.Prelude.{◌≡◌, ◌++◌, ◌∷◌, OnOk, Option, codes, decimal, flat_map, map};
ghost use Rattle.std.specs.Option.{option_to_list};
ghost use Rattle.std.specs.String.{string_bytes};
ghost use Rattle.net_model.specs.Ascii.{space};
ghost use Rattle.result_records.specs.Spelling.{behind_blanks, chain_fields, literal_field};

use clause_pool::Lit;
use pair_miter::{Chain, Log};
use std::alloc::AllocError;

/// Appends the chains of the log, a blank before each field.
pub(crate) fn push_log(text: &mut String, log: &Log) -> Result<(), AllocError>
    ensures { OnOk result (string_bytes text.new ≡ string_bytes text.old ++ flat_map (λ chain. behind_blanks (codes ";" ∷ chain_fields chain)) log.now) }
{
    for chain in log.as_slice() {
        push_chain(text, chain)?;
    }
    Ok(())
}

// Appends the field that begins a chain, and the chain.
fn push_chain(text: &mut String, chain: &Chain) -> Result<(), AllocError>
    ensures { OnOk result (string_bytes text.new ≡ string_bytes text.old ++ behind_blanks (codes ";" ∷ chain_fields chain.now)) }
{
    text.push_str(" ;")?;
    push_fresh(text, chain.at())?;
    push_number(text, chain.start())?;
    push_steps(text, chain.steps())
}

// Appends the literal at which a chain is fresh, if it names one.
fn push_fresh(text: &mut String, at: Option<Lit>) -> Result<(), AllocError>
    ensures { OnOk result (string_bytes text.new ≡ string_bytes text.old ++ behind_blanks (map literal_field (option_to_list at))) }
{
    match at {
        Some(at) => push_literal(text, at),
        None => Ok(()),
    }
}

// Appends pivots and the numbers of clauses.
fn push_steps(text: &mut String, steps: &[(Lit, u32)]) -> Result<(), AllocError>
    ensures { OnOk result (string_bytes text.new ≡ string_bytes text.old ++ flat_map (λ step. (space ∷ literal_field step.0) ++ space ∷ decimal step.1) steps.now) }
{
    for step in steps {
        push_literal(text, step.0)?;
        push_number(text, step.1)?;
    }
    Ok(())
}

// Appends a blank and the number.
fn push_number(text: &mut String, number: u32) -> Result<(), AllocError>
    ensures { OnOk result (string_bytes text.new ≡ string_bytes text.old ++ space ∷ decimal number) }
{
    write!(text, " {number}")
}

// Appends a blank and the literal.
fn push_literal(text: &mut String, l: Lit) -> Result<(), AllocError>
    ensures { OnOk result (string_bytes text.new ≡ string_bytes text.old ++ space ∷ literal_field l) }
{
    let variable = l.variable();
    if l.positive() {
        write!(text, " {variable}")
    } else {
        write!(text, " -{variable}")
    }
}
