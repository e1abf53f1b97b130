//! Records as lines of text.

ghost use Rattle.std.specs.Prelude.{◌≡◌, ◌++◌, ◌∷◌, ℕ, List, [], IfOk, OnOk, OnErr, map, flat_map, codes, decimal};
ghost use Rattle.std.specs.String.{string_bytes};
ghost use Rattle.std.specs.List.{join_with_byte};
ghost use Rattle.net_model.specs.Ascii.{line_feed, space};
ghost use Rattle.net_model.specs.BitText.{bits_text};
ghost use Rattle.result_records.specs.Spelling.{spelling, text_of, token_field, evidence_fields};
ghost use Rattle.result_records.specs.declared.record.Record.TheVariants.{Head, Budget, Pattern, Same, Class, Member, End};

use crate::record::{Budgets, Evidence, Mark, Proof, Record};
use crate::write_log::push_log;
use net_model::Bits;
use pair_miter::Log;
use pair_sets::{Token, Tree};
use std::alloc::{AllocError, Global};
use text_fields::push_bits;

/// Returns the line of the record, with its LF.
pub fn write_record(alloc: Global, r: &Record) -> Result<Vec<u8>, AllocError>
    ensures { IfOk result (λ line. line.items ≡ spelling r.now ++ line_feed ∷ []) }
{
    let mut line = String::new(alloc);
    push_record(&mut line, r)?;
    Ok(line.into_bytes())
}

/// Appends the line of the record, with its LF. After an error nothing has changed.
pub fn push_line(text: &mut String, r: &Record) -> Result<(), AllocError>
    ensures ok { OnOk result (string_bytes text.new ≡ string_bytes text.old ++ text_of (r.now ∷ [])) }
    ensures err { OnErr result (string_bytes text.new ≡ string_bytes text.old) }
{
    let mut line = String::new(*text.allocator());
    push_record(&mut line, r)?;
    text.push_str(&line)
}

// Appends the line of the record, with its LF. Nothing is said of the text after an error.
fn push_record(text: &mut String, r: &Record) -> Result<(), AllocError>
    ensures { OnOk result (string_bytes text.new ≡ string_bytes text.old ++ text_of (r.now ∷ [])) }
{
    match r {
        Record::Head(sources, positions, numbers) => {
            push_head(text, *sources, *positions, *numbers)
        }
        Record::Budget(budgets) => push_budget(text, *budgets),
        Record::Pattern(bits) => push_pattern(text, bits),
        Record::Same(evidence) => push_same(text, evidence),
        Record::Class(number, birth) => push_class(text, *number, *birth),
        Record::Member(number, class, mark) => push_member(text, *number, *class, *mark),
        Record::End => push_end(text),
    }
}

#[tactic(auto, unfolding(crate::specs::Spelling::spelling))]
fn push_head(
    text: &mut String,
    sources: u32,
    positions: u32,
    numbers: u32,
) -> Result<(), AllocError>
    ensures { OnOk result (string_bytes text.new ≡ string_bytes text.old ++ text_of (Head sources positions numbers ∷ [])) }
{
    writeln!(text, "diatest 1 {sources} {positions} {numbers}")
}

#[tactic(auto, unfolding(crate::specs::Spelling::spelling))]
fn push_budget(text: &mut String, budgets: Budgets) -> Result<(), AllocError>
    ensures { OnOk result (string_bytes text.new ≡ string_bytes text.old ++ text_of (Budget budgets ∷ [])) }
{
    let Budgets {
        blocks,
        cubes,
        conflicts,
    } = budgets;
    writeln!(text, "budget {blocks} {cubes} {conflicts}")
}

/// Appends the line of a pattern of these bits, with its LF. After an error nothing has changed.
#[tactic(auto, unfolding(crate::specs::Spelling::spelling))]
pub fn push_pattern(text: &mut String, bits: &Bits) -> Result<(), AllocError>
    ensures ok { OnOk result (string_bytes text.new ≡ string_bytes text.old ++ text_of (Pattern bits.now ∷ [])) }
    ensures err { OnErr result (string_bytes text.new ≡ string_bytes text.old) }
{
    let len = text.len();
    text.push_str("pattern ")?;
    let pushed = push_digits(text, bits);
    if pushed.is_err() {
        text.truncate(len);
    }
    pushed
}

// Appends the bits and the LF. After an error some bytes may have been appended.
fn push_digits(text: &mut String, bits: &Bits) -> Result<(), AllocError>
    ensures ok { OnOk result (string_bytes text.new ≡ string_bytes text.old ++ bits_text bits.now ++ line_feed ∷ []) }
    ensures err { OnErr result ((some : List ℕ) × (string_bytes text.new ≡ string_bytes text.old ++ some)) }
{
    push_bits(text, bits.len(), |at| bits.get(at))?;
    text.push('\n')
}

#[tactic(auto, unfolding(crate::specs::Spelling::spelling))]
fn push_same(text: &mut String, evidence: &Evidence) -> Result<(), AllocError>
    ensures { OnOk result (string_bytes text.new ≡ string_bytes text.old ++ text_of (Same evidence.now ∷ [])) }
{
    let Evidence {
        member,
        partner,
        proof,
    } = evidence;
    match proof {
        Proof::Collapse => writeln!(text, "same {member} {partner} C"),
        Proof::Covered(tree) => push_tree_line(text, *member, *partner, "T", tree),
        Proof::Refuted(tree, log) => push_log_line(text, *member, *partner, "R", tree, log),
        Proof::Spent(tree, log) => push_log_line(text, *member, *partner, "O", tree, log),
    }
}

// Appends the line of evidence that has a tree.
fn push_tree_line(
    text: &mut String,
    member: u32,
    partner: u32,
    kind: &str,
    tree: &Tree,
) -> Result<(), AllocError>
    ensures { OnOk result (string_bytes text.new ≡ string_bytes text.old ++ join_with_byte space (codes "same" ∷ decimal member ∷ decimal partner ∷ kind.now ∷ map token_field tree.now) ++ line_feed ∷ []) }
{
    push_tree_fields(text, kind, member, partner, tree)?;
    text.push('\n')?;
    Ok(())
}

// Appends the line of evidence that has a tree and a log.
fn push_log_line(
    text: &mut String,
    member: u32,
    partner: u32,
    kind: &str,
    tree: &Tree,
    log: &Log,
) -> Result<(), AllocError>
    ensures { OnOk result (string_bytes text.new ≡ string_bytes text.old ++ join_with_byte space (codes "same" ∷ decimal member ∷ decimal partner ∷ kind.now ∷ evidence_fields tree.now log.now) ++ line_feed ∷ []) }
{
    push_tree_fields(text, kind, member, partner, tree)?;
    push_log(text, log)?;
    text.push('\n')?;
    Ok(())
}

// Appends the fields of evidence up to its tree.
fn push_tree_fields(
    text: &mut String,
    kind: &str,
    member: u32,
    partner: u32,
    tree: &Tree,
) -> Result<(), AllocError>
    ensures { OnOk result (string_bytes text.new ≡ string_bytes text.old ++ join_with_byte space (codes "same" ∷ decimal member ∷ decimal partner ∷ kind.now ∷ map token_field tree.now)) }
{
    push_kind(text, member, partner, kind)?;
    push_tree(text, tree)?;
    Ok(())
}

// Appends the fields of evidence up to its kind.
fn push_kind(text: &mut String, member: u32, partner: u32, kind: &str) -> Result<(), AllocError>
    ensures { OnOk result (string_bytes text.new ≡ string_bytes text.old ++ codes "same" ++ space ∷ decimal member ++ space ∷ decimal partner ++ space ∷ kind.now) }
{
    write!(text, "same {member} {partner} {kind}")
}

// Appends the tokens of the tree, a blank before each.
fn push_tree(text: &mut String, tree: &Tree) -> Result<(), AllocError>
    ensures { OnOk result (string_bytes text.new ≡ string_bytes text.old ++ flat_map (λ token. space ∷ token_field token) tree.now) }
{
    for token in tree.as_slice() {
        push_token(text, *token)?;
    }
    Ok(())
}

// Appends a blank and the token.
fn push_token(text: &mut String, token: Token) -> Result<(), AllocError>
    ensures { OnOk result (string_bytes text.new ≡ string_bytes text.old ++ space ∷ token_field token) }
{
    match token {
        Token::Split(source) => write!(text, " {source}"),
        Token::Closed => text.push_str(" ."),
        Token::Rest => text.push_str(" ?"),
    }
}

#[tactic(auto, unfolding(crate::specs::Spelling::spelling))]
fn push_class(text: &mut String, number: u32, birth: Option<(u32, u32)>) -> Result<(), AllocError>
    ensures { OnOk result (string_bytes text.new ≡ string_bytes text.old ++ text_of (Class number birth ∷ [])) }
{
    match birth {
        None => writeln!(text, "class {number} - -"),
        Some((parent, pattern)) => writeln!(text, "class {number} {parent} {pattern}"),
    }
}

#[tactic(auto, unfolding(crate::specs::Spelling::spelling))]
fn push_member(text: &mut String, number: u32, class: u32, mark: Mark) -> Result<(), AllocError>
    ensures { OnOk result (string_bytes text.new ≡ string_bytes text.old ++ text_of (Member number class mark ∷ [])) }
{
    let word = match mark {
        Mark::Rep => "rep",
        Mark::Equal => "equal",
        Mark::Spent => "open",
    };
    writeln!(text, "member {number} {class} {word}")
}

#[tactic(auto, unfolding(crate::specs::Spelling::spelling))]
fn push_end(text: &mut String) -> Result<(), AllocError>
    ensures { OnOk result (string_bytes text.new ≡ string_bytes text.old ++ text_of (End ∷ [])) }
{
    text.push_str("end\n")
}
