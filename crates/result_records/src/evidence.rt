//! Evidence read from the fields of a line: trees, and logs of chains.

ghost use Rattle.std.specs.Prelude.{◌≡◌, ◌≢◌, ◌<◌, ◌≤◌, [], ◌∷◌, All, codes, flat_map, map, length, take, slice_index_or};
ghost use Rattle.pair_miter.specs.ChainView.{ChainView};
ghost use Rattle.result_records.specs.Spelling.{HasTreeSpelling, HasProofSpelling, HasChainSpelling, HasStepSpelling, HasLiteralSpelling, token_field, proof_fields, evidence_fields, log_fields, chain_fields, clause_fields, step_fields};
ghost use Rattle.result_records.specs.Reading.{Reads, IsChainOf};

use crate::fault::RecordFault;
use crate::record::Proof;
use crate::words::{literal_of, token_of};
use clause_pool::Lit;
use pair_miter::{Chain, Log};
use pair_sets::Tree;
use std::alloc::Global;
use text_fields::number_of;

/// Returns the proof that these fields spell.
pub(crate) fn read_proof(alloc: Global, fields: &[&str]) -> Result<Proof, RecordFault>
    ensures { Reads HasProofSpelling proof_fields (map (λ f. f.now) fields.now) result }
{
    let Some((kind, rest)) = fields.split_first() else {
        return Err(RecordFault::Syntax);
    };
    match *kind {
        "C" => read_collapse(rest),
        "T" => read_covered(alloc, rest),
        "R" => read_refuted(alloc, rest),
        "O" => read_spent(alloc, rest),
        _ => Err(RecordFault::Syntax),
    }
}

// Reads a proof by collapse, which has no further field.
fn read_collapse(fields: &[&str]) -> Result<Proof, RecordFault>
    ensures { Reads HasProofSpelling proof_fields (codes "C" ∷ map (λ f. f.now) fields.now) result }
{
    let [] = fields else {
        return Err(RecordFault::Syntax);
    };
    Ok(Proof::Collapse)
}

// Reads a covering tree.
fn read_covered(alloc: Global, fields: &[&str]) -> Result<Proof, RecordFault>
    ensures { Reads HasProofSpelling proof_fields (codes "T" ∷ map (λ f. f.now) fields.now) result }
{
    Ok(Proof::Covered(read_tree(alloc, fields)?))
}

// Reads a tree with the log of a refutation, which has a chain.
fn read_refuted(alloc: Global, fields: &[&str]) -> Result<Proof, RecordFault>
    ensures { Reads HasProofSpelling proof_fields (codes "R" ∷ map (λ f. f.now) fields.now) result }
{
    let (tree, log) = read_tree_and_log(alloc, fields, false)?;
    if log.as_slice().is_empty() {
        return Err(RecordFault::Syntax);
    }
    Ok(Proof::Refuted(tree, log))
}

// Reads a tree with the log of spent budgets.
fn read_spent(alloc: Global, fields: &[&str]) -> Result<Proof, RecordFault>
    ensures { Reads HasProofSpelling proof_fields (codes "O" ∷ map (λ f. f.now) fields.now) result }
{
    let (tree, log) = read_tree_and_log(alloc, fields, true)?;
    Ok(Proof::Spent(tree, log))
}

// Reads a tree and the log after it. If `fresh` each chain names a literal at which it is fresh, else none does.
fn read_tree_and_log(
    alloc: Global,
    fields: &[&str],
    fresh: bool,
) -> Result<(Tree, Log), RecordFault>
    ensures { Reads (λ both. HasTreeSpelling both.0 × All (IsChainOf fresh) both.1) (λ both. evidence_fields both.0 both.1) (map (λ f. f.now) fields.now) result }
{
    let end = first_mark(fields);
    let tree = read_tree(alloc, &fields[..end])?;
    let log = read_log(alloc, &fields[end..], fresh)?;
    Ok((tree, log))
}

// Returns how many fields come before the first one that begins a chain.
fn first_mark(fields: &[&str]) -> usize
    ensures within { result ≤ length fields.now }
    ensures before { All (λ f. f ≢ codes ";") (take result (map (λ f. f.now) fields.now)) }
    ensures at { result < length fields.now → slice_index_or (map (λ f. f.now) fields.now) result [] ≡ codes ";" }
{
    for (at, field) in fields.iter().enumerate() {
        if *field == ";" {
            return at;
        }
    }
    fields.len()
}

// Reads a tree, which has a token.
fn read_tree(alloc: Global, fields: &[&str]) -> Result<Tree, RecordFault>
    ensures { Reads HasTreeSpelling (λ tree. map token_field tree) (map (λ f. f.now) fields.now) result }
{
    if fields.is_empty() {
        return Err(RecordFault::Syntax);
    }
    let mut tree = Tree::new(alloc);
    for field in fields {
        let Some(token) = token_of(field) else {
            return Err(RecordFault::Syntax);
        };
        tree.push(token)?;
    }
    Ok(tree)
}

// Reads a log of chains, each after a field that begins it.
fn read_log(alloc: Global, fields: &[&str], fresh: bool) -> Result<Log, RecordFault>
    ensures { Reads (All (IsChainOf fresh)) log_fields (map (λ f. f.now) fields.now) result }
{
    let mut log = Log::new(alloc);
    let mut at = 0;
    while at < fields.len() {
        if fields[at] != ";" {
            return Err(RecordFault::Syntax);
        }
        let begin = at + 1;
        let end = begin + first_mark(&fields[begin..]);
        let chain = read_chain(alloc, &fields[begin..end], fresh)?;
        log.push(chain)?;
        at = end;
    }
    Ok(log)
}

// Reads a chain, which names a literal at which it is fresh exactly if `fresh`.
fn read_chain(alloc: Global, fields: &[&str], fresh: bool) -> Result<Chain, RecordFault>
    ensures { Reads (IsChainOf fresh) chain_fields (map (λ f. f.now) fields.now) result }
{
    if !fresh {
        return read_clauses(alloc, fields, None);
    }
    let Some((at, clauses)) = fields.split_first() else {
        return Err(RecordFault::Syntax);
    };
    let Some(at) = literal_of(at) else {
        return Err(RecordFault::Syntax);
    };
    read_clauses(alloc, clauses, Some(at))
}

// Reads the clauses of a chain: the first one, and then each pivot with the clause that is resolved with.
fn read_clauses(alloc: Global, fields: &[&str], at: Option<Lit>) -> Result<Chain, RecordFault>
    requires { HasLiteralSpelling at }
    ensures { Reads (λ chain. HasChainSpelling chain × (chain.fresh_at ≡ at)) clause_fields (map (λ f. f.now) fields.now) result }
{
    let Some((start, steps)) = fields.split_first() else {
        return Err(RecordFault::Syntax);
    };
    let Some(start) = number_of(start) else {
        return Err(RecordFault::Syntax);
    };
    read_steps(Chain::new(alloc, start, at), steps)
}

// Adds the steps that the fields spell to the chain, each a pivot and a clause.
fn read_steps(mut chain: Chain, fields: &[&str]) -> Result<Chain, RecordFault>
    requires { chain.steps ≡ [] }
    ensures { Reads (λ (other : ChainView). All HasStepSpelling other.steps × (other.start ≡ chain.start) × (other.fresh_at ≡ chain.fresh_at)) (λ other. flat_map step_fields other.steps) (map (λ f. f.now) fields.now) result }
{
    let mut at = 0;
    while at + 1 < fields.len() {
        let Some(pivot) = literal_of(fields[at]) else {
            return Err(RecordFault::Syntax);
        };
        let Some(clause) = number_of(fields[at + 1]) else {
            return Err(RecordFault::Syntax);
        };
        chain.push(pivot, clause)?;
        at += 2;
    }
    if at < fields.len() {
        return Err(RecordFault::Syntax);
    }
    Ok(chain)
}
