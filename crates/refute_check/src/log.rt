//! The check of a log of resolutions.

ghost use Rattle.std.specs.Prelude.{◌≡◌, ◌≢◌, ◌↔◌, ◌+◌, ◌-◌, ◌<◌, ◌≤◌, ◌^◌, [], ◌∷◌, ◌++◌, All, IfOk, IsTrue, OnErr, OnOk, IsErrOf, ℕ, List, length};
ghost use Rattle.clause_pool.specs.Clauses.{BeginsWith, Clause as PoolClause};
ghost use Rattle.clause_pool.specs.LiteralCode.{code_of};
ghost use Rattle.clause_pool.specs.Proper.{HasVariablesUpTo};
ghost use Rattle.pair_miter.specs.Adds.{Grows, GrowsFor};
ghost use Rattle.pair_miter.specs.Log.{EndsFresh};
ghost use Rattle.pair_miter.specs.Miter as spec;
ghost use Rattle.evidence_rules.specs.declared.refusal.Refusal.{Refusal};
ghost use Rattle.evidence_rules.specs.declared.refusal.EvidenceKind.{EvidenceKind};
ghost use Rattle.evidence_rules.specs.LogRefusal.{ChainStops, EndsAs, HasRightLength, IsRightLog, IsRuleFor, LogRefused};
ghost use Rattle.refute_check.specs.PoolEnds.{HasEndsOf, HasSomeEnds, right_chains};
ghost use Rattle.refute_check.specs.Propagation.{IsPropagatorReady, IsReadyFor};
ghost use Rattle.refute_check.specs.Reached.{IsReached};

use crate::chain::follow;
use crate::clause::Clause;
use crate::freshness::Propagator;
use crate::reached::Reached;
use crate::refusal::ChainFault;
use clause_pool::{Lit, Pool};
use evidence_rules::{CheckFault, EvidenceKind, RefusalKind, refused};
use pair_miter::{Chain, Log, Miter};
use std::alloc::{AllocError, Global};

/// Checks the log of evidence over the clauses of the miter, with a budget of `conflicts` clauses that aren't empty.
/// Returns no error only if the log is what this kind of evidence needs, and `Refused` with a kind and a step only if
/// it isn't: its number of chains is wrong, else a chain is the first that can't be followed or has a wrong end. The
/// step is then the number of chains, or the place of that chain, counted from 0. The pool has the miter's clauses
/// before and after. After them it then has the ends of the chains before the last one of a right log, of those before
/// the wrong chain, none for a wrong number of chains, or, if memory is missing, of some of the first chains. The pool
/// keeps its places, and grows only if they were too few for these clauses, to no more than they need.
pub fn check_log(
    alloc: Global,
    miter: &Miter,
    pool: &mut Pool,
    log: &Log,
    kind: EvidenceKind,
    conflicts: u32,
) -> Result<(), CheckFault>
    requires kind { kind ≢ EvidenceKind.Covered }
    requires clauses { pool.old.clauses ≡ spec.miter miter.now.circuit miter.now.f miter.now.g }
    requires few { length pool.old.clauses + conflicts < 2 ^ 32 }
    ensures right { OnOk result (IsRightLog kind pool.old.clauses conflicts log.now) }
    ensures refused { (refusal : Refusal) → IsErrOf result (CheckFault.Refused refusal) → LogRefused kind pool.old.clauses conflicts log.now refusal }
    ensures begins { BeginsWith pool.new.clauses pool.old.clauses }
    ensures ok { OnOk result (HasEndsOf pool.old.clauses log.now (length log.now - 1) pool.new.clauses) }
    ensures stopped { (refusal : Refusal) → IsErrOf result (CheckFault.Refused refusal) → HasEndsOf pool.old.clauses log.now (right_chains refusal) pool.new.clauses }
    ensures err { OnErr result (HasSomeEnds pool.old.clauses log.now pool.new.clauses) }
    ensures places { GrowsFor pool.old pool.new pool.new.clauses }
{
    let chains = log.as_slice();
    if !has_right_length(kind, chains, conflicts) {
        return Err(refused(RefusalKind::WrongCount, chains.len()));
    }
    let variables = miter.variables();
    let mut propagator = propagator_for(alloc, pool, variables, kind)?;
    let mut reached = Reached::new(alloc);
    check_chains(
        alloc,
        &mut reached,
        &mut propagator,
        pool,
        variables,
        chains,
        kind,
    )
}

// Checks the chains of a log of the right length, as `check_log` does.
fn check_chains(
    alloc: Global,
    reached: &mut Reached,
    propagator: &mut Propagator,
    pool: &mut Pool,
    variables: u32,
    chains: &[Chain],
    kind: EvidenceKind,
) -> Result<(), CheckFault>
    requires empty { IsReached reached.old [] }
    requires ready { IsReadyFor kind variables pool.old.clauses propagator.old }
    requires kind { kind ≢ EvidenceKind.Covered }
    requires clauses { All (HasVariablesUpTo variables) pool.old.clauses }
    requires few { length pool.old.clauses + length chains.now ≤ 2 ^ 32 }
    ensures right { OnOk result ((conflicts : ℕ) → HasRightLength kind conflicts chains.now → IsRightLog kind pool.old.clauses conflicts chains.now) }
    ensures refused { (conflicts : ℕ) (refusal : Refusal) → HasRightLength kind conflicts chains.now → IsErrOf result (CheckFault.Refused refusal) → LogRefused kind pool.old.clauses conflicts chains.now refusal }
    ensures ok { OnOk result (HasEndsOf pool.old.clauses chains.now (length chains.now - 1) pool.new.clauses) }
    ensures stopped { (refusal : Refusal) → IsErrOf result (CheckFault.Refused refusal) → HasEndsOf pool.old.clauses chains.now (right_chains refusal) pool.new.clauses }
    ensures err { OnErr result (HasSomeEnds pool.old.clauses chains.now pool.new.clauses) }
    ensures grows { Grows pool.old pool.new }
{
    for (at, chain) in chains.iter().enumerate() {
        let end = end_of(alloc, reached, pool, chain, at)?;
        let last = at + 1 == chains.len();
        if let Some(rule) = wrong_end(propagator, pool, variables, chain, &end, kind, last) {
            return Err(refused(rule, at));
        }
        if !last {
            pool.add(end.as_slice())?;
            take_in(propagator, kind, end.as_slice(), pool.len())?;
        }
    }
    Ok(())
}

// Returns whether a log of this kind may have as many chains as these.
fn has_right_length(kind: EvidenceKind, chains: &[Chain], conflicts: u32) -> bool
    ensures { IsTrue result ↔ HasRightLength kind conflicts chains.now }
{
    match kind {
        EvidenceKind::Covered => true,
        EvidenceKind::Refuted => !chains.is_empty() && chains.len() <= conflicts as usize + 1,
        EvidenceKind::Spent => chains.len() == conflicts as usize,
    }
}

// Returns a propagator for the clauses of the pool if this kind of evidence needs one, else one for no clauses.
fn propagator_for(
    alloc: Global,
    pool: &Pool,
    variables: u32,
    kind: EvidenceKind,
) -> Result<Propagator, AllocError>
    requires { All (HasVariablesUpTo variables) pool.now.clauses }
    ensures { IfOk result (IsReadyFor kind variables pool.now.clauses) }
{
    if kind == EvidenceKind::Spent {
        return Propagator::new(alloc, pool, variables);
    }
    Propagator::idle(alloc)
}

// Adds the next clause of the pool, which has this number, to the propagator if this kind of evidence needs one.
fn take_in(
    propagator: &mut Propagator,
    kind: EvidenceKind,
    clause: &[Lit],
    number: u32,
) -> Result<(), AllocError>
    requires { kind ≡ EvidenceKind.Spent → All (λ l. code_of l < length propagator.old.index.lists) clause.now }
    ensures { OnOk result ((variables : ℕ) (clauses : List PoolClause) → length clauses + 1 ≡ number → IsReadyFor kind variables clauses propagator.old → IsReadyFor kind variables (clauses ++ clause.now ∷ []) propagator.new) }
{
    if kind != EvidenceKind::Spent {
        return Ok(());
    }
    propagator.add(clause, number)
}

// Returns the end of the chain, which is at place `at` of the log.
fn end_of(
    alloc: Global,
    reached: &mut Reached,
    pool: &Pool,
    chain: &Chain,
    at: usize,
) -> Result<Clause, CheckFault>
    requires { IsReached reached.old [] }
    ensures ended { IfOk result (λ end. EndsAs pool.now.clauses chain.now end.literals) }
    ensures refused { (refusal : Refusal) → IsErrOf result (CheckFault.Refused refusal) → (refusal.step ≡ at) × ChainStops pool.now.clauses chain.now refusal.kind }
    ensures empty { OnOk result (IsReached reached.new []) }
{
    match follow(alloc, reached, pool, chain) {
        Ok(end) => Ok(end),
        Err(ChainFault::NoSuchClause) => Err(refused(RefusalKind::NoSuchClause, at)),
        Err(ChainFault::NoPivot) => Err(refused(RefusalKind::NoPivot, at)),
        Err(ChainFault::NoMemory) => Err(CheckFault::NoMemory),
    }
}

// Returns the rule that the end of the chain breaks, if it breaks one.
fn wrong_end(
    propagator: &mut Propagator,
    pool: &Pool,
    variables: u32,
    chain: &Chain,
    end: &Clause,
    kind: EvidenceKind,
    last: bool,
) -> Option<RefusalKind>
    requires ready { IsReadyFor kind variables pool.now.clauses propagator.old }
    requires kind { kind ≢ EvidenceKind.Covered }
    requires clauses { All (HasVariablesUpTo variables) pool.now.clauses }
    requires end { HasVariablesUpTo variables end.now.literals }
    ensures rule { IsRuleFor kind last pool.now.clauses chain.now end.now.literals result }
    ensures ready { IsReadyFor kind variables pool.now.clauses propagator.new }
{
    let literals = end.as_slice();
    if kind == EvidenceKind::Spent {
        if literals.is_empty() {
            return Some(RefusalKind::EmptyEarly);
        }
        return if ends_fresh(propagator, pool, variables, chain, literals) {
            None
        } else {
            Some(RefusalKind::NotFresh)
        };
    }
    if literals.is_empty() == last {
        return None;
    }
    Some(if last {
        RefusalKind::NotEmpty
    } else {
        RefusalKind::EmptyEarly
    })
}

// Returns whether the end of the chain is fresh at the chain's literal.
fn ends_fresh(
    propagator: &mut Propagator,
    pool: &Pool,
    variables: u32,
    chain: &Chain,
    end: &[Lit],
) -> bool
    requires ready { IsPropagatorReady variables pool.now.clauses propagator.old }
    requires clauses { All (HasVariablesUpTo variables) pool.now.clauses }
    requires end { HasVariablesUpTo variables end.now }
    ensures fresh { IsTrue result ↔ EndsFresh pool.now.clauses chain.now end.now }
    ensures ready { IsPropagatorReady variables pool.now.clauses propagator.new }
{
    let Some(at) = chain.at() else {
        return false;
    };
    if !end.contains(&at) {
        return false;
    }
    propagator.fresh(pool, variables, end, at)
}
