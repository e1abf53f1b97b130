//! Logs of the chains of learned clauses.

ghost use Rattle.std.specs.Prelude.{◌≡◌, ◌∷◌, ◌++◌, [], map, IfOk};
ghost use Rattle.learn_solver.specs.Logs.{without_literal};

use pair_miter::{Chain, Log};
use std::alloc::{AllocError, Global};
use std::mem;

/// Returns the log of the chains, which are moved to it.
pub(crate) fn log_of(alloc: Global, chains: &mut Vec<Chain>) -> Result<Log, AllocError>
    ensures { IfOk result (λ log. log ≡ chains.old.items) }
{
    let mut log = Log::new(alloc);
    for chain in mem::replace(chains, Vec::new(alloc)) {
        log.push(chain)?;
    }
    Ok(log)
}

/// Returns the log of the chains, which are moved to it without the literals that they name, and of `last`.
pub(crate) fn bare_log(
    alloc: Global,
    chains: &mut Vec<Chain>,
    last: Chain,
) -> Result<Log, AllocError>
    ensures { IfOk result (λ log. log ≡ map without_literal chains.old.items ++ last ∷ []) }
{
    let mut log = Log::new(alloc);
    for chain in mem::replace(chains, Vec::new(alloc)) {
        let mut bare = chain;
        bare.set_at(None);
        log.push(bare)?;
    }
    log.push(last)?;
    Ok(log)
}
