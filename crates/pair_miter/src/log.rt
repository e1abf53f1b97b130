//! Chains of resolutions, and logs of chains.

ghost use Rattle.std.specs.Prelude.{◌≡◌, ◌∷◌, ◌++◌, [], OnOk, OnErr};

use clause_pool::Lit;
use std::alloc::{AllocError, Global};
use std::marker::Model;

/// A chain: the number of the clause with which it begins, the pivots and clause numbers with which it resolves, and
/// the literal at which its clause is to be fresh, if it names one.
#[derive(Debug, Drop)]
pub struct Chain {
    start: u32,
    at: Option<Lit>,
    steps: Vec<(Lit, u32)>,
}

/// A list of chains.
#[derive(Debug, Drop)]
pub struct Log {
    chains: Vec<Chain>,
}

impl Model for Chain {
    ghost use Rattle.pair_miter.specs.ChainView.{ChainView};

    ghost Value = { ChainView };

    ghost view = { λ a. record { start = a.start; fresh_at = a.at; steps = a.steps.items } };
}

impl Model for Log {
    ghost use Rattle.std.specs.Prelude.{List};
    ghost use Rattle.pair_miter.specs.ChainView.{ChainView};

    ghost Value = { List ChainView };

    ghost view = { λ a. a.chains.items };
}

impl Chain {
    /// Returns a chain without steps that begins with clause `start`, and names the literal `at`, if there is one.
    pub fn new(alloc: Global, start: u32, at: Option<Lit>) -> Chain
        ensures { result ≡ record { start = start; fresh_at = at; steps = [] } }
    {
        Chain {
            start,
            at,
            steps: Vec::new(alloc),
        }
    }

    /// Adds a step: the clause so far is resolved on `pivot` with the clause of number `clause`. After an error nothing
    /// has changed.
    pub fn push(&mut self, pivot: Lit, clause: u32) -> Result<(), AllocError>
        ensures ok { OnOk result (self.new ≡ record self.old { steps = self.old.steps ++ (pivot, clause) ∷ [] }) }
        ensures err { OnErr result (self.new ≡ self.old) }
    {
        self.steps.push((pivot, clause))?;
        Ok(())
    }

    /// Sets the literal that the chain names, or removes it.
    pub fn set_at(&mut self, at: Option<Lit>)
        ensures { self.new ≡ record self.old { fresh_at = at } }
    {
        self.at = at;
    }

    /// Returns the number of the clause with which the chain begins.
    pub fn start(&self) -> u32
        ensures { result ≡ self.now.start }
    {
        self.start
    }

    /// Returns the literal that the chain names, whether or not its clause is fresh there, and none exactly if it names
    /// none.
    pub fn at(&self) -> Option<Lit>
        ensures { result ≡ self.now.fresh_at }
    {
        self.at
    }

    /// Returns the pivots, each with the number of the clause with which it resolves.
    pub fn steps(&self) -> &[(Lit, u32)]
        ensures { result.now ≡ self.now.steps }
    {
        self.steps.as_slice()
    }
}

impl Log {
    /// Appends `chain`. After an error nothing has changed.
    pub fn push(&mut self, chain: Chain) -> Result<(), AllocError>
        ensures ok { OnOk result (self.new ≡ self.old ++ chain ∷ []) }
        ensures err { OnErr result (self.new ≡ self.old) }
    {
        self.chains.push(chain)?;
        Ok(())
    }

    pub fn new(alloc: Global) -> Log
        ensures { result ≡ [] }
    {
        Log {
            chains: Vec::new(alloc),
        }
    }

    pub fn as_slice(&self) -> &[Chain]
        ensures { result.now ≡ self.now }
    {
        self.chains.as_slice()
    }
}
