//! The literals that attached clauses watch, and for each literal the list of its watches (Moskewicz et al. 2001).

ghost use Rattle.std.specs.Prelude.{◌≡◌, ◌+◌, ◌*◌, ◌<◌, ◌^◌, [], ◌∷◌, ◌++◌, None, Some, IfOk, IfSome, is_ok, if◌then◌else◌, length, vec_len, vec_capacity, replicate, slice_set};
ghost use Rattle.clause_pool.specs.LiteralCode.{code_of};
ghost use Rattle.solver_trail.specs.Watches as spec;
ghost use Rattle.solver_trail.specs.Watches.{AreInLists, IsAhead, IsLinked, IsPassed, IsUnlinked, link_after, watched, watched_literals};

use crate::link::Link;
use clause_pool::Lit;
use std::alloc::{AllocError, Global};

/// A watch of a clause, in eight bytes.
#[derive(Clone, Copy, Debug)]
pub(crate) struct Watch {
    /// The literal that is watched.
    pub(crate) literal: Lit,
    /// The next watch in the list of the literal.
    pub(crate) next: Link,
}

/// The watches of clauses, two for each. A watch is a number, and those of the k-th clause are 2 k and 2 k + 1.
///
/// The watches of a literal are a linked list, so that a watch moves to another literal without allocating memory.
#[derive(Debug, Drop)]
pub(crate) struct Watches {
    /// The watches, by number.
    pub(crate) watches: Vec<Watch>,
    /// The first watch of each literal, by the literal's code.
    pub(crate) firsts: Vec<Link>,
}

impl Watches {
    /// Returns the watches of no clause, with an empty list for each literal of variables 0 to `variables`.
    pub(crate) fn new(alloc: Global, variables: u32) -> Result<Watches, AllocError>
        ensures watches { IfOk result (λ watches. watches.watches.items ≡ []) }
        ensures firsts { IfOk result (λ watches. watches.firsts.items ≡ replicate (2 * variables + 2) None) }
    {
        let none = Link::none();
        let firsts = vec![in alloc; none; 2 * variables as usize + 2]?;
        Ok(Watches {
            watches: Vec::new(alloc),
            firsts,
        })
    }

    /// Adds the two watches of a clause. Returns `AllocError` also if there would be more watches than a `u32`
    /// counts.
    pub(crate) fn watch(&mut self, first: Lit, second: Lit) -> Result<(), AllocError>
        requires first { code_of first < length self.old.firsts.items }
        requires second { code_of second < length self.old.firsts.items }
        requires listed { AreInLists self.old [] }
        ensures literals { watched_literals self.new ≡ (if is_ok result then watched_literals self.old ++ first ∷ second ∷ [] else watched_literals self.old) }
        ensures firsts { length self.new.firsts.items ≡ length self.old.firsts.items }
        ensures listed { AreInLists self.new [] }
    {
        if self.watches.len() > u32::MAX as usize - 2 {
            return Err(AllocError);
        }
        self.watches.reserve(2)?;
        self.push(first);
        self.push(second);
        Ok(())
    }

    // Adds a watch. The vector has room for it.
    fn push(&mut self, lit: Lit)
        requires lit { code_of lit < length self.old.firsts.items }
        requires few { vec_len self.old.watches + 1 < 2 ^ 32 }
        requires room { vec_len self.old.watches < vec_capacity self.old.watches }
        requires listed { AreInLists self.old [] }
        ensures literals { watched_literals self.new ≡ watched_literals self.old ++ lit ∷ [] }
        ensures firsts { length self.new.firsts.items ≡ length self.old.firsts.items }
        ensures length { vec_len self.new.watches ≡ vec_len self.old.watches + 1 }
        ensures room { vec_capacity self.new.watches ≡ vec_capacity self.old.watches }
        ensures listed { AreInLists self.new [] }
    {
        let at = self.watches.len();
        self.watches.push_reserved(Watch {
            literal: lit,
            next: Link::none(),
        });
        self.link(at, lit);
    }

    /// Returns the number of watches.
    pub(crate) fn len(&self) -> usize
        ensures { result ≡ length (watched_literals self.now) }
    {
        self.watches.len()
    }

    /// Returns the literal that the watch watches.
    pub(crate) fn literal(&self, watch: usize) -> Lit
        requires { watch < length (watched_literals self.now) }
        ensures { result ≡ watched (watched_literals self.now) watch }
    {
        self.watches[watch].literal
    }

    /// Returns the watch after `last` in the list of the literal, or the first one of the list if `last` is none.
    pub(crate) fn after(&self, lit: Lit, last: Option<usize>) -> Option<usize>
        requires lit { code_of lit < length self.now.firsts.items }
        requires last { IfSome last (λ at. at < length (watched_literals self.now)) }
        ensures { result ≡ link_after self.now lit last }
    {
        match last {
            Some(at) => self.watches[at].next.get(),
            None => self.firsts[lit.code()].get(),
        }
    }

    /// Lets the first watch ahead in the list of `lit` watch `target`. If `target` is `lit` the watch stays where it
    /// is, else it goes to the front of the list of `target`. Returns the last watch that stays in the list of `lit`.
    pub(crate) fn rewatch(
        &mut self,
        lit: Lit,
        last: Option<usize>,
        at: usize,
        target: Lit,
    ) -> Option<usize>
        requires lit { code_of lit < length self.old.firsts.items }
        requires target { code_of target < length self.old.firsts.items }
        requires ahead { IsAhead self.old lit last }
        requires at { link_after self.old lit last ≡ Some at }
        ensures literals { watched_literals self.new ≡ slice_set (watched_literals self.old) at target }
        ensures firsts { length self.new.firsts.items ≡ length self.old.firsts.items }
        ensures ahead { IsPassed self.old self.new lit last result at }
    {
        if target == lit {
            return Some(at);
        }
        self.unlink(lit, last, at);
        self.link(at, target);
        last
    }

    // Removes the watch `at`, which comes after `last` or first, from the list of the literal.
    fn unlink(&mut self, lit: Lit, last: Option<usize>, at: usize)
        requires lit { code_of lit < length self.old.firsts.items }
        requires last { IfSome last (λ at. at < length (watched_literals self.old)) }
        requires at { at < length (watched_literals self.old) }
        ensures { IsUnlinked self.old self.new lit last at }
    {
        let next = self.watches[at].next;
        match last {
            Some(before) => self.watches[before].next = next,
            None => self.firsts[lit.code()] = next,
        }
    }

    // Lets the watch `at`, which is in no list, watch the literal, and puts it to the front of the literal's list.
    fn link(&mut self, at: usize, lit: Lit)
        requires at { at < length (watched_literals self.old) }
        requires few { at + 1 < 2 ^ 32 }
        requires lit { code_of lit < length self.old.firsts.items }
        ensures linked { IsLinked self.old self.new at lit }
        ensures length { vec_len self.new.watches ≡ vec_len self.old.watches }
        ensures room { vec_capacity self.new.watches ≡ vec_capacity self.old.watches }
    {
        let code = lit.code();
        self.watches[at] = Watch {
            literal: lit,
            next: self.firsts[code],
        };
        self.firsts[code] = Link::to(at);
    }
}

/// Returns the other watch of the same clause.
pub(crate) fn partner(watch: usize) -> usize
    requires { watch + 1 < 2 ^ 64 }
    ensures { result ≡ spec.partner watch }
{
    if watch % 2 == 0 { watch + 1 } else { watch - 1 }
}
