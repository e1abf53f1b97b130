//! `Units`: the numbers with one root answer alike, so the root, their unit, is asked and waits for all of them; and
//! the list of the numbers of each unit.

ghost use Rattle.std.specs.Prelude.{◌≡◌, ◌<◌, ◌^◌, ◌++◌, ◌↔◌, ℕ, List, [], ◌∷◌, All, Contains, IfOk, OnOk, IsTrue, length, slice_index};
ghost use Rattle.kept_vectors.specs.Units.{IsNextWith, AreChains, HasChains, AreOfUnits};

use std::alloc::{AllocError, Global};

// The unit of each number is its root. The numbers of a unit are a chain: `firsts` has the lowest number of each unit,
// and `nexts` the next one after each number. After the last comes the count of all numbers.
#[derive(Debug)]
pub(crate) struct Units<'a> {
    pub(crate) roots: &'a [u32],
    pub(crate) firsts: Vec<u32>,
    pub(crate) nexts: Vec<u32>,
}

// As for `Keeper`.
impl Drop for Units<'_> {
    fn drop(self) {
        let Units {
            roots: _,
            firsts: _,
            nexts: _,
        } = self;
    }
}

impl<'a> Units<'a> {
    // Returns the units of `count` numbers with these roots.
    pub(crate) fn new(alloc: Global, roots: &'a [u32], count: u32) -> Result<Units<'a>, AllocError>
        requires count { count ≡ length roots.now }
        requires within { All (λ root. root < length roots.now) roots.now }
        ensures roots { IfOk result (λ units. units.roots.now ≡ roots.now) }
        ensures chains { IfOk result HasChains }
    {
        let mut firsts = vec![in alloc; count; count as usize]?;
        let mut nexts = vec![in alloc; count; count as usize]?;
        link(roots, firsts.as_mut_slice(), nexts.as_mut_slice());
        Ok(Units {
            roots,
            firsts,
            nexts,
        })
    }

    // Returns the unit of `number`.
    pub(crate) fn of(&self, number: u32) -> u32
        requires { number < length self.now.roots.now }
        ensures { result ≡ slice_index self.now.roots.now number }
    {
        self.roots[number as usize]
    }

    // Returns whether `number` is its own unit.
    pub(crate) fn has(&self, number: u32) -> bool
        requires { number < length self.now.roots.now }
        ensures { IsTrue result ↔ (slice_index self.now.roots.now number ≡ number) }
    {
        self.of(number) == number
    }

    // Adds all numbers of `units` to `numbers`.
    pub(crate) fn list(&self, units: &[u32], numbers: &mut Vec<u32>) -> Result<(), AllocError>
        requires chains { HasChains self.now }
        requires units { All (λ unit. unit < length self.now.roots.now) units.now }
        ensures { OnOk result ((more : List ℕ) × (numbers.new.items ≡ numbers.old.items ++ more) × AreOfUnits self.now.roots.now units.now more) }
    {
        for unit in units {
            self.list_chain(*unit, numbers)?;
        }
        Ok(())
    }

    fn list_chain(&self, unit: u32, numbers: &mut Vec<u32>) -> Result<(), AllocError>
        requires chains { HasChains self.now }
        requires unit { unit < length self.now.roots.now }
        ensures { OnOk result ((more : List ℕ) × (numbers.new.items ≡ numbers.old.items ++ more) × AreOfUnits self.now.roots.now (unit ∷ []) more) }
    {
        let mut number = self.firsts[unit as usize];
        while (number as usize) < self.nexts.len() {
            numbers.push(number)?;
            number = self.nexts[number as usize];
        }
        Ok(())
    }
}

// Links the numbers of each root, from the last number back.
fn link(roots: &[u32], firsts: &mut [u32], nexts: &mut [u32])
    requires within { All (λ root. root < length roots.now) roots.now }
    requires firsts { length firsts.old ≡ length roots.now }
    requires nexts { length nexts.old ≡ length roots.now }
    requires few { length roots.now < 2 ^ 32 }
    requires none { AreChains roots.now (length roots.now) firsts.old nexts.old }
    ensures { AreChains roots.now 0 firsts.new nexts.new }
{
    let mut number = roots.len();
    while number > 0 {
        number -= 1;
        let root = roots[number] as usize;
        nexts[number] = firsts[root];
        firsts[root] = number as u32;
    }
}
