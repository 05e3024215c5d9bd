//! Sets of pairs of numbers, few of which have many pairs.
ghost use Rattle.std.specs.Prelude.{◌≡◌, ◌↔◌, ℕ, filter, IfOk, IsTrue, OnOk, false};
ghost use Rattle.std.specs.List.{list_any};
ghost use Rattle.mls_deriv.specs.inner.Tables.{GetsPair, HasPair, LosesPair, is_other, is_pair};

use mls_base::memory::Memory;
use std::alloc::Global;
use std::collections::BTreeSet;

// So many pairs stand in a list, which is gone through from its start: for so few, nothing else takes as little time.
const FEW: usize = 16;

/// A set of pairs of numbers: the first ones in a list, and those for which it has no place in an ordered set.
#[derive(Drop)]
pub struct PairSet {
    few: Vec<(usize, usize)>,
    others: BTreeSet<(usize, usize)>,
}

impl PairSet {
    /// No pair. It allocates nothing.
    pub(crate) fn new(alloc: Global) -> PairSet
        ensures { (i j : ℕ) → HasPair result i j → ⊥ }
    {
        PairSet {
            few: Vec::new(alloc),
            others: BTreeSet::new(alloc),
        }
    }

    /// Whether the pair is there.
    pub(crate) fn has(&self, left: usize, right: usize) -> bool
        ensures { IsTrue result ↔ HasPair self.now left right }
    {
        is_among(self.few.as_slice(), left, right) || self.others.contains(&(left, right))
    }

    /// Adds a pair, and answers whether it is new.
    ///
    /// # Errors
    ///
    /// `Memory` where memory is wanting.
    pub(crate) fn insert(&mut self, left: usize, right: usize) -> Result<bool, Memory>
        ensures adds { OnOk result (GetsPair left right self.old self.new) }
        ensures new { IfOk result (λ is_new. is_new ≡ false → HasPair self.old left right) }
    {
        if is_among(self.few.as_slice(), left, right) {
            return Ok(false);
        }
        if self.few.len() < FEW && self.others.is_empty() {
            if self.few.is_empty() {
                self.few.reserve(FEW)?;
            }
            self.few.push((left, right))?;
            return Ok(true);
        }
        let is_new = self.others.insert((left, right))?;
        Ok(is_new)
    }

    /// Takes out a pair, if it is there.
    pub(crate) fn remove(&mut self, left: usize, right: usize)
        ensures { LosesPair left right self.old self.new }
    {
        take_out(&mut self.few, left, right);
        self.others.remove(&(left, right));
    }
}

// Whether the pair is among these.
fn is_among(pairs: &[(usize, usize)], left: usize, right: usize) -> bool
    ensures { result ≡ list_any (is_pair left right) pairs.now }
{
    pairs.iter().any(|pair| pair.0 == left && pair.1 == right)
}

// Takes a pair out of a list.
fn take_out(pairs: &mut Vec<(usize, usize)>, left: usize, right: usize)
    ensures { pairs.new.items ≡ filter (is_other left right) pairs.old.items }
{
    pairs.retain(|pair| pair.0 != left || pair.1 != right);
}
