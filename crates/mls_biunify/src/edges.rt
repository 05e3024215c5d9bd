//! Pairs of numbers, found from both of their ends.
ghost use Rattle.std.specs.Prelude.{ℕ, ◌≡◌, ◌↔◌, ◌⊎◌, ◌<◌, ◌≤◌, List, [], length, get_or, All, Contains, OnOk, OnErr, IsTrue};
ghost use Rattle.mls_automaton.specs.Sets.{Rises};
ghost use Rattle.mls_biunify.specs.steps.TwoWay.{AddsPair, AreCuts, HasPair, IsCleared, IsGrown, IsSamePairs, LeavesPairs};
ghost use Rattle.mls_biunify.specs.steps.TwoWay.{EmptiesSets, RemovesPair, StoresSets};

use mls_automaton::state_set::{StateId, StateSet};
use mls_base::memory::Memory;
use std::alloc::Global;
use std::marker::Model;

// For each number the second numbers of the pairs that begin with it, and the first numbers of those that end with it.
#[derive(Drop)]
pub struct Edges {
    forward: Vec<StateSet>,
    backward: Vec<StateSet>,
}

impl Model for Edges {
    ghost use Rattle.mls_biunify.specs.steps.TwoWay.{TwoWay, IsTwoWay};

    ghost Value = { TwoWay };

    ghost view = { λ a. record { forward = a.forward.items; backward = a.backward.items } };

    ghost invariant = { λ a. IsTwoWay (record { forward = a.forward.items; backward = a.backward.items }) };
}

impl Edges {
    // No pair. It allocates nothing.
    pub fn new(alloc: Global) -> Edges
        ensures { result ≡ record { forward = []; backward = [] } }
    {
        Edges {
            forward: Vec::new(alloc),
            backward: Vec::new(alloc),
        }
    }

    // The numbers that may have pairs are below this one.
    pub fn size(&self) -> usize
        ensures { result ≡ length self.now.forward }
    {
        self.forward.len()
    }

    // Numbers below this one may have pairs from now on.
    pub fn grow(&mut self, size: usize) -> Result<(), Memory>
        ensures size { OnOk result (size ≤ length self.new.forward) }
        ensures grown { IsGrown self.old self.new }
    {
        while self.forward.len() < size {
            self.add_number()?;
        }
        Ok(())
    }

    // Makes room for so many more numbers.
    pub fn make_room(&mut self, more: usize) -> Result<(), Memory>
        ensures { self.new ≡ self.old }
    {
        self.forward.reserve(more)?;
        self.backward.reserve(more)?;
        Ok(())
    }

    // One more number may have pairs from now on.
    fn add_number(&mut self) -> Result<(), Memory>
        ensures size { OnOk result (length self.old.forward < length self.new.forward) }
        ensures grown { IsGrown self.old self.new }
    {
        let alloc = *self.forward.allocator();
        self.forward.reserve(1)?;
        self.backward.push(StateSet::new(alloc))?;
        // There is room for it.
        self.forward.push(StateSet::new(alloc))?;
        Ok(())
    }

    // Whether the pair is there, in time logarithmic in the number of pairs that begin alike.
    pub fn contains(&self, n: usize, p: usize) -> bool
        ensures { IsTrue result ↔ HasPair self.now n p }
    {
        n < self.forward.len() && self.forward[n].contains(StateId(p))
    }

    // Adds a pair. One that is there stays, once.
    pub fn insert(&mut self, n: usize, p: usize) -> Result<(), Memory>
        requires first { n < length self.old.forward }
        requires second { p < length self.old.forward }
        ensures ok { OnOk result (AddsPair self.old self.new n p) }
        ensures there { HasPair self.old n p → self.new ≡ self.old }
        ensures size { length self.new.forward ≡ length self.old.forward }
        ensures err { OnErr result (IsSamePairs self.old self.new) }
    {
        if self.contains(n, p) {
            return Ok(());
        }
        self.forward[n].insert(StateId(p))?;
        if self.backward[p].insert(StateId(n)).is_err() {
            self.forward[n].remove(StateId(p));
            return Err(Memory);
        }
        Ok(())
    }

    // Takes a pair out.
    pub fn remove(&mut self, n: usize, p: usize)
        requires first { n < length self.old.forward }
        requires second { p < length self.old.forward }
        ensures { RemovesPair self.old self.new n p }
    {
        self.forward[n].remove(StateId(p));
        self.backward[p].remove(StateId(n));
    }

    // Takes out all pairs with one of these numbers, where the lists have the sets that are left of those that lose a
    // member. Each set is stored at once.
    pub fn cut(
        &mut self,
        gone: &[usize],
        after: Vec<(usize, StateSet)>,
        before: Vec<(usize, StateSet)>,
    )
        requires low { All (λ s. s < length self.old.forward) gone.now }
        requires after { AreCuts gone.now (length self.old.forward) (HasPair self.old) after.items }
        requires before { AreCuts gone.now (length self.old.forward) (λ p n. HasPair self.old n p) before.items }
        ensures { LeavesPairs gone.now self.old self.new }
    {
        store_sets(&mut self.forward, after);
        store_sets(&mut self.backward, before);
        empty_sets(&mut self.forward, gone);
        empty_sets(&mut self.backward, gone);
    }

    // The second numbers of the pairs that begin with this one.
    pub fn after(&self, n: usize) -> &StateSet
        requires { n < length self.now.forward }
        ensures members { (p : _) → Contains result.now p ↔ HasPair self.now n p }
        ensures low { (p : _) → Contains result.now p → p < length self.now.forward }
    {
        &self.forward[n]
    }

    // The first numbers of the pairs that end with this one.
    pub fn before(&self, p: usize) -> &StateSet
        requires { p < length self.now.forward }
        ensures members { (n : _) → Contains result.now n ↔ HasPair self.now n p }
        ensures low { (n : _) → Contains result.now n → n < length self.now.forward }
    {
        &self.backward[p]
    }

    // Takes all pairs out, which are those of a list.
    pub fn clear_pairs(&mut self, pairs: &[(usize, usize)])
        requires all { (n p : ℕ) → HasPair self.old n p ↔ Contains pairs.now (n, p) }
        ensures none { (n p : ℕ) → HasPair self.new n p → ⊥ }
        ensures size { length self.new.forward ≡ length self.old.forward }
    {
        clear_first(&mut self.forward, pairs);
        clear_second(&mut self.backward, pairs);
    }
}

// Makes the sets of the first numbers empty.
fn clear_first(sets: &mut Vec<StateSet>, pairs: &[(usize, usize)])
    requires { (n p : ℕ) → Contains pairs.now (n, p) → n < length sets.old.items }
    ensures size { length sets.new.items ≡ length sets.old.items }
    ensures left { (s j : ℕ) → Contains (get_or sets.new.items s []) j → Contains (get_or sets.old.items s []) j }
    ensures clear { (n p j : ℕ) → Contains pairs.now (n, p) → Contains (get_or sets.new.items n []) j → ⊥ }
{
    for pair in pairs {
        clear_set(sets, pair.0);
    }
}

// Makes the sets of the second numbers empty.
fn clear_second(sets: &mut Vec<StateSet>, pairs: &[(usize, usize)])
    requires { (n p : ℕ) → Contains pairs.now (n, p) → p < length sets.old.items }
    ensures size { length sets.new.items ≡ length sets.old.items }
    ensures left { (s j : ℕ) → Contains (get_or sets.new.items s []) j → Contains (get_or sets.old.items s []) j }
    ensures clear { (n p j : ℕ) → Contains pairs.now (n, p) → Contains (get_or sets.new.items p []) j → ⊥ }
{
    for pair in pairs {
        clear_set(sets, pair.1);
    }
}

// Gives numbers these sets.
fn store_sets(sets: &mut Vec<StateSet>, changes: Vec<(usize, StateSet)>)
    requires { (s : ℕ) (set : List ℕ) → Contains changes.items (s, set) → s < length sets.old.items }
    ensures { StoresSets sets.old.items changes.items sets.new.items }
{
    let mut changes = changes;
    while let Some(change) = changes.pop() {
        sets[change.0] = change.1;
    }
}

// Makes the sets of these numbers empty.
fn empty_sets(sets: &mut Vec<StateSet>, numbers: &[usize])
    requires { All (λ s. s < length sets.old.items) numbers.now }
    ensures { EmptiesSets sets.old.items numbers.now sets.new.items }
{
    for s in numbers {
        clear_set(sets, *s);
    }
}

// Makes a set empty.
fn clear_set(sets: &mut Vec<StateSet>, s: usize)
    requires { s < length sets.old.items }
    ensures { IsCleared s sets.old.items sets.new.items }
{
    sets[s].clear();
}
