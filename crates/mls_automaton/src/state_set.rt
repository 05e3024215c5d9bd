//! Sets of states.
ghost use Rattle.std.specs.Prelude.{◌≡◌, ◌≢◌, ◌↔◌, ◌⊎◌, ◌<◌, ◌++◌, ◌∷◌, [], length, get_or, All, Contains, IfOk, OnOk};
ghost use Rattle.std.specs.Prelude.{OnErr, IsTrue};
ghost use Rattle.mls_automaton.specs.Sets.{Rises};
ghost use Rattle.mls_automaton.specs.steps.Merging.{GoesPast, IsLow, StandsAt};

use mls_base::memory::Memory;
use smallvec::SmallVec;
use std::alloc::Global;
use std::marker::Model;

/// The number of a state in its automaton, from 0.
#[derive(Clone, Copy, Debug, PartialEq, Eq, PartialOrd, Ord, Hash)]
pub struct StateId(pub usize);

/// A set of states. Contracts see the list of their numbers, which rise.
#[derive(Clone, Debug, Drop)]
pub struct StateSet {
    // Nearly all sets are this short, and need no allocation.
    numbers: SmallVec<usize, 2>,
}

impl Model for StateSet {
    ghost use Rattle.std.specs.Prelude.{List, ℕ};
    ghost use Rattle.mls_automaton.specs.Sets.{Rises};

    ghost Value = { List ℕ };

    ghost view = { λ a. a.numbers.items };

    ghost invariant = { λ a. Rises a.numbers.items };
}

impl StateSet {
    /// The set of no state. It allocates nothing.
    pub fn new(alloc: Global) -> StateSet
        ensures { result ≡ [] }
    {
        StateSet {
            numbers: SmallVec::new(alloc),
        }
    }

    /// The set of one state.
    ///
    /// # Errors
    ///
    /// `Memory` where memory is wanting.
    pub fn one(alloc: Global, s: StateId) -> Result<StateSet, Memory>
        ensures { IfOk result (λ set. set ≡ s.0 ∷ []) }
    {
        let mut numbers = SmallVec::new(alloc);
        numbers.push_reserved(s.0);
        Ok(StateSet { numbers })
    }

    /// Adds a state that has a higher number than all members.
    ///
    /// # Errors
    ///
    /// `Memory` where memory is wanting; the set is then as before.
    pub fn push(&mut self, s: StateId) -> Result<(), Memory>
        requires { All (λ j. j < s.0) self.old }
        ensures ok { OnOk result (self.new ≡ self.old ++ s.0 ∷ []) }
        ensures err { OnErr result (self.new ≡ self.old) }
    {
        self.numbers.push(s.0)?;
        Ok(())
    }

    /// Adds a state. One that is a member stays one.
    ///
    /// # Errors
    ///
    /// `Memory` where memory is wanting; the set is then as before.
    pub fn insert(&mut self, s: StateId) -> Result<(), Memory>
        ensures ok { OnOk result ((j : _) → Contains self.new j ↔ (j ≡ s.0) ⊎ Contains self.old j) }
        ensures rises { Rises self.new }
        ensures err { OnErr result (self.new ≡ self.old) }
    {
        if is_above(self.numbers.as_slice(), s.0) {
            return self.push(s);
        }
        match self.numbers.binary_search(&s.0) {
            Ok(_) => Ok(()),
            Err(at) => {
                self.numbers.insert(at, s.0)?;
                Ok(())
            }
        }
    }

    /// The set of the states that are in one of the two, in time linear in both.
    ///
    /// # Errors
    ///
    /// `Memory` where memory is wanting.
    pub fn union(&self, other: &StateSet) -> Result<StateSet, Memory>
        ensures { IfOk result (λ both. (j : _) → Contains both j ↔ Contains self.now j ⊎ Contains other.now j) }
    {
        let first = self.numbers.as_slice();
        let second = other.numbers.as_slice();
        let mut both = StateSet::new(*self.numbers.allocator());
        let mut i = 0;
        let mut j = 0;
        while i < first.len() || j < second.len() {
            let s = least(first, second, i, j);
            both.push(StateId(s))?;
            i = past(first, i, s);
            j = past(second, j, s);
        }
        Ok(both)
    }

    /// Takes a state out.
    pub fn remove(&mut self, s: StateId)
        ensures members { (j : _) → Contains self.new j ↔ Contains self.old j × (j ≢ s.0) }
        ensures rises { Rises self.new }
    {
        match self.numbers.binary_search(&s.0) {
            Ok(at) => {
                self.numbers.remove(at);
            }
            Err(_) => {}
        }
    }

    /// Takes out the states from this number on, in time logarithmic in the number of members that stay, and linear
    /// in that of those that go.
    pub fn truncate(&mut self, states: usize)
        ensures members { (j : _) → Contains self.new j ↔ Contains self.old j × (j < states) }
        ensures rises { Rises self.new }
    {
        match self.numbers.binary_search(&states) {
            Ok(at) => self.numbers.truncate(at),
            Err(at) => self.numbers.truncate(at),
        }
    }

    /// Takes out all states.
    pub fn clear(&mut self)
        ensures { self.new ≡ [] }
    {
        self.numbers.clear();
    }

    /// How many members the set has.
    pub fn len(&self) -> usize
        ensures len { result ≡ length self.now }
        ensures rises { Rises self.now }
    {
        self.numbers.len()
    }

    /// Whether there is no member.
    pub fn is_empty(&self) -> bool
        ensures { IsTrue result ↔ (self.now ≡ []) }
    {
        self.numbers.is_empty()
    }

    /// The member of this place in rising order.
    pub fn get(&self, i: usize) -> StateId
        requires { i < length self.now }
        ensures { result.0 ≡ get_or self.now i 0 }
    {
        StateId(self.numbers[i])
    }

    /// The numbers of the members, which rise.
    pub fn as_slice(&self) -> &[usize]
        ensures members { result.now ≡ self.now }
        ensures rises { Rises self.now }
    {
        self.numbers.as_slice()
    }

    /// Whether the state is a member, in time logarithmic in the number of members.
    pub fn contains(&self, s: StateId) -> bool
        ensures { IsTrue result ↔ Contains self.now s.0 }
    {
        self.numbers.binary_search(&s.0).is_ok()
    }
}

// Whether a number is above all of these, which rise.
fn is_above(numbers: &[usize], s: usize) -> bool
    requires { Rises numbers.now }
    ensures { IsTrue result → All (λ j. j < s) numbers.now }
{
    match numbers.last() {
        Some(last) => *last < s,
        None => true,
    }
}

// The least of the numbers at these places.
fn least(first: &[usize], second: &[usize], i: usize, j: usize) -> usize
    requires left { (i < length first.now) ⊎ (j < length second.now) }
    ensures first { IsLow first.now i result }
    ensures second { IsLow second.now j result }
    ensures there { StandsAt first.now i result ⊎ StandsAt second.now j result }
{
    if i >= first.len() {
        return second[j];
    }
    if j >= second.len() {
        return first[i];
    }
    first[i].min(second[j])
}

// The place behind a number, where it stands at this place; else this place.
fn past(numbers: &[usize], i: usize, s: usize) -> usize
    requires { IsLow numbers.now i s }
    ensures { GoesPast numbers.now i s result }
{
    if i < numbers.len() && numbers[i] == s {
        i + 1
    } else {
        i
    }
}
