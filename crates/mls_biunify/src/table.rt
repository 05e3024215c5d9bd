//! States under numbers, with flow edges.
ghost use Rattle.std.specs.Prelude.{◌≡◌, ◌≢◌, ◌↔◌, ◌⊎◌, ◌<◌, ℕ, [], true, false, get_or, All, Contains, IfOk, IsTrue, OnErr};
ghost use Rattle.std.specs.Prelude.{OnOk};
ghost use Rattle.mls_automaton.specs.declared.automaton.Polarity.TheVariants.{Positive, Negative};
ghost use Rattle.mls_automaton.specs.Automata.{HasFlow, empty_head, head_at, polarity_at};
ghost use Rattle.mls_automaton.specs.Models.{HasRisingLabels, HasStatesIn, IsClosed};
ghost use Rattle.mls_automaton.specs.Reached.{Names};
ghost use Rattle.mls_biunify.specs.Live.{IsStateIn, IsTable};
ghost use Rattle.mls_biunify.specs.steps.Tables.{CutsEdges, InsertsState, IsNumbered, RemovesFlow, RemovesState, SetsHead};
ghost use Rattle.mls_biunify.specs.steps.Tables.{SetsPolarity};
ghost use Rattle.mls_biunify.specs.steps.TwoWay.{AreCuts};

use crate::edges::Edges;
use mls_automaton::automaton::{Head, Polarity, State};
use mls_automaton::state_set::{StateId, StateSet};
use mls_base::memory::Memory;
use slab::Slab;
use std::alloc::Global;
use std::marker::Model;

// States that keep their numbers, and the edges between them. Contracts see an automaton in which a number that is free
// stands as a positive state with nothing, and which numbers are there.
#[derive(Drop)]
pub struct Table {
    states: Slab<State>,
    flows: Edges,
}

impl Model for Table {
    ghost use Rattle.mls_biunify.specs.steps.Tables.{Numbered};

    ghost Value = { Numbered };

    ghost use Rattle.mls_biunify.specs.steps.TableParts.{table_view, IsTableInside};

    ghost view = { table_view };

    ghost invariant = { IsTableInside };
}

impl Table {
    // No state. It allocates nothing.
    pub fn new(alloc: Global) -> Table
        ensures there { result.there ≡ [] }
        ensures flows { result.automaton.flows ≡ [] }
        ensures states { result.automaton.states ≡ [] }
    {
        Table {
            states: Slab::new(alloc),
            flows: Edges::new(alloc),
        }
    }

    // Makes room for so many more states.
    pub fn make_room(&mut self, more: usize) -> Result<(), Memory>
        ensures { self.new ≡ self.old }
    {
        self.states.reserve(more)?;
        self.flows.make_room(more)
    }

    // A number above all that are there.
    pub fn limit(&self) -> usize
        ensures limit { result ≡ self.now.limit }
        ensures is { IsNumbered self.now }
    {
        self.flows.size()
    }

    // Whether the number is that of a state.
    pub fn contains(&self, s: usize) -> bool
        ensures { result ≡ get_or self.now.there s false }
    {
        self.states.contains(s)
    }

    // Whether the state is there and has the polarity.
    pub fn is_state(&self, s: StateId, polarity: Polarity) -> bool
        ensures { IsTrue result ↔ IsStateIn self.now.automaton self.now.there polarity s.0 }
    {
        self.contains(s.0) && self.polarity(s) == polarity
    }

    // The states that are there.
    pub fn numbers(&self, alloc: Global) -> Result<StateSet, Memory>
        ensures { IfOk result (λ set. (s : ℕ) → Contains set s ↔ (get_or self.now.there s false ≡ true)) }
    {
        let mut set = StateSet::new(alloc);
        for s in 0..self.limit() {
            self.push_number(&mut set, s)?;
        }
        Ok(set)
    }

    // Puts a number into a set, if it is that of a state.
    fn push_number(&self, set: &mut StateSet, s: usize) -> Result<(), Memory>
        ensures { OnOk result ((j : ℕ)
            → Contains set.new j ↔ (Contains set.old j ⊎ ((j ≡ s) × (get_or self.now.there s false ≡ true)))) }
    {
        if self.contains(s) {
            return set.insert(StateId(s));
        }
        Ok(())
    }

    // The polarity of a state.
    pub fn polarity(&self, s: StateId) -> Polarity
        requires { get_or self.now.there s.0 false ≡ true }
        ensures polarity { result ≡ polarity_at self.now.automaton s.0 }
        ensures is { IsNumbered self.now }
    {
        self.states[s.0].polarity
    }

    // The head of a state.
    pub fn head(&self, s: StateId) -> &Head
        requires { get_or self.now.there s.0 false ≡ true }
        ensures head { result.now ≡ head_at self.now.automaton s.0 }
        ensures is { IsNumbered self.now }
    {
        &self.states[s.0].head
    }

    // Whether there is an edge between the two states.
    pub fn has_flow(&self, negative: StateId, positive: StateId) -> bool
        ensures { IsTrue result ↔ HasFlow self.now.automaton negative.0 positive.0 }
    {
        self.flows.contains(negative.0, positive.0)
    }

    // The states to which a negative state has an edge.
    pub fn after(&self, n: StateId) -> &StateSet
        requires { get_or self.now.there n.0 false ≡ true }
        ensures partners { (p : ℕ) → Contains result.now p ↔ HasFlow self.now.automaton n.0 p }
        ensures is { IsNumbered self.now }
    {
        self.flows.after(n.0)
    }

    // The states that have an edge to a positive state.
    pub fn before(&self, p: StateId) -> &StateSet
        requires { get_or self.now.there p.0 false ≡ true }
        ensures partners { (n : ℕ) → Contains result.now n ↔ HasFlow self.now.automaton n p.0 }
        ensures is { IsNumbered self.now }
    {
        self.flows.before(p.0)
    }

    // Adds a state.
    pub fn insert(&mut self, polarity: Polarity, head: Head) -> Result<StateId, Memory>
        requires states { HasStatesIn (IsStateIn self.old.automaton self.old.there) polarity head }
        requires labels { HasRisingLabels head.fields }
        ensures inserts { IfOk result (λ id. InsertsState self.old self.new id.0
            (record { polarity = polarity; head = head })) }
        ensures automaton { OnErr result (self.new.automaton ≡ self.old.automaton) }
        ensures there { OnErr result (self.new.there ≡ self.old.there) }
    {
        let size = self.states.vacant_key().checked_add(1).ok_or(Memory)?;
        self.flows.grow(size)?;
        let key = self.states.insert(State { polarity, head })?;
        Ok(StateId(key))
    }

    // Adds an edge. One that is there stays, once.
    pub fn edge(&mut self, negative: StateId, positive: StateId) -> Result<(), Memory>
        requires negative { IsStateIn self.old.automaton self.old.there Negative negative.0 }
        requires positive { IsStateIn self.old.automaton self.old.there Positive positive.0 }
        ensures flows { OnOk result ((n p : ℕ) → HasFlow self.new.automaton n p ↔ HasFlow self.old.automaton n p
            ⊎ ((n ≡ negative.0) × (p ≡ positive.0))) }
        ensures same { OnErr result ((n p : ℕ) → HasFlow self.new.automaton n p ↔ HasFlow self.old.automaton n p) }
        ensures once { HasFlow self.old.automaton negative.0 positive.0 → self.new ≡ self.old }
        ensures states { self.new.automaton.states ≡ self.old.automaton.states }
        ensures there { self.new.there ≡ self.old.there }
        ensures limit { self.new.limit ≡ self.old.limit }
    {
        self.flows.insert(negative.0, positive.0)
    }

    // Gives a state another head.
    pub fn set_head(&mut self, s: StateId, head: Head)
        requires there { get_or self.old.there s.0 false ≡ true }
        requires states { HasStatesIn (IsStateIn self.old.automaton self.old.there)
            (polarity_at self.old.automaton s.0) head }
        requires labels { HasRisingLabels head.fields }
        ensures sets { SetsHead self.old self.new s.0 head }
        ensures is { IsNumbered self.new }
    {
        self.states[s.0].head = head;
    }

    // Gives a state without a head and without edges, which no head names, a polarity.
    pub fn set_polarity(&mut self, s: StateId, polarity: Polarity)
        requires there { get_or self.old.there s.0 false ≡ true }
        requires empty { head_at self.old.automaton s.0 ≡ empty_head }
        requires unnamed { (j : ℕ) → Names self.old.automaton j s.0 → ⊥ }
        requires unlinked { (n p : ℕ) → HasFlow self.old.automaton n p → (n ≢ s.0) × (p ≢ s.0) }
        ensures { SetsPolarity self.old self.new s.0 polarity }
    {
        self.states[s.0].polarity = polarity;
    }

    // Takes an edge out.
    pub fn unlink(&mut self, negative: StateId, positive: StateId)
        requires negative { get_or self.old.there negative.0 false ≡ true }
        requires positive { get_or self.old.there positive.0 false ≡ true }
        ensures removes { RemovesFlow self.old self.new negative.0 positive.0 }
        ensures is { IsNumbered self.new }
    {
        self.flows.remove(negative.0, positive.0);
    }

    // Takes out all edges at these states, where the lists have the states that are left after and before those that
    // lose an edge.
    pub fn cut(
        &mut self,
        gone: &[usize],
        after: Vec<(usize, StateSet)>,
        before: Vec<(usize, StateSet)>,
    )
        requires there { All (λ s. get_or self.old.there s false ≡ true) gone.now }
        requires after { AreCuts gone.now self.old.limit (HasFlow self.old.automaton) after.items }
        requires before { AreCuts gone.now self.old.limit (λ p n. HasFlow self.old.automaton n p) before.items }
        ensures cuts { CutsEdges self.old gone.now self.new }
        ensures is { IsNumbered self.new }
    {
        self.flows.cut(gone, after, before);
    }

    // Takes a state out, which no head names and which has no edge.
    pub fn remove(&mut self, s: StateId)
        requires there { get_or self.old.there s.0 false ≡ true }
        requires unnamed { (j : ℕ) → Names self.old.automaton j s.0 → ⊥ }
        requires unlinked { (n p : ℕ) → HasFlow self.old.automaton n p → (n ≢ s.0) × (p ≢ s.0) }
        ensures removes { RemovesState self.old self.new s.0 }
        ensures is { IsNumbered self.new }
    {
        self.states.remove(s.0);
    }
}
