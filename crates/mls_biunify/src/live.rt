//! Tables of states that are updated in place.
ghost use Rattle.std.specs.Prelude.{◌≡◌, ◌↔◌, ◌⊎◌, ◌<◌, ℕ, List, true, length, All, Contains, Err, IfErr};
ghost use Rattle.std.specs.Prelude.{IfOk, IsOk, IsSome};
ghost use Rattle.std.specs.Prelude.{IsTrue, None, OnErr, OnOk};
ghost use Rattle.mls_automaton.specs.declared.automaton.Polarity.TheVariants.{Positive, Negative};
ghost use Rattle.mls_automaton.specs.declared.scheme.EnvEntry.{EnvEntry};
ghost use Rattle.mls_automaton.specs.declared.state_set.StateId.{StateId};
ghost use Rattle.mls_automaton.specs.Automata.{HasFlow, polarity_at, head_at, state_at};
ghost use Rattle.mls_automaton.specs.Environments.{BindersRise};
ghost use Rattle.mls_automaton.specs.Reached.{KeepsReached};
ghost use Rattle.mls_automaton.specs.Schemes.{AreEquivalentSchemes, IsScheme};
ghost use Rattle.mls_automaton.specs.Models.{HasRisingLabels, HasStatesIn, IsClosed};
ghost use Rattle.mls_solver.specs.declared.goal.Clash.{Clash};
ghost use Rattle.mls_solver.specs.declared.goal.Goal.{Goal};
ghost use Rattle.mls_solver.specs.Relations.{IsGoal, IsRelated};
ghost use Rattle.mls_solver.specs.Clashes.{HasNoClash};
ghost use Rattle.mls_solver.specs.Solutions.{HasInstancesUnder, scheme_over};
ghost use Rattle.mls_solver.specs.Solved.{IsSolved};
ghost use Rattle.mls_biunify.specs.Live.{AddsStates, AreRelated, HasRelation, Inserts, IsCopiedFlow, IsCopyAt, IsLive};
ghost use Rattle.mls_biunify.specs.Live.{IsLiveGoal, IsLiveState, IsReachedFrom, IsRefusalOf, IsSameLive, IsSolvedFor};
ghost use Rattle.mls_biunify.specs.Live.{IsRegion, IsStateIn, IsThere, IsUnsolved, KeepsThere, StaysBeside, numbers_in};

use crate::absorb::absorb;
use crate::clash::first_clash_of;
use crate::copy::copied_table;
use crate::frozen::frozen;
use crate::keep::{keep_among, keep_reached};
use crate::marks::Marks;
use crate::reach::Search;
use crate::relation::Relation;
use crate::settlement::{link_all, new_edges, new_heads, store_heads, touched};
use crate::table::Table;
use crate::worklist::relate;
use mls_automaton::automaton::{Automaton, Head, Polarity};
use mls_automaton::scheme::{EnvEntry, Scheme};
use mls_automaton::state_set::{StateId, StateSet};
use mls_base::memory::Memory;
use mls_solver::goal::{Clash, Goal, Refusal};
use std::alloc::Global;
use std::marker::Model;

/// States of a whole term side by side, with flow edges and, once they are solved, the least closed relation of goals.
/// A state keeps its number as long as it is there; a number that is free is used again.
#[derive(Drop)]
pub struct Live {
    table: Table,
    relation: Relation,
    // What the last walk found. The next one takes it out, and needs no memory for what has a place here.
    search: Search<Marks>,
    is_solved: bool,
    is_ready: bool,
}

impl Model for Live {
    ghost use Rattle.mls_biunify.specs.Live.{Live};

    ghost Value = { Live };

    ghost use Rattle.mls_biunify.specs.steps.LiveParts.{live_view};

    ghost view = { live_view };
}

impl Live {
    /// A table without states. It allocates nothing.
    pub fn new(alloc: Global) -> Live
        ensures there { (s : ℕ) → IsThere result s → ⊥ }
        ensures flows { (n p : ℕ) → HasFlow result.table n p → ⊥ }
        ensures unsolved { IsUnsolved result }
    {
        Live {
            table: Table::new(alloc),
            relation: Relation::new(alloc),
            search: Search::new(Marks::new(alloc), alloc),
            is_solved: false,
            is_ready: false,
        }
    }

    /// Makes room for so many more states, and changes nothing.
    ///
    /// # Errors
    ///
    /// `Memory` where memory is wanting.
    pub fn make_room(&mut self, more: usize) -> Result<(), Memory>
        ensures { self.new ≡ self.old }
    {
        self.table.make_room(more)?;
        self.relation.make_room(more)
    }

    /// The states that are there.
    ///
    /// # Errors
    ///
    /// `Memory` where memory is wanting.
    pub fn states(&self) -> Result<StateSet, Memory>
        ensures { IfOk result (λ set. (s : ℕ) → Contains set s ↔ IsThere self.now s) }
    {
        self.table.numbers(self.relation.allocator())
    }

    /// Whether the state is there and has the polarity.
    pub fn is_state(&self, s: StateId, polarity: Polarity) -> bool
        ensures { IsTrue result ↔ IsLiveState self.now polarity s.0 }
    {
        self.table.is_state(s, polarity)
    }

    /// Whether each goal goes from a positive state that is there to a negative one.
    pub fn are_goals(&self, goals: &[Goal]) -> bool
        ensures { IsTrue result ↔ All (IsLiveGoal self.now) goals.now }
    {
        are_goals_of(&self.table, goals)
    }

    /// The polarity of a state.
    pub fn polarity(&self, s: StateId) -> Polarity
        requires { IsThere self.now s.0 }
        ensures polarity { result ≡ polarity_at self.now.table s.0 }
        ensures live { IsLive self.now }
    {
        self.table.polarity(s)
    }

    /// The head of a state.
    pub fn head(&self, s: StateId) -> &Head
        requires { IsThere self.now s.0 }
        ensures head { result.now ≡ head_at self.now.table s.0 }
        ensures live { IsLive self.now }
    {
        self.table.head(s)
    }

    /// Whether there is an edge between the two states.
    pub fn has_flow(&self, negative: StateId, positive: StateId) -> bool
        requires negative { IsThere self.now negative.0 }
        requires positive { IsThere self.now positive.0 }
        ensures { IsTrue result ↔ HasFlow self.now.table negative.0 positive.0 }
    {
        self.table.has_flow(negative, positive)
    }

    /// The states to which a negative state has an edge.
    pub fn after(&self, n: StateId) -> &StateSet
        requires { IsThere self.now n.0 }
        ensures partners { (p : ℕ) → Contains result.now p ↔ HasFlow self.now.table n.0 p }
        ensures live { IsLive self.now }
    {
        self.table.after(n)
    }

    /// Whether the two states are related.
    pub fn holds(&self, positive: StateId, negative: StateId) -> bool
        requires solved { IsSome self.now.related }
        requires positive { IsThere self.now positive.0 }
        requires negative { IsThere self.now negative.0 }
        ensures { IsTrue result ↔ AreRelated self.now positive.0 negative.0 }
    {
        self.relation.holds(positive, negative)
    }

    /// Adds a state, whose head names states that are there.
    ///
    /// # Errors
    ///
    /// `Memory` where memory is wanting; the table is then as before.
    pub fn insert(&mut self, polarity: Polarity, head: Head) -> Result<StateId, Memory>
        requires states { HasStatesIn (IsLiveState self.old) polarity head }
        requires labels { HasRisingLabels head.fields }
        ensures inserts { IfOk result (λ id. Inserts self.old self.new id.0
            (record { polarity = polarity; head = head })) }
        ensures unsolved { OnOk result (IsUnsolved self.new) }
        ensures err { OnErr result (self.new ≡ self.old) }
    {
        let id = self.table.insert(polarity, head)?;
        self.is_solved = false;
        self.is_ready = false;
        Ok(id)
    }

    /// Adds a flow edge. One that is there stays, once.
    ///
    /// # Errors
    ///
    /// `Memory` where memory is wanting; the table is then as before.
    pub fn edge(&mut self, negative: StateId, positive: StateId) -> Result<(), Memory>
        requires negative { IsLiveState self.old Negative negative.0 }
        requires positive { IsLiveState self.old Positive positive.0 }
        ensures flows { OnOk result ((n p : ℕ) → HasFlow self.new.table n p ↔ HasFlow self.old.table n p
            ⊎ ((n ≡ negative.0) × (p ≡ positive.0))) }
        ensures there { HasFlow self.old.table negative.0 positive.0 → self.new.table ≡ self.old.table }
        ensures states { self.new.table.states ≡ self.old.table.states }
        ensures numbers { self.new.there ≡ self.old.there }
        ensures unsolved { OnOk result (IsUnsolved self.new) }
        ensures err { OnErr result (IsSameLive self.old self.new) }
    {
        self.table.edge(negative, positive)?;
        self.is_solved = false;
        self.is_ready = false;
        Ok(())
    }

    /// Adds a disjoint copy of an automaton, and answers the numbers of its states: the first number is that of the
    /// copy of the first state, and so on. The numbers rise. The other states are not looked at.
    ///
    /// # Errors
    ///
    /// `Memory` where memory is wanting; the table is then as before.
    pub fn absorb(&mut self, a: &Automaton) -> Result<StateSet, Memory>
        requires { IsClosed a.now }
        ensures copy { IfOk result (λ numbers. IsCopyAt a.now numbers self.new.table) }
        ensures states { IfOk result (λ numbers. AddsStates self.old self.new numbers) }
        ensures flows { IfOk result (λ numbers. (n p : ℕ) → HasFlow self.new.table n p ↔ HasFlow self.old.table n p
            ⊎ IsCopiedFlow a.now numbers n p) }
        ensures unsolved { OnOk result (IsUnsolved self.new) }
        ensures err { OnErr result (IsSameLive self.old self.new) }
    {
        let alloc = self.relation.allocator();
        let _limit = self.table.limit();
        let numbers = absorb(&mut self.table, alloc, a)?;
        self.is_solved = false;
        self.is_ready = false;
        Ok(numbers)
    }

    /// Takes out each state that heads do not reach from the roots, with its edges. Edges are not followed. It goes
    /// over the whole table.
    ///
    /// # Errors
    ///
    /// `Memory` where memory is wanting; the table is then as before.
    pub fn keep(&mut self, roots: &[StateId]) -> Result<(), Memory>
        requires { All (λ (root : StateId). IsThere self.old root.0) roots.now }
        ensures kept { OnOk result (KeepsThere self.old self.new (IsReachedFrom self.old.table roots.now)) }
        ensures unsolved { OnOk result (IsUnsolved self.new) }
        ensures err { OnErr result (self.new ≡ self.old) }
    {
        let alloc = self.relation.allocator();
        keep_reached(&mut self.table, &mut self.search, alloc, roots)?;
        self.is_solved = false;
        self.is_ready = false;
        Ok(())
    }

    /// Takes out those of some states that heads do not reach from the roots, with their edges, and answers those that
    /// stay. Edges are not followed. It goes over these states alone.
    ///
    /// # Errors
    ///
    /// `Memory` where memory is wanting; the table is then as before.
    pub fn keep_among(
        &mut self,
        states: Vec<StateId>,
        roots: &[StateId],
    ) -> Result<Vec<StateId>, Memory>
        requires states { All (λ (s : StateId). IsThere self.old s.0) states.items }
        requires roots { All (λ (root : StateId). Contains (numbers_in states.items) root.0) roots.now }
        requires region { IsRegion self.old.table (numbers_in states.items) }
        ensures kept { OnOk result (KeepsThere self.old self.new
            (StaysBeside self.old (numbers_in states.items) roots.now)) }
        ensures answer { IfOk result (λ kept. (s : ℕ) → Contains (numbers_in kept.items) s
            ↔ IsReachedFrom self.old.table roots.now s) }
        ensures unsolved { OnOk result (IsUnsolved self.new) }
        ensures err { OnErr result (self.new ≡ self.old) }
    {
        let alloc = self.relation.allocator();
        let _limit = self.table.limit();
        let numbers = numbers_of(alloc, states.as_slice())?;
        let kept = keep_among(
            &mut self.table,
            &mut self.search,
            alloc,
            numbers.as_slice(),
            roots,
        )?;
        self.is_solved = false;
        self.is_ready = false;
        Ok(kept)
    }

    /// Makes the table ready for `solve`: each state has its place in the relation. The pairs themselves take memory as
    /// they are found.
    ///
    /// # Errors
    ///
    /// `Memory` where memory is wanting; the table is then as before.
    pub fn reserve(&mut self) -> Result<(), Memory>
        ensures ok { OnOk result (self.new ≡ record self.old { is_ready = true }) }
        ensures err { OnErr result (self.new ≡ self.old) }
    {
        self.relation.grow(self.table.limit())?;
        self.is_ready = true;
        Ok(())
    }

    /// Whether the table is ready for `solve`.
    pub fn ready(&self) -> bool
        ensures ready { result ≡ self.now.is_ready }
        ensures live { IsLive self.now }
        ensures closed { IsClosed self.now.table }
    {
        let _limit = self.table.limit();
        self.is_ready
    }

    /// Makes the relation the least closed one of the goals, and tells whether a pair of it clashes.
    ///
    /// # Errors
    ///
    /// The first clash, where related states clash; the relation is there all the same. `NoMemory` where memory is
    /// wanting for the pairs; the relation is then absent.
    pub fn solve(&mut self, goals: &[Goal]) -> Result<(), Refusal>
        requires ready { IsTrue self.old.is_ready }
        requires goals { All (IsLiveGoal self.old) goals.now }
        ensures relation { OnOk result (HasRelation self.new (IsRelated self.old.table (IsGoal goals.now))) }
        ensures free { OnOk result (HasNoClash self.old.table (IsRelated self.old.table (IsGoal goals.now))) }
        ensures solved { OnOk result (IsSolvedFor self.new goals.now) }
        ensures refusal { IfErr result (IsRefusalOf self.new (IsRelated self.old.table (IsGoal goals.now))) }
        ensures table { self.new.table ≡ self.old.table }
        ensures numbers { self.new.there ≡ self.old.there }
        ensures ready_stays { self.new.is_ready ≡ self.old.is_ready }
    {
        let _limit = self.table.limit();
        self.is_solved = false;
        if relate(&mut self.relation, &self.table, goals).is_err() {
            return Err(Refusal::NoMemory);
        }
        self.is_solved = true;
        refusal_of(first_clash_of(&self.relation, &self.table))
    }

    /// Gives the states the heads and edges of the solved automaton.
    ///
    /// # Errors
    ///
    /// `Memory` where memory is wanting; the table is then as before.
    pub fn settle(&mut self) -> Result<(), Memory>
        requires { (goals : List Goal) × IsSolvedFor self.old goals }
        ensures solved { OnOk result (IsSolved self.old.table (AreRelated self.old) self.new.table) }
        ensures instances { OnOk result ((goals : List Goal) → IsSolvedFor self.old goals
            → HasInstancesUnder self.old.table (IsGoal goals) self.new.table) }
        ensures numbers { self.new.there ≡ self.old.there }
        ensures unsolved { OnOk result (IsUnsolved self.new) }
        ensures err { OnErr result (IsSameLive self.old self.new) }
    {
        let alloc = self.relation.allocator();
        self.relation.grow(self.table.limit())?;
        let states = touched(alloc, &self.relation, &self.table)?;
        let heads = new_heads(alloc, &self.relation, &self.table, states.as_slice())?;
        let edges = new_edges(alloc, &self.relation, &self.table)?;
        link_all(&mut self.table, alloc, edges.as_slice())?;
        store_heads(&mut self.table, heads);
        let _settled = self.table.limit();
        self.is_solved = false;
        self.is_ready = false;
        Ok(())
    }

    /// A copy of the whole table as an automaton with the same numbers, in which a number that is free is a positive
    /// state with nothing.
    ///
    /// # Errors
    ///
    /// `Memory` where memory is wanting.
    pub fn copied(&self) -> Result<Automaton, Memory>
        ensures states { IfOk result (λ copy. (s : ℕ) → state_at copy s ≡ state_at self.now.table s) }
        ensures there { IfOk result (λ copy. (s : ℕ) → IsThere self.now s → s < length copy.states) }
        ensures flows { IfOk result (λ copy. (n p : ℕ) → HasFlow copy n p ↔ HasFlow self.now.table n p) }
        ensures closed { IfOk result IsClosed }
    {
        let _limit = self.table.limit();
        let copy = copied_table(self.relation.allocator(), &self.table)?;
        Ok(copy)
    }

    /// The scheme of the states that heads reach from the root and the binders, in the order of their numbers. It goes
    /// over these states alone.
    ///
    /// # Errors
    ///
    /// `Memory` where memory is wanting.
    pub fn freeze(&self, root: StateId, env: &[EnvEntry]) -> Result<Scheme, Memory>
        requires root { IsLiveState self.now Positive root.0 }
        requires env { All (λ (entry : EnvEntry). IsLiveState self.now Negative entry.state.0) env.now }
        requires binders { BindersRise env.now }
        ensures kept { IfOk result (λ scheme. KeepsReached scheme (scheme_over self.now.table root.0 env.now)) }
        ensures scheme { IfOk result IsScheme }
        ensures equivalent { IfOk result (AreEquivalentSchemes (scheme_over self.now.table root.0 env.now)) }
    {
        let _limit = self.table.limit();
        let kept = frozen(self.relation.allocator(), &self.table, root, env)?;
        Ok(kept)
    }
}

// The numbers of these states.
fn numbers_of(alloc: Global, states: &[StateId]) -> Result<Vec<usize>, Memory>
    ensures { IfOk result (λ numbers. numbers.items ≡ numbers_in states.now) }
{
    let mut numbers = Vec::with_capacity(alloc, states.len())?;
    for s in states {
        numbers.push(s.0)?;
    }
    Ok(numbers)
}

// The answer of `solve` where the relation is there.
fn refusal_of(found: Result<(), Clash>) -> Result<(), Refusal>
    ensures ok { OnOk result (IsOk found) }
    ensures err { IfErr result (λ refusal. (clash : Clash) × (found ≡ Err clash) × (refusal ≡ Refusal.Clashing clash)) }
{
    match found {
        Ok(()) => Ok(()),
        Err(clash) => Err(Refusal::Clashing(clash)),
    }
}

// Whether each goal goes from a positive state that is there to a negative one.
fn are_goals_of(table: &Table, goals: &[Goal]) -> bool
    ensures { IsTrue result ↔ All (λ g. IsStateIn table.now.automaton table.now.there Positive g.positive.0
        × IsStateIn table.now.automaton table.now.there Negative g.negative.0) goals.now }
{
    goals.iter().all(|goal| {
        table.is_state(goal.positive, Polarity::Positive)
            && table.is_state(goal.negative, Polarity::Negative)
    })
}
