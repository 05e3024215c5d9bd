//! An automaton is solved in place, by the pairs that are related.
ghost use Rattle.std.specs.Prelude.{◌≡◌, ◌↔◌, ◌⊎◌, ℕ, ◌<◌, List, [], length, All, Contains, IfOk, OnOk};
ghost use Rattle.mls_automaton.specs.declared.automaton.Polarity.TheVariants.{Positive, Negative};
ghost use Rattle.mls_automaton.specs.Automata.{IsState, polarity_at};
ghost use Rattle.mls_automaton.specs.Models.{IsClosed};
ghost use Rattle.mls_solver.specs.Rooms.{Holds, HoldsStates};
ghost use Rattle.mls_solver.specs.Solved.{IsSolved, ReachesBy};
ghost use Rattle.mls_solver.specs.steps.Numbers.{ByOne};
ghost use Rattle.mls_solver.specs.steps.Settling.{AreChanges, AreMade, HasChangeOf, IsChange, IsFitting, IsTouched};
ghost use Rattle.mls_solver.specs.steps.Settling.{Makes};
ghost use Rattle.mls_solver.specs.steps.Solving.{AreMembers, IsTarget};

use crate::found::Found;
use crate::materialise::add_flows_to;
use mls_automaton::automaton::{Automaton, Head, Polarity};
use mls_automaton::combine::{combined_head, copied_head};
use mls_automaton::state_set::{StateId, StateSet};
use mls_base::list::List;
use mls_base::memory::Memory;
use std::alloc::Global;
use std::collections::BTreeSet;

// What a state has in the solved automaton: its head, and for a negative state the other ends of its edges.
#[derive(Drop)]
pub(crate) struct Change {
    pub state: StateId,
    pub head: Head,
    pub ends: StateSet,
}

/// Gives the states the heads and edges of the automaton that is solved by these pairs. Only the states at an edge of a
/// state of a pair change, and the time is that of looking at them and at the pairs.
///
/// # Errors
///
/// `Memory` where memory is wanting; some states may then have changed.
pub fn settle(alloc: Global, found: &Found, a: &mut Automaton) -> Result<(), Memory>
    requires closed { IsClosed a.old }
    requires states { HoldsStates a.old found.now }
    ensures solved { OnOk result (IsSolved a.old (Holds found.now) a.new) }
    ensures closed { OnOk result (IsClosed a.new) }
{
    let states = touched(alloc, found, a)?;
    let made = changes(alloc, found, a, &states)?;
    change_all(a, made.as_slice())?;
    Ok(())
}

// The states that may change.
fn touched(alloc: Global, found: &Found, a: &Automaton) -> Result<BTreeSet<usize>, Memory>
    requires closed { IsClosed a.now }
    requires states { HoldsStates a.now found.now }
    ensures all { IfOk result (λ touched. (s : ℕ) → IsTouched a.now (Holds found.now) s → Contains touched.keys s) }
    ensures in_range { IfOk result (λ touched. (s : ℕ) → Contains touched.keys s → s < length a.now.states) }
{
    let mut all = BTreeSet::new(alloc);
    for i in 0..found.len() {
        let (positive, negative) = found.pair(i);
        insert_all(&mut all, a.partners(positive).as_slice())?;
        insert_all(&mut all, a.partners(negative).as_slice())?;
    }
    Ok(all)
}

// Inserts these numbers.
pub(crate) fn insert_all(set: &mut BTreeSet<usize>, numbers: &[usize]) -> Result<(), Memory>
    ensures { OnOk result ((j : ℕ) → Contains set.new.keys j ↔ Contains set.old.keys j ⊎ Contains numbers.now j) }
{
    for number in numbers {
        set.insert(*number)?;
    }
    Ok(())
}

// What each of these states has in the solved automaton.
fn changes(
    alloc: Global,
    found: &Found,
    a: &Automaton,
    touched: &BTreeSet<usize>,
) -> Result<List<Change>, Memory>
    requires closed { IsClosed a.now }
    requires states { HoldsStates a.now found.now }
    requires in_range { (s : ℕ) → Contains touched.now.keys s → s < length a.now.states }
    ensures changes { IfOk result (AreChanges a.now (Holds found.now)) }
    ensures all { IfOk result (λ changes. (s : ℕ) → Contains touched.now.keys s → HasChangeOf changes s) }
{
    let mut all = List::new(alloc);
    for s in touched {
        let change = change_of(alloc, found, a, StateId(*s))?;
        all.push(change)?;
    }
    Ok(all)
}

// What a state has in the solved automaton.
fn change_of(alloc: Global, found: &Found, a: &Automaton, s: StateId) -> Result<Change, Memory>
    requires closed { IsClosed a.now }
    requires states { HoldsStates a.now found.now }
    requires in_range { s.0 < length a.now.states }
    ensures change { IfOk result (IsChange a.now (Holds found.now)) }
    ensures state { IfOk result (λ (c : Change). c.state.0 ≡ s.0) }
{
    let polarity = a.polarity(s);
    let all = members(alloc, found, a, s)?;
    let head = combined_head(alloc, a, polarity, all.as_slice())?;
    let ends = ends_of(alloc, a, polarity, all.as_slice())?;
    Ok(Change {
        state: s,
        head,
        ends,
    })
}

// The states whose old heads go into the new head of a state, each once.
fn members(alloc: Global, found: &Found, a: &Automaton, s: StateId) -> Result<Vec<usize>, Memory>
    requires closed { IsClosed a.now }
    requires states { HoldsStates a.now found.now }
    requires in_range { s.0 < length a.now.states }
    ensures members { IfOk result (λ all. AreMembers a.now (Holds found.now) s.0 all.items) }
    ensures states { IfOk result (λ all. All (IsState a.now (polarity_at a.now s.0)) all.items) }
{
    let mut all = Vec::new(alloc);
    all.push(s.0)?;
    add_reaching(&mut all, found, a, s)?;
    Ok(distinct(all))
}

// The same numbers, each once.
fn distinct(mut numbers: Vec<usize>) -> Vec<usize>
    ensures { (j : ℕ) → Contains result.items j ↔ Contains numbers.items j }
{
    numbers.sort_unstable();
    numbers.dedup();
    numbers
}

// Adds the states whose old heads go into the new head of a state by an edge and a related pair.
fn add_reaching(
    members: &mut Vec<usize>,
    found: &Found,
    a: &Automaton,
    s: StateId,
) -> Result<(), Memory>
    requires closed { IsClosed a.now }
    requires in_range { s.0 < length a.now.states }
    ensures { OnOk result ((j : ℕ) → Contains members.new.items j ↔ Contains members.old.items j
        ⊎ ReachesBy a.now (Holds found.now) (polarity_at a.now s.0) s.0 j) }
{
    match a.polarity(s) {
        Polarity::Positive => {
            add_above(members, found, a.partners(s).as_slice())?;
            Ok(())
        }
        Polarity::Negative => {
            add_below(members, found, a.partners(s).as_slice())?;
            Ok(())
        }
    }
}

// Adds the states that are related to one of the negative ones.
fn add_above(members: &mut Vec<usize>, found: &Found, negatives: &[usize]) -> Result<(), Memory>
    ensures { OnOk result ((j : ℕ) → Contains members.new.items j ↔ Contains members.old.items j
        ⊎ ByOne negatives.now (λ n p. Holds found.now p n) j) }
{
    for n in negatives {
        members.extend_from_slice(found.above(StateId(*n)))?;
    }
    Ok(())
}

// Adds the states to which one of the positive ones is related.
fn add_below(members: &mut Vec<usize>, found: &Found, positives: &[usize]) -> Result<(), Memory>
    ensures { OnOk result ((j : ℕ) → Contains members.new.items j ↔ Contains members.old.items j
        ⊎ ByOne positives.now (λ p n. Holds found.now p n) j) }
{
    for p in positives {
        members.extend_from_slice(found.below(StateId(*p)))?;
    }
    Ok(())
}

// Adds these numbers.
fn add_all(set: &mut StateSet, numbers: &[usize]) -> Result<(), Memory>
    ensures { OnOk result ((j : ℕ) → Contains set.new j ↔ Contains set.old j ⊎ Contains numbers.now j) }
{
    for number in numbers {
        set.insert(StateId(*number))?;
    }
    Ok(())
}

// The ends of the edges from these states, which have this polarity.
fn ends_of(
    alloc: Global,
    a: &Automaton,
    polarity: Polarity,
    members: &[usize],
) -> Result<StateSet, Memory>
    requires closed { IsClosed a.now }
    requires states { All (IsState a.now polarity) members.now }
    ensures positive { polarity ≡ Positive → IfOk result (λ ends. ends ≡ []) }
    ensures negative { polarity ≡ Negative
        → IfOk result (λ ends. (q : ℕ) → Contains ends q ↔ IsTarget a.now members.now q) }
{
    match polarity {
        Polarity::Positive => Ok(StateSet::new(alloc)),
        Polarity::Negative => {
            let targets = ends(alloc, a, members)?;
            Ok(targets)
        }
    }
}

// The states to which one of these negative states has an edge.
fn ends(alloc: Global, a: &Automaton, members: &[usize]) -> Result<StateSet, Memory>
    requires closed { IsClosed a.now }
    requires negative { All (IsState a.now Negative) members.now }
    ensures { IfOk result (λ ends. (q : ℕ) → Contains ends q ↔ IsTarget a.now members.now q) }
{
    let mut all = StateSet::new(alloc);
    for m in members {
        add_all(&mut all, a.partners(StateId(*m)).as_slice())?;
    }
    Ok(all)
}

// Makes all changes.
fn change_all(a: &mut Automaton, changes: &[Change]) -> Result<(), Memory>
    requires { All (IsFitting a.old) changes.now }
    ensures { OnOk result (AreMade a.old changes.now a.new) }
{
    for change in changes {
        make(a, change)?;
    }
    Ok(())
}

// Makes a change.
fn make(a: &mut Automaton, change: &Change) -> Result<(), Memory>
    requires { IsFitting a.old change.now }
    ensures { OnOk result (Makes change.now a.old a.new) }
{
    let head = copied_head(&change.head)?;
    a.set_head(change.state, head);
    if change.ends.is_empty() {
        return Ok(());
    }
    add_flows_to(a, change.state, change.ends.as_slice())?;
    Ok(())
}
