//! The edges of the deterministic form: two sets have one where two members have one.
ghost use Rattle.std.specs.Prelude.{◌≡◌, ◌↔◌, ◌⊎◌, ◌<◌, ◌++◌, [], length, get_or, All, Contains, IfOk, OnOk};
ghost use Rattle.std.specs.List.{flat_map};
ghost use Rattle.mls_automaton.specs.declared.automaton.Polarity.TheVariants.{Positive, Negative};
ghost use Rattle.mls_automaton.specs.Automata.{IsState};
ghost use Rattle.mls_automaton.specs.Models.{IsClosed};
ghost use Rattle.mls_shape.specs.declared.register.SetState.{SetState};
ghost use Rattle.mls_shape.specs.steps.Building.{IsSetOf};
ghost use Rattle.mls_shape.specs.steps.Edges.{AddsFlows, AddsHolders, AreHolders, AreStatesFor, IsEdge, IsHolder};
ghost use Rattle.mls_shape.specs.steps.Edges.{IsTarget};

use crate::register::SetState;
use mls_automaton::automaton::{Automaton, Polarity};
use mls_automaton::state_set::StateId;
use mls_base::list::List;
use mls_base::memory::Memory;
use std::alloc::Global;

/// Adds an edge from one set to another wherever a member of the one has an edge to a member of the other. The cost is
/// that of the edges that are found so, each with the binary digits of their number.
///
/// # Errors
///
/// `Memory` where memory is wanting.
pub fn add_flows(
    d: &mut Automaton,
    alloc: Global,
    a: &Automaton,
    sets: &[SetState],
) -> Result<(), Memory>
    requires closed { IsClosed a.now }
    requires sets { All (IsSetOf a.now) sets.now }
    requires states { AreStatesFor sets.now d.old }
    ensures { OnOk result (AddsFlows d.old d.new (IsEdge a.now sets.now)) }
{
    let holders = holders_of(alloc, sets, a.len())?;
    for n in 0..sets.len() {
        add_flows_at(d, alloc, a, holders.as_slice(), StateId(n), &sets[n])?;
    }
    Ok(())
}

// Adds the edges from one state, if it is negative.
fn add_flows_at(
    d: &mut Automaton,
    alloc: Global,
    a: &Automaton,
    holders: &[List<usize>],
    n: StateId,
    set: &SetState,
) -> Result<(), Memory>
    requires closed { IsClosed a.now }
    requires holders { length holders.now ≡ length a.now.states }
    requires set { IsSetOf a.now set.now }
    requires state { IsState d.old set.now.polarity n.0 }
    requires positive { (j : _) → set.now.polarity ≡ Negative → IsTarget a.now holders.now set.now.members j
        → IsState d.old Positive j }
    ensures { OnOk result (AddsFlows d.old d.new (λ m j. (m ≡ n.0) × (set.now.polarity ≡ Negative)
        × IsTarget a.now holders.now set.now.members j)) }
{
    match set.polarity {
        Polarity::Positive => Ok(()),
        Polarity::Negative => add_flows_from(d, alloc, a, holders, n, set.members.as_slice()),
    }
}

// Adds the edges from one state.
fn add_flows_from(
    d: &mut Automaton,
    alloc: Global,
    a: &Automaton,
    holders: &[List<usize>],
    n: StateId,
    members: &[usize],
) -> Result<(), Memory>
    requires closed { IsClosed a.now }
    requires holders { length holders.now ≡ length a.now.states }
    requires members { All (λ s. s < length a.now.states) members.now }
    requires negative { IsState d.old Negative n.0 }
    requires positive { (j : _) → IsTarget a.now holders.now members.now j → IsState d.old Positive j }
    ensures { OnOk result (AddsFlows d.old d.new (λ m j. (m ≡ n.0) × IsTarget a.now holders.now members.now j)) }
{
    let mut targets = targets_of(alloc, a, holders, members)?;
    targets.sort_unstable();
    add_flows_to(d, n, targets.as_slice())
}

// Adds an edge to each of these states.
fn add_flows_to(d: &mut Automaton, n: StateId, targets: &[usize]) -> Result<(), Memory>
    requires negative { IsState d.old Negative n.0 }
    requires positive { All (IsState d.old Positive) targets.now }
    ensures { OnOk result (AddsFlows d.old d.new (λ m q. (m ≡ n.0) × Contains targets.now q)) }
{
    for q in targets {
        d.add_flow(n, StateId(*q))?;
    }
    Ok(())
}

// The sets that have a partner of one of these states, some of them more than once.
fn targets_of(
    alloc: Global,
    a: &Automaton,
    holders: &[List<usize>],
    members: &[usize],
) -> Result<Vec<usize>, Memory>
    requires closed { IsClosed a.now }
    requires holders { length holders.now ≡ length a.now.states }
    requires members { All (λ s. s < length a.now.states) members.now }
    ensures { IfOk result (λ targets. (j : _) → Contains targets.items j ↔ IsTarget a.now holders.now members.now j) }
{
    let mut targets = Vec::new(alloc);
    for m in members {
        add_partners(&mut targets, holders, a, StateId(*m))?;
    }
    Ok(targets)
}

// Adds the sets that have a partner of this state.
fn add_partners(
    targets: &mut Vec<usize>,
    holders: &[List<usize>],
    a: &Automaton,
    m: StateId,
) -> Result<(), Memory>
    requires closed { IsClosed a.now }
    requires holders { length holders.now ≡ length a.now.states }
    requires state { m.0 < length a.now.states }
    ensures { OnOk result ((j : _) → Contains targets.new.items j ↔ Contains targets.old.items j
        ⊎ IsHolder a.now holders.now m.0 j) }
{
    add_holders(targets, holders, a.partners(m).as_slice())
}

// Adds the sets that have one of these states.
pub fn add_holders(
    targets: &mut Vec<usize>,
    holders: &[List<usize>],
    states: &[usize],
) -> Result<(), Memory>
    requires { All (λ q. q < length holders.now) states.now }
    ensures { OnOk result (targets.new.items ≡ targets.old.items
        ++ flat_map (λ q. get_or holders.now q []) states.now) }
{
    for q in states {
        targets.extend_from_slice(holders[*q].as_slice())?;
    }
    Ok(())
}

// For each of so many states the sets that have it.
fn holders_of(alloc: Global, sets: &[SetState], count: usize) -> Result<Vec<List<usize>>, Memory>
    requires { All (λ (set : SetState). All (λ s. s < count) set.members) sets.now }
    ensures { IfOk result (λ holders. AreHolders sets.now count (length sets.now) holders.items) }
{
    let mut holders = no_holders(alloc, count)?;
    for u in 0..sets.len() {
        add_holder(&mut holders, u, sets[u].members.as_slice())?;
    }
    Ok(holders)
}

// So many empty lists.
pub fn no_holders(alloc: Global, count: usize) -> Result<Vec<List<usize>>, Memory>
    ensures len { IfOk result (λ holders. length holders.items ≡ count) }
    ensures empty { IfOk result (λ holders. All (λ list. list ≡ []) holders.items) }
{
    let mut holders = Vec::with_capacity(alloc, count)?;
    for _ in 0..count {
        holders.push(List::new(alloc))?;
    }
    Ok(holders)
}

// Notes a set with each of its members.
pub fn add_holder(
    holders: &mut Vec<List<usize>>,
    holder: usize,
    members: &[usize],
) -> Result<(), Memory>
    requires { All (λ j. j < length holders.old.items) members.now }
    ensures { OnOk result (AddsHolders holders.old.items holders.new.items (λ u j. (u ≡ holder)
        × Contains members.now j)) }
{
    for j in members {
        holders[*j].push(holder)?;
    }
    Ok(())
}
