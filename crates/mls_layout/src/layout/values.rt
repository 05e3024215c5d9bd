//! What may flow in at the negative states of a part.
ghost use Rattle.std.specs.Prelude.{◌≡◌, ◌↔◌, ℕ, ◌<◌, ◌++◌, length, get_or, All, Contains, IfOk, OnOk};
ghost use Rattle.mls_automaton.specs.declared.automaton.Polarity.TheVariants.{Positive, Negative};
ghost use Rattle.mls_automaton.specs.Automata.{IsState, polarity_at};
ghost use Rattle.mls_automaton.specs.Models.{IsClosed};
ghost use Rattle.mls_solver.specs.Rooms.{Holds, HoldsStates};
ghost use Rattle.mls_layout.specs.Trees.{IsNodeIn};
ghost use Rattle.mls_layout.specs.steps.Owned.{HaveTrees};
ghost use Rattle.mls_layout.specs.steps.Planned.{Extends};
ghost use Rattle.mls_layout.specs.steps.Sources.{AreBelow, Gathers, IsEntering, IsOfState, partners_in};

use crate::layout::Places;
use crate::layout::planned::PlannedTrees;
use crate::layout::sources::Sources;
use crate::tree::NodeIds;
use mls_automaton::automaton::{Automaton, Polarity};
use mls_automaton::state_set::StateId;
use mls_base::memory::Memory;
use mls_book::book::NodeId;
use mls_solver::found::Found;
use std::alloc::Global;

/// Adds nodes to a list.
pub(crate) fn add_all(ids: &mut NodeIds, others: &[NodeId]) -> Result<(), Memory>
    ensures { OnOk result (ids.new ≡ ids.old ++ others.now) }
{
    for id in others {
        ids.push(*id)?;
    }
    Ok(())
}

// Adds the nodes of the partners of these states.
fn add_partners(ids: &mut NodeIds, sources: &Sources, states: &[usize]) -> Result<(), Memory>
    ensures { OnOk result (Gathers (λ i. (k : ℕ) × Contains states.now k × IsNodeIn (partners_in sources.now k) i)
        ids.old ids.new) }
{
    for k in states {
        add_all(ids, sources.partners(*k))?;
    }
    Ok(())
}

// Adds the nodes of the head of a positive state, and those of the partners of the states with an edge to it.
fn add_state(ids: &mut NodeIds, a: &Automaton, sources: &Sources, p: usize) -> Result<(), Memory>
    requires closed { IsClosed a.now }
    requires state { IsState a.now Positive p }
    ensures { OnOk result (Gathers (IsOfState a.now sources.now p) ids.old ids.new) }
{
    add_all(ids, sources.parts(p))?;
    add_partners(ids, sources, a.partners(StateId(p)).as_slice())?;
    Ok(())
}

// What flows in at a negative state.
fn entering(
    alloc: Global,
    a: &Automaton,
    found: &Found,
    sources: &Sources,
    n: StateId,
) -> Result<NodeIds, Memory>
    requires closed { IsClosed a.now }
    requires related { HoldsStates a.now found.now }
    requires state { n.0 < length a.now.states }
    ensures { IfOk result (λ ids. (i : ℕ) → IsNodeIn ids i
        ↔ IsEntering a.now (Holds found.now) sources.now Negative n.0 i) }
{
    let mut ids = NodeIds::new(alloc);
    add_all(&mut ids, sources.partners(n.0))?;
    for p in found.above(n) {
        add_state(&mut ids, a, sources, *p)?;
    }
    Ok(ids)
}

// The list of one node.
fn one(alloc: Global, id: NodeId) -> Result<NodeIds, Memory>
    ensures { IfOk result (λ ids. (i : ℕ) → IsNodeIn ids i ↔ (id.0 ≡ i)) }
{
    let mut ids = NodeIds::new(alloc);
    ids.push(id)?;
    Ok(ids)
}

// The members of the value of a state.
fn value_members(
    alloc: Global,
    a: &Automaton,
    found: &Found,
    sources: &Sources,
    s: StateId,
) -> Result<NodeIds, Memory>
    requires closed { IsClosed a.now }
    requires related { HoldsStates a.now found.now }
    requires state { s.0 < length a.now.states }
    ensures { IfOk result (λ ids. (i : ℕ) → IsNodeIn ids i
        ↔ IsEntering a.now (Holds found.now) sources.now (polarity_at a.now s.0) s.0 i) }
{
    match a.polarity(s) {
        Polarity::Positive => {
            let ids = one(alloc, sources.nothing)?;
            Ok(ids)
        }
        Polarity::Negative => {
            let ids = entering(alloc, a, found, sources, s)?;
            Ok(ids)
        }
    }
}

/// Plans the values of all states: joins of what flows in.
pub(crate) fn plan_values(
    alloc: Global,
    trees: &mut PlannedTrees,
    a: &Automaton,
    found: &Found,
    sources: &Sources,
) -> Result<Places, Memory>
    requires closed { IsClosed a.now }
    requires related { HoldsStates a.now found.now }
    requires low { AreBelow sources.now trees.old.start }
    ensures extends { OnOk result (Extends trees.old trees.new) }
    ensures past { IfOk result (λ values. values.past ≡ sources.now.nothing) }
    ensures trees { IfOk result (λ values. HaveTrees trees.new (λ s. Positive)
        (λ s. IsEntering a.now (Holds found.now) sources.now (polarity_at a.now s) s) (length a.now.states)
        values.nodes) }
{
    let mut nodes = NodeIds::new(alloc);
    for s in 0..a.len() {
        let members = value_members(alloc, a, found, sources, StateId(s))?;
        nodes.push(trees.plan(alloc, Polarity::Positive, members)?)?;
    }
    Ok(Places {
        nodes,
        past: sources.nothing,
    })
}
