//! The nodes of the states of a part.
ghost use Rattle.std.specs.Prelude.{◌≡◌, ◌↔◌, ℕ, ◌<◌, length, Contains, IfOk, OnOk};
ghost use Rattle.mls_automaton.specs.Automata.{polarity_at};
ghost use Rattle.mls_automaton.specs.Models.{IsClosed};
ghost use Rattle.mls_layout.specs.LaidOut.{place_of};
ghost use Rattle.mls_layout.specs.Trees.{IsNodeIn};
ghost use Rattle.mls_layout.specs.steps.Owned.{HaveTrees};
ghost use Rattle.mls_layout.specs.steps.Planned.{Extends, end_of};
ghost use Rattle.mls_layout.specs.steps.Sources.{AreBelow, Gathers, IsPlaced, IsValued};

use crate::layout::Places;
use crate::layout::planned::PlannedTrees;
use crate::layout::sources::Sources;
use crate::layout::values::add_all;
use crate::tree::NodeIds;
use mls_automaton::automaton::{Automaton, Polarity};
use mls_automaton::state_set::StateId;
use mls_base::memory::Memory;
use std::alloc::Global;

/// Adds the nodes of these states.
pub(crate) fn add_nodes(ids: &mut NodeIds, places: &Places, states: &[usize]) -> Result<(), Memory>
    ensures { OnOk result (Gathers (λ i. (s : ℕ) × Contains states.now s × (place_of places.now s ≡ i))
        ids.old ids.new) }
{
    for s in states {
        ids.push(places.node(*s))?;
    }
    Ok(())
}

// Adds the values of the states with an edge to a positive state, or the value of a negative state.
fn add_values(ids: &mut NodeIds, a: &Automaton, values: &Places, s: StateId) -> Result<(), Memory>
    requires closed { IsClosed a.now }
    requires state { s.0 < length a.now.states }
    ensures { OnOk result (Gathers (IsValued a.now (place_of values.now) (polarity_at a.now s.0) s.0)
        ids.old ids.new) }
{
    match a.polarity(s) {
        Polarity::Positive => {
            add_nodes(ids, values, a.partners(s).as_slice())?;
            Ok(())
        }
        Polarity::Negative => {
            ids.push(values.node(s.0))?;
            Ok(())
        }
    }
}

// What a state is the tree of.
fn state_members(
    alloc: Global,
    a: &Automaton,
    sources: &Sources,
    values: &Places,
    s: StateId,
) -> Result<NodeIds, Memory>
    requires closed { IsClosed a.now }
    requires state { s.0 < length a.now.states }
    ensures { IfOk result (λ ids. (i : ℕ) → IsNodeIn ids i
        ↔ IsPlaced a.now sources.now (place_of values.now) (polarity_at a.now s.0) s.0 i) }
{
    let mut ids = NodeIds::new(alloc);
    add_all(&mut ids, sources.parts(s.0))?;
    add_values(&mut ids, a, values, s)?;
    Ok(ids)
}

/// Plans the nodes of all states: joins and meets of the parts of their heads and of values.
pub(crate) fn plan_states(
    alloc: Global,
    trees: &mut PlannedTrees,
    a: &Automaton,
    sources: &Sources,
    values: &Places,
) -> Result<Places, Memory>
    requires closed { IsClosed a.now }
    requires low { AreBelow sources.now trees.old.start }
    requires values { (s : ℕ) → place_of values.now s < end_of trees.old }
    ensures extends { OnOk result (Extends trees.old trees.new) }
    ensures past { IfOk result (λ places. places.past ≡ sources.now.nothing) }
    ensures trees { IfOk result (λ places. HaveTrees trees.new (polarity_at a.now)
        (λ s. IsPlaced a.now sources.now (place_of values.now) (polarity_at a.now s) s) (length a.now.states)
        places.nodes) }
{
    let mut nodes = NodeIds::new(alloc);
    for s in 0..a.len() {
        let members = state_members(alloc, a, sources, values, StateId(s))?;
        nodes.push(trees.plan(alloc, a.polarity(StateId(s)), members)?)?;
    }
    Ok(Places {
        nodes,
        past: sources.nothing,
    })
}
