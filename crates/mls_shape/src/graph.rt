//! The graph of a deterministic automaton: a node for each state, and one for each place at which a head names a state.
//! A state has the nodes of its places as children, and each of those has the state that is named there.
ghost use Rattle.std.specs.Prelude.{◌≡◌, ◌<◌, ◌++◌, ◌+◌, ◌⊎◌, length, map, All, IfOk, OnOk};
ghost use Rattle.mls_automaton.specs.Models.{IsClosed};
ghost use Rattle.mls_shape.specs.steps.Classes.{one_of};
ghost use Rattle.mls_shape.specs.steps.Graphs.{AddsEdges, AddsParents, AreEdges, AreParents, colour, HasEndsBelow};
ghost use Rattle.mls_shape.specs.steps.Graphs.{children, field_children, function_children};

use crate::classes::member_of;
use crate::edges::{add_holder, no_holders};
use mls_automaton::automaton::{Arms, Automaton, FieldSet, FieldSets, Head};
use mls_automaton::state_set::StateId;
use mls_base::list::List;
use mls_base::memory::Memory;
use std::alloc::Global;

/// A place of a state's head, from 0, and the state that is named there.
#[derive(Clone, Copy)]
pub struct Edge {
    pub source: usize,
    pub place: usize,
    pub target: usize,
}

/// The places of all heads.
pub fn edges_of(alloc: Global, a: &Automaton) -> Result<Vec<Edge>, Memory>
    ensures { IfOk result (λ edges. AreEdges a.now (length a.now.states) edges.items) }
{
    let mut edges = Vec::new(alloc);
    for s in 0..a.len() {
        let children = children_of(alloc, a.head(StateId(s)))?;
        add_edges(&mut edges, s, children.as_slice())?;
    }
    Ok(edges)
}

fn add_edges(edges: &mut Vec<Edge>, source: usize, children: &[usize]) -> Result<(), Memory>
    ensures { OnOk result (AddsEdges source children.now edges.old.items edges.new.items) }
{
    for place in 0..children.len() {
        let target = children[place];
        edges.push(Edge {
            source,
            place,
            target,
        })?;
    }
    Ok(())
}

// The states that a head names: domain, codomain, and those of the fields.
fn children_of(alloc: Global, head: &Head) -> Result<Vec<usize>, Memory>
    ensures { IfOk result (λ found. found.items ≡ children head.now) }
{
    let mut found = Vec::new(alloc);
    add_arms(&mut found, &head.function)?;
    if let Some(fields) = &head.fields {
        add_members(&mut found, fields.as_slice())?;
    }
    Ok(found)
}

fn add_arms(found: &mut Vec<usize>, function: &Option<Arms>) -> Result<(), Memory>
    ensures { OnOk result (found.new.items ≡ found.old.items ++ function_children function.now) }
{
    if let Some(arms) = function {
        found.push(member_of(&arms.domain))?;
        found.push(member_of(&arms.codomain))?;
    }
    Ok(())
}

fn add_members(found: &mut Vec<usize>, fields: &[FieldSet]) -> Result<(), Memory>
    ensures { OnOk result (found.new.items ≡ found.old.items ++ map (λ (f : FieldSet). one_of f.set) fields.now) }
{
    for field in fields {
        found.push(member_of(&field.set))?;
    }
    Ok(())
}

/// For each node its parents. The node of the k-th of the edges has the number `states + k`.
pub fn parents_of(alloc: Global, states: usize, edges: &[Edge]) -> Result<Vec<List<usize>>, Memory>
    requires { All (HasEndsBelow states) edges.now }
    ensures { IfOk result (λ parents. AreParents states edges.now (length edges.now) parents.items) }
{
    // No memory holds so many nodes.
    let count = states.checked_add(edges.len()).ok_or(Memory)?;
    let mut parents = no_holders(alloc, count)?;
    for k in 0..edges.len() {
        add_parents(&mut parents, edges[k], states + k)?;
    }
    Ok(parents)
}

// The node of an edge is a parent of the target, and the source is one of the node.
fn add_parents(parents: &mut Vec<List<usize>>, edge: Edge, node: usize) -> Result<(), Memory>
    requires node { node < length parents.old.items }
    requires target { edge.target < length parents.old.items }
    ensures { OnOk result (AddsParents edge node parents.old.items parents.new.items) }
{
    add_holder(parents, node, [edge.target].as_slice())?;
    add_holder(parents, edge.source, [node].as_slice())
}

/// The blocks with which a refinement begins: the classes of the states so far, of which there are `count`, and behind
/// them one for each place.
pub fn colours_of(
    alloc: Global,
    classes: &[usize],
    count: usize,
    edges: &[Edge],
) -> Result<Vec<usize>, Memory>
    ensures { IfOk result (λ colours. colours.items ≡ classes.now ++ map (colour count) edges.now) }
{
    let mut colours = Vec::with_capacity(alloc, classes.len())?;
    colours.extend_from_slice(classes)?;
    for edge in edges {
        // No memory holds so many blocks.
        let colour = count.checked_add(edge.place).ok_or(Memory)?;
        colours.push(colour)?;
    }
    Ok(colours)
}
