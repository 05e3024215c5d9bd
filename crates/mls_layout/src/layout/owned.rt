//! The nodes of the functions and records of a part.
ghost use Rattle.std.specs.Prelude.{◌≡◌, ℕ, ◌<◌, length, IfOk, OnOk};
ghost use Rattle.mls_automaton.specs.Automata.{polarity_at};
ghost use Rattle.mls_automaton.specs.Heads.{AreRising};
ghost use Rattle.mls_automaton.specs.Models.{HasRisingLabels, IsClosed};
ghost use Rattle.mls_layout.specs.LaidOut.{place_of};
ghost use Rattle.mls_layout.specs.Trees.{IsPlaceIn};
ghost use Rattle.mls_layout.specs.steps.Owned.{AddsFunction, AddsOwn, AddsRecord, AddsStates, AreFields};
ghost use Rattle.mls_layout.specs.steps.Planned.{Extends, HasTree, end_of};

use crate::layout::Places;
use crate::layout::planned::PlannedTrees;
use crate::layout::states::add_nodes;
use crate::tree::NodeIds;
use mls_automaton::automaton::{Arms, Automaton, FieldSet, FieldSets, Head, Polarity};
use mls_automaton::state_set::{StateId, StateSet};
use mls_base::memory::Memory;
use mls_book::book::{Book, Field, Fields, Node, NodeId};
use std::alloc::Global;

// Plans the tree of the nodes of a set of states.
fn plan_set(
    alloc: Global,
    trees: &mut PlannedTrees,
    places: &Places,
    polarity: Polarity,
    set: &StateSet,
) -> Result<NodeId, Memory>
    requires { (s : ℕ) → place_of places.now s < end_of trees.old }
    ensures extends { OnOk result (Extends trees.old trees.new) }
    ensures tree { IfOk result (λ id. HasTree trees.new polarity (IsPlaceIn (place_of places.now) set.now) id.0) }
{
    let mut ids = NodeIds::new(alloc);
    add_nodes(&mut ids, places, set.as_slice())?;
    let root = trees.plan(alloc, polarity, ids)?;
    Ok(root)
}

// Adds the node of a function, where there is one.
fn push_function(
    alloc: Global,
    book: &mut Book,
    trees: &mut PlannedTrees,
    places: &Places,
    polarity: Polarity,
    function: &Option<Arms>,
) -> Result<(), Memory>
    requires { (s : ℕ) → place_of places.now s < end_of trees.old }
    ensures extends { OnOk result (Extends trees.old trees.new) }
    ensures adds { OnOk result (AddsFunction trees.new (place_of places.now) polarity function.now book.old book.new) }
{
    match function {
        None => Ok(()),
        Some(arms) => {
            let from = plan_set(alloc, trees, places, polarity.opposite(), &arms.domain)?;
            let to = plan_set(alloc, trees, places, polarity, &arms.codomain)?;
            book.push(Node::Arrow(from, to))?;
            Ok(())
        }
    }
}

// A field with the tree of a set of states.
fn plan_field(
    alloc: Global,
    trees: &mut PlannedTrees,
    places: &Places,
    polarity: Polarity,
    set: &FieldSet,
) -> Result<Field, Memory>
    requires { (s : ℕ) → place_of places.now s < end_of trees.old }
    ensures extends { OnOk result (Extends trees.old trees.new) }
    ensures label { IfOk result (λ field. field.label ≡ set.now.label) }
    ensures tree { IfOk result (λ field. HasTree trees.new polarity (IsPlaceIn (place_of places.now) set.now.set)
        field.node.0) }
{
    let node = plan_set(alloc, trees, places, polarity, &set.set)?;
    let label = set.label.clone()?;
    Ok(Field { label, node })
}

// The fields with the trees of their sets.
fn plan_fields(
    alloc: Global,
    trees: &mut PlannedTrees,
    places: &Places,
    polarity: Polarity,
    sets: &[FieldSet],
) -> Result<Fields, Memory>
    requires { (s : ℕ) → place_of places.now s < end_of trees.old }
    ensures extends { OnOk result (Extends trees.old trees.new) }
    ensures fields { IfOk result (λ fields. AreFields trees.new (place_of places.now) polarity sets.now fields) }
{
    let mut fields = Fields::new(alloc);
    for set in sets {
        let field = plan_field(alloc, trees, places, polarity, set)?;
        fields.push(field)?;
    }
    Ok(fields)
}

// Adds the node of a record, where there is one.
fn push_record(
    alloc: Global,
    book: &mut Book,
    trees: &mut PlannedTrees,
    places: &Places,
    polarity: Polarity,
    sets: &Option<FieldSets>,
) -> Result<(), Memory>
    requires labels { HasRisingLabels sets.now }
    requires low { (s : ℕ) → place_of places.now s < end_of trees.old }
    ensures extends { OnOk result (Extends trees.old trees.new) }
    ensures adds { OnOk result (AddsRecord trees.new (place_of places.now) polarity sets.now book.old book.new) }
{
    match sets {
        None => Ok(()),
        Some(sets) => {
            let fields = plan_fields(alloc, trees, places, polarity, sets.as_slice())?;
            book.push(Node::Rcd(fields))?;
            Ok(())
        }
    }
}

// Adds the nodes of a head's own parts.
fn push_head(
    alloc: Global,
    book: &mut Book,
    trees: &mut PlannedTrees,
    places: &Places,
    polarity: Polarity,
    head: &Head,
) -> Result<(), Memory>
    requires labels { HasRisingLabels head.now.fields }
    requires low { (s : ℕ) → place_of places.now s < end_of trees.old }
    ensures extends { OnOk result (Extends trees.old trees.new) }
    ensures adds { OnOk result (AddsOwn trees.new (place_of places.now) polarity head.now book.old book.new) }
{
    push_function(alloc, book, trees, places, polarity, &head.function)?;
    push_record(alloc, book, trees, places, polarity, &head.fields)?;
    Ok(())
}

/// Adds the nodes of the functions and records of all states, and plans the trees of the sets that they name.
pub(crate) fn push_own(
    alloc: Global,
    book: &mut Book,
    trees: &mut PlannedTrees,
    a: &Automaton,
    places: &Places,
) -> Result<(), Memory>
    requires closed { IsClosed a.now }
    requires low { (s : ℕ) → place_of places.now s < end_of trees.old }
    ensures extends { OnOk result (Extends trees.old trees.new) }
    ensures adds { OnOk result (AddsStates trees.new (place_of places.now) a.now (length a.now.states)
        book.old book.new) }
{
    for s in 0..a.len() {
        let id = StateId(s);
        push_head(alloc, book, trees, places, a.polarity(id), a.head(id))?;
    }
    Ok(())
}
