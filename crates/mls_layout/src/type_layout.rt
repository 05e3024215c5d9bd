//! The nodes of a type.
ghost use Rattle.std.specs.Prelude.{◌≡◌, ◌<◌, ◌+◌, ◌++◌, ℕ, length, IfOk, OnOk};
ghost use Rattle.mls_book.specs.Books.{IsClosedBook};
ghost use Rattle.mls_automaton.specs.Automata.{polarity_at};
ghost use Rattle.mls_layout.specs.LaidOut.{IsLonger, IsTypeLaidOut, place_of};
ghost use Rattle.mls_layout.specs.steps.Owned.{HaveTrees};
ghost use Rattle.mls_layout.specs.steps.Planned.{Extends};
ghost use Rattle.mls_layout.specs.steps.Sources.{AreBelow, parts_in, partners_in};
ghost use Rattle.mls_layout.specs.steps.TypeNodes.{AddsSources, AddsVariables, IsOfType};

use crate::layout::Places;
use crate::layout::leaves::push_leaves;
use crate::layout::owned::push_own;
use crate::layout::partners::{add, no_partners};
use crate::layout::parts::parts_of;
use crate::layout::planned::{PlannedTrees, after};
use crate::layout::sources::Sources;
use crate::layout::values::add_all;
use crate::tree::NodeIds;
use mls_automaton::automaton::{Automaton, Flow};
use mls_automaton::scheme::Scheme;
use mls_automaton::state_set::StateId;
use mls_base::memory::Memory;
use mls_book::book::{Book, Node};
use std::alloc::Global;

/// A book with the nodes of a type, the nodes of the type's states, and the number behind its last variable.
#[derive(Drop)]
pub struct TypeLaidOut {
    pub book: Book,
    pub places: Places,
    pub variables: usize,
}

// Adds a variable for each edge, numbered from this one on, and answers for each of so many states the nodes of the
// variables of its edges.
fn push_variables(
    alloc: Global,
    book: &mut Book,
    states: usize,
    flows: &[Flow],
    first: usize,
) -> Result<Vec<NodeIds>, Memory>
    ensures { IfOk result (λ lists. AddsVariables states flows.now first (length flows.now) book.old book.new
        lists.items) }
{
    let mut lists = no_partners(alloc, states)?;
    let mut variable = first;
    for flow in flows {
        let id = book.push(Node::Var(variable))?;
        add(&mut lists, flow.negative.0, id)?;
        add(&mut lists, flow.positive.0, id)?;
        variable = after(variable, 1)?;
    }
    Ok(lists)
}

// What a state is the tree of: the parts of its head, and the variables of its edges.
fn members_of(alloc: Global, sources: &Sources, s: usize) -> Result<NodeIds, Memory>
    ensures { IfOk result (λ ids. ids ≡ parts_in sources.now s ++ partners_in sources.now s) }
{
    let mut ids = NodeIds::new(alloc);
    add_all(&mut ids, sources.parts(s))?;
    add_all(&mut ids, sources.partners(s))?;
    Ok(ids)
}

// Plans the nodes of all states: joins and meets of the parts of their heads and of variables.
fn plan_types(
    alloc: Global,
    trees: &mut PlannedTrees,
    a: &Automaton,
    sources: &Sources,
) -> Result<Places, Memory>
    requires { AreBelow sources.now trees.old.start }
    ensures extends { OnOk result (Extends trees.old trees.new) }
    ensures past { IfOk result (λ places. places.past ≡ sources.now.nothing) }
    ensures trees { IfOk result (λ places. HaveTrees trees.new (polarity_at a.now) (IsOfType sources.now)
        (length a.now.states) places.nodes) }
{
    let mut nodes = NodeIds::new(alloc);
    for s in 0..a.len() {
        let members = members_of(alloc, sources, s)?;
        nodes.push(trees.plan(alloc, a.polarity(StateId(s)), members)?)?;
    }
    Ok(Places {
        nodes,
        past: sources.nothing,
    })
}

// Adds the variables and the leaves. Functions and records get the numbers behind these.
fn push_sources(
    alloc: Global,
    book: &mut Book,
    a: &Automaton,
    first_variable: usize,
) -> Result<Sources, Memory>
    ensures { IfOk result (AddsSources a.now first_variable book.old book.new) }
{
    let states = a.len();
    let variables = push_variables(alloc, book, states, a.flows(), first_variable)?;
    let leaves = push_leaves(book)?;
    let start = book.len();
    let parts = parts_of(alloc, a, leaves, start)?;
    Ok(Sources {
        parts: parts.nodes,
        partners: variables,
        nothing: leaves.nothing,
        end: parts.end,
    })
}

/// The nodes of the states of a type, behind those of the book. Each edge is a variable, numbered from this one on in
/// the order of the edges. A state is the join of the parts of its head and of the variables of its edges, or their
/// meet where it is negative.
///
/// # Errors
///
/// `Memory` where memory is wanting, or where the automaton of the type is not closed.
pub fn lay_out_type(
    book: Book,
    scheme: &Scheme,
    first_variable: usize,
) -> Result<TypeLaidOut, Memory>
    ensures longer { IfOk result (λ laid. IsLonger book laid.book) }
    ensures closed { IfOk result (λ laid. IsClosedBook book → IsClosedBook laid.book) }
    ensures places { IfOk result (λ laid. (s : ℕ) → place_of laid.places s < length laid.book) }
    ensures layout { IfOk result (λ laid. IsClosedBook book → IsTypeLaidOut book scheme.now.automaton first_variable
        laid.book (place_of laid.places)) }
    ensures variables { IfOk result (λ laid. laid.variables ≡ first_variable + length scheme.now.automaton.flows) }
{
    let a = &scheme.automaton;
    if !a.is_closed() {
        return Err(Memory);
    }
    let alloc = scheme.env.allocator();
    let mut book = book;
    let variables = after(first_variable, a.flows().len())?;
    let sources = push_sources(alloc, &mut book, a, first_variable)?;
    let mut trees = PlannedTrees::new(alloc, sources.end);
    let places = plan_types(alloc, &mut trees, a, &sources)?;
    push_own(alloc, &mut book, &mut trees, a, &places)?;
    trees.push_onto(&mut book)?;
    Ok(TypeLaidOut {
        book,
        places,
        variables,
    })
}
