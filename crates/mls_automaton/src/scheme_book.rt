//! Books of schemes over automata.
ghost use Rattle.std.specs.Prelude.{◌≡◌, ◌<◌, ◌+◌, ◌*◌, ◌++◌, ◌∷◌, [], length, map, All, IfOk, OnOk};
ghost use Rattle.mls_automaton.specs.declared.automaton.FieldSet.{FieldSet};
ghost use Rattle.mls_automaton.specs.Models.{HasArmsIn, HasFieldsIn, HasRisingLabels, HasStatesIn, IsClosed};
ghost use Rattle.mls_automaton.specs.SchemeBooks.{scheme_in};
ghost use Rattle.mls_automaton.specs.Schemes.{IsScheme, IsSchemeOf};
ghost use Rattle.mls_automaton.specs.steps.BookParts.{AddsNoHead, AreEdges, AreSets, AreStates, HasPlace, IsLonger};
ghost use Rattle.mls_automaton.specs.steps.BookParts.{bit_node, both_node, edge_nodes, edge_of, env_node, fields_from};
ghost use Rattle.mls_automaton.specs.steps.BookParts.{fields_sets, fields_width, function_node, function_sets};
ghost use Rattle.mls_automaton.specs.steps.BookParts.{function_width, head_sets, head_width, none_node, place_at};
ghost use Rattle.mls_automaton.specs.steps.BookParts.{record_node, record_sets, record_width, set_nodes, set_width};
ghost use Rattle.mls_automaton.specs.steps.BookParts.{state_nodes, variable_of};

use crate::automaton::{Arms, Automaton, FieldSet, FieldSets, Head, Polarity};
use crate::scheme::{Env, Scheme};
use crate::state_set::{StateId, StateSet};
use mls_base::memory::Memory;
use mls_book::book::{Book, Field, Fields, Node, NodeId};
use std::alloc::Global;
use std::marker::Model;

/// The node of a binder.
#[derive(Clone, Copy, Debug, PartialEq, Eq)]
pub struct EnvNode {
    pub binder: usize,
    pub node: NodeId,
}

/// Nodes by binders, which rise. Contracts see the list.
#[derive(Drop)]
pub struct EnvNodes {
    entries: Vec<EnvNode>,
}

impl Model for EnvNodes {
    ghost use Rattle.std.specs.Prelude.{List};
    ghost use Rattle.mls_automaton.specs.declared.scheme_book.EnvNode.{EnvNode};

    ghost Value = { List EnvNode };

    ghost view = { λ a. a.entries.items };
}

impl EnvNodes {
    /// The entries in order.
    pub fn as_slice(&self) -> &[EnvNode]
        ensures { result.now ≡ self.now }
    {
        self.entries.as_slice()
    }
}

/// A type as a node of a book, and the nodes of the binders that it needs.
#[derive(Drop)]
pub struct SchemeBook {
    pub book: Book,
    pub env: EnvNodes,
    pub root: NodeId,
}

/// The scheme as nodes of a book, in time linear in the scheme.
///
/// # Errors
///
/// `Memory` where memory is wanting.
pub fn book_of(alloc: Global, scheme: &Scheme) -> Result<SchemeBook, Memory>
    requires { IsScheme scheme.now }
    ensures { IfOk result (λ made. IsSchemeOf scheme.now (scheme_in made)) }
{
    let automaton = &scheme.automaton;
    let mut book = Book::new(alloc);
    let edges = push_all_edges(alloc, &mut book, automaton)?;
    let first = book.len();
    let sets = sum(first, product(8, automaton.len())?)?;
    push_states(alloc, &mut book, automaton, edges.as_slice(), sets)?;
    push_sets(&mut book, automaton, first)?;
    let env = env_nodes(alloc, &scheme.env, first)?;
    let root = place_of(first, scheme.root.0)?;
    Ok(SchemeBook { book, env, root })
}

// A sum. Where it does not fit, memory is wanting for so many nodes.
fn sum(a: usize, b: usize) -> Result<usize, Memory>
    ensures { IfOk result (λ c. c ≡ a + b) }
{
    match a.checked_add(b) {
        Some(c) => Ok(c),
        None => Err(Memory),
    }
}

// The same of a product.
fn product(a: usize, b: usize) -> Result<usize, Memory>
    ensures { IfOk result (λ c. c ≡ a * b) }
{
    match a.checked_mul(b) {
        Some(c) => Ok(c),
        None => Err(Memory),
    }
}

// The node of a state, where those of the states begin at `first`.
fn place_of(first: usize, s: usize) -> Result<NodeId, Memory>
    ensures { IfOk result (λ node. node.0 ≡ place_at first s) }
{
    let start = sum(first, product(8, s)?)?;
    let place = sum(start, 7)?;
    Ok(NodeId(place))
}

// The node of no type.
fn none_node(polarity: Polarity) -> Node
    ensures { result ≡ none_node polarity }
{
    match polarity {
        Polarity::Positive => Node::Bot,
        Polarity::Negative => Node::Top,
    }
}

// Adds the join or the meet of two nodes.
fn push_both(
    book: &mut Book,
    polarity: Polarity,
    first: NodeId,
    second: NodeId,
) -> Result<NodeId, Memory>
    requires first { first.0 < length book.old }
    requires second { second.0 < length book.old }
    ensures ok { OnOk result (book.new ≡ book.old ++ both_node polarity first.0 second.0 ∷ []) }
    ensures number { IfOk result (λ node. node.0 ≡ length book.old) }
{
    let node = match polarity {
        Polarity::Positive => book.push(Node::Join(first, second))?,
        Polarity::Negative => book.push(Node::Meet(first, second))?,
    };
    Ok(node)
}

// The variable of an edge.
fn variable_of(states: usize, negative: usize, positive: usize) -> Result<usize, Memory>
    ensures { IfOk result (λ x. x ≡ negative * states + positive) }
{
    let row = product(negative, states)?;
    let variable = sum(row, positive)?;
    Ok(variable)
}

// The variable of the edge between a state and its partner.
fn edge_variable(
    states: usize,
    polarity: Polarity,
    s: usize,
    partner: usize,
) -> Result<usize, Memory>
    ensures { IfOk result (λ x. x ≡ variable_of states (edge_of polarity s partner)) }
{
    match polarity {
        Polarity::Positive => variable_of(states, partner, s),
        Polarity::Negative => variable_of(states, s, partner),
    }
}

// Adds the edges of a state, and answers the node of them all, the last one.
fn push_edges(
    book: &mut Book,
    states: usize,
    polarity: Polarity,
    s: usize,
    partners: &StateSet,
) -> Result<usize, Memory>
    ensures ok { OnOk result (book.new ≡ book.old ++ edge_nodes polarity (length book.old)
        (map (λ j. variable_of states (edge_of polarity s j)) partners.now)) }
    ensures last { IfOk result (λ e. e + 1 ≡ length book.new) }
{
    let mut last = book.push(none_node(polarity))?;
    for partner in partners.as_slice() {
        let variable = edge_variable(states, polarity, s, *partner)?;
        let variable = book.push(Node::Var(variable))?;
        last = push_both(book, polarity, last, variable)?;
    }
    Ok(last.0)
}

// Adds the edges of all states, and answers the nodes of those of each state.
fn push_all_edges(
    alloc: Global,
    book: &mut Book,
    automaton: &Automaton,
) -> Result<Vec<usize>, Memory>
    requires { book.old ≡ [] }
    ensures { IfOk result (λ edges. AreEdges automaton.now (length automaton.now.states) book.new edges.items) }
{
    let states = automaton.len();
    let mut edges = Vec::new(alloc);
    for s in 0..states {
        let polarity = automaton.polarity(StateId(s));
        let partners = automaton.partners(StateId(s));
        let last = push_edges(book, states, polarity, s, partners)?;
        edges.push(last)?;
    }
    Ok(edges)
}

// The node of a bit.
fn bit_node(polarity: Polarity, node: Node, bit: bool) -> Node
    ensures { result ≡ bit_node polarity node bit }
{
    if bit { node } else { none_node(polarity) }
}

// The node of a function, where its sets begin at `next`, and where the next sets begin.
fn function_node(
    polarity: Polarity,
    function: &Option<Arms>,
    next: usize,
) -> Result<(Node, usize), Memory>
    ensures node { IfOk result (λ both. both.0 ≡ function_node polarity next function.now) }
    ensures next { IfOk result (λ both. both.1 ≡ next + function_width function.now) }
{
    match function {
        None => Ok((none_node(polarity), next)),
        Some(arms) => {
            let domain = sum(next, arms.domain.len())?;
            let after = sum(domain, 1)?;
            let codomain = sum(after, arms.codomain.len())?;
            let end = sum(codomain, 1)?;
            Ok((Node::Arrow(NodeId(domain), NodeId(codomain)), end))
        }
    }
}

// The field with this node.
fn field_at(field: &FieldSet, node: usize) -> Result<Field, Memory>
    ensures { IfOk result (λ placed. placed ≡ record { label = field.now.label; node = record { 0 = node } }) }
{
    let label = field.label.clone()?;
    Ok(Field {
        label,
        node: NodeId(node),
    })
}

// The fields of a record, where their sets begin at `next`, and where the next sets begin.
fn fields_from(alloc: Global, fields: &[FieldSet], next: usize) -> Result<(Fields, usize), Memory>
    ensures fields { IfOk result (λ both. both.0 ≡ fields_from next fields.now) }
    ensures next { IfOk result (λ both. both.1 ≡ next + fields_width fields.now) }
{
    let mut placed = Fields::new(alloc);
    let mut end = next;
    for field in fields {
        let node = sum(end, field.set.len())?;
        placed.push(field_at(field, node)?)?;
        end = sum(node, 1)?;
    }
    Ok((placed, end))
}

// The node of a record, where its sets begin at `next`, and where the next sets begin.
fn record_node(
    alloc: Global,
    polarity: Polarity,
    fields: &Option<FieldSets>,
    next: usize,
) -> Result<(Node, usize), Memory>
    ensures node { IfOk result (λ both. both.0 ≡ record_node polarity next fields.now) }
    ensures next { IfOk result (λ both. both.1 ≡ next + record_width fields.now) }
{
    match fields {
        None => Ok((none_node(polarity), next)),
        Some(fields) => {
            let (fields, end) = fields_from(alloc, fields.as_slice(), next)?;
            Ok((Node::Rcd(fields), end))
        }
    }
}

// Adds the eight nodes of a state, where its sets begin at `next`, and answers where the next sets begin.
fn push_state(
    alloc: Global,
    book: &mut Book,
    polarity: Polarity,
    head: &Head,
    edges: usize,
    next: usize,
) -> Result<usize, Memory>
    requires labels { HasRisingLabels head.now.fields }
    requires edges { edges < length book.old }
    ensures ok { OnOk result (book.new ≡ book.old ++ state_nodes polarity edges (length book.old) next head.now) }
    ensures next { IfOk result (λ end. end ≡ next + head_width head.now) }
{
    let boolean = book.push(bit_node(polarity, Node::Bool, head.boolean))?;
    let integer = book.push(bit_node(polarity, Node::Int, head.integer))?;
    let (function, next) = function_node(polarity, &head.function, next)?;
    let function = book.push(function)?;
    let (fields, next) = record_node(alloc, polarity, &head.fields, next)?;
    let fields = book.push(fields)?;
    let rest = push_both(book, polarity, function, fields)?;
    let rest = push_both(book, polarity, integer, rest)?;
    let rest = push_both(book, polarity, boolean, rest)?;
    push_both(book, polarity, NodeId(edges), rest)?;
    Ok(next)
}

// Adds the nodes of all states, where their sets begin at `sets`.
fn push_states(
    alloc: Global,
    book: &mut Book,
    automaton: &Automaton,
    edges: &[usize],
    sets: usize,
) -> Result<(), Memory>
    requires closed { IsClosed automaton.now }
    requires edges { AreEdges automaton.now (length automaton.now.states) book.old edges.now }
    ensures states { OnOk result (AreStates automaton.now edges.now (length book.old) sets
        (length automaton.now.states) book.new) }
    ensures longer { OnOk result (IsLonger book.old book.new) }
{
    let mut next = sets;
    for s in 0..automaton.len() {
        let polarity = automaton.polarity(StateId(s));
        let head = automaton.head(StateId(s));
        next = push_state(alloc, book, polarity, head, edges[s], next)?;
    }
    Ok(())
}

// Adds a set of states, whose nodes begin at `first`. Its own node is the last.
fn push_set(book: &mut Book, polarity: Polarity, set: &StateSet, first: usize) -> Result<(), Memory>
    requires { All (HasPlace first book.old) set.now }
    ensures { OnOk result (book.new ≡ book.old ++ set_nodes polarity (length book.old) (map (place_at first) set.now)) }
{
    let mut last = book.push(none_node(polarity))?;
    for s in set.as_slice() {
        let place = place_of(first, *s)?;
        last = push_both(book, polarity, last, place)?;
    }
    Ok(())
}

// Adds the sets of a function.
fn push_function_sets(
    book: &mut Book,
    polarity: Polarity,
    function: &Option<Arms>,
    first: usize,
) -> Result<(), Memory>
    requires { HasArmsIn (λ q. HasPlace first book.old) polarity function.now }
    ensures { OnOk result (book.new ≡ book.old ++ function_sets polarity (place_at first)
        (length book.old) function.now) }
{
    match function {
        None => Ok(()),
        Some(arms) => {
            push_set(book, polarity.opposite(), &arms.domain, first)?;
            push_set(book, polarity, &arms.codomain, first)?;
            Ok(())
        }
    }
}

// Adds the sets of fields.
fn push_fields_sets(
    book: &mut Book,
    polarity: Polarity,
    fields: &[FieldSet],
    first: usize,
) -> Result<(), Memory>
    requires { All (λ (field : FieldSet). All (HasPlace first book.old) field.set) fields.now }
    ensures { OnOk result (book.new ≡ book.old ++ fields_sets polarity (place_at first) (length book.old) fields.now) }
{
    for field in fields {
        push_set(book, polarity, &field.set, first)?;
    }
    Ok(())
}

// Adds the sets of a record.
fn push_record_sets(
    book: &mut Book,
    polarity: Polarity,
    fields: &Option<FieldSets>,
    first: usize,
) -> Result<(), Memory>
    requires { HasFieldsIn (λ q. HasPlace first book.old) polarity fields.now }
    ensures { OnOk result (book.new ≡ book.old ++ record_sets polarity (place_at first) (length book.old) fields.now) }
{
    match fields {
        None => Ok(()),
        Some(fields) => {
            push_fields_sets(book, polarity, fields.as_slice(), first)?;
            Ok(())
        }
    }
}

// Adds the sets of a head.
fn push_head_sets(
    book: &mut Book,
    polarity: Polarity,
    head: &Head,
    first: usize,
) -> Result<(), Memory>
    requires { HasStatesIn (λ q. HasPlace first book.old) polarity head.now }
    ensures { OnOk result (book.new ≡ book.old ++ head_sets polarity (place_at first) (length book.old) head.now) }
{
    push_function_sets(book, polarity, &head.function, first)?;
    push_record_sets(book, polarity, &head.fields, first)?;
    Ok(())
}

// Adds the sets of all states, whose nodes begin at `first`.
fn push_sets(book: &mut Book, automaton: &Automaton, first: usize) -> Result<(), Memory>
    requires closed { IsClosed automaton.now }
    requires size { length book.old ≡ first + 8 * length automaton.now.states }
    ensures sets { OnOk result (AreSets automaton.now first (length book.old) (length automaton.now.states) book.new) }
    ensures longer { OnOk result (IsLonger book.old book.new) }
    ensures heads { OnOk result (AddsNoHead book.old book.new) }
{
    for s in 0..automaton.len() {
        let polarity = automaton.polarity(StateId(s));
        push_head_sets(book, polarity, automaton.head(StateId(s)), first)?;
    }
    Ok(())
}

// The nodes of the binders, where those of the states begin at `first`.
fn env_nodes(alloc: Global, env: &Env, first: usize) -> Result<EnvNodes, Memory>
    ensures { IfOk result (λ nodes. nodes ≡ map (env_node first) env.now) }
{
    let mut entries = Vec::new(alloc);
    for entry in env.as_slice() {
        let node = place_of(first, entry.state.0)?;
        entries.push(EnvNode {
            binder: entry.binder,
            node,
        })?;
    }
    Ok(EnvNodes { entries })
}
