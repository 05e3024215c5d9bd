//! What the variables of a name's type stand for at a use: what flows in at the copies of the negative places that show
//! them.
ghost use Rattle.std.specs.Prelude.{◌≡◌, ◌↔◌, ◌≤◌, ◌<◌, ◌+◌, ◌++◌, ℕ, map, IfOk, IsTrue, OnOk};
ghost use Rattle.std.specs.List.{Any};
ghost use Rattle.mls_automaton.specs.declared.automaton.Polarity.TheVariants.{Positive};
ghost use Rattle.mls_automaton.specs.declared.scheme.Scheme.{Scheme as KnownType};
ghost use Rattle.mls_book.specs.Books.{IsBook, IsClosedBook};
ghost use Rattle.mls_layout.specs.LaidOut.{node_of, place_of, IsLonger};
ghost use Rattle.mls_layout.specs.Trees.{AddsTree};
ghost use Rattle.mls_lines.specs.Puts.{AddsJoin, AreByState, AreJoins, ArePutsOfEdges, FollowFrom, IsNodeOfCopy};
ghost use Rattle.mls_lines.specs.Puts.{ShareVariable};
ghost use Rattle.mls_lines.specs.Showing.{shown_by};

use crate::known::GlobalAt;
use mls_automaton::automaton::Polarity;
use mls_automaton::scheme::Scheme;
use mls_base::list::List;
use mls_base::memory::Memory;
use mls_book::book::{Book, NodeId};
use mls_deriv::claim::Put;
use mls_layout::layout::Places;
use mls_layout::tree::{NodeIds, push_tree};
use mls_parts::pose::Posing;
use std::alloc::Global;
use std::collections::BTreeMap;

/// Nodes for variables.
pub type Puts = List<Put>;

/// Adds nodes for variables.
///
/// # Errors
///
/// `Memory` where memory is wanting.
pub fn add_puts(puts: &mut Puts, others: &[Put]) -> Result<(), Memory>
    ensures { OnOk result (puts.new ≡ puts.old ++ others.now) }
{
    for put in others {
        puts.push(*put)?;
    }
    Ok(())
}

/// Whether some variable has a node in both lists, where the variables of the second follow each other.
pub fn share_variables(puts: &[Put], others: &[Put]) -> bool
    ensures { (x : ℕ) → FollowFrom x others.now → (IsTrue result ↔ ShareVariable puts.now others.now) }
{
    match others.first() {
        None => false,
        Some(first) => have_among(puts, first.variable, others.len()),
    }
}

// Whether the variable of some entry is one of so many from the first on.
fn have_among(puts: &[Put], first: usize, count: usize) -> bool
    ensures { IsTrue result ↔ Any (λ put. (first ≤ put.variable) × (put.variable < first + count)) puts.now }
{
    puts.iter().any(|put| is_among(put.variable, first, count))
}

// Whether the number is one of so many from the first on.
fn is_among(number: usize, first: usize, count: usize) -> bool
    ensures { IsTrue result ↔ ((first ≤ number) × (number < first + count)) }
{
    number >= first && number - first < count
}

// The join of nodes of the book.
fn joined(book: &mut Book, ids: &NodeIds) -> Result<NodeId, Memory>
    ensures { IfOk result (λ id. AddsTree Positive ids.now book.old book.new id.0) }
{
    let length = book.len();
    if !ids.as_slice().iter().all(|id| id.0 < length) {
        return Err(Memory);
    }
    let node = push_tree(book, Polarity::Positive, ids.as_slice())?;
    Ok(node)
}

// The node of the copy of a state, where copies begin with this number.
fn copied(places: &Places, first: usize, state: usize) -> Result<NodeId, Memory>
    ensures { IfOk result (λ id. id ≡ node_of places.now (first + state)) }
{
    let copy = first.checked_add(state).ok_or(Memory)?;
    Ok(places.node(copy))
}

// The nodes of the copies of these states.
fn copies(alloc: Global, places: &Places, first: usize, states: &[usize]) -> Result<NodeIds, Memory>
    ensures { IfOk result (λ ids. ids ≡ map (λ s. node_of places.now (first + s)) states.now) }
{
    let mut ids = NodeIds::new(alloc);
    for state in states {
        ids.push(copied(places, first, *state)?)?;
    }
    Ok(ids)
}

// The nodes of the copies of the states that show a variable of the type of a name.
fn copies_showing(
    alloc: Global,
    places: &Places,
    global: &GlobalAt,
    first: usize,
    variable: usize,
) -> Result<NodeIds, Memory>
    ensures { IfOk result (λ ids. ids
        ≡ map (λ s. node_of places.now (first + s)) (shown_by global.now.showing variable)) }
{
    match global.showing.get(&variable) {
        Some(states) => copies(alloc, places, first, states.as_slice()),
        None => Ok(NodeIds::new(alloc)),
    }
}

// What a variable of the type of a name stands for.
fn joined_put(
    alloc: Global,
    book: &mut Book,
    places: &Places,
    global: &GlobalAt,
    first: usize,
    variable: usize,
) -> Result<Put, Memory>
    ensures variable { IfOk result (λ put. put.variable ≡ variable) }
    ensures node { IfOk result (λ put. AddsJoin book.old book.new (λ s. place_of places.now (first + s))
        (shown_by global.now.showing variable) put.node) }
{
    let ids = copies_showing(alloc, places, global, first, variable)?;
    let node = joined(book, &ids)?;
    Ok(Put {
        variable,
        node: node.0,
    })
}

/// What the variables of the type of a name of the environment stand for, where its copy begins with this state.
///
/// # Errors
///
/// `Memory` where memory is wanting.
pub fn global_puts(
    alloc: Global,
    book: &mut Book,
    places: &Places,
    global: &GlobalAt,
    first: usize,
) -> Result<Puts, Memory>
    ensures longer { IfOk result (λ puts. IsLonger book.old book.new) }
    ensures is_book { IsBook book.old → OnOk result (IsBook book.new) }
    ensures closed { IsClosedBook book.old → OnOk result (IsClosedBook book.new) }
    ensures joins { IsBook book.old → IfOk result (AreJoins book.new (λ s. place_of places.now (first + s))
        global.now.showing global.now.variables) }
{
    let mut puts = Puts::new(alloc);
    for variable in 0..global.variables {
        let put = joined_put(alloc, book, places, global, first, variable)?;
        puts.push(put)?;
    }
    Ok(puts)
}

// The binders of the states of a let's first part.
fn binders_by_state(alloc: Global, scheme: &Scheme) -> Result<BTreeMap<usize, usize>, Memory>
    ensures { IfOk result (AreByState scheme.now.env) }
{
    let mut binders = BTreeMap::new(alloc);
    for entry in scheme.env.as_slice() {
        binders.insert(entry.state.0, entry.binder)?;
    }
    Ok(binders)
}

// The node of the copy of a state of a let's first part, where copies begin with this number and the states of binders
// have these binders.
fn let_node(
    places: &Places,
    posing: &Posing,
    binders: &BTreeMap<usize, usize>,
    first: usize,
    state: usize,
) -> Result<NodeId, Memory>
    ensures { (known : KnownType) → AreByState known.env binders.now
        → IfOk result (λ id. IsNodeOfCopy places.now posing.now known first state id.0) }
{
    match binders.get(&state) {
        Some(binder) => Ok(places.node(posing.binder(*binder))),
        None => copied(places, first, state),
    }
}

/// What the variables of the type of a let's first part stand for: there is one for each edge, numbered from this one
/// on. The state of a binder has that of the binder around as its copy.
///
/// # Errors
///
/// `Memory` where memory is wanting.
pub fn let_puts(
    alloc: Global,
    places: &Places,
    posing: &Posing,
    scheme: &Scheme,
    variable: usize,
    first: usize,
) -> Result<Puts, Memory>
    ensures { IfOk result (ArePutsOfEdges (IsNodeOfCopy places.now posing.now scheme.now first)
        scheme.now.automaton.flows variable) }
{
    let binders = binders_by_state(alloc, scheme)?;
    let mut puts = Puts::new(alloc);
    for (number, flow) in scheme.automaton.flows().iter().enumerate() {
        let next = variable.checked_add(number).ok_or(Memory)?;
        let node = let_node(places, posing, &binders, first, flow.negative.0)?;
        puts.push(Put {
            variable: next,
            node: node.0,
        })?;
    }
    Ok(puts)
}
