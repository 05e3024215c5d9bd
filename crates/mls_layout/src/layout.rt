//! The nodes of a part, laid out behind those of its type.
ghost use Rattle.std.specs.Prelude.{◌≡◌, ◌↔◌, ℕ, ◌<◌, length, get_or, All, IfOk, IsTrue, None};
ghost use Rattle.mls_book.specs.Books.{IsClosedBook};
ghost use Rattle.mls_automaton.specs.Models.{IsClosed};
ghost use Rattle.mls_solver.specs.Rooms.{HoldsStates};
ghost use Rattle.mls_layout.specs.LaidOut.{IsLonger, LaysOut, node_of, place_of};

mod distinct;
pub(crate) mod leaves;
pub mod numbers;
pub(crate) mod owned;
pub(crate) mod partners;
pub(crate) mod parts;
pub(crate) mod planned;
pub(crate) mod sources;
mod states;
pub(crate) mod values;

use crate::tree::NodeIds;
use leaves::push_leaves;
use mls_automaton::automaton::Automaton;
use mls_base::memory::Memory;
use mls_book::book::{Book, NodeId};
use mls_solver::found::Found;
use mls_subsume::verdict::StatePair;
use numbers::{Owned, owned_of};
use owned::push_own;
use planned::PlannedTrees;
use sources::sources_of;
use states::plan_states;
use std::alloc::Global;
use values::plan_values;

/// The nodes of the states of an automaton, and the node of the numbers past its end.
#[derive(Drop)]
pub struct Places {
    pub nodes: NodeIds,
    pub past: NodeId,
}

impl Places {
    /// The node of a state.
    pub fn node(&self, s: usize) -> NodeId
        ensures { result ≡ node_of self.now s }
    {
        match self.nodes.as_slice().get(s) {
            Some(node) => *node,
            None => self.past,
        }
    }

    /// Whether all of these nodes have lower numbers than this.
    pub fn are_below(&self, number: usize) -> bool
        ensures { IsTrue result ↔ ((s : ℕ) → place_of self.now s < number) }
    {
        self.have_low_nodes(number)
    }

    // Whether the nodes of the states and that past the end have lower numbers.
    fn have_low_nodes(&self, number: usize) -> bool
        ensures { IsTrue result ↔ All (λ id. id.0 < number) self.now.nodes × (self.now.past.0 < number) }
    {
        self.nodes.as_slice().iter().all(|id| id.0 < number) && self.past.0 < number
    }
}

/// A book with the nodes of a part, the nodes of the states of its constraint, those of their functions and records,
/// and those of `bool` and `int`.
#[derive(Drop)]
pub struct LaidOut {
    pub book: Book,
    pub places: Places,
    pub own: Owned,
    pub boolean: NodeId,
    pub integer: NodeId,
}

impl LaidOut {
    /// The node of the function of a state.
    pub fn function(&self, s: usize) -> Option<NodeId>
        ensures { result ≡ get_or self.now.own.functions s None }
    {
        self.own.function(s)
    }

    /// The node of the record of a state.
    pub fn record(&self, s: usize) -> Option<NodeId>
        ensures { result ≡ get_or self.now.own.records s None }
    {
        self.own.record(s)
    }
}

/// The nodes of the states of an automaton, behind those of a type: `found` are its related states, and `pairs` those
/// of its states and of the type's that a walk meets, where the type's states have these places. It takes time near
/// linear in the number of members of the joins and meets that it adds, each counted as often as it is met.
///
/// # Errors
///
/// `Memory` where memory is wanting.
pub fn lay_out(
    alloc: Global,
    book: Book,
    a: &Automaton,
    found: &Found,
    pairs: &[StatePair],
    type_places: &Places,
) -> Result<LaidOut, Memory>
    requires closed { IsClosed a.now }
    requires related { HoldsStates a.now found.now }
    requires places { (s : ℕ) → place_of type_places.now s < length book }
    ensures longer { IfOk result (λ laid. IsLonger book laid.book) }
    ensures laid { IfOk result (λ laid. IsClosedBook book
        → LaysOut book a.now found.now pairs.now (place_of type_places.now) laid.book (place_of laid.places) laid.own
        laid.boolean laid.integer) }
{
    let mut book = book;
    let leaves = push_leaves(&mut book)?;
    let start = book.len();
    let own = owned_of(alloc, a, start)?;
    let sources = sources_of(alloc, a, leaves, pairs, type_places, start)?;
    let mut trees = PlannedTrees::new(alloc, sources.end);
    let values = plan_values(alloc, &mut trees, a, found, &sources)?;
    let places = plan_states(alloc, &mut trees, a, &sources, &values)?;
    push_own(alloc, &mut book, &mut trees, a, &places)?;
    trees.push_onto(&mut book)?;
    Ok(LaidOut {
        book,
        places,
        own,
        boolean: leaves.boolean,
        integer: leaves.integer,
    })
}
