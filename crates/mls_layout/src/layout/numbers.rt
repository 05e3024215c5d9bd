//! The numbers of the nodes of functions and records.
ghost use Rattle.std.specs.Prelude.{◌≡◌, [], get_or, IfOk, None, OnOk};
ghost use Rattle.mls_layout.specs.steps.OwnNumbers.{AddsNumbers, AreOwned, node_if, node_in};

use crate::layout::parts::{behind, behind_own};
use mls_automaton::automaton::{Automaton, Head};
use mls_automaton::state_set::StateId;
use mls_base::list::List;
use mls_base::memory::Memory;
use mls_book::book::NodeId;
use std::alloc::Global;

/// For each state the nodes of its own function and of its own record.
#[derive(Drop)]
pub struct Owned {
    pub functions: List<Option<NodeId>>,
    pub records: List<Option<NodeId>>,
}

impl Owned {
    // No state, and room for so many.
    fn with_room(alloc: Global, states: usize) -> Result<Owned, Memory>
        ensures functions { IfOk result (λ owned. owned.functions ≡ []) }
        ensures records { IfOk result (λ owned. owned.records ≡ []) }
    {
        let mut functions = List::new(alloc);
        functions.reserve(states)?;
        let mut records = List::new(alloc);
        records.reserve(states)?;
        Ok(Owned { functions, records })
    }

    // Adds those of a head, of which its own nodes have the numbers from this one on.
    fn push(&mut self, first: usize, head: &Head) -> Result<(), Memory>
        ensures { OnOk result (AddsNumbers self.old self.new first head.now) }
    {
        let second = behind(first, head.function.is_some())?;
        self.functions
            .push(node_if(head.function.is_some(), first))?;
        self.records.push(node_if(head.fields.is_some(), second))?;
        Ok(())
    }

    /// The node of the function of a state.
    pub fn function(&self, s: usize) -> Option<NodeId>
        ensures { result ≡ get_or self.now.functions s None }
    {
        node_in(self.functions.as_slice(), s)
    }

    /// The node of the record of a state.
    pub fn record(&self, s: usize) -> Option<NodeId>
        ensures { result ≡ get_or self.now.records s None }
    {
        node_in(self.records.as_slice(), s)
    }
}

// The node of this number, where it is there.
fn node_if(is_there: bool, number: usize) -> Option<NodeId>
    ensures { result ≡ node_if is_there number }
{
    match is_there {
        true => Some(NodeId(number)),
        false => None,
    }
}

// The node of a state.
fn node_in(nodes: &[Option<NodeId>], s: usize) -> Option<NodeId>
    ensures { result ≡ node_in nodes.now s }
{
    match nodes.get(s) {
        Some(node) => *node,
        None => None,
    }
}

/// The nodes of the functions and records of all states, which get the numbers from `start` on.
pub(crate) fn owned_of(alloc: Global, a: &Automaton, start: usize) -> Result<Owned, Memory>
    ensures { IfOk result (AreOwned a.now start) }
{
    let mut owned = Owned::with_room(alloc, a.len())?;
    let mut end = start;
    for s in 0..a.len() {
        let head = a.head(StateId(s));
        owned.push(end, head)?;
        end = behind_own(end, head)?;
    }
    Ok(owned)
}
