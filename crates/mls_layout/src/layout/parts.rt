//! The numbers of the nodes of the parts of heads.
ghost use Rattle.std.specs.Prelude.{◌≡◌, ◌++◌, ◌+◌, length, is_some, IfOk, OnOk};
ghost use Rattle.mls_layout.specs.steps.Sources.{AreParted, count_if, head_parts, ids_if, own_count};

use crate::layout::leaves::Leaves;
use crate::layout::planned::after;
use crate::tree::NodeIds;
use mls_automaton::automaton::{Automaton, Head};
use mls_automaton::state_set::StateId;
use mls_base::list::List;
use mls_base::memory::Memory;
use mls_book::book::NodeId;
use std::alloc::Global;

/// For each state the nodes of the parts of its head, and the number behind them.
#[derive(Drop)]
pub(crate) struct Parts {
    pub(crate) nodes: List<NodeIds>,
    pub(crate) end: usize,
}

// Adds a node, where it is there.
fn push_if(ids: &mut NodeIds, is_there: bool, id: NodeId) -> Result<(), Memory>
    ensures { OnOk result (ids.new ≡ ids.old ++ ids_if is_there id) }
{
    if is_there {
        ids.push(id)?;
    }
    Ok(())
}

/// The number behind that of a node, where it is there.
pub(crate) fn behind(number: usize, is_there: bool) -> Result<usize, Memory>
    ensures { IfOk result (λ next. next ≡ number + count_if is_there) }
{
    match is_there {
        true => after(number, 1),
        false => Ok(number),
    }
}

// The nodes of the parts of a head, of which its own ones have the numbers from this one on.
fn head_parts(alloc: Global, leaves: Leaves, first: usize, head: &Head) -> Result<NodeIds, Memory>
    ensures { IfOk result (λ ids. ids ≡ head_parts leaves first head.now) }
{
    let mut ids = NodeIds::new(alloc);
    let second = behind(first, head.function.is_some())?;
    push_if(&mut ids, head.boolean, leaves.boolean)?;
    push_if(&mut ids, head.integer, leaves.integer)?;
    push_if(&mut ids, head.function.is_some(), NodeId(first))?;
    push_if(&mut ids, head.fields.is_some(), NodeId(second))?;
    Ok(ids)
}

/// The number behind those of a head's own nodes.
pub(crate) fn behind_own(first: usize, head: &Head) -> Result<usize, Memory>
    ensures { IfOk result (λ end. end ≡ first + own_count head.now) }
{
    let second = behind(first, head.function.is_some())?;
    behind(second, head.fields.is_some())
}

/// The nodes of the parts of all heads. Functions and records get the numbers from `start` on.
pub(crate) fn parts_of(
    alloc: Global,
    a: &Automaton,
    leaves: Leaves,
    start: usize,
) -> Result<Parts, Memory>
    ensures { IfOk result (λ parts. AreParted a.now leaves start (length a.now.states) parts.end parts.nodes) }
{
    let mut nodes = List::new(alloc);
    let mut end = start;
    for s in 0..a.len() {
        let head = a.head(StateId(s));
        nodes.push(head_parts(alloc, leaves, end, head)?)?;
        end = behind_own(end, head)?;
    }
    Ok(Parts { nodes, end })
}
