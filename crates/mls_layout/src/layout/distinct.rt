//! Nodes without those that stand twice in a list, in order.
ghost use Rattle.std.specs.Prelude.{◌≡◌, ◌↔◌, ℕ, map, Contains, IfOk};
ghost use Rattle.mls_layout.specs.Trees.{IsNodeIn};
ghost use Rattle.mls_layout.specs.steps.Sources.{node_id};

use crate::tree::NodeIds;
use mls_base::memory::Memory;
use mls_book::book::NodeId;
use std::alloc::Global;
use std::collections::BTreeSet;

// The numbers of these nodes.
fn numbers_of(alloc: Global, ids: &NodeIds) -> Result<BTreeSet<usize>, Memory>
    ensures { IfOk result (λ numbers. (i : ℕ) → Contains numbers.keys i ↔ IsNodeIn ids.now i) }
{
    let mut numbers = BTreeSet::new(alloc);
    for id in ids.as_slice() {
        numbers.insert(id.0)?;
    }
    Ok(numbers)
}

// The nodes of these numbers, in order.
fn nodes_of(alloc: Global, numbers: &BTreeSet<usize>) -> Result<NodeIds, Memory>
    ensures { IfOk result (λ ids. ids ≡ map node_id numbers.now.keys) }
{
    let mut ids = NodeIds::new(alloc);
    for number in numbers {
        ids.push(NodeId(*number))?;
    }
    Ok(ids)
}

/// The nodes, each once, in the order of their numbers.
pub(crate) fn distinct(alloc: Global, ids: NodeIds) -> Result<NodeIds, Memory>
    ensures { IfOk result (λ left. (i : ℕ) → IsNodeIn left i ↔ IsNodeIn ids i) }
{
    if ids.len() < 2 {
        return Ok(ids);
    }
    let numbers = numbers_of(alloc, &ids)?;
    let left = nodes_of(alloc, &numbers)?;
    Ok(left)
}
