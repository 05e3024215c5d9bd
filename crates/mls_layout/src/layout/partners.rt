//! The nodes of the type's states that a walk meets with each state.
ghost use Rattle.std.specs.Prelude.{◌≡◌, ◌↔◌, ◌⊎◌, ℕ, ◌<◌, [], length, get_or, IfOk, OnOk};
ghost use Rattle.mls_layout.specs.LaidOut.{place_of};
ghost use Rattle.mls_layout.specs.Trees.{IsNodeIn};
ghost use Rattle.mls_layout.specs.steps.Sources.{ArePartners};

use crate::layout::Places;
use crate::tree::NodeIds;
use mls_base::memory::Memory;
use mls_book::book::NodeId;
use mls_subsume::verdict::StatePair;
use std::alloc::Global;

/// So many empty lists.
pub(crate) fn no_partners(alloc: Global, states: usize) -> Result<Vec<NodeIds>, Memory>
    ensures length { IfOk result (λ lists. length lists.items ≡ states) }
    ensures none { IfOk result (λ lists. (s : ℕ) → get_or lists.items s [] ≡ []) }
{
    let mut lists = Vec::with_capacity(alloc, states)?;
    for _ in 0..states {
        lists.push(NodeIds::new(alloc))?;
    }
    Ok(lists)
}

/// Adds a node to the list of a state, where there is such a state.
pub(crate) fn add(lists: &mut Vec<NodeIds>, s: usize, id: NodeId) -> Result<(), Memory>
    ensures length { OnOk result (length lists.new.items ≡ length lists.old.items) }
    ensures added { OnOk result ((t i : ℕ) → t < length lists.old.items → IsNodeIn (get_or lists.new.items t []) i
        ↔ IsNodeIn (get_or lists.old.items t []) i ⊎ ((s ≡ t) × (id.0 ≡ i))) }
{
    if s >= lists.len() {
        return Ok(());
    }
    lists[s].push(id)?;
    Ok(())
}

/// For each of so many states the nodes of its partners.
pub(crate) fn partners_of(
    alloc: Global,
    states: usize,
    pairs: &[StatePair],
    type_places: &Places,
) -> Result<Vec<NodeIds>, Memory>
    ensures { IfOk result (λ lists. ArePartners pairs.now (place_of type_places.now) states lists.items) }
{
    let mut lists = no_partners(alloc, states)?;
    for pair in pairs {
        let id = type_places.node(pair.special.0);
        add(&mut lists, pair.general.0, id)?;
    }
    Ok(lists)
}
