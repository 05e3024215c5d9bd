//! The nodes that are known before the trees of a part.
ghost use Rattle.std.specs.Prelude.{◌≡◌, length, IfOk};
ghost use Rattle.mls_layout.specs.LaidOut.{place_of};
ghost use Rattle.mls_layout.specs.steps.Sources.{AreParted, ArePartners, parts_in, partners_in};

use crate::layout::Places;
use crate::layout::leaves::Leaves;
use crate::layout::partners::partners_of;
use crate::layout::parts::parts_of;
use crate::tree::NodeIds;
use mls_automaton::automaton::Automaton;
use mls_base::list::List;
use mls_base::memory::Memory;
use mls_book::book::NodeId;
use mls_subsume::verdict::StatePair;
use std::alloc::Global;

/// For each state the nodes of the parts of its head, and those of its partners in the type; the node of nothing; and
/// the number of the first node behind these.
#[derive(Drop)]
pub(crate) struct Sources {
    pub(crate) parts: List<NodeIds>,
    pub(crate) partners: Vec<NodeIds>,
    pub(crate) nothing: NodeId,
    pub(crate) end: usize,
}

impl Sources {
    /// The nodes of the parts of the head of a state.
    pub(crate) fn parts(&self, s: usize) -> &[NodeId]
        ensures { result.now ≡ parts_in self.now s }
    {
        match self.parts.as_slice().get(s) {
            Some(ids) => ids.as_slice(),
            None => &[],
        }
    }

    /// The nodes of the partners of a state.
    pub(crate) fn partners(&self, s: usize) -> &[NodeId]
        ensures { result.now ≡ partners_in self.now s }
    {
        match self.partners.get(s) {
            Some(ids) => ids.as_slice(),
            None => &[],
        }
    }
}

/// The known nodes. Functions and records get the numbers from `start` on.
pub(crate) fn sources_of(
    alloc: Global,
    a: &Automaton,
    leaves: Leaves,
    pairs: &[StatePair],
    type_places: &Places,
    start: usize,
) -> Result<Sources, Memory>
    ensures parts { IfOk result (λ known. AreParted a.now leaves start (length a.now.states) known.end known.parts) }
    ensures partners { IfOk result (λ known. ArePartners pairs.now (place_of type_places.now) (length a.now.states)
        known.partners.items) }
    ensures nothing { IfOk result (λ known. known.nothing ≡ leaves.nothing) }
{
    let parts = parts_of(alloc, a, leaves, start)?;
    let partners = partners_of(alloc, a.len(), pairs, type_places)?;
    Ok(Sources {
        parts: parts.nodes,
        partners,
        nothing: leaves.nothing,
        end: parts.end,
    })
}
