//! The states of a part in the table that the parts of a term share.

ghost use Rattle.std.specs.Prelude.{◌≡◌, ◌↔◌, ◌⊎◌, ◌∷◌, ◌++◌, ℕ, [], Contains, IfOk, OnOk};
ghost use Rattle.mls_automaton.specs.declared.automaton.Polarity.TheVariants.{Positive, Negative};
ghost use Rattle.mls_automaton.specs.Automata.{empty_head};
ghost use Rattle.mls_automaton.specs.Models.{HasRisingLabels, HasStatesIn};
ghost use Rattle.mls_biunify.specs.Live.{IsLiveState};
ghost use Rattle.mls_infer.specs.Constraints.{negative, positive};
ghost use Rattle.mls_infer.specs.Pending.{Grows, states_in};

use mls_automaton::automaton::{Head, Polarity};
use mls_automaton::state_set::StateId;
use mls_base::memory::Memory;
use mls_biunify::live::Live;
use std::alloc::Global;

/// What is known of the size of a part, in states and in fields of their heads.
#[derive(Clone, Copy)]
pub(crate) struct Size {
    /// How large it was when it was last gone through.
    kept: usize,
    /// The same, with what was added since then and is reached.
    reached: usize,
    /// How large it is now, with the states that are not reached.
    total: usize,
}

impl Size {
    /// Of a part that was never gone through.
    pub(crate) fn fresh(total: usize) -> Size {
        Size {
            kept: 0,
            reached: 0,
            total,
        }
    }

    /// Of a part of which everything is reached.
    pub(crate) fn kept(total: usize) -> Size {
        Size {
            kept: total,
            reached: total,
            total,
        }
    }

    // Of two side by side.
    fn plus(self, other: Size) -> Size {
        Size {
            kept: self.kept.saturating_add(other.kept),
            reached: self.reached.saturating_add(other.reached),
            total: self.total.saturating_add(other.total),
        }
    }

    /// With further states or fields.
    pub(crate) fn with(self, more: usize) -> Size {
        Size {
            total: self.total.saturating_add(more),
            ..self
        }
    }

    /// Where so many of the last states and fields are reached.
    pub(crate) fn reaching(self, more: usize) -> Size {
        Size {
            reached: self.reached.saturating_add(more),
            ..self
        }
    }

    /// Whether there is more than twice as much as when it was last gone through. So all walks together cost what was
    /// added.
    pub(crate) fn is_due(self) -> bool {
        self.total / 2 > self.kept.saturating_add(16)
    }

    /// Whether there is more than one and a half times as much as is known to be reached: asked of a part that waits
    /// beside many others, where even a few states are worth a walk.
    pub(crate) fn is_loose(self) -> bool {
        self.total > self.reached.saturating_add(self.reached / 2)
    }
}

/// States of the table which heads and edges do not leave.
#[derive(Drop)]
pub(crate) struct Region {
    pub(crate) states: Vec<StateId>,
    pub(crate) size: Size,
}

impl Region {
    /// No state.
    pub(crate) fn new(alloc: Global) -> Region
        ensures { states_in result ≡ [] }
    {
        Region {
            states: Vec::new(alloc),
            size: Size::fresh(0),
        }
    }

    /// Adds a state, whose head names states of the region.
    ///
    /// # Errors
    ///
    /// `Memory` where memory is wanting.
    pub(crate) fn add(
        &mut self,
        live: &mut Live,
        polarity: Polarity,
        head: Head,
    ) -> Result<StateId, Memory>
        requires states { HasStatesIn (IsLiveState live.old) polarity head }
        requires labels { HasRisingLabels head.fields }
        ensures grows { IfOk result (λ id. Grows live.old live.new
            ((id.0, record { polarity = polarity; head = head }) ∷ []) []) }
        ensures states { IfOk result (λ id. states_in self.new ≡ states_in self.old ++ id.0 ∷ []) }
    {
        let _before = live.ready();
        let state = live.insert(polarity, head)?;
        let _after = live.ready();
        self.states.push(state)?;
        self.size = self.size.with(1);
        Ok(state)
    }

    /// Adds a negative state and a positive one to which it flows.
    ///
    /// # Errors
    ///
    /// `Memory` where memory is wanting.
    pub(crate) fn add_passage(&mut self, live: &mut Live) -> Result<(StateId, StateId), Memory>
        ensures grows { IfOk result (λ ends. Grows live.old live.new
            ((ends.0.0, negative empty_head) ∷ (ends.1.0, positive empty_head) ∷ [])
            ((ends.0.0, ends.1.0) ∷ [])) }
        ensures states { IfOk result (λ ends. states_in self.new ≡ states_in self.old ++ ends.0.0 ∷ ends.1.0 ∷ []) }
    {
        let negative = self.add(live, Polarity::Negative, Head::empty())?;
        let positive = self.add(live, Polarity::Positive, Head::empty())?;
        live.edge(negative, positive)?;
        let _linked = live.ready();
        Ok((negative, positive))
    }

    /// The states of both. The shorter list is copied.
    ///
    /// # Errors
    ///
    /// `Memory` where memory is wanting.
    pub(crate) fn with(self, other: Region) -> Result<Region, Memory>
        ensures { IfOk result (λ both. (s : ℕ)
            → Contains (states_in both) s ↔ Contains (states_in self) s ⊎ Contains (states_in other) s) }
    {
        let size = self.size.plus(other.size);
        if self.states.len() < other.states.len() {
            let states = with_all(other.states, self.states.as_slice())?;
            return Ok(Region { states, size });
        }
        let all = with_all(self.states, other.states.as_slice())?;
        Ok(Region { states: all, size })
    }
}

// The states, with these behind them.
fn with_all(states: Vec<StateId>, more: &[StateId]) -> Result<Vec<StateId>, Memory>
    ensures { IfOk result (λ all. all.items ≡ states.items ++ more.now) }
{
    let mut all = states;
    all.extend_from_slice(more)?;
    Ok(all)
}
