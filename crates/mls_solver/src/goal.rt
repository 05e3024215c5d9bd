//! Goals, and the clashes that leave them without a solution.
ghost use Rattle.std.specs.Prelude.{◌↔◌, All, IsTrue};
ghost use Rattle.mls_automaton.specs.Automata.{IsState};

pub use mls_automaton::automaton::HeadKind;
use mls_automaton::automaton::{Automaton, Polarity};
use mls_automaton::state_set::StateId;

/// A demand: the positive state is below the negative one.
#[derive(Clone, Copy, Debug, PartialEq, Eq)]
pub struct Goal {
    pub positive: StateId,
    pub negative: StateId,
}

/// Why no type is below the head of a negative state and above the head of a positive one.
#[derive(Clone, Copy, Debug, PartialEq, Eq)]
pub enum ClashKind {
    /// The positive state has the one part, the negative state the other.
    Unlike(HeadKind, HeadKind),
    /// Both have a record, and the negative state's field of this number is not in the positive one's.
    Lacks(usize),
}

/// A pair of related states that clashes.
#[derive(Clone, Copy, Debug, PartialEq, Eq)]
pub struct Clash {
    pub positive: StateId,
    pub negative: StateId,
    pub kind: ClashKind,
}

/// Why a table has no solution of its goals.
#[derive(Clone, Copy, Debug, PartialEq, Eq)]
pub enum Refusal {
    /// A related pair clashes.
    Clashing(Clash),
    /// Memory was wanting.
    NoMemory,
}

/// Whether each goal goes from a positive state of the automaton to a negative one.
pub fn are_goals(a: &Automaton, goals: &[Goal]) -> bool
    ensures { IsTrue result ↔ All (λ g. IsState a.now Polarity.Positive g.positive.0
        × IsState a.now Polarity.Negative g.negative.0) goals.now }
{
    goals.iter().all(|goal| {
        is_state(a, goal.positive, Polarity::Positive)
            && is_state(a, goal.negative, Polarity::Negative)
    })
}

/// Whether the state is there and has the polarity.
pub fn is_state(a: &Automaton, s: StateId, polarity: Polarity) -> bool
    ensures { IsTrue result ↔ IsState a.now polarity s.0 }
{
    s.0 < a.len() && a.polarity(s) == polarity
}
