//! Constraints between types.
ghost use Rattle.std.specs.Prelude.{◌≡◌, [], IfOk, OnOk};

use mls_automaton::automaton::Automaton;
use mls_automaton::scheme::EnvEntry;
use mls_automaton::state_set::StateId;
use mls_base::list::List;
use mls_biunify::goal::Goal;

/// A scheme over an automaton, in which a binder may have several states.
#[derive(Drop)]
pub struct Open {
    pub automaton: Automaton,
    pub env: List<EnvEntry>,
    pub root: StateId,
}

/// A scheme over an automaton, in which a binder may have several states, and goals between states.
#[derive(Drop)]
pub struct Constraints {
    pub automaton: Automaton,
    pub env: List<EnvEntry>,
    pub root: StateId,
    pub goals: List<Goal>,
}
