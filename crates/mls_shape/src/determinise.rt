//! The deterministic form of a scheme: its states are sets of states.
ghost use Rattle.std.specs.Prelude.{IfOk};
ghost use Rattle.mls_automaton.specs.Models.{IsDeterministic};
ghost use Rattle.mls_automaton.specs.Schemes.{AreEquivalentSchemes, HaveSameBinders, IsScheme};
ghost use Rattle.mls_shape.specs.Determinised.{IsDeterminised};

use crate::edges::add_flows;
use crate::environment::numbered_env;
use crate::register::Register;
use crate::states::states_of;
use mls_automaton::automaton::Polarity;
use mls_automaton::scheme::Scheme;
use mls_automaton::state_set::{StateId, StateSet};
use mls_base::memory::Memory;
use std::alloc::Global;

/// The deterministic form of a scheme: each set that a head names has one member.
///
/// Each of its states is a set of states of the scheme, with the combined head of the members. The root and the
/// binders are the sets of their own states alone, and the other sets are those that combined heads name. Two sets
/// have an edge where two members have one. Sets may be as many as the scheme's states have subsets.
///
/// # Errors
///
/// `Memory` where memory is wanting.
pub fn determinise(alloc: Global, s: &Scheme) -> Result<Scheme, Memory>
    requires { IsScheme s.now }
    ensures form { IfOk result (IsDeterminised s.now) }
    ensures scheme { IfOk result IsScheme }
    ensures deterministic { IfOk result (λ d. IsDeterministic d.automaton) }
    ensures equivalent { IfOk result (AreEquivalentSchemes s.now) }
    ensures binders { IfOk result (HaveSameBinders s.now) }
{
    let mut register = Register::new(alloc);
    let first = StateSet::one(alloc, s.root)?;
    let root = register.number_of(alloc, Polarity::Positive, first)?;
    let env = numbered_env(&mut register, alloc, &s.env)?;
    let mut automaton = states_of(&mut register, alloc, &s.automaton)?;
    add_flows(
        &mut automaton,
        alloc,
        &s.automaton,
        register.sets.as_slice(),
    )?;
    Ok(Scheme {
        automaton,
        env,
        root: StateId(root),
    })
}
