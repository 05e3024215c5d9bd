//! One state for each class of alike states.
ghost use Rattle.std.specs.Prelude.{IfOk};
ghost use Rattle.mls_automaton.specs.Models.{IsDeterministic};
ghost use Rattle.mls_automaton.specs.Schemes.{AreEquivalentSchemes, HaveSameBinders, IsScheme};
ghost use Rattle.mls_shape.specs.Alike.{HasNoneAlike};
ghost use Rattle.mls_shape.specs.Minimised.{IsMinimised};

use crate::classed::{add_class_flows, classed_env, classed_states};
use crate::classes::{class_of, classes_of};
use mls_automaton::scheme::Scheme;
use mls_automaton::state_set::StateId;
use mls_base::memory::Memory;
use std::alloc::Global;

/// The scheme with one state for each class of alike states. No two of its states are alike.
///
/// # Errors
///
/// `Memory` where memory is wanting.
pub fn minimise(alloc: Global, s: &Scheme) -> Result<Scheme, Memory>
    requires scheme { IsScheme s.now }
    requires deterministic { IsDeterministic s.now.automaton }
    ensures form { IfOk result (IsMinimised s.now) }
    ensures scheme { IfOk result IsScheme }
    ensures deterministic { IfOk result (λ m. IsDeterministic m.automaton) }
    ensures distinct { IfOk result (λ m. HasNoneAlike m.automaton) }
    ensures equivalent { IfOk result (AreEquivalentSchemes s.now) }
    ensures binders { IfOk result (HaveSameBinders s.now) }
{
    let classes = classes_of(alloc, &s.automaton)?;
    let mut automaton = classed_states(alloc, &s.automaton, &classes)?;
    let numbers = classes.numbers.as_slice();
    add_class_flows(&mut automaton, numbers, s.automaton.flows())?;
    let env = classed_env(alloc, &s.env, numbers)?;
    let root = class_of(numbers, s.root.0);
    Ok(Scheme {
        automaton,
        env,
        root: StateId(root),
    })
}
