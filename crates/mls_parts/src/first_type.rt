//! The type of the first part of a let.
ghost use Rattle.std.specs.Prelude.{◌≡◌, ◌<◌, ◌++◌, ◌∷◌, [], All, IfOk, OnOk, IsTrue};
ghost use Rattle.mls_automaton.specs.declared.automaton.Polarity.{Polarity};
ghost use Rattle.mls_automaton.specs.declared.automaton.Polarity.TheVariants.{Negative, Positive};
ghost use Rattle.mls_automaton.specs.declared.scheme.EnvEntry.{EnvEntry};
ghost use Rattle.mls_automaton.specs.Automata.{IsState};
ghost use Rattle.mls_automaton.specs.Environments.{BindersRise};
ghost use Rattle.mls_automaton.specs.Models.{IsClosed, IsDeterministic};
ghost use Rattle.mls_automaton.specs.Schemes.{IsScheme};
ghost use Rattle.mls_subsume.specs.Verdicts.{DoesSubsume};
ghost use Rattle.mls_parts.specs.MetCopies.{AreSeparate};
ghost use Rattle.mls_parts.specs.SolvedTypes.{HasBindersOf, entries_of, solved_scheme};
ghost use Rattle.mls_parts.specs.steps.Twins.{AddsEdgesTo, AddsTwin, IsWider};

use crate::posable::is_scheme;
use mls_automaton::automaton::{Automaton, Polarity};
use mls_automaton::combine::copied_head;
use mls_automaton::scheme::{Env, EnvEntry, Scheme};
use mls_automaton::state_set::{StateId, StateSet};
use mls_base::memory::Memory;
use mls_shape::simplify::simplify;
use std::alloc::Global;

// Whether a binder is higher than all of these, which rise.
fn is_next(env: &[EnvEntry], binder: usize) -> bool
    requires { BindersRise env.now }
    ensures { IsTrue result → All (λ (other : EnvEntry). other.binder < binder) env.now }
{
    env.is_empty() || env[env.len() - 1].binder < binder
}

// Adds a binder, which is to be higher than those that are there.
fn push_binder(env: &mut Env, binder: usize, state: StateId) -> Result<(), Memory>
    ensures { OnOk result (env.new ≡ env.old ++ record { binder = binder; state = state } ∷ []) }
{
    if !is_next(env.as_slice(), binder) {
        return Err(Memory);
    }
    env.push(EnvEntry { binder, state })?;
    Ok(())
}

// The environment of binders with their states. Their numbers are to rise.
fn env_of(alloc: Global, binders: &[(usize, usize)]) -> Result<Env, Memory>
    ensures { IfOk result (λ env. env ≡ entries_of binders.now) }
{
    let mut env = Env::new(alloc);
    for binder in binders {
        push_binder(&mut env, binder.0, StateId(binder.1))?;
    }
    Ok(env)
}

// Adds an edge from a state to each of these, all of which are to be there.
fn push_edges(automaton: &mut Automaton, from: StateId, ends: &[usize]) -> Result<(), Memory>
    requires closed { IsClosed automaton.old }
    requires from { IsState automaton.old Negative from.0 }
    requires ends { All (IsState automaton.old Positive) ends.now }
    ensures wider { OnOk result (IsWider automaton.old automaton.new) }
    ensures adds { OnOk result (AddsEdgesTo automaton.old automaton.new from.0 ends.now) }
{
    for end in ends {
        automaton.add_flow(from, StateId(*end))?;
    }
    Ok(())
}

// The same set once more.
fn copied_set(set: &StateSet) -> Result<StateSet, Memory>
    ensures { IfOk result (λ copy. copy ≡ set.now) }
{
    let copy = set.clone()?;
    Ok(copy)
}

// Adds a state with the head and the edges of this one.
fn push_twin(automaton: &mut Automaton, state: StateId) -> Result<StateId, Memory>
    requires closed { IsClosed automaton.old }
    requires state { IsState automaton.old Negative state.0 }
    ensures wider { OnOk result (IsWider automaton.old automaton.new) }
    ensures twin { IfOk result (λ twin. IsState automaton.new Negative twin.0) }
    ensures adds { IfOk result (λ twin. AddsTwin automaton.old automaton.new state.0 twin.0) }
{
    let head = copied_head(automaton.head(state))?;
    let ends = copied_set(automaton.partners(state))?;
    let twin = automaton.state(Polarity::Negative, head)?;
    push_edges(automaton, twin, ends.as_slice())?;
    Ok(twin)
}

// The same type, where each binder has a state of its own behind those that are there.
fn with_own_states(alloc: Global, scheme: Scheme) -> Result<Scheme, Memory>
    requires { IsScheme scheme }
    ensures scheme { IfOk result IsScheme }
    ensures separate { IfOk result AreSeparate }
    ensures binders { IfOk result (λ own. HasBindersOf own scheme) }
    ensures all { IfOk result (HasBindersOf scheme) }
    ensures deterministic { IfOk result (λ own. IsDeterministic scheme.automaton → IsDeterministic own.automaton) }
    ensures subsumes { IfOk result (λ own. DoesSubsume own scheme) }
    ensures subsumed { IfOk result (DoesSubsume scheme) }
{
    let mut automaton = scheme.automaton;
    let mut env = Env::new(alloc);
    for entry in scheme.env.as_slice() {
        let twin = push_twin(&mut automaton, entry.state)?;
        push_binder(&mut env, entry.binder, twin)?;
    }
    Ok(Scheme {
        automaton,
        env,
        root: scheme.root,
    })
}

/// The type of the first part of a let: the simplified scheme of this root and these binders over a solved automaton,
/// in which each binder has a state of its own that no head names: a twin behind all others of its state, with the same
/// head and the same edges. It is deterministic, has these binders and no others, and subsumes what the solved automaton
/// gives this root and these binders, as that subsumes it.
///
/// # Errors
///
/// `Memory` where memory is wanting, or where this is no scheme: the automaton is not closed, the root is not positive,
/// a binder's state is not negative, or the numbers of binders do not rise.
pub fn first_type_of(
    alloc: Global,
    solved: &Automaton,
    root: usize,
    binders: &[(usize, usize)],
) -> Result<Scheme, Memory>
    ensures scheme { IfOk result IsScheme }
    ensures separate { IfOk result AreSeparate }
    ensures deterministic { IfOk result (λ s. IsDeterministic s.automaton) }
    ensures binders { IfOk result (λ s. HasBindersOf s (solved_scheme solved.now root binders.now)) }
    ensures all { IfOk result (HasBindersOf (solved_scheme solved.now root binders.now)) }
    ensures subsumes { IfOk result (λ s. DoesSubsume s (solved_scheme solved.now root binders.now)) }
    ensures subsumed { IfOk result (DoesSubsume (solved_scheme solved.now root binders.now)) }
{
    let scheme = Scheme {
        automaton: solved.copy()?,
        env: env_of(alloc, binders)?,
        root: StateId(root),
    };
    if !is_scheme(&scheme) {
        return Err(Memory);
    }
    let simple = simplify(alloc, &scheme)?;
    let own = with_own_states(alloc, simple)?;
    Ok(own)
}
