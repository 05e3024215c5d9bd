//! Schemes taken into others.
ghost use Rattle.std.specs.Prelude.{◌≡◌, ◌↔◌, ◌⊎◌, ◌+◌, length, All, Contains, IfOk, OnOk, OnErr};
ghost use Rattle.mls_automaton.specs.declared.automaton.Polarity.TheVariants.{Positive, Negative};
ghost use Rattle.mls_automaton.specs.Automata.{HasFlow, IsState};
ghost use Rattle.mls_automaton.specs.Models.{IsClosed};
ghost use Rattle.mls_automaton.specs.Schemes.{IsScheme};
ghost use Rattle.mls_scheme.specs.Merged.{HasModelsOfBoth, IsAbsorbed, IsMerged, MeetsBinders};
ghost use Rattle.mls_scheme.specs.steps.Meeting.{AddsMet, HasBinders, HasSameFront, IsPairIn, IsPutTogether, first_of};
ghost use Rattle.mls_scheme.specs.steps.Meeting.{second_of};

use crate::environments::{Shared, meet_envs, raise_all};
use mls_automaton::automaton::{Automaton, Polarity};
use mls_automaton::combine::combine_heads;
use mls_automaton::scheme::{Env, Scheme};
use mls_automaton::state_set::{StateId, StateSet};
use mls_base::memory::Memory;
use std::alloc::Global;

// Adds the edges from a negative state to these positive ones.
pub(crate) fn add_flows(
    automaton: &mut Automaton,
    state: StateId,
    ends: &StateSet,
) -> Result<(), Memory>
    requires state { IsState automaton.old Negative state.0 }
    requires ends { All (IsState automaton.old Positive) ends.now }
    ensures states { automaton.new.states ≡ automaton.old.states }
    ensures flows { OnOk result ((s p : _) → HasFlow automaton.new s p
        ↔ HasFlow automaton.old s p ⊎ ((s ≡ state.0) × Contains ends.now p)) }
    ensures front { HasSameFront state.0 automaton.old automaton.new }
{
    for end in ends.as_slice() {
        automaton.add_flow(state, StateId(*end))?;
    }
    Ok(())
}

// Adds a negative state with the combined head and all edges of two.
fn add_state(alloc: Global, automaton: &mut Automaton, pair: Shared) -> Result<(), Memory>
    requires closed { IsClosed automaton.old }
    requires pair { IsPairIn automaton.old pair }
    ensures met { OnOk result (AddsMet pair.first.0 pair.second.0 automaton.old automaton.new) }
    ensures front { HasSameFront (length automaton.old.states) automaton.old automaton.new }
{
    let first = automaton.head(pair.first);
    let second = automaton.head(pair.second);
    let head = combine_heads(alloc, Polarity::Negative, first, second)?;
    let ends = automaton
        .partners(pair.first)
        .union(automaton.partners(pair.second))?;
    let state = automaton.state(Polarity::Negative, head)?;
    add_flows(automaton, state, &ends)?;
    Ok(())
}

// Adds such a state for each pair.
fn add_states(alloc: Global, automaton: &mut Automaton, shared: &[Shared]) -> Result<(), Memory>
    requires closed { IsClosed automaton.old }
    requires pairs { All (IsPairIn automaton.old) shared.now }
    ensures merged { OnOk result (IsMerged (first_of (length automaton.old.states) shared.now)
        (second_of (length automaton.old.states) shared.now) automaton.old automaton.new) }
    ensures many { OnOk result (length automaton.new.states ≡ length automaton.old.states + length shared.now) }
    ensures closed { OnOk result (IsClosed automaton.new) }
    ensures front { HasSameFront (length automaton.old.states) automaton.old automaton.new }
{
    for pair in shared {
        add_state(alloc, automaton, *pair)?;
    }
    Ok(())
}

// Appends the automaton of a scheme, and puts its environment together with this one. Answers the environment and the
// place of the root.
fn put_together(
    automaton: &mut Automaton,
    env: &Env,
    from: &Scheme,
) -> Result<(Env, StateId), Memory>
    requires closed { IsClosed automaton.old }
    requires env { HasBinders automaton.old env.now }
    requires from { IsScheme from.now }
    ensures together { IfOk result (λ both.
        IsPutTogether automaton.old automaton.new env.now from.now both.0 both.1.0) }
    ensures front { HasSameFront (length automaton.old.states) automaton.old automaton.new }
{
    let alloc = env.allocator();
    let up = automaton.append(&from.automaton)?;
    let place = up.checked_add(from.root.0).ok_or(Memory)?;
    let raised = raise_all(alloc, &from.env, up)?;
    let met = meet_envs(alloc, env, &raised, automaton.len())?;
    add_states(alloc, automaton, met.shared.as_slice())?;
    Ok((met.env, StateId(place)))
}

/// Takes a scheme into another one, and answers the place of its root: its automaton is appended, and the environments
/// are put together. A binder of both gets a new negative state with the combined head and all edges of its two states.
/// The root of `into` stays.
///
/// It takes time linear in `from`, the two environments and the edges at states of binders of both.
///
/// # Errors
///
/// `Memory` where memory is wanting; `into` is then as before.
pub fn absorb(into: &mut Scheme, from: &Scheme) -> Result<StateId, Memory>
    requires into { IsScheme into.old }
    requires from { IsScheme from.now }
    ensures absorbed { IfOk result (λ place. IsAbsorbed into.new into.old from.now place.0) }
    ensures scheme { OnOk result (IsScheme into.new) }
    ensures meets { OnOk result (MeetsBinders into.new into.old from.now) }
    ensures models { OnOk result (HasModelsOfBoth into.new into.old from.now) }
    ensures err { OnErr result (into.new ≡ into.old) }
{
    let states = into.automaton.len();
    match put_together(&mut into.automaton, &into.env, from) {
        Ok((env, place)) => {
            into.env = env;
            Ok(place)
        }
        Err(e) => {
            into.automaton.truncate(states);
            Err(e)
        }
    }
}
