//! A scheme over the states alone that heads reach.
ghost use Rattle.std.specs.Prelude.{◌≡◌, ◌<◌, List, ℕ, false, [], length, map, get_or, All, IfOk, OnOk};
ghost use Rattle.mls_automaton.specs.declared.automaton.State.{State};
ghost use Rattle.mls_automaton.specs.declared.automaton.Flow.{Flow};
ghost use Rattle.mls_automaton.specs.Automata.{HasTrueFlows, IsState, state_at};
ghost use Rattle.mls_automaton.specs.Embeddings.{renamed_state};
ghost use Rattle.mls_automaton.specs.Environments.{BindersRise};
ghost use Rattle.mls_automaton.specs.steps.Keeping.{AddsFlowOf, AreKept, HasFlowsOf, HasKeptEnds, IsKeptState};
ghost use Rattle.mls_automaton.specs.steps.Keeping.{renamed_entry};
ghost use Rattle.mls_automaton.specs.steps.Numbers.{KeepsOrderInHead, number_in};

use crate::automaton::{Automaton, Flow};
use crate::renumber::{Numbers, renumber_head};
use crate::scheme::{Env, EnvEntry};
use crate::state_set::StateId;
use mls_base::memory::Memory;
use std::alloc::Global;

// The marked numbers in order, and the place of each among them.
#[derive(Drop)]
pub struct Kept {
    pub places: Vec<usize>,
    pub numbers: Numbers,
}

// Numbers the marked ones.
pub fn keep(alloc: Global, marks: &[bool]) -> Result<Kept, Memory>
    ensures { IfOk result (λ kept. AreKept marks.now kept.places.items (number_in kept.numbers)) }
{
    let mut places = Vec::new(alloc);
    let mut numbers = Vec::new(alloc);
    for s in 0..marks.len() {
        numbers.push(places.len())?;
        if marks[s] {
            places.push(s)?;
        }
    }
    Ok(Kept {
        places,
        numbers: Numbers::Listed(numbers),
    })
}

// The states at these places, with the new numbers.
pub fn keep_states(alloc: Global, a: &Automaton, kept: &Kept) -> Result<Automaton, Memory>
    requires { All (IsKeptState a.now (number_in kept.now.numbers)) kept.now.places.items }
    ensures states { IfOk result (λ b. b.states
        ≡ map (λ s. renamed_state (number_in kept.now.numbers) (state_at a.now s)) kept.now.places.items) }
    ensures flows { IfOk result (λ b. b.flows ≡ []) }
{
    let mut states = Automaton::new(alloc);
    for s in kept.places.as_slice() {
        let head = renumber_head(alloc, a.head(StateId(*s)), &kept.numbers)?;
        states.state(a.polarity(StateId(*s)), head)?;
    }
    Ok(states)
}

// Adds the edges between marked states, with the new numbers.
pub fn keep_flows(
    into: &mut Automaton,
    flows: &[Flow],
    marks: &[bool],
    numbers: &Numbers,
) -> Result<(), Memory>
    requires ends { All (HasKeptEnds marks.now (number_in numbers.now) into.old) flows.now }
    requires none { into.old.flows ≡ [] }
    ensures flows { OnOk result (HasFlowsOf marks.now (number_in numbers.now) flows.now into.new) }
    ensures states { OnOk result (into.new.states ≡ into.old.states) }
{
    for flow in flows {
        keep_flow(into, *flow, marks, numbers)?;
    }
    Ok(())
}

// Adds one edge, if it goes between marked states.
fn keep_flow(
    into: &mut Automaton,
    flow: Flow,
    marks: &[bool],
    numbers: &Numbers,
) -> Result<(), Memory>
    requires { HasKeptEnds marks.now (number_in numbers.now) into.old flow }
    ensures flows { OnOk result (AddsFlowOf marks.now (number_in numbers.now) flow into.old into.new) }
    ensures states { OnOk result (into.new.states ≡ into.old.states) }
{
    if !marks[flow.negative.0] {
        return Ok(());
    }
    if !marks[flow.positive.0] {
        return Ok(());
    }
    let negative = numbers.of(flow.negative.0)?;
    let positive = numbers.of(flow.positive.0)?;
    into.add_flow(StateId(negative), StateId(positive))?;
    Ok(())
}

// The binders, with the new numbers of their states.
pub fn keep_env(alloc: Global, env: &Env, numbers: &Numbers) -> Result<Env, Memory>
    ensures { IfOk result (λ kept. kept ≡ map (renamed_entry (number_in numbers.now)) env.now) }
{
    let mut kept = Env::new(alloc);
    for entry in env.as_slice() {
        let number = numbers.of(entry.state.0)?;
        kept.push(EnvEntry {
            binder: entry.binder,
            state: StateId(number),
        })?;
    }
    Ok(kept)
}
