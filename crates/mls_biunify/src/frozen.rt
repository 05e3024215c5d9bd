//! The scheme of the states of a table that heads reach from a root and binders.
ghost use Rattle.std.specs.Prelude.{◌≡◌, ◌↔◌, ◌⊎◌, ℕ, ◌<◌, true, false, [], ◌∷◌, map, length, get_or, All, Contains};
ghost use Rattle.std.specs.Prelude.{IfOk, OnOk};
ghost use Rattle.mls_automaton.specs.declared.automaton.Polarity.TheVariants.{Positive, Negative};
ghost use Rattle.mls_automaton.specs.declared.scheme.EnvEntry.{EnvEntry};
ghost use Rattle.mls_automaton.specs.Automata.{HasFlow, head_at, state_at};
ghost use Rattle.mls_automaton.specs.Embeddings.{renamed_state};
ghost use Rattle.mls_automaton.specs.Environments.{BindersRise};
ghost use Rattle.mls_automaton.specs.Reached.{KeepsReached};
ghost use Rattle.mls_automaton.specs.Schemes.{IsScheme};
ghost use Rattle.mls_automaton.specs.Sets.{Rises};
ghost use Rattle.mls_automaton.specs.steps.Keeping.{renamed_entry};
ghost use Rattle.mls_automaton.specs.steps.Numbers.{KeepsOrderInHead};
ghost use Rattle.mls_solver.specs.Solutions.{scheme_over};
ghost use Rattle.mls_biunify.specs.Live.{IsStateIn};
ghost use Rattle.mls_biunify.specs.steps.Placing.{HasPlaces, IsFlowTo, IsPlacedFlow, MayPlace, PlacesFlows};
ghost use Rattle.mls_biunify.specs.steps.Renaming.{place_among};

use crate::reach::reached;
use crate::rename::{Numbers, place_in, rename_head};
use crate::table::Table;
use mls_automaton::automaton::Automaton;
use mls_automaton::scheme::{Env, EnvEntry, Scheme};
use mls_automaton::state_set::StateId;
use mls_base::memory::Memory;
use std::alloc::Global;
use std::collections::BTreeSet;

// The scheme of the states that heads reach from the root and the binders, in the order of their numbers. It goes over
// these states alone.
pub fn frozen(
    alloc: Global,
    table: &Table,
    root: StateId,
    env: &[EnvEntry],
) -> Result<Scheme, Memory>
    requires root { IsStateIn table.now.automaton table.now.there Positive root.0 }
    requires env { All (λ (entry : EnvEntry). IsStateIn table.now.automaton table.now.there Negative
        entry.state.0) env.now }
    requires binders { BindersRise env.now }
    ensures kept { IfOk result (λ scheme. KeepsReached scheme (scheme_over table.now.automaton root.0 env.now)) }
    ensures scheme { IfOk result IsScheme }
{
    let _limit = table.limit();
    let roots = roots_of(alloc, root, env)?;
    let found = reached(alloc, table, roots.as_slice())?;
    let _count = found.len();
    let list = listed(alloc, &found)?;
    let numbers = list.as_slice();
    let mut automaton = placed_states(alloc, table, numbers)?;
    place_flows(&mut automaton, table, numbers)?;
    let env = placed_env(alloc, env, numbers)?;
    let place = place_in(numbers, root.0);
    Ok(Scheme {
        automaton,
        env,
        root: StateId(place),
    })
}

// The root, and the states of the binders.
fn roots_of(alloc: Global, root: StateId, env: &[EnvEntry]) -> Result<Vec<StateId>, Memory>
    ensures { IfOk result (λ roots. roots.items ≡ root ∷ map (λ (entry : EnvEntry). entry.state) env.now) }
{
    let mut roots = Vec::new(alloc);
    roots.push(root)?;
    for entry in env {
        roots.push(entry.state)?;
    }
    Ok(roots)
}

// The states of these numbers, each under its place among them.
fn placed_states(alloc: Global, table: &Table, numbers: &[usize]) -> Result<Automaton, Memory>
    requires there { All (λ s. get_or table.now.there s false ≡ true) numbers.now }
    requires rises { Rises numbers.now }
    requires order { All (λ s. KeepsOrderInHead (place_among numbers.now) (head_at table.now.automaton s)) numbers.now }
    ensures states { IfOk result (λ b. b.states
        ≡ map (λ s. renamed_state (place_among numbers.now) (state_at table.now.automaton s)) numbers.now) }
    ensures flows { IfOk result (λ b. b.flows ≡ []) }
{
    let mut states = Automaton::with_room(alloc, numbers.len())?;
    for s in numbers {
        let head = table.head(StateId(*s));
        let renamed = rename_head(alloc, head, &Numbers::PlaceIn(numbers))?;
        states.state(table.polarity(StateId(*s)), renamed)?;
    }
    Ok(states)
}

// Adds the edges between the states of these numbers.
fn place_flows(into: &mut Automaton, table: &Table, numbers: &[usize]) -> Result<(), Memory>
    requires there { All (λ s. get_or table.now.there s false ≡ true) numbers.now }
    requires rises { Rises numbers.now }
    requires places { HasPlaces table.now numbers.now into.old }
    requires none { into.old.flows ≡ [] }
    ensures states { OnOk result (into.new.states ≡ into.old.states) }
    ensures flows { OnOk result ((n p : ℕ) → HasFlow into.new n p ↔ IsPlacedFlow table.now numbers.now n p) }
{
    for place in 0..numbers.len() {
        place_flows_at(into, table, numbers, place)?;
    }
    Ok(())
}

// Adds the edges from the state of this place.
fn place_flows_at(
    into: &mut Automaton,
    table: &Table,
    numbers: &[usize],
    place: usize,
) -> Result<(), Memory>
    requires there { All (λ s. get_or table.now.there s false ≡ true) numbers.now }
    requires rises { Rises numbers.now }
    requires places { HasPlaces table.now numbers.now into.old }
    requires low { place < length numbers.now }
    ensures { OnOk result (PlacesFlows table.now numbers.now place into.old into.new) }
{
    for target in table.after(StateId(numbers[place])).as_slice() {
        place_flow(into, numbers, place, *target)?;
    }
    Ok(())
}

// Adds the edge from the state of a place to one, if that has a place too.
fn place_flow(
    into: &mut Automaton,
    numbers: &[usize],
    place: usize,
    target: usize,
) -> Result<(), Memory>
    requires rises { Rises numbers.now }
    requires ends { MayPlace numbers.now into.old place target }
    ensures states { OnOk result (into.new.states ≡ into.old.states) }
    ensures flows { OnOk result ((x : ℕ × ℕ) → HasFlow into.new x.0 x.1
        ↔ (HasFlow into.old x.0 x.1 ⊎ IsFlowTo numbers.now place target x)) }
{
    match numbers.binary_search(&target) {
        Ok(other) => {
            into.add_flow(StateId(place), StateId(other))?;
            Ok(())
        }
        Err(_) => Ok(()),
    }
}

// The binders, with the places of their states.
fn placed_env(alloc: Global, env: &[EnvEntry], numbers: &[usize]) -> Result<Env, Memory>
    requires binders { BindersRise env.now }
    requires rises { Rises numbers.now }
    ensures { IfOk result (λ placed. placed ≡ map (renamed_entry (place_among numbers.now)) env.now) }
{
    let mut placed = Env::new(alloc);
    for entry in env {
        let place = place_in(numbers, entry.state.0);
        placed.push(EnvEntry {
            binder: entry.binder,
            state: StateId(place),
        })?;
    }
    Ok(placed)
}

// The members of a set in order.
fn listed(alloc: Global, set: &BTreeSet<usize>) -> Result<Vec<usize>, Memory>
    ensures { IfOk result (λ list. list.items ≡ set.now.keys) }
{
    let mut list = Vec::new(alloc);
    for number in set {
        list.push(*number)?;
    }
    Ok(list)
}
