//! Parts of a term that wait for the node above them.

ghost use Rattle.std.specs.Prelude.{◌≡◌, ◌≢◌, ◌↔◌, ◌⊎◌, ℕ, ◌<◌, All, map, length, Contains, IfOk, IsTrue, OnOk};
ghost use Rattle.mls_automaton.specs.declared.scheme.EnvEntry.{EnvEntry};
ghost use Rattle.mls_automaton.specs.declared.state_set.StateId.{StateId};
ghost use Rattle.mls_automaton.specs.Automata.{HasFlow};
ghost use Rattle.mls_automaton.specs.Environments.{BindersRise};
ghost use Rattle.mls_biunify.specs.Live.{IsThere, number_of};
ghost use Rattle.mls_infer.specs.Constraints.{HasStates, renamed_entry, states_of, without};
ghost use Rattle.mls_infer.specs.Merges.{HasSameMembers};
ghost use Rattle.mls_infer.specs.Pending.{IsCopied, part_in};

use crate::region::{Region, Size};
use mls_automaton::scheme::{EnvEntry, Scheme};
use mls_automaton::state_set::{StateId, StateSet};
use mls_base::list::List;
use mls_base::memory::Memory;
use mls_biunify::live::Live;
use std::alloc::Global;

/// A part in the table: its states, and among them its root and for each binder that it needs some states.
#[derive(Drop)]
pub(crate) struct Pending {
    pub(crate) region: Region,
    pub(crate) env: List<EnvEntry>,
    pub(crate) root: StateId,
}

/// A copy of a scheme as a part.
///
/// # Errors
///
/// `Memory` where memory is wanting.
pub(crate) fn copied(alloc: Global, live: &mut Live, scheme: &Scheme) -> Result<Pending, Memory>
    requires { HasStates scheme.now }
    ensures copied { IfOk result (λ part. IsCopied scheme.now live.old live.new (part_in part)) }
    ensures rise { IfOk result (λ part. BindersRise scheme.now.env → BindersRise part.env) }
    ensures edges { IfOk result (λ part. (n : ℕ) → HasFlow live.new.table n part.root.0
        → (i : ℕ) × HasFlow scheme.now.automaton i scheme.now.root.0) }
{
    let _before = live.ready();
    let numbers = live.absorb(&scheme.automaton)?;
    let _after = live.ready();
    let mut states = Vec::with_capacity(alloc, numbers.len())?;
    for s in numbers.as_slice() {
        states.push(StateId(*s))?;
    }
    let env = renumbered(alloc, scheme.env.as_slice(), &numbers)?;
    let root = numbers.get(scheme.root.0);
    let size = Size::fresh(weight(live, states.as_slice()));
    Ok(Pending {
        region: Region { states, size },
        env,
        root,
    })
}

// The entries, with the new numbers of their states.
fn renumbered(alloc: Global, env: &[EnvEntry], numbers: &StateSet) -> Result<List<EnvEntry>, Memory>
    requires { All (λ (entry : EnvEntry). entry.state.0 < length numbers.now) env.now }
    ensures { IfOk result (λ entries. entries ≡ map (renamed_entry (number_of numbers.now)) env.now) }
{
    let mut entries = List::new(alloc);
    for entry in env {
        entries.push(EnvEntry {
            binder: entry.binder,
            state: numbers.get(entry.state.0),
        })?;
    }
    Ok(entries)
}

/// How many states these are, and fields of their heads.
pub(crate) fn weight(live: &Live, states: &[StateId]) -> usize
    requires { All (λ (s : StateId). IsThere live.now s.0) states.now }
{
    let mut weight = states.len();
    for s in states {
        weight = weight.saturating_add(field_count(live, *s));
    }
    weight
}

fn field_count(live: &Live, s: StateId) -> usize
    requires { IsThere live.now s.0 }
{
    match &live.head(s).fields {
        Some(fields) => fields.len(),
        None => 0,
    }
}

/// The entries of both. The shorter list is copied.
///
/// # Errors
///
/// `Memory` where memory is wanting.
pub(crate) fn joined(
    first: List<EnvEntry>,
    second: List<EnvEntry>,
) -> Result<List<EnvEntry>, Memory>
    ensures { IfOk result (λ all. (entry : EnvEntry)
        → Contains all entry ↔ Contains first entry ⊎ Contains second entry) }
{
    if first.len() < second.len() {
        let all = with_all(second, first.as_slice())?;
        return Ok(all);
    }
    let both = with_all(first, second.as_slice())?;
    Ok(both)
}

// The entries, with these behind them.
fn with_all(env: List<EnvEntry>, more: &[EnvEntry]) -> Result<List<EnvEntry>, Memory>
    ensures { IfOk result (λ all. (entry : EnvEntry)
        → Contains all entry ↔ Contains env entry ⊎ Contains more.now entry) }
{
    let mut all = env;
    for entry in more {
        all.push(*entry)?;
    }
    Ok(all)
}

/// The entries of the other binders. Where the binder has none, nothing is copied.
///
/// # Errors
///
/// `Memory` where memory is wanting.
pub(crate) fn without(
    alloc: Global,
    env: List<EnvEntry>,
    binder: usize,
) -> Result<List<EnvEntry>, Memory>
    ensures { IfOk result (λ others. others ≡ without binder env) }
{
    if has_none(env.as_slice(), binder) {
        return Ok(env);
    }
    let mut others = List::new(alloc);
    for entry in env.as_slice() {
        if entry.binder != binder {
            others.push(*entry)?;
        }
    }
    Ok(others)
}

// Whether no entry is of this binder.
fn has_none(env: &[EnvEntry], binder: usize) -> bool
    ensures { IsTrue result ↔ All (λ (entry : EnvEntry). entry.binder ≢ binder) env.now }
{
    env.iter().all(|entry| entry.binder != binder)
}

/// The states of a binder.
///
/// # Errors
///
/// `Memory` where memory is wanting.
pub(crate) fn states_of(alloc: Global, env: &[EnvEntry], binder: usize) -> Result<StateSet, Memory>
    ensures { IfOk result (λ set. HasSameMembers set (states_of binder env.now)) }
{
    let mut set = StateSet::new(alloc);
    for entry in env {
        add_state(&mut set, entry, binder)?;
    }
    Ok(set)
}

// Adds the state of an entry, where it is one of this binder.
fn add_state(set: &mut StateSet, entry: &EnvEntry, binder: usize) -> Result<(), Memory>
    ensures { OnOk result ((n : ℕ) → Contains set.new n ↔ ((entry.now.binder ≡ binder) × (n ≡ entry.now.state.0))
        ⊎ Contains set.old n) }
{
    if entry.binder == binder {
        set.insert(entry.state)?;
        return Ok(());
    }
    Ok(())
}
