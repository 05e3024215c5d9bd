//! One state for each binder of a part: the states of a binder give way to one with the combined head and the edges of
//! all.
ghost use Rattle.std.specs.Prelude.{◌≡◌, ◌↔◌, ◌⊎◌, ◌<◌, ℕ, filter, length, All, Contains, IfOk, OnOk};
ghost use Rattle.std.specs.Ordering.{nat_cmp, eq_by_cmp};
ghost use Rattle.mls_automaton.specs.declared.automaton.Polarity.TheVariants.{Negative, Positive};
ghost use Rattle.mls_automaton.specs.declared.scheme.EnvEntry.{EnvEntry};
ghost use Rattle.mls_automaton.specs.Automata.{HasFlow};
ghost use Rattle.mls_automaton.specs.Environments.{BindersRise};
ghost use Rattle.mls_automaton.specs.Heads.{IsSameParts, parts_of};
ghost use Rattle.mls_automaton.specs.Models.{HasRisingLabels};
ghost use Rattle.mls_infer.specs.Constraints.{HasOneState, without};
ghost use Rattle.mls_infer.specs.Meets.{HasFlowOfOne, parts_together};
ghost use Rattle.mls_infer.specs.Merges.{BindersAscend, HasSameMembers, IsGroup};
ghost use Rattle.mls_infer.specs.Pending.{IsMeeting, IsRemade, Waits, part_in, states_in};
ghost use Rattle.mls_infer.specs.Regions.{scheme_at};
ghost use Rattle.mls_biunify.specs.Live.{IsLive, IsLiveState};

use crate::pending::{Pending, without};
use crate::region::Region;
use mls_automaton::automaton::{Head, Polarity};
use mls_automaton::combine::{copied_head, unite_heads};
use mls_automaton::scheme::{Env, EnvEntry};
use mls_automaton::state_set::{StateId, StateSet};
use mls_base::list::List;
use mls_base::memory::Memory;
use mls_biunify::live::Live;
use std::alloc::Global;

/// The part in which each binder has one state, in the order of binders.
///
/// # Errors
///
/// `Memory` where memory is wanting.
pub(crate) fn merged(alloc: Global, live: &mut Live, part: Pending) -> Result<Pending, Memory>
    requires { Waits live.old (part_in part) }
    ensures remade { IfOk result (λ other. IsRemade live.old (part_in part) live.new (part_in other)) }
    ensures rise { IfOk result (λ other. BindersRise other.env) }
{
    let in_order = sorted(alloc, part.env.as_slice())?;
    let entries = in_order.as_slice();
    let mut region = part.region;
    let mut env = List::new(alloc);
    let mut i = 0;
    while i < entries.len() {
        let end = group_end(entries, i);
        let entry = met(alloc, live, &mut region, &entries[i..end])?;
        env.push(entry)?;
        i = end;
    }
    Ok(Pending {
        region,
        env,
        root: part.root,
    })
}

// The entries in the order of their binders.
fn sorted(alloc: Global, env: &[EnvEntry]) -> Result<Vec<EnvEntry>, Memory>
    ensures members { IfOk result (λ entries. HasSameMembers env.now entries.items) }
    ensures sorted { IfOk result (λ entries. BindersAscend entries.items) }
{
    let mut entries = copied(alloc, env)?;
    entries.sort_unstable_by_key(|entry| entry.binder);
    Ok(entries)
}

fn copied(alloc: Global, env: &[EnvEntry]) -> Result<Vec<EnvEntry>, Memory>
    ensures { IfOk result (λ entries. entries.items ≡ env.now) }
{
    let mut entries = Vec::new(alloc);
    for entry in env {
        entries.push(*entry)?;
    }
    Ok(entries)
}

// The place behind the entries of the binder at a place.
fn group_end(entries: &[EnvEntry], start: usize) -> usize
    requires { start < length entries.now }
    ensures { IsGroup entries.now start result }
{
    for end in start + 1..entries.len() {
        if entries[end].binder != entries[start].binder {
            return end;
        }
    }
    entries.len()
}

// One entry for some of one binder: its state has the combined head and all edges of their states.
fn met(
    alloc: Global,
    live: &mut Live,
    region: &mut Region,
    entries: &[EnvEntry],
) -> Result<EnvEntry, Memory>
    requires some { 0 < length entries.now }
    requires binder { (b : ℕ) × All (λ (entry : EnvEntry). entry.binder ≡ b) entries.now }
    requires states { All (λ (entry : EnvEntry). IsLiveState live.old Negative entry.state.0) entries.now }
    ensures { IfOk result (λ entry. IsMeeting live.old (states_in region.old) entries.now
        live.new (states_in region.new) entry) }
{
    if entries.len() == 1 {
        return Ok(entries[0]);
    }
    let head = head_together(alloc, live, entries)?;
    let ends = ends_together(alloc, live, entries)?;
    let state = region.add(live, Polarity::Negative, head)?;
    link(live, state, &ends)?;
    let _linked = live.ready();
    Ok(EnvEntry {
        binder: entries[0].binder,
        state,
    })
}

// The combined head of the states of some entries. It is put together by halves, so that each head is gone through as
// often as the number of entries has binary digits; the calls are as deep.
fn head_together(alloc: Global, live: &Live, entries: &[EnvEntry]) -> Result<Head, Memory>
    requires some { 0 < length entries.now }
    requires states { All (λ (entry : EnvEntry). IsLiveState live.now Negative entry.state.0) entries.now }
    ensures parts { IfOk result (λ head. IsSameParts (parts_of head) (parts_together live.now.table entries.now)) }
    ensures labels { IfOk result (λ head. HasRisingLabels head.fields) }
    ensures live { OnOk result (IsLive live.now) }
{
    if entries.len() == 1 {
        let head = copied_head(live.head(entries[0].state))?;
        return Ok(head);
    }
    let half = entries.len() / 2;
    let first = head_together(alloc, live, &entries[..half])?;
    let second = head_together(alloc, live, &entries[half..])?;
    let head = unite_heads(alloc, Polarity::Negative, first, second)?;
    Ok(head)
}

// The ends of all edges of the states of some entries. They are put in order once.
fn ends_together(alloc: Global, live: &Live, entries: &[EnvEntry]) -> Result<StateSet, Memory>
    requires { All (λ (entry : EnvEntry). IsLiveState live.now Negative entry.state.0) entries.now }
    ensures { IfOk result (λ ends. (p : ℕ) → Contains ends p ↔ HasFlowOfOne live.now.table entries.now p) }
{
    let mut numbers = Vec::new(alloc);
    for entry in entries {
        numbers.extend_from_slice(live.after(entry.state).as_slice())?;
    }
    numbers.sort_unstable();
    let ends = set_of(alloc, numbers.as_slice())?;
    Ok(ends)
}

// The set of these states. Those that rise are added at its end.
fn set_of(alloc: Global, numbers: &[usize]) -> Result<StateSet, Memory>
    ensures { IfOk result (λ set. (s : ℕ) → Contains set s ↔ Contains numbers.now s) }
{
    let mut set = StateSet::new(alloc);
    for s in numbers {
        set.insert(StateId(*s))?;
    }
    Ok(set)
}

// Adds the edges from a negative state to these positive ones.
fn link(live: &mut Live, state: StateId, ends: &StateSet) -> Result<(), Memory>
    requires state { IsLiveState live.old Negative state.0 }
    requires ends { All (IsLiveState live.old Positive) ends.now }
    ensures states { live.new.table.states ≡ live.old.table.states }
    ensures numbers { live.new.there ≡ live.old.there }
    ensures flows { OnOk result ((n p : ℕ) → HasFlow live.new.table n p ↔ HasFlow live.old.table n p
        ⊎ ((n ≡ state.0) × Contains ends.now p)) }
{
    for end in ends.as_slice() {
        live.edge(state, StateId(*end))?;
    }
    Ok(())
}

/// The part in which this binder has one state at most.
///
/// # Errors
///
/// `Memory` where memory is wanting.
pub(crate) fn with_one_state(
    alloc: Global,
    live: &mut Live,
    binder: usize,
    part: Pending,
) -> Result<Pending, Memory>
    requires { Waits live.old (part_in part) }
    ensures remade { IfOk result (λ other. IsRemade live.old (part_in part) live.new (part_in other)) }
    ensures one { IfOk result (λ other. HasOneState binder (scheme_at live.new.table (part_in other))) }
{
    let entries = entries_of(alloc, binder, part.env.as_slice())?;
    if entries.len() <= 1 {
        return Ok(part);
    }
    let mut region = part.region;
    let mut env = without(alloc, part.env, binder)?;
    let entry = met(alloc, live, &mut region, entries.as_slice())?;
    env.push(entry)?;
    Ok(Pending {
        region,
        env,
        root: part.root,
    })
}

// The entries of a binder.
fn entries_of(alloc: Global, binder: usize, env: &[EnvEntry]) -> Result<List<EnvEntry>, Memory>
    ensures { IfOk result (λ entries. entries ≡ filter (λ (e : EnvEntry). eq_by_cmp nat_cmp e.binder binder) env.now) }
{
    let mut entries = List::new(alloc);
    for entry in env {
        if entry.binder == binder {
            entries.push(*entry)?;
        }
    }
    Ok(entries)
}

/// The entries of an environment in which binders rise.
///
/// # Errors
///
/// `Memory` where memory is wanting.
pub(crate) fn env_of(alloc: Global, entries: &[EnvEntry]) -> Result<Env, Memory>
    requires { BindersRise entries.now }
    ensures { IfOk result (λ env. env ≡ entries.now) }
{
    let mut env = Env::new(alloc);
    for entry in entries {
        env.push(*entry)?;
    }
    Ok(env)
}
