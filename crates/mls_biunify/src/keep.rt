//! Tables of which the states alone stay that heads reach from some.
ghost use Rattle.std.specs.Prelude.{◌≡◌, ◌⊎◌, ◌↔◌, ℕ, true, false, get_or, All, Contains, IfOk};
ghost use Rattle.std.specs.Prelude.{IsTrue, OnErr, OnOk};
ghost use Rattle.mls_automaton.specs.declared.state_set.StateId.{StateId};
ghost use Rattle.mls_automaton.specs.Automata.{HasFlow};
ghost use Rattle.mls_automaton.specs.Reached.{Names};
ghost use Rattle.mls_biunify.specs.Live.{IsReachedFrom, numbers_in};
ghost use Rattle.mls_biunify.specs.steps.Absorbing.{AreLoose, RemovesStates};
ghost use Rattle.mls_biunify.specs.steps.Keeping.{AddsCut, AreShortened, EmptiesHeads, IsUnfound, KeepsStates, StaysAmong};
ghost use Rattle.mls_biunify.specs.steps.Marking.{WasFound};
ghost use Rattle.mls_biunify.specs.steps.Tables.{IsNumbered};

use crate::marks::Marks;
use crate::reach::{Search, mark_reached};
use crate::table::Table;
use mls_automaton::automaton::Head;
use mls_automaton::state_set::{StateId, StateSet};
use mls_base::memory::Memory;
use std::alloc::Global;

// Takes out the states that heads do not reach from the roots.
pub fn keep_reached(
    table: &mut Table,
    search: &mut Search<Marks>,
    alloc: Global,
    roots: &[StateId],
) -> Result<(), Memory>
    requires { All (λ (root : StateId). get_or table.old.there root.0 false ≡ true) roots.now }
    ensures ok { OnOk result (KeepsStates table.old (IsReachedFrom table.old.automaton roots.now) table.new) }
    ensures err { OnErr result (table.new ≡ table.old) }
{
    let _limit = table.limit();
    let all = table.numbers(alloc)?;
    keep_among(table, search, alloc, all.as_slice(), roots)?;
    Ok(())
}

// Takes out those of these states that heads do not reach from the roots, and answers all that are reached. It goes
// over these states alone, and over the heads and the edges of those that are reached.
pub fn keep_among(
    table: &mut Table,
    search: &mut Search<Marks>,
    alloc: Global,
    states: &[usize],
    roots: &[StateId],
) -> Result<Vec<StateId>, Memory>
    requires states { All (λ s. get_or table.old.there s false ≡ true) states.now }
    requires roots { All (λ (root : StateId). Contains states.now root.0) roots.now }
    requires heads { (s t : ℕ) → Names table.old.automaton s t → Contains states.now s ↔ Contains states.now t }
    requires flows { (n p : ℕ) → HasFlow table.old.automaton n p → Contains states.now n ↔ Contains states.now p }
    ensures ok { OnOk result (KeepsStates table.old (StaysAmong table.old states.now roots.now) table.new) }
    ensures kept { IfOk result (λ kept. (s : ℕ) → Contains (numbers_in kept.items) s
        ↔ IsReachedFrom table.old.automaton roots.now s) }
    ensures err { OnErr result (table.new ≡ table.old) }
{
    let _limit = table.limit();
    mark_reached(table, search, roots)?;
    let found = &search.found;
    let kept = states_of(alloc, found)?;
    let gone = unfound(alloc, states, found)?;
    let after = cuts_after(alloc, table, kept.as_slice(), found)?;
    let before = cuts_before(alloc, table, kept.as_slice(), found)?;
    table.cut(gone.as_slice(), after, before);
    empty_heads(table, gone.as_slice());
    remove_all(table, gone);
    Ok(kept)
}

// The states that were found.
fn states_of(alloc: Global, found: &Marks) -> Result<Vec<StateId>, Memory>
    ensures { IfOk result (λ states. numbers_in states.items ≡ found.now) }
{
    let mut states = Vec::with_capacity(alloc, found.as_slice().len())?;
    for s in found.as_slice() {
        states.push(StateId(*s))?;
    }
    Ok(states)
}

// Those of these states that were not found.
fn unfound(alloc: Global, states: &[usize], found: &Marks) -> Result<Vec<usize>, Memory>
    ensures { IfOk result (λ gone. (s : ℕ) → Contains gone.items s ↔ IsUnfound states.now found.now s) }
{
    let mut gone = Vec::with_capacity(alloc, states.len())?;
    for s in states {
        push_unfound(&mut gone, found, *s)?;
    }
    Ok(gone)
}

// Puts a number behind others, if it was not found.
fn push_unfound(gone: &mut Vec<usize>, found: &Marks, s: usize) -> Result<(), Memory>
    ensures { OnOk result ((j : ℕ) → Contains gone.new.items j
        ↔ Contains gone.old.items j ⊎ ((j ≡ s) × (Contains found.now j → ⊥))) }
{
    if found.contains(s) {
        return Ok(());
    }
    gone.push(s)?;
    Ok(())
}

// The states that are left after those that lose one, where just those that were found stay.
fn cuts_after(
    alloc: Global,
    table: &Table,
    kept: &[StateId],
    found: &Marks,
) -> Result<Vec<(usize, StateSet)>, Memory>
    requires { All (λ (s : StateId). get_or table.now.there s.0 false ≡ true) kept.now }
    ensures { IfOk result (λ cuts. AreShortened (HasFlow table.now.automaton) found.now kept.now cuts.items) }
{
    let mut cuts = Vec::new(alloc);
    for s in kept {
        add_cut(&mut cuts, alloc, *s, table.after(*s), found)?;
    }
    Ok(cuts)
}

// Those before them.
fn cuts_before(
    alloc: Global,
    table: &Table,
    kept: &[StateId],
    found: &Marks,
) -> Result<Vec<(usize, StateSet)>, Memory>
    requires { All (λ (s : StateId). get_or table.now.there s.0 false ≡ true) kept.now }
    ensures { IfOk result (λ cuts. AreShortened (λ p n. HasFlow table.now.automaton n p) found.now kept.now
        cuts.items) }
{
    let mut cuts = Vec::new(alloc);
    for s in kept {
        add_cut(&mut cuts, alloc, *s, table.before(*s), found)?;
    }
    Ok(cuts)
}

// Adds what is left of the set of a state, if it loses a member.
fn add_cut(
    cuts: &mut Vec<(usize, StateSet)>,
    alloc: Global,
    s: StateId,
    set: &StateSet,
    found: &Marks,
) -> Result<(), Memory>
    ensures { OnOk result (AddsCut s.0 set.now found.now cuts.old.items cuts.new.items) }
{
    if were_found(found, set.as_slice()) {
        return Ok(());
    }
    let left = left_of(alloc, found, set.as_slice())?;
    cuts.push((s.0, left))?;
    Ok(())
}

// Whether all these states were found.
fn were_found(found: &Marks, states: &[usize]) -> bool
    ensures { IsTrue result → All (WasFound found.now) states.now }
{
    for s in states {
        if !found.contains(*s) {
            return false;
        }
    }
    true
}

// Those of these states that were found.
fn left_of(alloc: Global, found: &Marks, states: &[usize]) -> Result<StateSet, Memory>
    ensures { IfOk result (λ left. (j : ℕ) → Contains left j ↔ Contains states.now j × Contains found.now j) }
{
    let mut left = StateSet::new(alloc);
    for s in states {
        insert_found(&mut left, found, *s)?;
    }
    Ok(left)
}

// Inserts a state, if it was found.
fn insert_found(left: &mut StateSet, found: &Marks, s: usize) -> Result<(), Memory>
    ensures { OnOk result ((j : ℕ) → Contains left.new j
        ↔ Contains left.old j ⊎ ((j ≡ s) × Contains found.now j)) }
{
    if !found.contains(s) {
        return Ok(());
    }
    left.insert(StateId(s))?;
    Ok(())
}

// Takes the heads of these states away.
fn empty_heads(table: &mut Table, states: &[usize])
    requires { All (λ s. get_or table.old.there s false ≡ true) states.now }
    ensures { EmptiesHeads table.old states.now table.new }
{
    for s in states {
        table.set_head(StateId(*s), Head::empty());
    }
}

// Takes states out, which no head names and which have no edge. A state may be listed more than once.
pub fn remove_all(table: &mut Table, states: Vec<usize>)
    requires { AreLoose table.old states.items }
    ensures removes { RemovesStates table.old states.items table.new }
    ensures is { IsNumbered table.new }
{
    let _limit = table.limit();
    let mut states = states;
    while let Some(s) = states.pop() {
        if table.contains(s) {
            table.remove(StateId(s));
        }
    }
    let _left = table.limit();
}
