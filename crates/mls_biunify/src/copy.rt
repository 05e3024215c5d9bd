//! A table as an automaton with the same numbers.
ghost use Rattle.std.specs.Prelude.{◌≡◌, ◌↔◌, ℕ, ◌<◌, true, false, [], get_or, IfOk, OnOk};
ghost use Rattle.mls_automaton.specs.declared.automaton.Polarity.TheVariants.{Negative};
ghost use Rattle.mls_automaton.specs.Automata.{HasFlow, state_at, with_state};
ghost use Rattle.mls_biunify.specs.Live.{IsStateIn};
ghost use Rattle.mls_biunify.specs.steps.Copying.{AreCopiedStates, CopiesFlows, HasStatesOf, IsCopy};

use crate::table::Table;
use mls_automaton::automaton::{Automaton, Head, Polarity};
use mls_automaton::combine::copied_head;
use mls_automaton::state_set::StateId;
use mls_base::memory::Memory;
use std::alloc::Global;

// The automaton in which each number that is free is a positive state with nothing.
pub fn copied_table(alloc: Global, table: &Table) -> Result<Automaton, Memory>
    ensures { IfOk result (IsCopy table.now) }
{
    let _limit = table.limit();
    let mut copy = copied_states(alloc, table)?;
    copy_flows(&mut copy, table)?;
    Ok(copy)
}

// The states alone.
fn copied_states(alloc: Global, table: &Table) -> Result<Automaton, Memory>
    ensures { IfOk result (AreCopiedStates table.now table.now.limit) }
{
    let mut copy = Automaton::new(alloc);
    for s in 0..table.limit() {
        copy_state(&mut copy, table, s)?;
    }
    Ok(copy)
}

// Appends the state of a number.
fn copy_state(copy: &mut Automaton, table: &Table, s: usize) -> Result<(), Memory>
    ensures { OnOk result (copy.new ≡ with_state copy.old (state_at table.now.automaton s)) }
{
    let _limit = table.limit();
    if table.contains(s) {
        return copy_there(copy, table, StateId(s));
    }
    copy.state(Polarity::Positive, Head::empty())?;
    Ok(())
}

// Appends a state that is there.
fn copy_there(copy: &mut Automaton, table: &Table, s: StateId) -> Result<(), Memory>
    requires { get_or table.now.there s.0 false ≡ true }
    ensures { OnOk result (copy.new ≡ with_state copy.old (state_at table.now.automaton s.0)) }
{
    let head = copied_head(table.head(s))?;
    copy.state(table.polarity(s), head)?;
    Ok(())
}

// Adds the edges.
fn copy_flows(copy: &mut Automaton, table: &Table) -> Result<(), Memory>
    requires states { HasStatesOf table.now copy.old }
    requires none { copy.old.flows ≡ [] }
    ensures states { OnOk result (copy.new.states ≡ copy.old.states) }
    ensures flows { OnOk result ((n p : ℕ) → HasFlow copy.new n p ↔ HasFlow table.now.automaton n p) }
{
    for n in 0..table.limit() {
        copy_flows_at(copy, table, n)?;
    }
    Ok(())
}

// Adds the edges from a number.
fn copy_flows_at(copy: &mut Automaton, table: &Table, n: usize) -> Result<(), Memory>
    requires { HasStatesOf table.now copy.old }
    ensures { OnOk result (CopiesFlows table.now n copy.old copy.new) }
{
    let _limit = table.limit();
    if table.is_state(StateId(n), Polarity::Negative) {
        return copy_flows_from(copy, table, StateId(n));
    }
    Ok(())
}

// Adds the edges from a negative state.
fn copy_flows_from(copy: &mut Automaton, table: &Table, n: StateId) -> Result<(), Memory>
    requires states { HasStatesOf table.now copy.old }
    requires negative { IsStateIn table.now.automaton table.now.there Negative n.0 }
    ensures { OnOk result (CopiesFlows table.now n.0 copy.old copy.new) }
{
    for p in table.after(n).as_slice() {
        copy.add_flow(n, StateId(*p))?;
    }
    Ok(())
}
