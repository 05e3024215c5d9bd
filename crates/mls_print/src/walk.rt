//! The states in printing order: a depth-first walk from the root, with a stack of its own.
ghost use Rattle.std.specs.Prelude.{◌≡◌, ◌<◌, ◌++◌, ◌∷◌, [], length, reverse, IfOk, OnOk};
ghost use Rattle.mls_automaton.specs.Models.{IsClosed};
ghost use Rattle.mls_print.specs.Walks.{states_in, Visits};
ghost use Rattle.mls_print.specs.steps.Numbering.{IsNumbered};

use mls_automaton::automaton::{Automaton, Head};
use mls_automaton::state_set::StateId;
use mls_base::memory::Memory;
use std::alloc::Global;

/// The visited states in printing order, and for each state of the automaton its printing number, if it is visited.
#[derive(Drop)]
pub struct Order {
    pub states: Vec<usize>,
    pub numbers: Vec<Option<usize>>,
}

/// Walks through the states below the root.
pub fn printing_order(alloc: Global, automaton: &Automaton, root: StateId) -> Result<Order, Memory>
    requires closed { IsClosed automaton.now }
    requires root { root.0 < length automaton.now.states }
    ensures walked { IfOk result (λ order. Visits automaton.now [] (root.0 ∷ []) order.states.items) }
    ensures numbered { IfOk result (λ order. IsNumbered
        (length automaton.now.states) order.states.items order.numbers.items) }
{
    let mut states = Vec::new(alloc);
    let mut numbers = vec![in alloc; None; automaton.len()]?;
    let mut stack = vec![in alloc; root.0]?;
    while let Some(s) = stack.pop() {
        if numbers[s].is_none() {
            numbers[s] = Some(states.len());
            states.push(s)?;
            push_below(alloc, &mut stack, automaton.head(StateId(s)))?;
        }
    }
    Ok(Order { states, numbers })
}

// Puts the states that a head names on the stack, the first of them last.
fn push_below(alloc: Global, stack: &mut Vec<usize>, head: &Head) -> Result<(), Memory>
    ensures { OnOk result (stack.new.items ≡ stack.old.items ++ reverse (states_in head.now)) }
{
    let mut below = states_below(alloc, head)?;
    while let Some(s) = below.pop() {
        stack.push(s)?;
    }
    Ok(())
}

// The states that a head names, in their order.
fn states_below(alloc: Global, head: &Head) -> Result<Vec<usize>, Memory>
    ensures { IfOk result (λ below. below.items ≡ states_in head.now) }
{
    let mut below = Vec::new(alloc);
    if let Some(arms) = &head.function {
        below.extend_from_slice(arms.domain.as_slice())?;
        below.extend_from_slice(arms.codomain.as_slice())?;
    }
    if let Some(fields) = &head.fields {
        for field in fields.as_slice() {
            below.extend_from_slice(field.set.as_slice())?;
        }
    }
    Ok(below)
}
