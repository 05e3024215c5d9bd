//! The variables that a set shows.
ghost use Rattle.std.specs.Prelude.{◌≡◌, ◌↔◌, ◌<◌, length, get_or, map, ◌++◌, All, Contains, Some, None, IfOk, OnOk};
ghost use Rattle.std.specs.Prelude.{is_some, slice_set, if◌then◌else◌};
ghost use Rattle.std.specs.Option.{option_to_list};
ghost use Rattle.std.specs.List.{filter_map, list_any};
ghost use Rattle.mls_automaton.specs.Automata.{IsState};
ghost use Rattle.mls_automaton.specs.Models.{IsClosed};
ghost use Rattle.mls_print.specs.Walks.{flows_into, shown_variables};
ghost use Rattle.mls_print.specs.steps.Numbering.{IsNumbered};
ghost use Rattle.mls_print.specs.steps.Variables.{HasPartner, HasVariables, IsCandidate};

use crate::sets::rising;
use crate::walk::Order;
use mls_automaton::automaton::{Automaton, Polarity};
use mls_automaton::state_set::StateId;
use mls_base::memory::Memory;
use std::alloc::Global;

/// For each state the printing number of its variable, if it has one: it is negative and visited, and has an edge to
/// a visited state.
pub fn variable_numbers(
    alloc: Global,
    automaton: &Automaton,
    order: &Order,
) -> Result<Vec<Option<usize>>, Memory>
    requires closed { IsClosed automaton.now }
    requires numbered { IsNumbered (length automaton.now.states) order.now.states.items order.now.numbers.items }
    ensures { IfOk result (λ numbers. HasVariables automaton.now order.now.states.items numbers.items) }
{
    let mut numbers = vec![in alloc; None; automaton.len()]?;
    for (k, s) in order.states.iter().enumerate() {
        let has_one = has_variable(automaton, order, StateId(*s));
        number_if(&mut numbers, has_one, *s, k);
    }
    Ok(numbers)
}

// Gives the state its number, if it has a variable.
fn number_if(numbers: &mut Vec<Option<usize>>, has_one: bool, s: usize, k: usize)
    requires { s < length numbers.old.items }
    ensures { numbers.new.items ≡ (if has_one then slice_set numbers.old.items s (Some k) else numbers.old.items) }
{
    if has_one {
        numbers[s] = Some(k);
    }
}

// Whether the state has an edge to a visited state.
fn has_variable(automaton: &Automaton, order: &Order, s: StateId) -> bool
    requires closed { IsClosed automaton.now }
    requires below { s.0 < length automaton.now.states }
    requires numbered { IsNumbered (length automaton.now.states) order.now.states.items order.now.numbers.items }
    ensures { result ≡ flows_into automaton.now order.now.states.items s.0 }
{
    match automaton.polarity(s) {
        Polarity::Positive => false,
        Polarity::Negative => any_visited(order, automaton.partners(s).as_slice()),
    }
}

// Whether one of the states is visited.
fn any_visited(order: &Order, states: &[usize]) -> bool
    requires { All (λ s. s < length order.now.numbers.items) states.now }
    ensures { result ≡ list_any (λ s. is_some (get_or order.now.numbers.items s None)) states.now }
{
    for s in states {
        if order.numbers[*s].is_some() {
            return true;
        }
    }
    false
}

/// The states whose variables a set of states of this polarity shows, in printing order.
pub fn shown_variables(
    alloc: Global,
    automaton: &Automaton,
    order: &Order,
    numbers: &[Option<usize>],
    polarity: Polarity,
    set: &[usize],
) -> Result<Vec<usize>, Memory>
    requires closed { IsClosed automaton.now }
    requires numbered { IsNumbered (length automaton.now.states) order.now.states.items order.now.numbers.items }
    requires variables { HasVariables automaton.now order.now.states.items numbers.now }
    requires states { All (IsState automaton.now polarity) set.now }
    ensures { IfOk result (λ variables. variables.items
        ≡ shown_variables automaton.now order.now.states.items polarity set.now) }
{
    let candidates = candidates_of(alloc, automaton, polarity, set)?;
    let shown = rising(numbers_of(alloc, numbers, candidates.as_slice())?);
    let variables = states_of(alloc, order.states.as_slice(), shown.as_slice())?;
    Ok(variables)
}

// The states whose variables may be shown: the members of a negative set, and the partners of those of a positive one.
fn candidates_of(
    alloc: Global,
    automaton: &Automaton,
    polarity: Polarity,
    set: &[usize],
) -> Result<Vec<usize>, Memory>
    requires { All (λ s. s < length automaton.now.states) set.now }
    ensures { IfOk result (λ candidates. (j : _) → Contains candidates.items j
        ↔ IsCandidate automaton.now polarity set.now j) }
{
    match polarity {
        Polarity::Negative => {
            let members = set.to_vec(alloc)?;
            Ok(members)
        }
        Polarity::Positive => {
            let partners = partners_of(alloc, automaton, set)?;
            Ok(partners)
        }
    }
}

// The states at the other ends of the edges at these states.
fn partners_of(alloc: Global, automaton: &Automaton, set: &[usize]) -> Result<Vec<usize>, Memory>
    requires { All (λ s. s < length automaton.now.states) set.now }
    ensures { IfOk result (λ partners. (j : _) → Contains partners.items j ↔ HasPartner automaton.now set.now j) }
{
    let mut partners = Vec::new(alloc);
    for s in set {
        partners.extend_from_slice(automaton.partners(StateId(*s)).as_slice())?;
    }
    Ok(partners)
}

// The numbers of the states that have one.
fn numbers_of(
    alloc: Global,
    numbers: &[Option<usize>],
    states: &[usize],
) -> Result<Vec<usize>, Memory>
    requires { All (λ s. s < length numbers.now) states.now }
    ensures { IfOk result (λ found. found.items ≡ filter_map (λ s. get_or numbers.now s None) states.now) }
{
    let mut found = Vec::new(alloc);
    for s in states {
        push_some(&mut found, numbers[*s])?;
    }
    Ok(found)
}

// Puts a number at the end, if there is one.
fn push_some(found: &mut Vec<usize>, number: Option<usize>) -> Result<(), Memory>
    ensures { OnOk result (found.new.items ≡ found.old.items ++ option_to_list number) }
{
    if let Some(number) = number {
        found.push(number)?;
    }
    Ok(())
}

// The states of these numbers.
fn states_of(alloc: Global, order: &[usize], numbers: &[usize]) -> Result<Vec<usize>, Memory>
    requires { All (λ k. k < length order.now) numbers.now }
    ensures { IfOk result (λ states. states.items ≡ map (λ k. get_or order.now k 0) numbers.now) }
{
    let mut states = Vec::new(alloc);
    for k in numbers {
        states.push(order[*k])?;
    }
    Ok(states)
}
