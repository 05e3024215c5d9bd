//! Heads, states and edges under other numbers of states.
ghost use Rattle.std.specs.Prelude.{◌≡◌, ◌+◌, ◌++◌, All, IfOk, OnOk, OnErr, length, map, option_map, take};
ghost use Rattle.mls_automaton.specs.declared.automaton.FieldSet.{FieldSet};
ghost use Rattle.mls_automaton.specs.declared.automaton.State.{State};
ghost use Rattle.mls_automaton.specs.Embeddings.{renamed_arms, renamed_field, renamed_flow, renamed_head};
ghost use Rattle.mls_automaton.specs.Embeddings.{renamed_state};
ghost use Rattle.mls_automaton.specs.steps.Numbers.{KeepsOrder, KeepsOrderInArms, KeepsOrderInFields, KeepsOrderInHead};
ghost use Rattle.mls_automaton.specs.steps.Numbers.{number_in};

use crate::automaton::{Arms, FieldSet, FieldSets, Flow, Head, State};
use crate::state_set::{StateId, StateSet};
use mls_base::memory::Memory;
use std::alloc::Global;

// Which number each state gets.
#[derive(Drop)]
pub enum Numbers {
    // Each number goes up by this one.
    Raised(usize),
    // The number of each state stands in its place.
    Listed(Vec<usize>),
}

impl Numbers {
    // The new number of a state. Where it does not fit, memory is wanting for so many states.
    pub fn of(&self, s: usize) -> Result<usize, Memory>
        ensures { IfOk result (λ number. number ≡ number_in self.now s) }
    {
        match self {
            Numbers::Raised(by) => match by.checked_add(s) {
                Some(number) => Ok(number),
                None => Err(Memory),
            },
            Numbers::Listed(numbers) => match numbers.get(s) {
                Some(number) => Ok(*number),
                None => Ok(0),
            },
        }
    }

    fn of_state(&self, s: StateId) -> Result<StateId, Memory>
        ensures { IfOk result (λ state. state.0 ≡ number_in self.now s.0) }
    {
        let number = self.of(s.0)?;
        Ok(StateId(number))
    }
}

// The set of the new numbers.
pub fn renumber_set(alloc: Global, set: &StateSet, numbers: &Numbers) -> Result<StateSet, Memory>
    requires { KeepsOrder (number_in numbers.now) set.now }
    ensures { IfOk result (λ renamed. renamed ≡ map (number_in numbers.now) set.now) }
{
    let mut renamed = StateSet::new(alloc);
    for s in set.as_slice() {
        let number = numbers.of(*s)?;
        renamed.push(StateId(number))?;
    }
    Ok(renamed)
}

fn renumber_arms(alloc: Global, arms: &Arms, numbers: &Numbers) -> Result<Arms, Memory>
    requires domain { KeepsOrder (number_in numbers.now) arms.now.domain }
    requires codomain { KeepsOrder (number_in numbers.now) arms.now.codomain }
    ensures { IfOk result (λ renamed. renamed ≡ renamed_arms (number_in numbers.now) arms.now) }
{
    let domain = renumber_set(alloc, &arms.domain, numbers)?;
    let codomain = renumber_set(alloc, &arms.codomain, numbers)?;
    Ok(Arms { domain, codomain })
}

fn renumber_function(
    alloc: Global,
    function: &Option<Arms>,
    numbers: &Numbers,
) -> Result<Option<Arms>, Memory>
    requires { KeepsOrderInArms (number_in numbers.now) function.now }
    ensures { IfOk result (λ renamed. renamed ≡ option_map (renamed_arms (number_in numbers.now)) function.now) }
{
    match function {
        None => Ok(None),
        Some(arms) => {
            let arms = renumber_arms(alloc, arms, numbers)?;
            Ok(Some(arms))
        }
    }
}

fn renumber_field(alloc: Global, field: &FieldSet, numbers: &Numbers) -> Result<FieldSet, Memory>
    requires { KeepsOrder (number_in numbers.now) field.now.set }
    ensures { IfOk result (λ renamed. renamed ≡ renamed_field (number_in numbers.now) field.now) }
{
    let label = field.label.clone()?;
    let set = renumber_set(alloc, &field.set, numbers)?;
    Ok(FieldSet { label, set })
}

fn renumber_field_sets(
    alloc: Global,
    fields: &[FieldSet],
    numbers: &Numbers,
) -> Result<FieldSets, Memory>
    requires { All (λ (field : FieldSet). KeepsOrder (number_in numbers.now) field.set) fields.now }
    ensures { IfOk result (λ renamed. renamed ≡ map (renamed_field (number_in numbers.now)) fields.now) }
{
    let mut renamed = FieldSets::new(alloc);
    for field in fields {
        let field = renumber_field(alloc, field, numbers)?;
        renamed.push(field)?;
    }
    Ok(renamed)
}

fn renumber_record(
    alloc: Global,
    fields: &Option<FieldSets>,
    numbers: &Numbers,
) -> Result<Option<FieldSets>, Memory>
    requires { KeepsOrderInFields (number_in numbers.now) fields.now }
    ensures { IfOk result (λ renamed. renamed ≡ option_map (map (renamed_field (number_in numbers.now))) fields.now) }
{
    match fields {
        None => Ok(None),
        Some(fields) => {
            let fields = renumber_field_sets(alloc, fields.as_slice(), numbers)?;
            Ok(Some(fields))
        }
    }
}

// The head with the new numbers.
pub fn renumber_head(alloc: Global, head: &Head, numbers: &Numbers) -> Result<Head, Memory>
    requires { KeepsOrderInHead (number_in numbers.now) head.now }
    ensures { IfOk result (λ renamed. renamed ≡ renamed_head (number_in numbers.now) head.now) }
{
    let function = renumber_function(alloc, &head.function, numbers)?;
    let fields = renumber_record(alloc, &head.fields, numbers)?;
    Ok(Head {
        boolean: head.boolean,
        integer: head.integer,
        function,
        fields,
    })
}

// Adds states, edges and sets behind those that are there, with numbers that go up by the number of the states.
pub fn push_all(
    states: &mut Vec<State>,
    flows: &mut Vec<Flow>,
    sets: &mut Vec<StateSet>,
    more_states: &[State],
    more_flows: &[Flow],
    more_sets: &[StateSet],
) -> Result<(), Memory>
    ensures states { OnOk result (states.new.items ≡ states.old.items
        ++ map (renamed_state (λ s. length states.old.items + s)) more_states.now) }
    ensures flows { OnOk result (flows.new.items ≡ flows.old.items
        ++ map (renamed_flow (λ s. length states.old.items + s)) more_flows.now) }
    ensures sets { OnOk result (sets.new.items ≡ sets.old.items
        ++ map (map (λ s. length states.old.items + s)) more_sets.now) }
    ensures states_stay { OnErr result (take (length states.old.items) states.new.items ≡ states.old.items) }
    ensures flows_stay { OnErr result (take (length flows.old.items) flows.new.items ≡ flows.old.items) }
    ensures sets_stay { OnErr result (take (length sets.old.items) sets.new.items ≡ sets.old.items) }
{
    let numbers = Numbers::Raised(states.len());
    let alloc = *states.allocator();
    push_states(alloc, states, more_states, &numbers)?;
    push_flows(flows, more_flows, &numbers)?;
    push_sets(alloc, sets, more_sets, &numbers)?;
    Ok(())
}

// Adds the states with the new numbers behind those that are there.
fn push_states(
    alloc: Global,
    into: &mut Vec<State>,
    states: &[State],
    numbers: &Numbers,
) -> Result<(), Memory>
    requires { All (λ (state : State). KeepsOrderInHead (number_in numbers.now) state.head) states.now }
    ensures ok { OnOk result (into.new.items ≡ into.old.items
        ++ map (renamed_state (number_in numbers.now)) states.now) }
    ensures err { OnErr result (take (length into.old.items) into.new.items ≡ into.old.items) }
{
    for state in states {
        let head = renumber_head(alloc, &state.head, numbers)?;
        into.push(State {
            polarity: state.polarity,
            head,
        })?;
    }
    Ok(())
}

// The same of edges.
fn push_flows(into: &mut Vec<Flow>, flows: &[Flow], numbers: &Numbers) -> Result<(), Memory>
    ensures ok { OnOk result (into.new.items ≡ into.old.items ++ map (renamed_flow (number_in numbers.now)) flows.now) }
    ensures err { OnErr result (take (length into.old.items) into.new.items ≡ into.old.items) }
{
    for flow in flows {
        let negative = numbers.of_state(flow.negative)?;
        let positive = numbers.of_state(flow.positive)?;
        into.push(Flow { negative, positive })?;
    }
    Ok(())
}

// The same of sets.
fn push_sets(
    alloc: Global,
    into: &mut Vec<StateSet>,
    sets: &[StateSet],
    numbers: &Numbers,
) -> Result<(), Memory>
    requires { All (KeepsOrder (number_in numbers.now)) sets.now }
    ensures ok { OnOk result (into.new.items ≡ into.old.items ++ map (map (number_in numbers.now)) sets.now) }
    ensures err { OnErr result (take (length into.old.items) into.new.items ≡ into.old.items) }
{
    for set in sets {
        let set = renumber_set(alloc, set, numbers)?;
        into.push(set)?;
    }
    Ok(())
}
