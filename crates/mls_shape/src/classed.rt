//! States, edges and environments with classes in place of states.
ghost use Rattle.std.specs.Prelude.{◌≡◌, ◌<◌, ◌∷◌, [], length, map, option_map, All, IfOk, OnOk};
ghost use Rattle.mls_automaton.specs.declared.automaton.Flow.{Flow};
ghost use Rattle.mls_automaton.specs.Automata.{state_at};
ghost use Rattle.mls_automaton.specs.steps.Keeping.{renamed_entry};
ghost use Rattle.mls_shape.specs.steps.Classes.{class_in};
ghost use Rattle.mls_shape.specs.steps.Classed.{classed_arms, classed_field, classed_head, classed_set, classed_state};
ghost use Rattle.mls_shape.specs.steps.Classed.{HasClassEnds, IsFlowOfClasses};
ghost use Rattle.mls_shape.specs.steps.Edges.{AddsFlows};

use crate::classes::{Classes, class_of, class_of_set};
use mls_automaton::automaton::{Arms, Automaton, FieldSet, FieldSets, Flow, Head};
use mls_automaton::scheme::{Env, EnvEntry};
use mls_automaton::state_set::{StateId, StateSet};
use mls_base::memory::Memory;
use std::alloc::Global;

fn class_set(alloc: Global, classes: &[usize], set: &StateSet) -> Result<StateSet, Memory>
    ensures { IfOk result (λ classed. classed ≡ classed_set (class_in classes.now) set.now) }
{
    StateSet::one(alloc, StateId(class_of_set(classes, set)))
}

fn class_arms(alloc: Global, classes: &[usize], arms: &Arms) -> Result<Arms, Memory>
    ensures { IfOk result (λ classed. classed ≡ classed_arms (class_in classes.now) arms.now) }
{
    let domain = class_set(alloc, classes, &arms.domain)?;
    let codomain = class_set(alloc, classes, &arms.codomain)?;
    Ok(Arms { domain, codomain })
}

fn class_function(
    alloc: Global,
    classes: &[usize],
    function: &Option<Arms>,
) -> Result<Option<Arms>, Memory>
    ensures { IfOk result (λ classed. classed ≡ option_map (classed_arms (class_in classes.now)) function.now) }
{
    match function {
        None => Ok(None),
        Some(arms) => {
            let arms = class_arms(alloc, classes, arms)?;
            Ok(Some(arms))
        }
    }
}

fn class_field(alloc: Global, classes: &[usize], field: &FieldSet) -> Result<FieldSet, Memory>
    ensures { IfOk result (λ classed. classed ≡ classed_field (class_in classes.now) field.now) }
{
    let label = field.label.clone()?;
    let set = class_set(alloc, classes, &field.set)?;
    Ok(FieldSet { label, set })
}

fn class_fields(alloc: Global, classes: &[usize], fields: &[FieldSet]) -> Result<FieldSets, Memory>
    ensures { IfOk result (λ classed. classed ≡ map (classed_field (class_in classes.now)) fields.now) }
{
    let mut classed = FieldSets::new(alloc);
    for field in fields {
        let field = class_field(alloc, classes, field)?;
        classed.push(field)?;
    }
    Ok(classed)
}

fn class_record(
    alloc: Global,
    classes: &[usize],
    fields: &Option<FieldSets>,
) -> Result<Option<FieldSets>, Memory>
    ensures { IfOk result (λ classed. classed ≡ option_map (map (classed_field (class_in classes.now))) fields.now) }
{
    match fields {
        None => Ok(None),
        Some(fields) => {
            let fields = class_fields(alloc, classes, fields.as_slice())?;
            Ok(Some(fields))
        }
    }
}

fn class_head(alloc: Global, classes: &[usize], head: &Head) -> Result<Head, Memory>
    ensures { IfOk result (λ classed. classed ≡ classed_head (class_in classes.now) head.now) }
{
    let function = class_function(alloc, classes, &head.function)?;
    let fields = class_record(alloc, classes, &head.fields)?;
    Ok(Head {
        boolean: head.boolean,
        integer: head.integer,
        function,
        fields,
    })
}

/// The states that were chosen, with classes in place of states.
pub fn classed_states(alloc: Global, a: &Automaton, classes: &Classes) -> Result<Automaton, Memory>
    requires { All (λ s. s < length a.now.states) classes.now.chosen.items }
    ensures states { IfOk result (λ d. d.states ≡ map (λ s. classed_state (class_in classes.now.numbers.items)
        (state_at a.now s)) classes.now.chosen.items) }
    ensures flows { IfOk result (λ d. d.flows ≡ []) }
{
    let numbers = classes.numbers.as_slice();
    let mut d = Automaton::with_room(alloc, classes.chosen.len())?;
    for s in classes.chosen.as_slice() {
        let head = class_head(alloc, numbers, a.head(StateId(*s)))?;
        d.state(a.polarity(StateId(*s)), head)?;
    }
    Ok(d)
}

/// Adds an edge between the classes of the ends of each edge.
pub fn add_class_flows(d: &mut Automaton, classes: &[usize], flows: &[Flow]) -> Result<(), Memory>
    requires { All (HasClassEnds d.old (class_in classes.now)) flows.now }
    ensures { OnOk result (AddsFlows d.old d.new (IsFlowOfClasses (class_in classes.now) flows.now)) }
{
    for flow in flows {
        let negative = class_of(classes, flow.negative.0);
        let positive = class_of(classes, flow.positive.0);
        d.add_flow(StateId(negative), StateId(positive))?;
    }
    Ok(())
}

/// The same binders, each with the class of its state.
pub fn classed_env(alloc: Global, env: &Env, classes: &[usize]) -> Result<Env, Memory>
    ensures { IfOk result (λ classed. classed ≡ map (renamed_entry (class_in classes.now)) env.now) }
{
    let mut classed = Env::new(alloc);
    for entry in env.as_slice() {
        classed.push(EnvEntry {
            binder: entry.binder,
            state: StateId(class_of(classes, entry.state.0)),
        })?;
    }
    Ok(classed)
}
