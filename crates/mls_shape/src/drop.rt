//! A scheme without its redundant edges.
ghost use Rattle.std.specs.Prelude.{◌≡◌, [], IfOk, OnOk, All, Contains, ◌↔◌, ◌⊎◌};
ghost use Rattle.mls_automaton.specs.declared.scheme.Scheme.{Scheme};
ghost use Rattle.mls_automaton.specs.Automata.{flow, HasFlow, HasTrueFlows};
ghost use Rattle.mls_automaton.specs.Models.{IsDeterministic};
ghost use Rattle.mls_automaton.specs.Schemes.{AreEquivalentSchemes, HaveSameBinders, IsScheme};
ghost use Rattle.mls_flow.specs.Admissible.{IsRedundant};
ghost use Rattle.mls_flow.specs.Needs.{IsPair};
ghost use Rattle.mls_shape.specs.Dropped.{DropsRedundant};

use mls_automaton::automaton::{Automaton, Flow};
use mls_automaton::combine::copied_head;
use mls_automaton::scheme::{Env, Scheme};
use mls_automaton::state_set::StateId;
use mls_base::memory::Memory;
use mls_flow::redundant::irredundant_flows;
use std::alloc::Global;

/// The scheme without its redundant edges: those whose ends are below one another by their heads alone. Its states are
/// the same.
///
/// # Errors
///
/// `Memory` where memory is wanting.
pub fn drop_redundant_flows(alloc: Global, s: &Scheme) -> Result<Scheme, Memory>
    requires scheme { IsScheme s.now }
    requires deterministic { IsDeterministic s.now.automaton }
    ensures drops { IfOk result (DropsRedundant s.now) }
    ensures scheme { IfOk result IsScheme }
    ensures equivalent { IfOk result (AreEquivalentSchemes s.now) }
    ensures binders { IfOk result (HaveSameBinders s.now) }
    ensures deterministic { IfOk result (λ (d : Scheme). IsDeterministic d.automaton) }
    ensures irredundant { IfOk result (λ (d : Scheme). (n p : _) → ¬ IsRedundant d.automaton n p) }
{
    let flows = irredundant_flows(alloc, &s.automaton)?;
    let mut automaton = states_of(alloc, &s.automaton)?;
    add_each(&mut automaton, flows.as_slice())?;
    let env = copied_env(&s.env)?;
    Ok(Scheme {
        automaton,
        env,
        root: s.root,
    })
}

fn copied_env(env: &Env) -> Result<Env, Memory>
    ensures { IfOk result (λ copy. copy ≡ env.now) }
{
    let copy = env.clone()?;
    Ok(copy)
}

// The states of an automaton, without edges.
fn states_of(alloc: Global, a: &Automaton) -> Result<Automaton, Memory>
    ensures states { IfOk result (λ b. b.states ≡ a.now.states) }
    ensures flows { IfOk result (λ b. b.flows ≡ []) }
{
    let mut states = Automaton::with_room(alloc, a.len())?;
    for s in 0..a.len() {
        let head = copied_head(a.head(StateId(s)))?;
        states.state(a.polarity(StateId(s)), head)?;
    }
    Ok(states)
}

// Adds these edges.
fn add_each(automaton: &mut Automaton, flows: &[Flow]) -> Result<(), Memory>
    requires { All (IsPair automaton.old) flows.now }
    ensures states { OnOk result (automaton.new.states ≡ automaton.old.states) }
    ensures flows { OnOk result ((n p : _) → HasFlow automaton.new n p
        ↔ HasFlow automaton.old n p ⊎ Contains flows.now (flow n p)) }
{
    for edge in flows {
        automaton.add_flow(edge.negative, edge.positive)?;
    }
    Ok(())
}
