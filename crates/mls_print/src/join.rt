//! The combined head of a set of states.
ghost use Rattle.std.specs.Prelude.{◌≡◌, ◌<◌, ◌++◌, length, option_map, is_some, All, IfOk, OnOk};
ghost use Rattle.std.specs.List.{list_any};
ghost use Rattle.mls_automaton.specs.Automata.{head_at};
ghost use Rattle.mls_print.specs.steps.Flat.{domain_in, codomain_in};
ghost use Rattle.mls_print.specs.steps.Tables.{IsFunctionOf};
ghost use Rattle.mls_print.specs.steps.Joining.{arms_in, function_of_all};

use crate::sets::rising;
use mls_automaton::automaton::{Automaton, Head};
use mls_automaton::state_set::StateId;
use mls_base::memory::Memory;
use std::alloc::Global;

/// Whether a member of the set has `bool`.
pub fn has_boolean(automaton: &Automaton, set: &[usize]) -> bool
    requires { All (λ s. s < length automaton.now.states) set.now }
    ensures { result ≡ list_any (λ s. (head_at automaton.now s).boolean) set.now }
{
    for s in set {
        if automaton.head(StateId(*s)).boolean {
            return true;
        }
    }
    false
}

/// Whether a member of the set has `int`.
pub fn has_integer(automaton: &Automaton, set: &[usize]) -> bool
    requires { All (λ s. s < length automaton.now.states) set.now }
    ensures { result ≡ list_any (λ s. (head_at automaton.now s).integer) set.now }
{
    for s in set {
        if automaton.head(StateId(*s)).integer {
            return true;
        }
    }
    false
}

/// The domains and the codomains of the members that have a function, united.
#[derive(Drop)]
pub struct JoinedArms {
    pub domain: Vec<usize>,
    pub codomain: Vec<usize>,
}

/// The function of the combined head.
pub fn joined_function(
    alloc: Global,
    automaton: &Automaton,
    set: &[usize],
) -> Result<Option<JoinedArms>, Memory>
    requires { All (λ s. s < length automaton.now.states) set.now }
    ensures { IfOk result (λ arms. IsFunctionOf (function_of_all automaton.now set.now) (option_map arms_in arms)) }
{
    if !has_function(automaton, set) {
        return Ok(None);
    }
    let mut domain = Vec::new(alloc);
    let mut codomain = Vec::new(alloc);
    for s in set {
        add_arms(&mut domain, &mut codomain, automaton.head(StateId(*s)))?;
    }
    Ok(Some(JoinedArms {
        domain: rising(domain),
        codomain: rising(codomain),
    }))
}

// Whether a member of the set has a function.
fn has_function(automaton: &Automaton, set: &[usize]) -> bool
    requires { All (λ s. s < length automaton.now.states) set.now }
    ensures { result ≡ list_any (λ s. is_some (head_at automaton.now s).function) set.now }
{
    for s in set {
        if automaton.head(StateId(*s)).function.is_some() {
            return true;
        }
    }
    false
}

// Adds the domain and the codomain of a head.
fn add_arms(domain: &mut Vec<usize>, codomain: &mut Vec<usize>, head: &Head) -> Result<(), Memory>
    ensures domain { OnOk result (domain.new.items ≡ domain.old.items ++ domain_in head.now.function) }
    ensures codomain { OnOk result (codomain.new.items ≡ codomain.old.items ++ codomain_in head.now.function) }
{
    if let Some(arms) = &head.function {
        domain.extend_from_slice(arms.domain.as_slice())?;
        codomain.extend_from_slice(arms.codomain.as_slice())?;
    }
    Ok(())
}
