//! The steps of a section so far, and questions to environments.
ghost use Rattle.std.specs.Prelude.{◌≡◌, ◌↔◌, ◌++◌, ◌∷◌, [], IfOk, IfSome, OnOk, IsTrue, slice_get, option_map, length};
ghost use Rattle.mls_deriv.specs.Steps.{IsRising};
ghost use Rattle.mls_deriv.specs.inner.Rules.{about, last_of, without, AreLow};

use crate::derivation::{BinderNode, StepLine};
use mls_base::memory::Memory;
use std::alloc::Global;
use std::marker::Model;

/// Steps by their numbers, each with binders that rise. Contracts see the list.
#[derive(Drop)]
pub struct Steps<'a> {
    steps: Vec<&'a StepLine>,
}

impl<'a> Model for Steps<'a> {
    ghost use Rattle.std.specs.Prelude.{All, List, map};
    ghost use Rattle.mls_deriv.specs.declared.derivation.StepLine.{StepLine};
    ghost use Rattle.mls_deriv.specs.Steps.{IsRising};

    ghost Value = { List StepLine };

    ghost view = { λ s. map (λ step. step.now) s.steps.items };

    ghost invariant = { λ s. All (λ step. IsRising step.now.env) s.steps.items };
}

impl<'a> Steps<'a> {
    /// No step. It allocates nothing.
    pub fn new(alloc: Global) -> Steps<'a>
        ensures { result ≡ [] }
    {
        Steps {
            steps: Vec::new(alloc),
        }
    }

    /// One more step.
    pub fn push(&mut self, step: &'a StepLine) -> Result<(), Memory>
        requires { IsRising step.now.env }
        ensures { OnOk result (self.new ≡ self.old ++ step.now ∷ []) }
    {
        self.steps.push(step)?;
        Ok(())
    }

    /// How many steps there are.
    pub fn len(&self) -> usize
        ensures { result ≡ length self.now }
    {
        self.steps.len()
    }

    /// The step of this number.
    pub fn get(&self, number: usize) -> Option<&'a StepLine>
        ensures rising { IfSome result (λ step. IsRising step.now.env) }
        ensures found { option_map (λ step. step.now) result ≡ slice_get self.now number }
    {
        if number < self.steps.len() {
            Some(self.steps[number])
        } else {
            None
        }
    }

    /// The last step.
    pub fn last(&self) -> Option<&'a StepLine>
        ensures { option_map (λ step. step.now) result ≡ last_of self.now }
    {
        let count = self.steps.len();
        if count == 0 {
            None
        } else {
            self.get(count - 1)
        }
    }

    /// The step of this number, if it is about this node of the term.
    pub fn about(&self, number: usize, part: usize) -> Option<&'a StepLine>
        ensures rising { IfSome result (λ step. IsRising step.now.env) }
        ensures found { option_map (λ step. step.now) result ≡ about self.now number part }
    {
        match self.get(number) {
            None => None,
            Some(step) => { if step.node == part { Some(step) } else { None } }
        }
    }
}

/// Whether both are the same environment.
pub fn is_same(env: &[BinderNode], other: &[BinderNode]) -> bool
    ensures { IsTrue result ↔ (env.now ≡ other.now) }
{
    if env.len() != other.len() {
        return false;
    }
    for i in 0..other.len() {
        if env[i] != other[i] {
            return false;
        }
    }
    true
}

/// Whether the environment is the other one without this binder.
pub fn is_without(env: &[BinderNode], other: &[BinderNode], binder: usize) -> bool
    ensures { IsTrue result ↔ (env.now ≡ without binder other.now) }
{
    let mut at = 0;
    for entry in other {
        if entry.binder != binder {
            if at >= env.len() || env[at] != *entry {
                return false;
            }
            at += 1;
        }
    }
    at == env.len()
}

/// Whether the binders rise strictly.
pub fn is_rising(env: &[BinderNode]) -> bool
    ensures { IsTrue result ↔ IsRising env.now }
{
    for i in 1..env.len() {
        if env[i - 1].binder >= env[i].binder {
            return false;
        }
    }
    true
}

/// Whether all nodes are below this number.
pub fn are_low(env: &[BinderNode], count: usize) -> bool
    ensures { IsTrue result ↔ AreLow count env.now }
{
    env.iter().all(|entry| entry.node.0 < count)
}
