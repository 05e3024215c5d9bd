//! Which lines may stand behind those before them.
ghost use Rattle.std.specs.Prelude.{◌≡◌, ◌↔◌, ◌<◌, All, IsTrue, OnOk};
ghost use Rattle.mls_deriv.specs.Texts.{Given, none_given, after, Stands, IsRuleInRange, puts_behind};
ghost use Rattle.mls_deriv.specs.inner.GivenLines.{IsGiven, MayPut, Puts};

use crate::derivation::{SectionLine, StepLine, StepRule};
use mls_base::memory::Memory;
use std::alloc::Global;
use std::collections::BTreeSet;

/// What the lines of a section so far have given: how many steps, which let numbers, and the variables that the `put`
/// lines of the last step give a node, if it is a step by pairs that nothing else followed.
#[derive(Drop)]
pub struct GivenLines {
    steps: usize,
    lets: BTreeSet<usize>,
    puts: Option<BTreeSet<usize>>,
}

impl GivenLines {
    /// What no line gives.
    pub fn new(alloc: Global) -> GivenLines
        ensures { IsGiven none_given result }
    {
        GivenLines {
            steps: 0,
            lets: BTreeSet::new(alloc),
            puts: None,
        }
    }

    /// Whether the line may stand here, in a section of so many nodes.
    pub fn may_stand(&self, nodes: usize, line: &SectionLine) -> bool
        ensures { (g : Given) → IsGiven g self.now → IsTrue result ↔ Stands nodes g line.now }
    {
        match line {
            SectionLine::Let(k, step) => *step < self.steps && !self.lets.contains(k),
            SectionLine::Step(step) => is_in_range(nodes, self.steps, step.get()),
            SectionLine::Put(x, n) => n.0 < nodes && self.may_put(*x),
            SectionLine::Pair(_, i, j) => i.0 < nodes && j.0 < nodes && self.puts.is_some(),
        }
    }

    // Whether a `put` line of the variable may stand here.
    fn may_put(&self, x: usize) -> bool
        ensures { (g : Given) → IsGiven g self.now → IsTrue result ↔ MayPut g x }
    {
        match &self.puts {
            None => false,
            Some(variables) => !variables.contains(&x),
        }
    }

    /// Takes note of a line.
    ///
    /// # Errors
    ///
    /// `Memory` where memory is wanting.
    pub fn take(&mut self, alloc: Global, line: &SectionLine) -> Result<(), Memory>
        ensures { (g : Given) → IsGiven g self.old → OnOk result (IsGiven (after g line.now) self.new) }
    {
        match line {
            SectionLine::Let(k, _) => {
                self.lets.insert(*k)?;
                self.puts = None;
            }
            SectionLine::Step(step) => {
                self.steps = self.steps.checked_add(1).ok_or(Memory)?;
                self.puts = puts_behind(alloc, &step.get().rule);
            }
            SectionLine::Put(x, _) => {
                if let Some(variables) = &mut self.puts {
                    variables.insert(*x)?;
                }
            }
            SectionLine::Pair(_, _, _) => {}
        }
        Ok(())
    }
}

// Only a step by pairs may be followed by `put` and `pair` lines.
fn puts_behind(alloc: Global, rule: &StepRule) -> Option<BTreeSet<usize>>
    ensures { Puts (puts_behind rule.now) result }
{
    match rule {
        StepRule::Sub(_) => Some(BTreeSet::new(alloc)),
        _ => None,
    }
}

// Whether the nodes and the earlier steps that a step names are there.
fn is_in_range(nodes: usize, steps: usize, step: &StepLine) -> bool
    ensures { IsTrue result ↔ (IsRuleInRange nodes steps step.now.rule
        × All (λ entry. entry.node.0 < nodes) step.now.env × (step.now.root.0 < nodes)) }
{
    is_rule_in_range(nodes, steps, &step.rule) && step.env.are_low(nodes) && step.root.0 < nodes
}

// Whether those that its rule names are.
fn is_rule_in_range(nodes: usize, steps: usize, rule: &StepRule) -> bool
    ensures { IsTrue result ↔ IsRuleInRange nodes steps rule.now }
{
    match rule {
        StepRule::Var => true,
        StepRule::Use(s) => *s < steps,
        StepRule::Name(n) => n.0 < nodes,
        StepRule::Lit => true,
        StepRule::Fun(s) => *s < steps,
        StepRule::App(s, t) => *s < steps && *t < steps,
        StepRule::Make(numbers) => numbers.as_slice().iter().all(|s| *s < steps),
        StepRule::Proj(s) => *s < steps,
        StepRule::If(s, t, u) => *s < steps && *t < steps && *u < steps,
        StepRule::Let(s, t) => *s < steps && *t < steps,
        StepRule::Rec(s) => *s < steps,
        StepRule::Sub(s) => *s < steps,
    }
}
