//! Pairs of states in the order in which they are met, each once, with the way back to the roots.
ghost use Rattle.std.specs.Prelude.{◌≡◌, ◌↔◌, ◌⊎◌, ◌<◌, ◌≤◌, ◌++◌, ◌∷◌, [], length, Contains, reverse, IfOk, OnOk};
ghost use Rattle.std.specs.Prelude.{OnErr, IsTrue};
ghost use Rattle.mls_subsume.specs.Searches.{met_at};
ghost use Rattle.mls_subsume.specs.steps.Queues.{IsLinkBelow, IsMet, Meets, met_of, partners_at, steps_by, visit_at};

use crate::verdict::{StatePair, Step};
use mls_automaton::state_set::{StateId, StateSet};
use mls_base::list::List;
use mls_base::memory::Memory;
use std::alloc::Global;
use std::marker::Model;

/// How a pair was met: from the pair with this number, by this step.
#[derive(Drop)]
pub struct Link {
    pub from: usize,
    pub step: Step,
}

/// A pair that was met. The first one has no link.
#[derive(Drop)]
pub struct Visit {
    pub pair: StatePair,
    pub link: Option<Link>,
}

/// The pairs that were met. Contracts see them with their steps.
#[derive(Drop)]
pub struct Queue {
    visits: Vec<Visit>,
    // For each general state the special states that it is paired with.
    partners: Vec<StateSet>,
}

impl Model for Queue {
    ghost use Rattle.std.specs.Prelude.{length};
    ghost use Rattle.mls_subsume.specs.steps.Queues.{IsQueue, Queue, met_of};

    ghost Value = { Queue };

    ghost view = { λ a. record { states = length a.partners.items; met = met_of a.visits.items } };

    ghost invariant = { λ a. IsQueue a.visits.items a.partners.items };
}

impl Queue {
    /// The pair of the roots, for so many general states.
    ///
    /// # Errors
    ///
    /// `Memory` where memory is wanting.
    pub fn new(alloc: Global, states: usize, roots: StatePair) -> Result<Queue, Memory>
        requires { roots.general.0 < states }
        ensures states { IfOk result (λ queue. queue.states ≡ states) }
        ensures met { IfOk result (λ queue. queue.met
            ≡ record { general = roots.general.0; special = roots.special.0; steps = [] } ∷ []) }
    {
        let mut partners = no_partners(alloc, states)?;
        note(&mut partners, roots)?;
        let first = Visit {
            pair: roots,
            link: None,
        };
        let visits = vec![in alloc; first]?;
        Ok(Queue { visits, partners })
    }

    /// Meets a pair by a step from the pair with this number. One that was met before stays as it is.
    ///
    /// # Errors
    ///
    /// `Memory` where memory is wanting.
    pub fn meet(&mut self, from: usize, step: Step, pair: StatePair) -> Result<(), Memory>
        requires from { from < length self.old.met }
        requires state { pair.general.0 < self.old.states }
        ensures states { OnOk result (self.new.states ≡ self.old.states) }
        ensures met { OnOk result (Meets self.old.met from step pair.general.0 pair.special.0 self.new.met) }
    {
        if self.partners[pair.general.0].contains(pair.special) {
            return Ok(());
        }
        self.visits.reserve(1)?;
        note(&mut self.partners, pair)?;
        let link = Some(Link { from, step });
        // There is room for it.
        self.visits.push(Visit { pair, link })?;
        Ok(())
    }

    /// How many pairs were met.
    pub fn len(&self) -> usize
        ensures { result ≡ length self.now.met }
    {
        self.visits.len()
    }

    /// Whether no pair has this number.
    pub fn ends_before(&self, number: usize) -> bool
        ensures { IsTrue result ↔ length self.now.met ≤ number }
    {
        self.len() <= number
    }

    /// The pair with this number.
    pub fn pair(&self, number: usize) -> StatePair
        requires { number < length self.now.met }
        ensures general { result.general.0 ≡ (met_at self.now.met number).general }
        ensures special { result.special.0 ≡ (met_at self.now.met number).special }
    {
        self.visits[number].pair
    }

    /// The steps by which the pair with this number was met.
    ///
    /// # Errors
    ///
    /// `Memory` where memory is wanting.
    pub fn steps(&self, alloc: Global, number: usize) -> Result<List<Step>, Memory>
        requires { number < length self.now.met }
        ensures { IfOk result (λ steps. steps ≡ (met_at self.now.met number).steps) }
    {
        let backward = steps_back(alloc, self.visits.as_slice(), number)?;
        Ok(backward.reversed())
    }

    /// The special states that a general state is paired with.
    pub fn partners(&self, general: StateId) -> &StateSet
        requires { general.0 < self.now.states }
        ensures { (s : _) → Contains result.now s ↔ IsMet self.now.met general.0 s }
    {
        &self.partners[general.0]
    }
}

// So many empty sets.
fn no_partners(alloc: Global, states: usize) -> Result<Vec<StateSet>, Memory>
    ensures len { IfOk result (λ sets. length sets.items ≡ states) }
    ensures none { IfOk result (λ sets. (g : _) → partners_at sets.items g ≡ []) }
{
    let mut sets = Vec::with_capacity(alloc, states)?;
    for _ in 0..states {
        sets.push(StateSet::new(alloc))?;
    }
    Ok(sets)
}

// Notes a pair.
fn note(partners: &mut Vec<StateSet>, pair: StatePair) -> Result<(), Memory>
    requires { pair.general.0 < length partners.old.items }
    ensures len { length partners.new.items ≡ length partners.old.items }
    ensures added { OnOk result ((g s : _) → Contains (partners_at partners.new.items g) s
        ↔ Contains (partners_at partners.old.items g) s ⊎ ((g ≡ pair.general.0) × (s ≡ pair.special.0))) }
    ensures err { OnErr result ((g : _) → partners_at partners.new.items g ≡ partners_at partners.old.items g) }
{
    partners[pair.general.0].insert(pair.special)?;
    Ok(())
}

// The steps by which a pair was met, the last one first.
fn steps_back(alloc: Global, visits: &[Visit], number: usize) -> Result<List<Step>, Memory>
    requires low { number < length visits.now }
    requires linked { (k : _) → k < length visits.now → IsLinkBelow k (visit_at visits.now k).link }
    ensures { IfOk result (λ steps. reverse steps ≡ (met_at (met_of visits.now) number).steps) }
{
    let mut steps = List::new(alloc);
    let mut at = number;
    while let Some(link) = &visits[at].link {
        steps.push(link.step.copy()?)?;
        at = link.from;
    }
    Ok(steps)
}
