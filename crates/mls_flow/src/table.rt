//! Tables of flow: which negative states are below which positive ones.
ghost use Rattle.std.specs.Prelude.{◌≡◌, ◌↔◌, ◌<◌, length, All, Contains, IfOk, OnOk, IsTrue};
ghost use Rattle.mls_automaton.specs.declared.automaton.Polarity.TheVariants.{Negative, Positive};
ghost use Rattle.mls_automaton.specs.Automata.{IsState, flow};
ghost use Rattle.mls_automaton.specs.Models.{IsClosed, IsDeterministic};
ghost use Rattle.mls_flow.specs.Needs.{IsPair};
ghost use Rattle.mls_flow.specs.Tables.{IsExactAt, IsExactInBooksAt, OfAllPairs, OfPairs};

use crate::claims::{claims_of, number_each};
use crate::pairs::Pairs;
use crate::standing::standing;
use mls_automaton::automaton::{Automaton, Flow, Polarity};
use mls_automaton::state_set::StateId;
use mls_base::memory::Memory;
use std::alloc::Global;
use std::marker::Model;

/// Pairs of a negative and a positive state, and for which of them the one is below the other. Contracts see the two
/// lists.
#[derive(Drop)]
pub struct FlowTable {
    pairs: Pairs,
    marks: Vec<bool>,
}

impl Model for FlowTable {
    ghost use Rattle.std.specs.Prelude.{◌≡◌, length};
    ghost use Rattle.mls_flow.specs.Tables.{Table, marked};

    ghost Value = { Table };

    ghost view = { λ a. record { known = a.pairs.list; flows = marked a.pairs.list a.marks.items } };

    ghost invariant = { λ a. length a.marks.items ≡ length a.pairs.list };
}

impl FlowTable {
    /// Whether the negative state is below the positive one. It says no of a pair that the table does not know. It
    /// takes no memory.
    pub fn has(&self, negative: StateId, positive: StateId) -> bool
        ensures { IsTrue result ↔ Contains self.now.flows (flow negative.0 positive.0) }
    {
        match self.pairs.find(negative, positive) {
            None => false,
            Some(number) => self.marks[number],
        }
    }
}

/// The table of all pairs of a negative and a positive state. Time and room are those of `admissible_among` for so
/// many pairs.
///
/// # Errors
///
/// `Memory` where memory is wanting.
pub fn admissible(alloc: Global, a: &Automaton) -> Result<FlowTable, Memory>
    requires closed { IsClosed a.now }
    requires deterministic { IsDeterministic a.now }
    ensures admissible { IfOk result (λ t. OfAllPairs a.now (IsExactAt a.now t)) }
    ensures below { IfOk result (λ t. OfAllPairs a.now (IsExactInBooksAt a.now t)) }
{
    let pairs = all_pairs(alloc, a)?;
    let table = admissible_among(alloc, a, pairs.as_slice())?;
    Ok(table)
}

/// The table of these pairs and of all that they need: the pairs that matched heads name. Time is linear in the number
/// of pairs, and the parts of their heads, but for the search in maps.
///
/// # Errors
///
/// `Memory` where memory is wanting.
pub fn admissible_among(alloc: Global, a: &Automaton, wanted: &[Flow]) -> Result<FlowTable, Memory>
    requires closed { IsClosed a.now }
    requires deterministic { IsDeterministic a.now }
    requires states { All (IsPair a.now) wanted.now }
    ensures known { IfOk result (λ t. All (Contains t.known) wanted.now) }
    ensures pairs { IfOk result (λ t. All (IsPair a.now) t.known) }
    ensures admissible { IfOk result (λ t. OfPairs t.known (IsExactAt a.now t)) }
    ensures below { IfOk result (λ t. OfPairs t.known (IsExactInBooksAt a.now t)) }
{
    let mut pairs = Pairs::new(alloc, a.len())?;
    number_each(alloc, &mut pairs, wanted)?;
    let claims = claims_of(alloc, &mut pairs, a)?;
    let marks = standing(alloc, claims.as_slice())?;
    Ok(FlowTable { pairs, marks })
}

// All pairs of a negative and a positive state.
fn all_pairs(alloc: Global, a: &Automaton) -> Result<Vec<Flow>, Memory>
    ensures each { IfOk result (λ pairs. All (IsPair a.now) pairs.items) }
    ensures all { IfOk result (λ pairs. OfAllPairs a.now (λ n p. Contains pairs.items (flow n p))) }
{
    let mut pairs = Vec::new(alloc);
    for n in 0..a.len() {
        if is_state(a, Polarity::Negative, n) {
            add_pairs_of(&mut pairs, a, n)?;
        }
    }
    Ok(pairs)
}

// Adds the pairs of one negative state.
fn add_pairs_of(pairs: &mut Vec<Flow>, a: &Automaton, negative: usize) -> Result<(), Memory>
    requires state { IsState a.now Negative negative }
    requires each { All (IsPair a.now) pairs.old.items }
    ensures each { OnOk result (All (IsPair a.now) pairs.new.items) }
    ensures kept { OnOk result (All (Contains pairs.new.items) pairs.old.items) }
    ensures added { OnOk result ((p : _) → IsState a.now Positive p → Contains pairs.new.items (flow negative p)) }
{
    for p in 0..a.len() {
        if is_state(a, Polarity::Positive, p) {
            pairs.push(Flow {
                negative: StateId(negative),
                positive: StateId(p),
            })?;
        }
    }
    Ok(())
}

// Whether the state has this polarity.
fn is_state(a: &Automaton, polarity: Polarity, s: usize) -> bool
    requires { s < length a.now.states }
    ensures { IsTrue result ↔ IsState a.now polarity s }
{
    a.polarity(StateId(s)) == polarity
}
