//! The edges of the scheme of a book.
ghost use Rattle.std.specs.Prelude.{◌≡◌, ◌↔◌, ◌⊎◌, ◌<◌, length, All, Contains, OnOk};
ghost use Rattle.mls_automaton.specs.declared.automaton.Polarity.TheVariants.{Positive, Negative};
ghost use Rattle.mls_automaton.specs.Automata.{HasFlow, IsState};
ghost use Rattle.mls_book.specs.Books.{IsClosedBook};
ghost use Rattle.mls_scheme.specs.steps.States.{AreNodeStates};
ghost use Rattle.mls_scheme.specs.steps.Uses.{AreVariablesBelow, IsEdge, IsUsedPair, uses_at};

use crate::absorb::add_flows;
use crate::uses::uses_of;
use mls_automaton::automaton::{Automaton, Polarity};
use mls_automaton::state_set::{StateId, StateSet};
use mls_base::memory::Memory;
use mls_book::book::Book;
use std::alloc::Global;

// Adds an edge from each of these states to each of those.
fn add_pairs(
    automaton: &mut Automaton,
    negative: &StateSet,
    positive: &StateSet,
) -> Result<(), Memory>
    requires negative { All (IsState automaton.old Negative) negative.now }
    requires positive { All (IsState automaton.old Positive) positive.now }
    ensures states { automaton.new.states ≡ automaton.old.states }
    ensures flows { OnOk result ((n p : _) → HasFlow automaton.new n p
        ↔ HasFlow automaton.old n p ⊎ (Contains negative.now n × Contains positive.now p)) }
{
    for n in negative.as_slice() {
        add_flows(automaton, StateId(*n), positive)?;
    }
    Ok(())
}

// The same for each variable.
fn add_edges(
    automaton: &mut Automaton,
    negative: &[StateSet],
    positive: &[StateSet],
) -> Result<(), Memory>
    requires negative { (x : _) → All (IsState automaton.old Negative) (uses_at negative.now x) }
    requires positive { (x : _) → All (IsState automaton.old Positive) (uses_at positive.now x) }
    requires size { length negative.now ≡ length positive.now }
    ensures states { automaton.new.states ≡ automaton.old.states }
    ensures flows { OnOk result ((n p : _) → HasFlow automaton.new n p
        ↔ HasFlow automaton.old n p ⊎ ((x : _) × IsUsedPair negative.now positive.now x n p)) }
{
    for x in 0..negative.len() {
        add_pairs(automaton, &negative[x], &positive[x])?;
    }
    Ok(())
}

/// Adds an edge from each negative top to each positive one that has a variable in common with it.
///
/// # Errors
///
/// `Memory` where memory is wanting.
pub fn edges_of(
    alloc: Global,
    automaton: &mut Automaton,
    book: &Book,
    signs: &[Option<Polarity>],
    vars: usize,
) -> Result<(), Memory>
    requires book { IsClosedBook book.now }
    requires size { length signs.now ≡ length book.now }
    requires variables { AreVariablesBelow vars book.now }
    requires states { AreNodeStates book.now signs.now automaton.old }
    ensures states { automaton.new.states ≡ automaton.old.states }
    ensures flows { OnOk result ((n p : _) → HasFlow automaton.new n p ↔ IsEdge book.now signs.now n p) }
{
    if vars == 0 {
        return Ok(());
    }
    let negative = uses_of(alloc, book, signs, Polarity::Negative, vars)?;
    let positive = uses_of(alloc, book, signs, Polarity::Positive, vars)?;
    add_edges(automaton, negative.as_slice(), positive.as_slice())?;
    Ok(())
}
