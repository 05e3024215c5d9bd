//! Copies of automata in tables.
ghost use Rattle.std.specs.Prelude.{◌≡◌, ◌++◌, ◌∷◌, ℕ, [], length, map, IfOk, OnErr, OnOk};
ghost use Rattle.std.specs.List.Sorted.{IsPermutation, IsSorted};
ghost use Rattle.std.specs.Ordering.{nat_cmp};
ghost use Rattle.mls_automaton.specs.Models.{IsClosed};
ghost use Rattle.mls_automaton.specs.Sets.{Rises};
ghost use Rattle.mls_biunify.specs.Live.{free_state};
ghost use Rattle.mls_biunify.specs.steps.Absorbing.{AddsCopy, AreDistinct, AreEmpty, AreLoose, AreRenamedHeads};
ghost use Rattle.mls_biunify.specs.steps.Absorbing.{AreSigned, AreUnfilled, Claims, Fills, IsSameTable, renamed_pair};
ghost use Rattle.mls_biunify.specs.steps.Tables.{InsertsState, IsNumbered};

use crate::keep::remove_all;
use crate::rename::{Numbers, rename_head};
use crate::settlement::{link_all, store_heads};
use crate::table::Table;
use mls_automaton::automaton::{Automaton, Head, Polarity};
use mls_automaton::state_set::{StateId, StateSet};
use mls_base::memory::Memory;
use std::alloc::Global;

// Adds a copy of an automaton, and answers the numbers of its states. After an error the table is as before.
pub fn absorb(table: &mut Table, alloc: Global, a: &Automaton) -> Result<StateSet, Memory>
    requires { IsClosed a.now }
    ensures count { IfOk result (λ numbers. length numbers ≡ length a.now.states) }
    ensures rises { IfOk result Rises }
    ensures ok { IfOk result (λ numbers. AddsCopy table.old table.new a.now numbers) }
    ensures err { OnErr result (IsSameTable table.old table.new) }
    ensures is { IsNumbered table.new }
{
    let _limit = table.limit();
    let claimed = claim_all(table, alloc, a.len())?;
    let numbers = in_order(claimed);
    match fill(table, alloc, a, numbers.as_slice()) {
        Ok(set) => {
            let _filled = table.limit();
            Ok(set)
        }
        Err(e) => {
            remove_all(table, numbers);
            Err(e)
        }
    }
}

// The same numbers in order. Numbers that were freed in the opposite order come in order by themselves.
fn in_order(numbers: Vec<usize>) -> Vec<usize>
    ensures permutation { IsPermutation numbers.items result.items }
    ensures count { length result.items ≡ length numbers.items }
    ensures sorted { IsSorted nat_cmp result.items }
{
    let mut ordered = numbers;
    if !ordered.as_slice().is_sorted() {
        ordered.sort_unstable();
    }
    ordered
}

// Adds so many positive states with nothing, and answers their numbers. After an error the table is as before.
fn claim_all(table: &mut Table, alloc: Global, count: usize) -> Result<Vec<usize>, Memory>
    ensures count { IfOk result (λ numbers. length numbers.items ≡ count) }
    ensures distinct { IfOk result (λ numbers. AreDistinct numbers.items) }
    ensures ok { IfOk result (λ numbers. Claims table.old table.new numbers.items) }
    ensures err { OnErr result (IsSameTable table.old table.new) }
    ensures is { IsNumbered table.new }
{
    let _limit = table.limit();
    let mut numbers = Vec::new(alloc);
    for _ in 0..count {
        if claim(table, &mut numbers).is_err() {
            remove_all(table, numbers);
            return Err(Memory);
        }
    }
    let _claimed = table.limit();
    Ok(numbers)
}

// Adds one such state, and notes its number.
fn claim(table: &mut Table, numbers: &mut Vec<usize>) -> Result<(), Memory>
    ensures ok { OnOk result ((s : ℕ) × InsertsState table.old table.new s free_state
        × (numbers.new.items ≡ numbers.old.items ++ s ∷ [])) }
    ensures automaton { OnErr result (table.new.automaton ≡ table.old.automaton) }
    ensures there { OnErr result (table.new.there ≡ table.old.there) }
    ensures noted { OnErr result (numbers.new.items ≡ numbers.old.items) }
{
    numbers.reserve(1)?;
    let id = table.insert(Polarity::Positive, Head::empty())?;
    // There is room for it.
    numbers.push(id.0)?;
    Ok(())
}

// Makes a copy of an automaton of these states, and answers their set. After an error they have no heads and no edges.
fn fill(
    table: &mut Table,
    alloc: Global,
    a: &Automaton,
    numbers: &[usize],
) -> Result<StateSet, Memory>
    requires closed { IsClosed a.now }
    requires count { length numbers.now ≡ length a.now.states }
    requires rises { Rises numbers.now }
    requires loose { AreLoose table.old numbers.now }
    requires empty { AreEmpty table.old numbers.now }
    ensures set { IfOk result (λ set. set ≡ numbers.now) }
    ensures ok { OnOk result (Fills table.old table.new a.now numbers.now) }
    ensures err { OnErr result (AreUnfilled table.old table.new numbers.now) }
{
    let set = set_of(alloc, numbers)?;
    let heads = renamed_heads(alloc, a, numbers)?;
    let edges = renamed_flows(alloc, a, numbers)?;
    set_polarities(table, a, numbers);
    link_all(table, alloc, edges.as_slice())?;
    store_heads(table, heads);
    Ok(set)
}

// The numbers as a set.
fn set_of(alloc: Global, numbers: &[usize]) -> Result<StateSet, Memory>
    requires { Rises numbers.now }
    ensures { IfOk result (λ set. set ≡ numbers.now) }
{
    let mut set = StateSet::new(alloc);
    for s in numbers {
        set.push(StateId(*s))?;
    }
    Ok(set)
}

// The heads of the automaton under the new numbers.
fn renamed_heads(
    alloc: Global,
    a: &Automaton,
    numbers: &[usize],
) -> Result<Vec<(usize, Head)>, Memory>
    requires closed { IsClosed a.now }
    requires count { length numbers.now ≡ length a.now.states }
    requires rises { Rises numbers.now }
    ensures { IfOk result (λ heads. AreRenamedHeads a.now numbers.now (length a.now.states) heads.items) }
{
    let mut heads = Vec::with_capacity(alloc, a.len())?;
    for i in 0..a.len() {
        let head = rename_head(alloc, a.head(StateId(i)), &Numbers::At(numbers))?;
        heads.push((numbers[i], head))?;
    }
    Ok(heads)
}

// The edges of the automaton under the new numbers.
fn renamed_flows(
    alloc: Global,
    a: &Automaton,
    numbers: &[usize],
) -> Result<Vec<(usize, usize)>, Memory>
    requires closed { IsClosed a.now }
    requires count { length numbers.now ≡ length a.now.states }
    ensures { IfOk result (λ edges. edges.items ≡ map (renamed_pair numbers.now) a.now.flows) }
{
    let mut edges = Vec::with_capacity(alloc, a.flows().len())?;
    for flow in a.flows() {
        edges.push((numbers[flow.negative.0], numbers[flow.positive.0]))?;
    }
    Ok(edges)
}

// Gives these states the polarities of those of the automaton.
fn set_polarities(table: &mut Table, a: &Automaton, numbers: &[usize])
    requires count { length numbers.now ≡ length a.now.states }
    requires rises { Rises numbers.now }
    requires loose { AreLoose table.old numbers.now }
    requires empty { AreEmpty table.old numbers.now }
    ensures { AreSigned table.old a.now numbers.now (length a.now.states) table.new }
{
    let _limit = table.limit();
    for i in 0..a.len() {
        table.set_polarity(StateId(numbers[i]), a.polarity(StateId(i)));
    }
}
