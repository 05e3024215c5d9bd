//! Combined heads.
ghost use Rattle.std.specs.Prelude.{◌≡◌, ◌<◌, ◌+◌, ◌⊎◌, List, length, map, option_map, All, IfOk, IsTrue, OnOk, Some};
ghost use Rattle.mls_automaton.specs.Automata.{head_at};
ghost use Rattle.mls_automaton.specs.Heads.{AreRising, combined, combined_functions, combined_records, combined_two};
ghost use Rattle.mls_automaton.specs.Heads.{no_parts, parts_of, set_at, IsSameParts};
ghost use Rattle.mls_automaton.specs.Models.{HasRisingLabels, IsClosed};
ghost use Rattle.mls_automaton.specs.declared.automaton.FieldSet.{FieldSet as IsField};
ghost use Rattle.mls_automaton.specs.steps.Combining.{IsJoined, IsLeft, IsNext, IsSameFunction, IsSameRecord, IsUnited};
ghost use Rattle.mls_automaton.specs.steps.Combining.{TakesOne, TakesTwo};

use crate::automaton::{Arms, Automaton, FieldSet, FieldSets, Head, Polarity};
use crate::state_set::StateId;
use mls_base::memory::Memory;
use std::alloc::Global;
use std::cmp::Ordering;

// The function of the one, of the other, or of both with united sets.
fn combine_functions(first: Option<Arms>, second: Option<Arms>) -> Result<Option<Arms>, Memory>
    ensures { IfOk result (λ both. IsSameFunction both (combined_functions first second)) }
{
    match first {
        None => Ok(second),
        Some(arms) => match second {
            None => Ok(Some(arms)),
            Some(other) => {
                let arms = unite_arms(&arms, &other)?;
                Ok(Some(arms))
            }
        },
    }
}

fn unite_arms(first: &Arms, second: &Arms) -> Result<Arms, Memory>
    ensures { IfOk result (λ both. IsSameFunction (Some both) (combined_functions (Some first.now) (Some second.now))) }
{
    let domain = first.domain.union(&second.domain)?;
    let codomain = first.codomain.union(&second.codomain)?;
    Ok(Arms { domain, codomain })
}

// The field of two that have one label.
fn unite_fields(first: FieldSet, second: &FieldSet) -> Result<FieldSet, Memory>
    ensures { IfOk result (IsUnited first second.now) }
{
    let set = first.set.union(&second.set)?;
    Ok(FieldSet {
        label: first.label,
        set,
    })
}

// Which of the two next fields has the lower label, where the next field of a list is its last one. A list with none
// counts as higher.
fn next_of(first: &[FieldSet], second: &[FieldSet]) -> Ordering
    requires left { (0 < length first.now) ⊎ (0 < length second.now) }
    ensures { IsNext first.now second.now result }
{
    if second.is_empty() {
        return Ordering::Less;
    }
    if first.is_empty() {
        return Ordering::Greater;
    }
    first[first.len() - 1]
        .label
        .cmp(&second[second.len() - 1].label)
}

// Takes the next field of one record alone, and adds it where the polarity keeps it.
fn take_one(
    both: &mut FieldSets,
    polarity: Polarity,
    rest: &mut Vec<FieldSet>,
) -> Result<(), Memory>
    requires { 0 < length rest.old.items }
    ensures { OnOk result (TakesOne polarity rest.old.items rest.new.items both.old both.new) }
{
    if let Some(field) = rest.pop() {
        if polarity == Polarity::Negative {
            both.push(field)?;
        }
    }
    Ok(())
}

// Takes the next fields of both records, which have one label.
fn take_two(
    both: &mut FieldSets,
    first: &mut Vec<FieldSet>,
    second: &mut Vec<FieldSet>,
) -> Result<(), Memory>
    requires first { 0 < length first.old.items }
    requires second { 0 < length second.old.items }
    ensures { OnOk result (TakesTwo first.old.items first.new.items second.old.items second.new.items both.old
        both.new) }
{
    if let Some(field) = first.pop() {
        if let Some(other) = second.pop() {
            both.push(unite_fields(field, &other)?)?;
        }
    }
    Ok(())
}

// Takes what has the least label of what is left of two records.
fn take_next(
    both: &mut FieldSets,
    polarity: Polarity,
    first: &mut Vec<FieldSet>,
    second: &mut Vec<FieldSet>,
) -> Result<(), Memory>
    requires left { (0 < length first.old.items) ⊎ (0 < length second.old.items) }
    ensures merging { (one other : List IsField) → AreRising one → AreRising other
        → IsLeft polarity one other first.old.items second.old.items both.old
        → OnOk result (IsLeft polarity one other first.new.items second.new.items both.new) }
    ensures fewer { OnOk result (length first.new.items + length second.new.items
        < length first.old.items + length second.old.items) }
{
    match next_of(first.as_slice(), second.as_slice()) {
        Ordering::Less => take_one(both, polarity, first),
        Ordering::Greater => take_one(both, polarity, second),
        Ordering::Equal => take_two(both, first, second),
    }
}

// The record that has what two have together.
fn merge_fields(
    alloc: Global,
    polarity: Polarity,
    first: FieldSets,
    second: FieldSets,
) -> Result<FieldSets, Memory>
    requires first { AreRising first }
    requires second { AreRising second }
    ensures { IfOk result (IsJoined polarity first second) }
{
    let mut one = first.reversed();
    let mut other = second.reversed();
    let mut both = FieldSets::new(alloc);
    while !one.is_empty() || !other.is_empty() {
        take_next(&mut both, polarity, &mut one, &mut other)?;
    }
    Ok(both)
}

// The record of the one, of the other, or of both put together.
fn combine_records(
    alloc: Global,
    polarity: Polarity,
    first: Option<FieldSets>,
    second: Option<FieldSets>,
) -> Result<Option<FieldSets>, Memory>
    requires first { HasRisingLabels first }
    requires second { HasRisingLabels second }
    ensures labels { IfOk result HasRisingLabels }
    ensures fields { IfOk result (λ both. IsSameRecord (option_map set_at both)
        (combined_records polarity (option_map set_at first) (option_map set_at second))) }
{
    match first {
        None => Ok(second),
        Some(fields) => match second {
            None => Ok(Some(fields)),
            Some(others) => {
                let both = merge_fields(alloc, polarity, fields, others)?;
                Ok(Some(both))
            }
        },
    }
}

/// The combined head of two, made of their parts: what one of them has is there; where both have it, sets are united. Of
/// two records, a positive head has the labels of both, and a negative head the labels of one of them.
///
/// # Errors
///
/// `Memory` where memory is wanting.
pub fn unite_heads(
    alloc: Global,
    polarity: Polarity,
    first: Head,
    second: Head,
) -> Result<Head, Memory>
    requires first { HasRisingLabels first.fields }
    requires second { HasRisingLabels second.fields }
    ensures parts { IfOk result (λ head. IsSameParts (parts_of head)
        (combined_two polarity (parts_of first) (parts_of second))) }
    ensures labels { IfOk result (λ head. HasRisingLabels head.fields) }
{
    let function = combine_functions(first.function, second.function)?;
    let fields = combine_records(alloc, polarity, first.fields, second.fields)?;
    Ok(Head {
        boolean: first.boolean || second.boolean,
        integer: first.integer || second.integer,
        function,
        fields,
    })
}

// The same of functions that stay.
fn copied_functions(first: &Option<Arms>, second: &Option<Arms>) -> Result<Option<Arms>, Memory>
    ensures { IfOk result (λ both. IsSameFunction both (combined_functions first.now second.now)) }
{
    match first {
        None => copied_function(second),
        Some(arms) => match second {
            None => copied_function(first),
            Some(other) => {
                let arms = unite_arms(arms, other)?;
                Ok(Some(arms))
            }
        },
    }
}

fn copied_function(function: &Option<Arms>) -> Result<Option<Arms>, Memory>
    ensures { IfOk result (λ copy. copy ≡ function.now) }
{
    let copy = function.clone()?;
    Ok(copy)
}

fn copied_record(fields: &Option<FieldSets>) -> Result<Option<FieldSets>, Memory>
    ensures { IfOk result (λ copy. copy ≡ fields.now) }
{
    let copy = fields.clone()?;
    Ok(copy)
}

/// The same of heads that stay.
///
/// # Errors
///
/// `Memory` where memory is wanting.
pub fn combine_heads(
    alloc: Global,
    polarity: Polarity,
    first: &Head,
    second: &Head,
) -> Result<Head, Memory>
    requires first { HasRisingLabels first.now.fields }
    requires second { HasRisingLabels second.now.fields }
    ensures parts { IfOk result (λ head. IsSameParts (parts_of head)
        (combined_two polarity (parts_of first.now) (parts_of second.now))) }
    ensures labels { IfOk result (λ head. HasRisingLabels head.fields) }
{
    let function = copied_functions(&first.function, &second.function)?;
    let one = copied_record(&first.fields)?;
    let other = copied_record(&second.fields)?;
    let fields = combine_records(alloc, polarity, one, other)?;
    Ok(Head {
        boolean: first.boolean || second.boolean,
        integer: first.integer || second.integer,
        function,
        fields,
    })
}

/// A copy of a head.
///
/// # Errors
///
/// `Memory` where memory is wanting.
pub fn copied_head(head: &Head) -> Result<Head, Memory>
    ensures { IfOk result (λ copy. copy ≡ head.now) }
{
    let copy = head.clone()?;
    Ok(copy)
}

// Whether no head of these states has anything.
fn are_nothing(a: &Automaton, members: &[usize]) -> bool
    requires { All (λ j. j < length a.now.states) members.now }
    ensures { IsTrue result → All (λ j. parts_of (head_at a.now j) ≡ no_parts) members.now }
{
    for j in members {
        if !a.head(StateId(*j)).is_nothing() {
            return false;
        }
    }
    true
}

/// The combined head of these states. It is put together by halves, so that each head is gone through as often as the
/// number of states has binary digits; the calls are as deep. For the most part one half has nothing, and adds nothing.
///
/// # Errors
///
/// `Memory` where memory is wanting.
pub fn combined_head(
    alloc: Global,
    a: &Automaton,
    polarity: Polarity,
    members: &[usize],
) -> Result<Head, Memory>
    requires closed { IsClosed a.now }
    requires in_range { All (λ j. j < length a.now.states) members.now }
    ensures parts { IfOk result (λ head. IsSameParts (parts_of head)
        (combined polarity (map (λ j. parts_of (head_at a.now j)) members.now))) }
    ensures labels { IfOk result (λ head. HasRisingLabels head.fields) }
{
    if members.is_empty() {
        return Ok(Head::empty());
    }
    if members.len() == 1 {
        return copied_head(a.head(StateId(members[0])));
    }
    let half = members.len() / 2;
    if are_nothing(a, &members[..half]) {
        return combined_head(alloc, a, polarity, &members[half..]);
    }
    if are_nothing(a, &members[half..]) {
        return combined_head(alloc, a, polarity, &members[..half]);
    }
    let first = combined_head(alloc, a, polarity, &members[..half])?;
    let second = combined_head(alloc, a, polarity, &members[half..])?;
    unite_heads(alloc, polarity, first, second)
}
