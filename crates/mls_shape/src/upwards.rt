//! Classes from the last state to the first, where each head names alone later states, and states whose heads name
//! none: one look at each state is enough.
ghost use Rattle.std.specs.Prelude.{◌≡◌, ◌<◌, length, replicate, All, IfOk, IfSome, IsTrue, OnOk};
ghost use Rattle.std.specs.Ordering.{nat_cmp};
ghost use Rattle.std.specs.Cmp.Lexicographic.{slice_cmp};
ghost use Rattle.mls_automaton.specs.declared.automaton.FieldSet.{FieldSet};
ghost use Rattle.mls_automaton.specs.declared.automaton.Polarity.{Polarity};
ghost use Rattle.mls_automaton.specs.Models.{HasArmsIn, HasFieldsIn, HasStatesIn, IsClosed, IsDeterministic};
ghost use Rattle.mls_shape.specs.steps.Classes.{KeepsAlike};
ghost use Rattle.mls_shape.specs.steps.Upwards.{AreJoined, AreKeyed, Classifies, IsLeafBelow, IsLeafOrLast};
ghost use Rattle.mls_shape.specs.steps.Upwards.{NamesLater, NumbersClass, StandsBehind, is_leaf, names_none};

use crate::classes::{class_of, key_of};
use crate::key::{Key, number_or};
use crate::single::Singles;
use mls_automaton::automaton::{Arms, Automaton, FieldSet, FieldSets, Head};
use mls_automaton::state_set::{StateId, StateSet};
use mls_base::memory::Memory;
use std::alloc::Global;
use std::collections::BTreeMap;

// Whether a head names no state.
fn names_none(head: &Head) -> bool
    ensures { result ≡ names_none head.now }
{
    head.function.is_none() && head.fields.is_none()
}

// Whether the head of a state names none.
fn is_leaf(a: &Automaton, s: usize) -> bool
    requires { s < length a.now.states }
    ensures { result ≡ is_leaf a.now s }
{
    names_none(a.head(StateId(s)))
}

// Whether a state stands behind another one, or its head names none.
fn is_behind(a: &Automaton, s: usize, member: usize) -> bool
    ensures { IsTrue result → StandsBehind a.now s member }
{
    if s < member {
        return true;
    }
    member < a.len() && is_leaf(a, member)
}

// Whether all members of a set do so.
fn are_behind(a: &Automaton, s: usize, set: &StateSet) -> bool
    ensures { IsTrue result → All (StandsBehind a.now s) set.now }
{
    for member in set.as_slice() {
        if !is_behind(a, s, *member) {
            return false;
        }
    }
    true
}

fn arms_behind(a: &Automaton, s: usize, function: &Option<Arms>) -> bool
    ensures { IsTrue result → (p : Polarity) → HasArmsIn (λ q c. StandsBehind a.now s c) p function.now }
{
    match function {
        None => true,
        Some(arms) => are_behind(a, s, &arms.domain) && are_behind(a, s, &arms.codomain),
    }
}

fn sets_behind(a: &Automaton, s: usize, fields: &[FieldSet]) -> bool
    ensures { IsTrue result → All (λ (field : FieldSet). All (StandsBehind a.now s) field.set) fields.now }
{
    for field in fields {
        if !are_behind(a, s, &field.set) {
            return false;
        }
    }
    true
}

fn fields_behind(a: &Automaton, s: usize, fields: &Option<FieldSets>) -> bool
    ensures { IsTrue result → (p : Polarity) → HasFieldsIn (λ q c. StandsBehind a.now s c) p fields.now }
{
    match fields {
        None => true,
        Some(fields) => sets_behind(a, s, fields.as_slice()),
    }
}

// Whether a head names alone states behind this one, and states whose heads name none.
fn names_behind(a: &Automaton, s: usize, head: &Head) -> bool
    ensures { IsTrue result → (p : Polarity) → HasStatesIn (λ q c. StandsBehind a.now s c) p head.now }
{
    arms_behind(a, s, &head.function) && fields_behind(a, s, &head.fields)
}

// Whether each head names later states alone, and states whose heads name none.
fn name_later(a: &Automaton) -> bool
    ensures { IsTrue result → NamesLater a.now }
{
    for s in 0..a.len() {
        if !names_behind(a, s, a.head(StateId(s))) {
            return false;
        }
    }
    true
}

// The number of a class; a new class gets this one.
fn number_of_class(known: &mut Singles, class: usize, new: usize) -> Result<usize, Memory>
    ensures { IfOk result (λ number. NumbersClass class number known.old known.new) }
{
    if let Some(number) = known.get(class) {
        return Ok(number);
    }
    known.put(class, new)?;
    Ok(new)
}

// So many times 0.
fn zeros(alloc: Global, count: usize) -> Result<Vec<usize>, Memory>
    ensures { IfOk result (λ zeros. zeros.items ≡ replicate count 0) }
{
    let zeros = vec![in alloc; 0usize; count]?;
    Ok(zeros)
}

// Gives a state the class of its key. That of a new key is the state itself.
fn classify(
    classes: &mut Vec<usize>,
    known: &mut BTreeMap<Key, usize>,
    alloc: Global,
    a: &Automaton,
    s: usize,
) -> Result<(), Memory>
    requires low { s < length a.now.states }
    requires size { length classes.old.items ≡ length a.now.states }
    ensures { OnOk result (Classifies a.now s classes.old.items known.old classes.new.items known.new) }
{
    let key = key_of(alloc, a, classes.as_slice(), StateId(s))?;
    let class = number_or(known, key, s)?;
    classes[s] = class;
    Ok(())
}

// Gives the states whose heads name none their classes.
fn add_leaves(
    classes: &mut Vec<usize>,
    known: &mut BTreeMap<Key, usize>,
    alloc: Global,
    a: &Automaton,
) -> Result<(), Memory>
    requires deterministic { IsDeterministic a.now }
    requires size { length classes.old.items ≡ length a.now.states }
    ensures { OnOk result (AreKeyed a.now (IsLeafBelow a.now (length a.now.states)) classes.new.items known.new) }
{
    for s in 0..a.len() {
        if is_leaf(a, s) {
            classify(classes, known, alloc, a, s)?;
        }
    }
    Ok(())
}

// Gives the other states their classes, from the last one on.
fn add_others(
    classes: &mut Vec<usize>,
    known: &mut BTreeMap<Key, usize>,
    alloc: Global,
    a: &Automaton,
) -> Result<(), Memory>
    requires deterministic { IsDeterministic a.now }
    requires later { NamesLater a.now }
    requires keyed { AreKeyed a.now (IsLeafBelow a.now (length a.now.states)) classes.old.items known.old }
    ensures { OnOk result (AreKeyed a.now (IsLeafOrLast a.now (length a.now.states)) classes.new.items known.new) }
{
    let count = a.len();
    for k in 0..count {
        let s = count - 1 - k;
        if !is_leaf(a, s) {
            classify(classes, known, alloc, a, s)?;
        }
    }
    Ok(())
}

// The class of each state: first of those whose heads name none, and then of the others from the last one on.
fn from_last(alloc: Global, a: &Automaton) -> Result<Vec<usize>, Memory>
    requires closed { IsClosed a.now }
    requires deterministic { IsDeterministic a.now }
    requires later { NamesLater a.now }
    ensures { IfOk result (λ classes. KeepsAlike a.now classes.items) }
{
    let mut classes = zeros(alloc, a.len())?;
    let mut known = BTreeMap::new(alloc);
    add_leaves(&mut classes, &mut known, alloc, a)?;
    add_others(&mut classes, &mut known, alloc, a)?;
    Ok(classes)
}

/// Classes by which alike states are together. None come where a head names its own state or one before it, unless the
/// head of that one names none.
///
/// # Errors
///
/// `Memory` where memory is wanting.
pub(crate) fn upwards(alloc: Global, a: &Automaton) -> Result<Option<Vec<usize>>, Memory>
    requires closed { IsClosed a.now }
    requires deterministic { IsDeterministic a.now }
    ensures { IfOk result (λ found. IfSome found (λ classes. KeepsAlike a.now classes.items)) }
{
    if !name_later(a) {
        return Ok(None);
    }
    let classes = from_last(alloc, a)?;
    Ok(Some(classes))
}

/// The same classes of so many states, with numbers in the order in which the states meet them.
///
/// # Errors
///
/// `Memory` where memory is wanting.
pub(crate) fn in_order(alloc: Global, classes: &[usize], count: usize) -> Result<Vec<usize>, Memory>
    ensures { IfOk result (λ ordered. AreJoined count classes.now ordered.items) }
{
    let mut known = Singles::new(alloc);
    let mut ordered = Vec::with_capacity(alloc, count)?;
    let mut next = 0;
    for s in 0..count {
        let number = number_of_class(&mut known, class_of(classes, s), next)?;
        ordered.push(number)?;
        if number == next {
            next += 1;
        }
    }
    Ok(ordered)
}
