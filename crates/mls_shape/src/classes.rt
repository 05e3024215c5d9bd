//! Classes of alike states, by rounds: two states stay together where they look alike by the classes so far.
ghost use Rattle.std.specs.Prelude.{◌≡◌, ◌<◌, ◌++◌, ◌∷◌, [], length, IfOk, IsTrue, OnOk};
ghost use Rattle.std.specs.List.{flat_map};
ghost use Rattle.mls_automaton.specs.Models.{IsClosed, IsDeterministic};
ghost use Rattle.mls_shape.specs.steps.Classes.{AreApart, AreClasses, AreClassesBy, IsKeyOf, KeepsAlike, LookAlike};
ghost use Rattle.mls_shape.specs.steps.Classes.{bit_code, class_in, field_code, function_code, head_code};
ghost use Rattle.mls_shape.specs.steps.Classes.{one_of, record_code};
ghost use Rattle.mls_shape.specs.steps.Upwards.{AreCounted};

use crate::graph::{colours_of, edges_of, parents_of};
use crate::key::{Key, sign};
use crate::numbering::Numbering;
use crate::partition::Partition;
use crate::upwards::{in_order, upwards};
use mls_automaton::automaton::{Arms, Automaton, FieldSet, FieldSets, Head};
use mls_automaton::state_set::{StateId, StateSet};
use mls_base::memory::Memory;
use mls_book::name::Name;
use std::alloc::Global;

/// The number of the class of each state, and a state of each class.
#[derive(Drop)]
pub struct Classes {
    pub numbers: Vec<usize>,
    pub chosen: Vec<usize>,
}

/// Up to so many states, rounds alone are quicker than a refinement before them.
const SMALL: usize = 16;

/// The classes of alike states. Where heads name alone later states, and states whose heads name none, one look at each
/// state from the last one on tells them. Otherwise rounds do, which begin with the blocks of a refinement where there
/// are many states, so that there are few of them. Each takes time linear in heads and edges, with the binary digits of
/// the number of states.
///
/// # Errors
///
/// `Memory` where memory is wanting.
pub fn classes_of(alloc: Global, a: &Automaton) -> Result<Classes, Memory>
    requires closed { IsClosed a.now }
    requires deterministic { IsDeterministic a.now }
    ensures { IfOk result (AreClasses a.now) }
{
    let first = first_classes(alloc, a)?;
    if first.len() == a.len() && are_apart(first.as_slice()) {
        let chosen = counted(alloc, a.len())?;
        return Ok(Classes {
            numbers: first,
            chosen,
        });
    }
    by_rounds(alloc, a, first)
}

// Classes to begin with, in the order of their states. Alike states are together.
fn first_classes(alloc: Global, a: &Automaton) -> Result<Vec<usize>, Memory>
    requires closed { IsClosed a.now }
    requires deterministic { IsDeterministic a.now }
    ensures { IfOk result (λ classes. KeepsAlike a.now classes.items) }
{
    if let Some(found) = upwards(alloc, a)? {
        let first = in_order(alloc, found.as_slice(), a.len())?;
        return Ok(first);
    }
    if a.len() <= SMALL {
        return Ok(Vec::new(alloc));
    }
    let found = parted(alloc, a)?;
    let first = in_order(alloc, found.as_slice(), a.len())?;
    Ok(first)
}

// The numbers from 0 on, so many.
fn counted(alloc: Global, count: usize) -> Result<Vec<usize>, Memory>
    ensures { IfOk result (λ numbers. AreCounted count numbers.items) }
{
    let mut numbers = Vec::with_capacity(alloc, count)?;
    for number in 0..count {
        numbers.push(number)?;
    }
    Ok(numbers)
}

// The classes of alike states, by rounds behind these classes. They end where each state has a class of its own, or no
// class was split.
fn by_rounds(alloc: Global, a: &Automaton, first: Vec<usize>) -> Result<Classes, Memory>
    requires closed { IsClosed a.now }
    requires deterministic { IsDeterministic a.now }
    requires first { KeepsAlike a.now first.items }
    ensures { IfOk result (AreClasses a.now) }
{
    let mut classes = first;
    for _ in 0..usize::MAX {
        let finer = refined(alloc, a, classes.as_slice())?;
        if are_apart(finer.numbers.as_slice()) {
            return Ok(finer);
        }
        if finer.numbers.as_slice() == classes.as_slice() {
            return Ok(finer);
        }
        classes = finer.numbers;
    }
    // No memory holds states of so many classes.
    Err(Memory)
}

// Whether each state has a class of its own, in order.
fn are_apart(classes: &[usize]) -> bool
    ensures { IsTrue result → AreApart classes.now }
{
    for s in 0..classes.len() {
        if classes[s] != s {
            return false;
        }
    }
    true
}

// Classes by a refinement that splits off the smaller part of each block. Alike states are together.
fn parted(alloc: Global, a: &Automaton) -> Result<Vec<usize>, Memory>
    requires closed { IsClosed a.now }
    requires deterministic { IsDeterministic a.now }
    ensures { IfOk result (λ classes. KeepsAlike a.now classes.items) }
{
    let none = Vec::new(alloc);
    let first = refined(alloc, a, none.as_slice())?;
    let edges = edges_of(alloc, a)?;
    let parents = parents_of(alloc, a.len(), edges.as_slice())?;
    let count = first.chosen.len();
    let colours = colours_of(alloc, first.numbers.as_slice(), count, edges.as_slice())?;
    let mut partition = Partition::new(alloc, colours)?;
    partition.refine(alloc, parents.as_slice())?;
    Ok(partition.blocks)
}

// The classes of states that look alike by the classes so far.
fn refined(alloc: Global, a: &Automaton, classes: &[usize]) -> Result<Classes, Memory>
    requires closed { IsClosed a.now }
    requires deterministic { IsDeterministic a.now }
    ensures { IfOk result (AreClassesBy a.now (LookAlike a.now classes.now)) }
{
    let mut numbering = Numbering::new(alloc);
    for s in 0..a.len() {
        let key = key_of(alloc, a, classes, StateId(s))?;
        numbering.add(key)?;
    }
    Ok(numbering.classes)
}

/// The key of a state.
///
/// # Errors
///
/// `Memory` where memory is wanting.
pub(crate) fn key_of(
    alloc: Global,
    a: &Automaton,
    classes: &[usize],
    s: StateId,
) -> Result<Key, Memory>
    requires { s.0 < length a.now.states }
    ensures { IfOk result (IsKeyOf a.now (class_in classes.now) s.0) }
{
    let partners = a.partners(s);
    // The key of a function with one edge has so many numbers.
    let mut numbers = Vec::with_capacity(alloc, 8)?;
    numbers.push(sign(a.polarity(s)))?;
    numbers.push(partners.len())?;
    numbers.extend_from_slice(partners.as_slice())?;
    add_head(&mut numbers, classes, a.head(s))?;
    Ok(Key::from_numbers(numbers))
}

fn add_head(key: &mut Vec<usize>, classes: &[usize], head: &Head) -> Result<(), Memory>
    ensures { OnOk result (key.new.items ≡ key.old.items ++ head_code (class_in classes.now) head.now) }
{
    key.push(bit(head.boolean))?;
    key.push(bit(head.integer))?;
    add_function(key, classes, &head.function)?;
    add_record(key, classes, &head.fields)
}

fn bit(is: bool) -> usize
    ensures { result ≡ bit_code is }
{
    if is { 1 } else { 0 }
}

fn add_function(
    key: &mut Vec<usize>,
    classes: &[usize],
    function: &Option<Arms>,
) -> Result<(), Memory>
    ensures { OnOk result (key.new.items ≡ key.old.items ++ function_code (class_in classes.now) function.now) }
{
    match function {
        None => {
            key.push(0)?;
            Ok(())
        }
        Some(arms) => {
            key.push(1)?;
            key.push(class_of_set(classes, &arms.domain))?;
            key.push(class_of_set(classes, &arms.codomain))?;
            Ok(())
        }
    }
}

fn add_record(
    key: &mut Vec<usize>,
    classes: &[usize],
    fields: &Option<FieldSets>,
) -> Result<(), Memory>
    ensures { OnOk result (key.new.items ≡ key.old.items ++ record_code (class_in classes.now) fields.now) }
{
    match fields {
        None => {
            key.push(0)?;
            Ok(())
        }
        Some(fields) => {
            key.push(1)?;
            add_fields(key, classes, fields.as_slice())
        }
    }
}

fn add_fields(key: &mut Vec<usize>, classes: &[usize], fields: &[FieldSet]) -> Result<(), Memory>
    ensures { OnOk result (key.new.items ≡ key.old.items ++ flat_map (field_code (class_in classes.now)) fields.now) }
{
    for field in fields {
        add_field(key, classes, field)?;
    }
    Ok(())
}

fn add_field(key: &mut Vec<usize>, classes: &[usize], field: &FieldSet) -> Result<(), Memory>
    ensures { OnOk result (key.new.items ≡ key.old.items ++ field_code (class_in classes.now) field.now) }
{
    add_label(key, &field.label)?;
    key.push(class_of_set(classes, &field.set))?;
    Ok(())
}

// The length of a label, and its bytes.
fn add_label(key: &mut Vec<usize>, label: &Name) -> Result<(), Memory>
    ensures { OnOk result (key.new.items ≡ key.old.items ++ length label.now ∷ label.now) }
{
    let bytes = label.bytes();
    key.push(bytes.len())?;
    for byte in bytes {
        key.push(*byte as usize)?;
    }
    Ok(())
}

/// The class of a state.
pub fn class_of(classes: &[usize], s: usize) -> usize
    ensures { result ≡ class_in classes.now s }
{
    match classes.get(s) {
        Some(class) => *class,
        None => 0,
    }
}

/// The class of the member of a set of one member.
pub fn class_of_set(classes: &[usize], set: &StateSet) -> usize
    ensures { result ≡ class_in classes.now (one_of set.now) }
{
    class_of(classes, member_of(set))
}

/// The member of a set of one member.
pub fn member_of(set: &StateSet) -> usize
    ensures { result ≡ one_of set.now }
{
    match set.as_slice().get(0) {
        Some(s) => *s,
        None => 0,
    }
}
