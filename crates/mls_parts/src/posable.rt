//! Whether the nodes of a part may be posed, and their constraint.
//!
//! What posing asks for is tested here: the binders that the nodes name are those of the part, the names have known types
//! that may be copied, and the labels of a record differ.
ghost use Rattle.std.specs.Prelude.{◌≢◌, ◌↔◌, ◌<◌, ℕ, List, length, All, IfOk, IfSome, IsTrue};
ghost use Rattle.std.specs.List.{AllPairs};
ghost use Rattle.std.specs.Ordering.{nat_cmp};
ghost use Rattle.mls_automaton.specs.declared.automaton.Polarity.{Polarity};
ghost use Rattle.mls_automaton.specs.declared.automaton.Polarity.TheVariants.{Negative};
ghost use Rattle.mls_automaton.specs.declared.automaton.FieldSet.{FieldSet};
ghost use Rattle.mls_automaton.specs.declared.scheme.EnvEntry.{EnvEntry};
ghost use Rattle.mls_automaton.specs.Automata.{IsState, head_at, polarity_at};
ghost use Rattle.mls_automaton.specs.Models.{HasArmsIn, HasFieldsIn, HasStatesIn};
ghost use Rattle.mls_automaton.specs.Schemes.{IsScheme};
ghost use Rattle.mls_infer.specs.Joining.{part_labels};
ghost use Rattle.mls_parts.specs.MetCopies.{AreSeparate};
ghost use Rattle.mls_parts.specs.PosedParts.{ArePosable, HasKnownType, IsKnownType, IsPartList, IsPartPosed, IsPosable};
ghost use Rattle.mls_parts.specs.Posings.{known_in};
ghost use Rattle.mls_layout.specs.steps.Posable.{AreApart, Has, HasJust, IsFree};

use crate::pose::{KnownTypes, Posing, copied_label, pose_part};
use mls_automaton::automaton::{Arms, Automaton, FieldSet, FieldSets, Head, Polarity};
use mls_automaton::scheme::{EnvEntry, Scheme};
use mls_automaton::state_set::{StateId, StateSet};
use mls_base::memory::Memory;
use mls_book::name::Name;
use mls_solver::goal::is_state;
use mls_term::term::{Part, TermForm, TermNode};
use std::alloc::Global;
use std::collections::{BTreeMap, BTreeSet};

/// The constraint of a part of a term: of these nodes, over these binders. The names have these known types.
///
/// # Errors
///
/// `Memory` where memory is wanting, or where the nodes may not be posed: a binder is none of these, a name has no known
/// type that may be copied, or two labels of a record are the same.
pub fn posed(
    alloc: Global,
    nodes: &[TermNode],
    part: &[usize],
    binders: &[usize],
    known: &KnownTypes,
) -> Result<Posing, Memory>
    requires list { IsPartList nodes.now part.now }
    ensures { IfOk result (IsPartPosed nodes.now known.now.globals known.now.lets binders.now part.now) }
{
    if !are_posable(alloc, nodes, part, binders, known)? {
        return Err(Memory);
    }
    pose_part(alloc, nodes, part, binders, known)
}

// Whether the number is in the set.
fn has(set: &BTreeSet<usize>, number: usize) -> bool
    ensures { IsTrue result ↔ Has set.now number }
{
    set.contains(&number)
}

// Whether each node of a part may be posed over these binders.
fn are_posable(
    alloc: Global,
    nodes: &[TermNode],
    part: &[usize],
    binders: &[usize],
    known: &KnownTypes,
) -> Result<bool, Memory>
    requires { All (λ i. i < length nodes.now) part.now }
    ensures { IfOk result (λ are. IsTrue are
        → ArePosable binders.now nodes.now part.now known.now.globals known.now.lets) }
{
    let around = set_of(alloc, binders)?;
    for node in part {
        if !is_posable(alloc, &around, &nodes[*node].form, known)? {
            return Ok(false);
        }
    }
    Ok(true)
}

// The set of these numbers.
fn set_of(alloc: Global, numbers: &[usize]) -> Result<BTreeSet<usize>, Memory>
    ensures { IfOk result (HasJust nat_cmp numbers.now) }
{
    let mut set = BTreeSet::new(alloc);
    for number in numbers {
        set.insert(*number)?;
    }
    Ok(set)
}

// Whether a node may be posed over these binders.
fn is_posable(
    alloc: Global,
    around: &BTreeSet<usize>,
    form: &TermForm,
    known: &KnownTypes,
) -> Result<bool, Memory>
    ensures { IfOk result (λ is. IsTrue is → (binders : List ℕ) → HasJust nat_cmp binders around.now
        → IsPosable binders known.now.globals known.now.lets form.now) }
{
    match form {
        TermForm::Bound(x) => Ok(has(around, *x)),
        TermForm::Inner(k) => has_known_type(alloc, around, &known.lets, *k),
        TermForm::Global(g) => has_known_type(alloc, around, &known.globals, *g),
        TermForm::Number(_) => Ok(true),
        TermForm::Truth(_) => Ok(true),
        TermForm::Fun(x, _) => Ok(has(around, *x)),
        TermForm::Apply(_, _) => Ok(true),
        TermForm::Make(parts) => have_distinct_labels(alloc, parts.as_slice()),
        TermForm::Project(_, _) => Ok(true),
        TermForm::If(_, _, _) => Ok(true),
        TermForm::Let(k, _, _) => has_known_type(alloc, around, &known.lets, *k),
        TermForm::Rec(x, _) => Ok(has(around, *x)),
    }
}

// Whether the labels of the parts of a record differ.
fn have_distinct_labels(alloc: Global, parts: &[Part]) -> Result<bool, Memory>
    ensures { IfOk result (λ are. IsTrue are → AllPairs (λ x y. x ≢ y) (part_labels parts.now)) }
{
    let mut labels: BTreeSet<Name> = BTreeSet::new(alloc);
    for part in parts {
        if labels.contains(&part.label) {
            return Ok(false);
        }
        labels.insert(copied_label(&part.label)?)?;
    }
    Ok(true)
}

// Whether a name has a known type that may be copied.
fn has_known_type(
    alloc: Global,
    around: &BTreeSet<usize>,
    types: &BTreeMap<usize, Scheme>,
    name: usize,
) -> Result<bool, Memory>
    ensures { IfOk result (λ has. IsTrue has → (binders : List ℕ) → HasJust nat_cmp binders around.now
        → HasKnownType binders (known_in types.now name)) }
{
    match types.get(&name) {
        None => Ok(false),
        Some(known) => is_known_type(alloc, around, known),
    }
}

// Whether a type may be copied over these binders.
fn is_known_type(alloc: Global, around: &BTreeSet<usize>, known: &Scheme) -> Result<bool, Memory>
    ensures { IfOk result (λ is. IsTrue is → (binders : List ℕ) → HasJust nat_cmp binders around.now
        → IsKnownType binders known.now) }
{
    if !is_scheme(known) {
        return Ok(false);
    }
    if !has_binders_in(around, known.env.as_slice()) {
        return Ok(false);
    }
    are_separate(alloc, known)
}

/// Whether this is a scheme: the automaton is closed, the root is positive and the states of binders are negative.
pub(crate) fn is_scheme(scheme: &Scheme) -> bool
    ensures { IsTrue result → IsScheme scheme.now }
{
    if !scheme.automaton.is_closed() {
        return false;
    }
    if !is_state(&scheme.automaton, scheme.root, Polarity::Positive) {
        return false;
    }
    are_negative(&scheme.automaton, scheme.env.as_slice())
}

// Whether the states of binders are negative.
fn are_negative(automaton: &Automaton, env: &[EnvEntry]) -> bool
    ensures { IsTrue result ↔ All (λ (entry : EnvEntry). IsState automaton.now Negative entry.state.0) env.now }
{
    env.iter().all(|entry| is_state(automaton, entry.state, Polarity::Negative))
}

// Whether the binders are among these.
fn has_binders_in(around: &BTreeSet<usize>, env: &[EnvEntry]) -> bool
    ensures { IsTrue result → All (λ (entry : EnvEntry). Has around.now entry.binder) env.now }
{
    for entry in env {
        if !has(around, entry.binder) {
            return false;
        }
    }
    true
}

// Whether no two binders have one state, and no head names the state of a binder.
fn are_separate(alloc: Global, known: &Scheme) -> Result<bool, Memory>
    ensures { IfOk result (λ are. IsTrue are → AreSeparate known.now) }
{
    match states_apart(alloc, known.env.as_slice())? {
        None => Ok(false),
        Some(states) => Ok(are_free(&known.automaton, &states)),
    }
}

// The states of binders. None comes where two binders have one state.
fn states_apart(alloc: Global, env: &[EnvEntry]) -> Result<Option<BTreeSet<usize>>, Memory>
    ensures { IfOk result (λ found. IfSome found (AreApart env.now)) }
{
    let mut states = BTreeSet::new(alloc);
    for entry in env {
        if has(&states, entry.state.0) {
            return Ok(None);
        }
        states.insert(entry.state.0)?;
    }
    Ok(Some(states))
}

// Whether no head of a state names one of these.
fn are_free(automaton: &Automaton, states: &BTreeSet<usize>) -> bool
    ensures { IsTrue result → (k : ℕ) → HasStatesIn (λ q. IsFree states.now) (polarity_at automaton.now k)
        (head_at automaton.now k) }
{
    for s in 0..automaton.len() {
        if !is_free_head(states, automaton.head(StateId(s))) {
            return false;
        }
    }
    true
}

fn is_free_head(states: &BTreeSet<usize>, head: &Head) -> bool
    ensures { IsTrue result → (p : Polarity) → HasStatesIn (λ q. IsFree states.now) p head.now }
{
    are_free_arms(states, &head.function) && are_free_fields(states, &head.fields)
}

fn are_free_arms(states: &BTreeSet<usize>, function: &Option<Arms>) -> bool
    ensures { IsTrue result → (p : Polarity) → HasArmsIn (λ q. IsFree states.now) p function.now }
{
    match function {
        None => true,
        Some(arms) => is_free_set(states, &arms.domain) && is_free_set(states, &arms.codomain),
    }
}

fn are_free_fields(states: &BTreeSet<usize>, fields: &Option<FieldSets>) -> bool
    ensures { IsTrue result → (p : Polarity) → HasFieldsIn (λ q. IsFree states.now) p fields.now }
{
    match fields {
        None => true,
        Some(fields) => are_free_sets(states, fields.as_slice()),
    }
}

fn are_free_sets(states: &BTreeSet<usize>, fields: &[FieldSet]) -> bool
    ensures { IsTrue result → All (λ (field : FieldSet). All (IsFree states.now) field.set) fields.now }
{
    for field in fields {
        if !is_free_set(states, &field.set) {
            return false;
        }
    }
    true
}

fn is_free_set(states: &BTreeSet<usize>, set: &StateSet) -> bool
    ensures { IsTrue result → All (IsFree states.now) set.now }
{
    for s in set.as_slice() {
        if has(states, *s) {
            return false;
        }
    }
    true
}
