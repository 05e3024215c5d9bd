//! The least closed relation of goals, found in time and space that grow with the pairs that are found.
ghost use Rattle.std.specs.Prelude.{◌≡◌, ℕ, ◌<◌, ◌≤◌, [], length, All, Contains, IfOk, OnOk, IfErr};
ghost use Rattle.mls_automaton.specs.declared.automaton.Polarity.TheVariants.{Positive, Negative};
ghost use Rattle.mls_automaton.specs.Automata.{IsState, head_at};
ghost use Rattle.mls_automaton.specs.Models.{IsClosed};
ghost use Rattle.mls_solver.specs.Clashes.{HasNoClash, IsFirstClash};
ghost use Rattle.mls_solver.specs.Relations.{IsGoal, IsGoalOf, IsRelated};
ghost use Rattle.mls_solver.specs.Rooms.{Holds, HoldsJust, HoldsStates};
ghost use Rattle.mls_solver.specs.steps.FirstClashes.{IsFirstOf, IsPairAt};
ghost use Rattle.mls_solver.specs.steps.Growth.{BySome, Relates};
ghost use Rattle.mls_solver.specs.steps.Chains.{ByDirect, ByEdgeFrom, ByEdgeTo};
ghost use Rattle.mls_solver.specs.steps.Consequences.{ByFunctions, ByField, ByRecords, ByHeads};

use crate::clash::{clash_of, earlier};
use crate::found::Found;
use crate::goal::{Clash, Goal};
use crate::pairs::Pairs;
use mls_automaton::automaton::{Arms, Automaton, FieldSet, FieldSets, Head};
use mls_automaton::state_set::StateId;
use mls_base::memory::Memory;
use std::alloc::Global;

/// The least closed relation of the goals: the pairs that `saturate` finds, in another order.
///
/// # Errors
///
/// `Memory` where memory is wanting.
pub fn search(alloc: Global, a: &Automaton, goals: &[Goal]) -> Result<Found, Memory>
    requires closed { IsClosed a.now }
    requires goals { All (IsGoalOf a.now) goals.now }
    ensures relation { IfOk result (λ found. HoldsJust found (IsRelated a.now (IsGoal goals.now))) }
    ensures states { IfOk result (HoldsStates a.now) }
{
    let mut direct = Pairs::new(alloc);
    add_goals(&mut direct, goals)?;
    let found = close(alloc, &mut direct, a)?;
    Ok(found)
}

/// The first clash of the pairs.
///
/// # Errors
///
/// The first clash, where there is one.
pub fn first_clash_of(found: &Found, a: &Automaton) -> Result<(), Clash>
    requires closed { IsClosed a.now }
    requires states { HoldsStates a.now found.now }
    ensures ok { OnOk result (HasNoClash a.now (Holds found.now)) }
    ensures clash { IfErr result (IsFirstClash a.now (Holds found.now)) }
{
    let mut first = None;
    for i in 0..found.len() {
        first = earlier(a, first, clash_at(found, a, i));
    }
    match first {
        None => Ok(()),
        Some(clash) => Err(clash),
    }
}

// The first clash of the pair at this place.
fn clash_at(found: &Found, a: &Automaton, i: usize) -> Option<Clash>
    requires closed { IsClosed a.now }
    requires in_range { i < length found.now.pairs }
    requires states { (p n : ℕ) → Holds found.now p n → (p < length a.now.states) × (n < length a.now.states) }
    ensures { IsFirstOf a.now (IsPairAt found.now i) result }
{
    let (positive, negative) = found.pair(i);
    match clash_of(a.head(positive), a.head(negative)) {
        None => None,
        Some(kind) => Some(Clash {
            positive,
            negative,
            kind,
        }),
    }
}

// Adds the goals.
fn add_goals(found: &mut Pairs, goals: &[Goal]) -> Result<(), Memory>
    ensures { OnOk result (Relates found.old found.new (IsGoal goals.now)) }
{
    for goal in goals {
        found.add(goal.positive.0, goal.negative.0)?;
    }
    Ok(())
}

// Finds all that follows from the direct pairs. Those that follow by heads are direct too. Found pairs and direct ones
// are taken once each, in the order in which they came. A found pair goes on along an edge by a direct one alone, so a
// chain of pairs is found from its first pair on.
fn close(alloc: Global, direct: &mut Pairs, a: &Automaton) -> Result<Found, Memory>
    requires closed { IsClosed a.now }
    requires states { HoldsStates a.now direct.old }
    ensures { IfOk result (λ found. HoldsJust found (IsRelated a.now (Holds direct.old))) }
{
    let mut found = Found::new(alloc);
    let mut next = 0;
    let mut next_direct = 0;
    for _ in 0..usize::MAX {
        if next_direct < direct.len() {
            let pair = direct.pair(next_direct);
            take_direct(alloc, &mut found, a, pair)?;
            next_direct += 1;
        } else if next < found.len() {
            let pair = found.pair(next);
            take_found(&mut found, direct, a, pair)?;
            next += 1;
        } else {
            return Ok(found);
        }
    }
    Err(Memory)
}

// Finds a direct pair, and what leads to it by a found pair and an edge.
fn take_direct(
    alloc: Global,
    found: &mut Found,
    a: &Automaton,
    pair: (StateId, StateId),
) -> Result<(), Memory>
    requires closed { IsClosed a.now }
    requires positive { IsState a.now Positive pair.0.0 }
    ensures { OnOk result (Relates found.old found.new (ByDirect a.now (Holds found.old) pair.0.0 pair.1.0)) }
{
    let (positive, negative) = pair;
    add_before(alloc, found, a, positive, negative)?;
    found.add(positive.0, negative.0)?;
    Ok(())
}

// Relates to the negative state of a direct pair what is related to a state with an edge to its positive state.
fn add_before(
    alloc: Global,
    found: &mut Found,
    a: &Automaton,
    positive: StateId,
    negative: StateId,
) -> Result<(), Memory>
    requires closed { IsClosed a.now }
    requires positive { IsState a.now Positive positive.0 }
    ensures { OnOk result (Relates found.old found.new (ByEdgeTo a.now (Holds found.old) positive.0 negative.0)) }
{
    for m in a.partners(positive).as_slice() {
        add_column(alloc, found, *m, negative.0)?;
    }
    Ok(())
}

// What follows from a found pair by its heads is direct, and a direct pair behind an edge from it leads to a found one.
fn take_found(
    found: &mut Found,
    direct: &mut Pairs,
    a: &Automaton,
    pair: (StateId, StateId),
) -> Result<(), Memory>
    requires closed { IsClosed a.now }
    requires positive { IsState a.now Positive pair.0.0 }
    requires negative { IsState a.now Negative pair.1.0 }
    ensures direct { OnOk result (Relates direct.old direct.new
        (ByHeads (head_at a.now pair.0.0) (head_at a.now pair.1.0))) }
    ensures found { OnOk result (Relates found.old found.new
        (ByEdgeFrom a.now (Holds direct.new) pair.0.0 pair.1.0)) }
{
    let (positive, negative) = pair;
    add_by_heads(direct, a.head(positive), a.head(negative))?;
    add_after(found, direct, a, positive, negative)?;
    Ok(())
}

// Relates the positive state of a found pair to what is direct of a state with an edge from its negative state.
fn add_after(
    found: &mut Found,
    direct: &Pairs,
    a: &Automaton,
    positive: StateId,
    negative: StateId,
) -> Result<(), Memory>
    requires closed { IsClosed a.now }
    requires negative { IsState a.now Negative negative.0 }
    ensures { OnOk result (Relates found.old found.new
        (ByEdgeFrom a.now (Holds direct.now) positive.0 negative.0)) }
{
    for q in a.partners(negative).as_slice() {
        relate_to_all(found, positive.0, direct.below(StateId(*q)))?;
    }
    Ok(())
}

// Relates all positive states that are related to one negative state to another.
fn add_column(alloc: Global, found: &mut Found, from: usize, to: usize) -> Result<(), Memory>
    ensures { OnOk result (Relates found.old found.new (λ p n. (n ≡ to) × Holds found.old p from)) }
{
    let positives = copied(alloc, found.above(StateId(from)))?;
    relate_all_to(found, positives.as_slice(), to)?;
    Ok(())
}

// Relates a positive state to each of the negative ones.
fn relate_to_all(found: &mut Found, positive: usize, negatives: &[usize]) -> Result<(), Memory>
    ensures { OnOk result (Relates found.old found.new (BySome negatives.now (λ m p n. (p ≡ positive) × (n ≡ m)))) }
{
    for n in negatives {
        found.add(positive, *n)?;
    }
    Ok(())
}

// Relates each of the positive states to a negative one.
fn relate_all_to(found: &mut Found, positives: &[usize], negative: usize) -> Result<(), Memory>
    ensures { OnOk result (Relates found.old found.new (BySome positives.now (λ m p n. (p ≡ m) × (n ≡ negative)))) }
{
    for p in positives {
        found.add(*p, negative)?;
    }
    Ok(())
}

fn copied(alloc: Global, numbers: &[usize]) -> Result<Vec<usize>, Memory>
    ensures { IfOk result (λ copy. copy.items ≡ numbers.now) }
{
    let mut copy = Vec::new(alloc);
    for number in numbers {
        copy.push(*number)?;
    }
    Ok(copy)
}

// Adds what follows by the heads of a positive and a negative state.
fn add_by_heads(found: &mut Pairs, upper: &Head, lower: &Head) -> Result<(), Memory>
    ensures { OnOk result (Relates found.old found.new (ByHeads upper.now lower.now)) }
{
    add_by_functions(found, &upper.function, &lower.function)?;
    add_by_records(found, &upper.fields, &lower.fields)?;
    Ok(())
}

fn add_by_functions(
    found: &mut Pairs,
    upper: &Option<Arms>,
    lower: &Option<Arms>,
) -> Result<(), Memory>
    ensures { OnOk result (Relates found.old found.new (ByFunctions upper.now lower.now)) }
{
    if let Some(arms) = upper {
        if let Some(others) = lower {
            add_sets(found, others.domain.as_slice(), arms.domain.as_slice())?;
            add_sets(found, arms.codomain.as_slice(), others.codomain.as_slice())?;
            return Ok(());
        }
    }
    Ok(())
}

fn add_by_records(
    found: &mut Pairs,
    upper: &Option<FieldSets>,
    lower: &Option<FieldSets>,
) -> Result<(), Memory>
    ensures { OnOk result (Relates found.old found.new (ByRecords upper.now lower.now)) }
{
    if let Some(fields) = upper {
        if let Some(others) = lower {
            add_fields(found, fields, others.as_slice())?;
            return Ok(());
        }
    }
    Ok(())
}

fn add_fields(found: &mut Pairs, fields: &FieldSets, others: &[FieldSet]) -> Result<(), Memory>
    ensures { OnOk result (Relates found.old found.new (BySome others.now (ByField fields.now))) }
{
    for other in others {
        add_field(found, fields, other)?;
    }
    Ok(())
}

fn add_field(found: &mut Pairs, fields: &FieldSets, other: &FieldSet) -> Result<(), Memory>
    ensures { OnOk result (Relates found.old found.new (ByField fields.now other.now)) }
{
    if let Some(set) = fields.get(&other.label) {
        add_sets(found, set.as_slice(), other.set.as_slice())?;
        return Ok(());
    }
    Ok(())
}

// Adds the pairs of each of the positive states and each of the negative ones.
fn add_sets(found: &mut Pairs, positives: &[usize], negatives: &[usize]) -> Result<(), Memory>
    ensures { OnOk result (Relates found.old found.new (λ p n. Contains positives.now p × Contains negatives.now n)) }
{
    for p in positives {
        add_set(found, *p, negatives)?;
    }
    Ok(())
}

// Adds the pairs of a positive state and each of the negative ones.
fn add_set(found: &mut Pairs, positive: usize, negatives: &[usize]) -> Result<(), Memory>
    ensures { OnOk result (Relates found.old found.new (BySome negatives.now (λ m p n. (p ≡ positive) × (n ≡ m)))) }
{
    for n in negatives {
        found.add(positive, *n)?;
    }
    Ok(())
}
