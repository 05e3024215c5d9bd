//! The least closed relation of goals.
ghost use Rattle.std.specs.Prelude.{◌≡◌, ℕ, ◌<◌, [], length, All, Contains, OnOk, IfErr};
ghost use Rattle.mls_automaton.specs.declared.automaton.Polarity.TheVariants.{Positive, Negative};
ghost use Rattle.mls_automaton.specs.Automata.{HasFlow, IsState, head_at};
ghost use Rattle.mls_automaton.specs.Heads.{AreRising};
ghost use Rattle.mls_automaton.specs.Models.{HasRisingLabels, IsClosed};
ghost use Rattle.mls_solver.specs.Clashes.{HasNoClash, IsFirstClash};
ghost use Rattle.mls_solver.specs.Relations.{IsGoal, IsGoalOf, IsRelated};
ghost use Rattle.mls_solver.specs.Rooms.{Fits, Holds, HoldsJust, HoldsStates};
ghost use Rattle.mls_solver.specs.steps.Growth.{BySome, Relates};
ghost use Rattle.mls_solver.specs.steps.Consequences.{ByFunctions, ByField, ByRecords, ByHeads, IsRoomOf, Follows};
ghost use Rattle.mls_solver.specs.steps.Consequences.{HasConsequences};

use crate::clash::first_clash;
use crate::goal::{Clash, Goal};
use crate::room::Room;
use mls_automaton::automaton::{Arms, Automaton, FieldSet, FieldSets, Head, Polarity};
use mls_automaton::state_set::StateId;

/// Makes the room hold exactly the least closed relation of the goals, and tells whether a pair of it clashes. It takes
/// no memory. Each pair is taken once, at the cost of the members of the sets that its heads name in the same place,
/// and of the pairs found so far at the other end of each edge at one of its states.
///
/// # Errors
///
/// The first clash, where related states clash. The room holds the relation all the same.
pub fn saturate(room: &mut Room, a: &Automaton, goals: &[Goal]) -> Result<(), Clash>
    requires closed { IsClosed a.now }
    requires fits { Fits a.now room.old }
    requires goals { All (IsGoalOf a.now) goals.now }
    ensures positives { room.new.positives ≡ room.old.positives }
    ensures negatives { room.new.negatives ≡ room.old.negatives }
    ensures relation { HoldsJust room.new (IsRelated a.now (IsGoal goals.now)) }
    ensures states { HoldsStates a.now room.new }
    ensures ok { OnOk result (HasNoClash a.now (IsRelated a.now (IsGoal goals.now))) }
    ensures clash { IfErr result (IsFirstClash a.now (IsRelated a.now (IsGoal goals.now))) }
{
    relate(room, a, goals);
    first_clash(room, a)
}

// Makes the room hold the least closed relation of the goals.
fn relate(room: &mut Room, a: &Automaton, goals: &[Goal])
    requires closed { IsClosed a.now }
    requires fits { Fits a.now room.old }
    requires goals { All (IsGoalOf a.now) goals.now }
    ensures positives { room.new.positives ≡ room.old.positives }
    ensures negatives { room.new.negatives ≡ room.old.negatives }
    ensures relation { HoldsJust room.new (IsRelated a.now (IsGoal goals.now)) }
{
    number(room, a);
    add_goals(room, goals);
    close(room, a);
}

// Gives each state its row or column.
fn number(room: &mut Room, a: &Automaton)
    requires { Fits a.now room.old }
    ensures positives { room.new.positives ≡ room.old.positives }
    ensures negatives { room.new.negatives ≡ room.old.negatives }
    ensures states { IsRoomOf a.now room.new }
    ensures pairs { room.new.pairs ≡ [] }
{
    room.clear();
    for s in 0..a.len() {
        match a.polarity(StateId(s)) {
            Polarity::Positive => room.add_row(s),
            Polarity::Negative => room.add_column(s),
        }
    }
}

// Adds the goals.
fn add_goals(room: &mut Room, goals: &[Goal])
    requires rows { All (λ g. Contains room.old.rows g.positive.0) goals.now }
    requires columns { All (λ g. Contains room.old.columns g.negative.0) goals.now }
    ensures { Relates room.old room.new (IsGoal goals.now) }
{
    for goal in goals {
        room.add(goal.positive.0, goal.negative.0);
    }
}

// Adds all that follows from the pairs of the room. Each pair is taken once, in the order in which it was found.
fn close(room: &mut Room, a: &Automaton)
    requires closed { IsClosed a.now }
    requires states { IsRoomOf a.now room.old }
    ensures positives { room.new.positives ≡ room.old.positives }
    ensures negatives { room.new.negatives ≡ room.old.negatives }
    ensures relation { HoldsJust room.new (IsRelated a.now (Holds room.old)) }
{
    let mut next = 0;
    while next < room.len() {
        let (positive, negative) = room.pair(next);
        add_consequences(room, a, positive, negative);
        next += 1;
    }
}

// Adds what follows from one pair and the pairs that share a state with it along an edge.
fn add_consequences(room: &mut Room, a: &Automaton, positive: StateId, negative: StateId)
    requires closed { IsClosed a.now }
    requires states { IsRoomOf a.now room.old }
    requires held { Holds room.old positive.0 negative.0 }
    requires positive { IsState a.now Positive positive.0 }
    requires negative { IsState a.now Negative negative.0 }
    ensures follows { Follows a.now room.old room.new }
    ensures has { HasConsequences a.now positive.0 negative.0 room.old room.new }
{
    add_by_heads(room, a.head(positive), a.head(negative));
    add_after(room, a, positive, negative);
    add_before(room, a, positive, negative);
}

// Adds what follows from the pair along the edges from its negative state.
fn add_after(room: &mut Room, a: &Automaton, positive: StateId, negative: StateId)
    requires closed { IsClosed a.now }
    requires states { IsRoomOf a.now room.old }
    requires held { Holds room.old positive.0 negative.0 }
    requires positive { IsState a.now Positive positive.0 }
    requires negative { IsState a.now Negative negative.0 }
    ensures follows { Follows a.now room.old room.new }
    ensures has { (q m : ℕ) → HasFlow a.now negative.0 q → Holds room.old q m → Holds room.new positive.0 m }
{
    for q in a.partners(negative).as_slice() {
        room.copy_row(*q, positive.0);
    }
}

// Adds what follows from the pair along the edges to its positive state.
fn add_before(room: &mut Room, a: &Automaton, positive: StateId, negative: StateId)
    requires closed { IsClosed a.now }
    requires states { IsRoomOf a.now room.old }
    requires held { Holds room.old positive.0 negative.0 }
    requires positive { IsState a.now Positive positive.0 }
    requires negative { IsState a.now Negative negative.0 }
    ensures follows { Follows a.now room.old room.new }
    ensures has { (q m : ℕ) → Holds room.old q m → HasFlow a.now m positive.0 → Holds room.new q negative.0 }
{
    for m in a.partners(positive).as_slice() {
        room.copy_column(*m, negative.0);
    }
}

// Adds what follows by the heads of a positive and a negative state.
fn add_by_heads(room: &mut Room, upper: &Head, lower: &Head)
    requires { (p n : ℕ) → ByHeads upper.now lower.now p n → Contains room.old.rows p × Contains room.old.columns n }
    ensures { Relates room.old room.new (ByHeads upper.now lower.now) }
{
    add_by_functions(room, &upper.function, &lower.function);
    add_by_records(room, &upper.fields, &lower.fields);
}

fn add_by_functions(room: &mut Room, upper: &Option<Arms>, lower: &Option<Arms>)
    requires { (p n : ℕ) → ByFunctions upper.now lower.now p n
        → Contains room.old.rows p × Contains room.old.columns n }
    ensures { Relates room.old room.new (ByFunctions upper.now lower.now) }
{
    if let Some(arms) = upper {
        if let Some(others) = lower {
            add_sets(room, others.domain.as_slice(), arms.domain.as_slice());
            add_sets(room, arms.codomain.as_slice(), others.codomain.as_slice());
        }
    }
}

fn add_by_records(room: &mut Room, upper: &Option<FieldSets>, lower: &Option<FieldSets>)
    requires { (p n : ℕ) → ByRecords upper.now lower.now p n → Contains room.old.rows p × Contains room.old.columns n }
    ensures { Relates room.old room.new (ByRecords upper.now lower.now) }
{
    if let Some(fields) = upper {
        if let Some(others) = lower {
            add_fields(room, fields, others.as_slice());
        }
    }
}

fn add_fields(room: &mut Room, fields: &FieldSets, others: &[FieldSet])
    requires { (p n : ℕ) → BySome others.now (ByField fields.now) p n
        → Contains room.old.rows p × Contains room.old.columns n }
    ensures { Relates room.old room.new (BySome others.now (ByField fields.now)) }
{
    for other in others {
        add_field(room, fields, other);
    }
}

fn add_field(room: &mut Room, fields: &FieldSets, other: &FieldSet)
    requires { (p n : ℕ) → ByField fields.now other.now p n → Contains room.old.rows p × Contains room.old.columns n }
    ensures { Relates room.old room.new (ByField fields.now other.now) }
{
    if let Some(set) = fields.get(&other.label) {
        add_sets(room, set.as_slice(), other.set.as_slice());
    }
}

// Relates each of the positive states to each of the negative ones.
fn add_sets(room: &mut Room, positives: &[usize], negatives: &[usize])
    requires { (p n : ℕ) → Contains positives.now p → Contains negatives.now n
        → Contains room.old.rows p × Contains room.old.columns n }
    ensures { Relates room.old room.new (λ p n. Contains positives.now p × Contains negatives.now n) }
{
    for p in positives {
        add_set(room, *p, negatives);
    }
}

// Relates a positive state to each of the negative ones.
fn add_set(room: &mut Room, positive: usize, negatives: &[usize])
    requires { (n : ℕ) → Contains negatives.now n → Contains room.old.rows positive × Contains room.old.columns n }
    ensures { Relates room.old room.new (BySome negatives.now (λ m p n. (p ≡ positive) × (n ≡ m))) }
{
    for n in negatives {
        room.add(positive, *n);
    }
}
