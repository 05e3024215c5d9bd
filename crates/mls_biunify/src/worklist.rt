//! The least closed relation of goals, over states that keep their numbers.
ghost use Rattle.std.specs.Prelude.{◌≡◌, ℕ, ◌<◌, ◌≤◌, [], true, false, length, get_or, All, Contains, IfOk, OnOk, Some};
ghost use Rattle.mls_automaton.specs.declared.automaton.Polarity.TheVariants.{Positive, Negative};
ghost use Rattle.mls_automaton.specs.Automata.{HasFlow, head_at};
ghost use Rattle.mls_solver.specs.declared.goal.Goal.{Goal};
ghost use Rattle.mls_solver.specs.Relations.{IsGoal, IsRelated};
ghost use Rattle.mls_solver.specs.Rooms.{Holds, HoldsJust};
ghost use Rattle.mls_solver.specs.steps.Growth.{BySome, Relates};
ghost use Rattle.mls_solver.specs.steps.Consequences.{ByFunctions, ByField, ByRecords, ByHeads, Follows};
ghost use Rattle.mls_solver.specs.steps.Consequences.{HasConsequences};
ghost use Rattle.mls_biunify.specs.Live.{IsStateIn};
ghost use Rattle.mls_biunify.specs.steps.Tables.{HoldsThere};

use crate::relation::Relation;
use crate::table::Table;
use mls_automaton::automaton::{Arms, FieldSet, FieldSets, Head};
use mls_automaton::state_set::{StateId, StateSet};
use mls_base::memory::Memory;
use mls_solver::goal::Goal;

// Makes the relation the least closed one of the goals. Each pair is taken once, at the cost of the members of the sets
// that its heads name in the same place, and of the pairs found so far at the other end of each edge at one of its
// states.
pub fn relate(room: &mut Relation, table: &Table, goals: &[Goal]) -> Result<(), Memory>
    requires goals { All (λ g. IsStateIn table.now.automaton table.now.there Positive g.positive.0
        × IsStateIn table.now.automaton table.now.there Negative g.negative.0) goals.now }
    ensures relation { OnOk result (HoldsJust room.new (IsRelated table.now.automaton (IsGoal goals.now))) }
    ensures fits { OnOk result (table.now.limit ≤ room.new.positives) }
{
    room.clear();
    room.grow(table.limit())?;
    add_goals(room, goals)?;
    close(room, table)?;
    Ok(())
}

// Adds the goals.
fn add_goals(room: &mut Relation, goals: &[Goal]) -> Result<(), Memory>
    requires rows { All (λ g. g.positive.0 < room.old.positives) goals.now }
    requires columns { All (λ g. g.negative.0 < room.old.negatives) goals.now }
    ensures { OnOk result (Relates room.old room.new (IsGoal goals.now)) }
{
    for goal in goals {
        room.add(goal.positive.0, goal.negative.0)?;
    }
    Ok(())
}

// Adds what follows from the pairs that the room holds, until nothing more follows. Each pair is taken once, in the
// order in which it was found.
fn close(room: &mut Relation, table: &Table) -> Result<(), Memory>
    requires rows { table.now.limit ≤ room.old.positives }
    requires columns { table.now.limit ≤ room.old.negatives }
    requires states { HoldsThere table.now room.old }
    ensures relation { OnOk result (HoldsJust room.new (IsRelated table.now.automaton (Holds room.old))) }
    ensures positives { OnOk result (room.new.positives ≡ room.old.positives) }
{
    let _limit = table.limit();
    let mut next = 0;
    while next < room.len() {
        let (positive, negative) = room.pair(next);
        add_consequences(room, table, positive, negative)?;
        next += 1;
    }
    Ok(())
}

// Adds what follows from one pair and the pairs that share a state with it along an edge.
fn add_consequences(
    room: &mut Relation,
    table: &Table,
    positive: StateId,
    negative: StateId,
) -> Result<(), Memory>
    requires rows { table.now.limit ≤ room.old.positives }
    requires columns { table.now.limit ≤ room.old.negatives }
    requires held { Holds room.old positive.0 negative.0 }
    requires positive { IsStateIn table.now.automaton table.now.there Positive positive.0 }
    requires negative { IsStateIn table.now.automaton table.now.there Negative negative.0 }
    ensures follows { OnOk result (Follows table.now.automaton room.old room.new) }
    ensures has { OnOk result (HasConsequences table.now.automaton positive.0 negative.0 room.old room.new) }
{
    add_by_heads(room, table.head(positive), table.head(negative))?;
    add_after(room, table, positive, negative)?;
    add_before(room, table, positive, negative)?;
    Ok(())
}

// Adds what follows from the pair along the edges from its negative state.
fn add_after(
    room: &mut Relation,
    table: &Table,
    positive: StateId,
    negative: StateId,
) -> Result<(), Memory>
    requires rows { table.now.limit ≤ room.old.positives }
    requires columns { table.now.limit ≤ room.old.negatives }
    requires held { Holds room.old positive.0 negative.0 }
    requires positive { IsStateIn table.now.automaton table.now.there Positive positive.0 }
    requires negative { IsStateIn table.now.automaton table.now.there Negative negative.0 }
    ensures follows { OnOk result (Follows table.now.automaton room.old room.new) }
    ensures has { OnOk result ((q m : ℕ) → HasFlow table.now.automaton negative.0 q → Holds room.old q m
        → Holds room.new positive.0 m) }
{
    for q in table.after(negative).as_slice() {
        copy_row(room, *q, positive.0)?;
    }
    Ok(())
}

// Adds what follows from the pair along the edges to its positive state.
fn add_before(
    room: &mut Relation,
    table: &Table,
    positive: StateId,
    negative: StateId,
) -> Result<(), Memory>
    requires rows { table.now.limit ≤ room.old.positives }
    requires columns { table.now.limit ≤ room.old.negatives }
    requires held { Holds room.old positive.0 negative.0 }
    requires positive { IsStateIn table.now.automaton table.now.there Positive positive.0 }
    requires negative { IsStateIn table.now.automaton table.now.there Negative negative.0 }
    ensures follows { OnOk result (Follows table.now.automaton room.old room.new) }
    ensures has { OnOk result ((q m : ℕ) → Holds room.old q m → HasFlow table.now.automaton m positive.0
        → Holds room.new q negative.0) }
{
    for m in table.before(positive).as_slice() {
        copy_column(room, *m, negative.0)?;
    }
    Ok(())
}

// Relates one positive state to all to which another is related.
fn copy_row(room: &mut Relation, from: usize, to: usize) -> Result<(), Memory>
    requires from { from < room.old.positives }
    requires to { to < room.old.positives }
    ensures { OnOk result (Relates room.old room.new (λ p n. (p ≡ to) × Holds room.old from n)) }
{
    let row = copied(room.below(StateId(from)))?;
    add_set(room, to, row.as_slice())?;
    Ok(())
}

// Relates all positive states that are related to one negative state to another.
fn copy_column(room: &mut Relation, from: usize, to: usize) -> Result<(), Memory>
    requires from { from < room.old.negatives }
    requires to { to < room.old.negatives }
    ensures { OnOk result (Relates room.old room.new (λ p n. (n ≡ to) × Holds room.old p from)) }
{
    let column = copied(room.above(StateId(from)))?;
    add_sets(room, column.as_slice(), &[to])?;
    Ok(())
}

fn copied(set: &StateSet) -> Result<StateSet, Memory>
    ensures { IfOk result (λ copy. copy ≡ set.now) }
{
    let copy = set.clone()?;
    Ok(copy)
}

// Adds what follows by the heads of a positive and a negative state.
fn add_by_heads(room: &mut Relation, upper: &Head, lower: &Head) -> Result<(), Memory>
    requires { (p n : ℕ) → ByHeads upper.now lower.now p n → (p < room.old.positives) × (n < room.old.negatives) }
    ensures { OnOk result (Relates room.old room.new (ByHeads upper.now lower.now)) }
{
    add_by_functions(room, &upper.function, &lower.function)?;
    add_by_records(room, &upper.fields, &lower.fields)?;
    Ok(())
}

fn add_by_functions(
    room: &mut Relation,
    upper: &Option<Arms>,
    lower: &Option<Arms>,
) -> Result<(), Memory>
    requires { (p n : ℕ) → ByFunctions upper.now lower.now p n → (p < room.old.positives) × (n < room.old.negatives) }
    ensures { OnOk result (Relates room.old room.new (ByFunctions upper.now lower.now)) }
{
    match upper {
        None => Ok(()),
        Some(arms) => match lower {
            None => Ok(()),
            Some(others) => add_by_arms(room, arms, others),
        },
    }
}

fn add_by_arms(room: &mut Relation, arms: &Arms, others: &Arms) -> Result<(), Memory>
    requires { (p n : ℕ) → ByFunctions (Some arms.now) (Some others.now) p n
        → (p < room.old.positives) × (n < room.old.negatives) }
    ensures { OnOk result (Relates room.old room.new (ByFunctions (Some arms.now) (Some others.now))) }
{
    add_sets(room, others.domain.as_slice(), arms.domain.as_slice())?;
    add_sets(room, arms.codomain.as_slice(), others.codomain.as_slice())?;
    Ok(())
}

fn add_by_records(
    room: &mut Relation,
    upper: &Option<FieldSets>,
    lower: &Option<FieldSets>,
) -> Result<(), Memory>
    requires { (p n : ℕ) → ByRecords upper.now lower.now p n → (p < room.old.positives) × (n < room.old.negatives) }
    ensures { OnOk result (Relates room.old room.new (ByRecords upper.now lower.now)) }
{
    match upper {
        None => Ok(()),
        Some(fields) => match lower {
            None => Ok(()),
            Some(others) => add_fields(room, fields, others.as_slice()),
        },
    }
}

fn add_fields(room: &mut Relation, fields: &FieldSets, others: &[FieldSet]) -> Result<(), Memory>
    requires { (p n : ℕ) → BySome others.now (ByField fields.now) p n
        → (p < room.old.positives) × (n < room.old.negatives) }
    ensures { OnOk result (Relates room.old room.new (BySome others.now (ByField fields.now))) }
{
    for other in others {
        add_field(room, fields, other)?;
    }
    Ok(())
}

fn add_field(room: &mut Relation, fields: &FieldSets, other: &FieldSet) -> Result<(), Memory>
    requires { (p n : ℕ) → ByField fields.now other.now p n → (p < room.old.positives) × (n < room.old.negatives) }
    ensures { OnOk result (Relates room.old room.new (ByField fields.now other.now)) }
{
    match fields.get(&other.label) {
        None => Ok(()),
        Some(set) => add_sets(room, set.as_slice(), other.set.as_slice()),
    }
}

// Relates each of the positive states to each of the negative ones.
fn add_sets(room: &mut Relation, positives: &[usize], negatives: &[usize]) -> Result<(), Memory>
    requires { (p n : ℕ) → Contains positives.now p → Contains negatives.now n
        → (p < room.old.positives) × (n < room.old.negatives) }
    ensures { OnOk result (Relates room.old room.new (λ p n. Contains positives.now p × Contains negatives.now n)) }
{
    for p in positives {
        add_set(room, *p, negatives)?;
    }
    Ok(())
}

// Relates a positive state to each of the negative ones.
fn add_set(room: &mut Relation, positive: usize, negatives: &[usize]) -> Result<(), Memory>
    requires { (n : ℕ) → Contains negatives.now n → (positive < room.old.positives) × (n < room.old.negatives) }
    ensures { OnOk result (Relates room.old room.new (BySome negatives.now (λ m p n. (p ≡ positive) × (n ≡ m)))) }
{
    for n in negatives {
        room.add(positive, *n)?;
    }
    Ok(())
}
